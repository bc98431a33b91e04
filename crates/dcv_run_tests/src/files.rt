// Runs over files that are opened again after a failure, and the names by which a run asks for files.
use dcv_cli::{Words, run};
use dcv_io::{Files, MemFiles, MemSink, NotingFiles};
use std::alloc::{AllocError, Global};
use std::test::Fail;

// Runs the words over the files. Answers the status, and the report followed by the message.
pub(crate) fn ran<F: Files>(
    alloc: Global,
    words: &[&str],
    files: &mut F,
) -> Result<(u8, Vec<u8>), AllocError> {
    let mut given = Words::new(alloc);
    for word in words {
        given.push(word)?;
    }
    let mut out = MemSink::new(alloc, 1_000, &[], &[])?;
    let mut err = MemSink::new(alloc, 1_000, &[], &[])?;
    let status = run(alloc, &given, files, &mut out, &mut err).code();
    let mut written = out.written().to_vec(alloc)?;
    written.extend_from_slice(err.written())?;
    Ok((status, written))
}

type Answer = (u8, &'static [u8]);

const OPEN: Answer = (5, b"fault open\n");

const READ: Answer = (5, b"fault read\n");

const ANSWER: Answer = (
    1,
    b"not valid\nsatisfiable\ncounterexample 1\n0\nexample 1\n1\n",
);

// The call of the files that fails, and what each of three runs over them answers. A run opens its file, and reads its bytes and its end: three
// calls, and none after one that failed.
const RUNS: [(u64, [Answer; 3]); 9] = [
    (1, [OPEN, ANSWER, ANSWER]),
    (2, [READ, ANSWER, ANSWER]),
    (3, [READ, ANSWER, ANSWER]),
    (4, [ANSWER, OPEN, ANSWER]),
    (5, [ANSWER, READ, ANSWER]),
    (6, [ANSWER, READ, ANSWER]),
    (7, [ANSWER, ANSWER, OPEN]),
    (8, [ANSWER, ANSWER, READ]),
    (10, [ANSWER, ANSWER, ANSWER]),
];

// How many of three runs over files of which this call fails give the expected answer.
fn right_in_turn(alloc: Global, call: u64, wanted: &[Answer; 3]) -> Result<u32, AllocError> {
    let mut files = MemFiles::new(alloc, &[], &[call])?;
    files.hold("f", b"var p; infer [[p]];")?;
    let mut right: u32 = 0;
    for (status, written) in wanted {
        let (found, bytes) = ran(alloc, &["check", "f"], &mut files)?;
        right = right.saturating_add(u32::from(found == *status && bytes.as_slice() == *written));
    }
    Ok(right)
}

// A failure in one run does not affect the next.
#[test]
fn files_are_opened_again(rt: HostRuntime) -> Result<(), Fail> {
    for (call, wanted) in &RUNS {
        assert_eq!(rt; right_in_turn(rt.alloc(), *call, wanted)?, 3, "{call}");
    }
    Ok(())
}

// The names of the files for which a run of the words asks, each followed by a space.
fn asked(alloc: Global, words: &[&str]) -> Result<String, AllocError> {
    let mut files = NotingFiles::new(alloc, MemFiles::new(alloc, &[], &[])?);
    let _ = ran(alloc, words, &mut files)?;
    let mut asked = String::new(alloc);
    for name in files.asked().unwrap_or(&[]) {
        asked.push_str(name)?;
        asked.push(' ')?;
    }
    Ok(asked)
}

#[test]
fn files_that_are_opened(rt: HostRuntime) -> Result<(), Fail> {
    let rows: [(&[&str], &str); 4] = [
        (&["check", "f"], "f "),
        (&["automaton", "f"], "f "),
        (&["check"], ""),
        (&["test", "f"], ""),
    ];
    for (words, names) in rows {
        assert_eq!(rt; asked(rt.alloc(), words)?.as_str(), names, "{words:?}");
    }
    Ok(())
}
