// Tests of `dcv_io`: real files and streams, of whose bytes no clause speaks, the names that are noted, and the words of faults.
use dcv_io::{
    Failed, Files, MemFiles, NotingFiles, RealFiles, RealOut, TakeFault, read_all, write_all,
};
use std::alloc::{AllocError, Global};
use std::fs;
use std::test::Fail;

// The names that are noted, each with a blank after it.
fn noted(alloc: Global, files: &NotingFiles<MemFiles>) -> Result<String, AllocError> {
    let mut names = String::new(alloc);
    for name in files.asked().unwrap_or(&[]) {
        names.push_str(name)?;
        names.push(' ')?;
    }
    Ok(names)
}

#[test]
fn names_are_noted_in_order(rt: HostRuntime) -> Result<(), Fail> {
    let alloc = rt.alloc();
    let mut files = NotingFiles::new(alloc, MemFiles::new(alloc, &[], &[])?);
    let first = files.open_file("first");
    let second = files.open_file("second");
    let names = noted(alloc, &files);
    drop(files);
    assert_eq!(rt; (first, second), (Err(Failed), Err(Failed)));
    assert_eq!(rt; names?.as_str(), "first second ");
    Ok(())
}

// What is read of the file of this name, if it has no more bytes.
fn read_within<F: Files>(
    alloc: Global,
    files: &mut F,
    name: &str,
    limit: u8,
) -> Result<Vec<u8>, TakeFault> {
    read_all(alloc, files, name, u64::from(limit))
}

// The fault of such a read.
fn fault_within<F: Files>(
    alloc: Global,
    files: &mut F,
    name: &str,
    limit: u8,
) -> Option<TakeFault> {
    read_within(alloc, files, name, limit).err()
}

#[test]
fn real_files_are_read(rt: HostRuntime) -> Result<(), Fail> {
    let alloc = rt.alloc();
    fs::write(&rt, "held.txt", "eight by")?;
    let mut files = RealFiles::new(&rt);
    let bytes = read_within(alloc, &mut files, "held.txt", 8);
    let long = fault_within(alloc, &mut files, "held.txt", 7);
    let missing = fault_within(alloc, &mut files, "missing.txt", 7);
    let folder = fault_within(alloc, &mut files, ".", 7);
    let closed = files.open_file("missing.txt").is_err() && files.read(&mut [0; 4]).is_err();
    drop(files);
    assert_eq!(rt; bytes?.as_slice(), b"eight by".as_slice());
    assert_eq!(rt; long, Some(TakeFault::TooLong { limit: 7 }));
    assert_eq!(rt;
        (missing, folder),
        (Some(TakeFault::Open), Some(TakeFault::Read))
    );
    assert!(rt; closed);
    fs::remove_file(&rt, "held.txt")?;
    Ok(())
}

#[test]
fn real_streams_are_written(rt: HostRuntime) -> Result<(), Fail> {
    let mut file = RealOut::of(fs::create(&rt, "written.txt")?);
    let wrote = write_all(&mut file, b"a line, ").and_then(|()| write_all(
        &mut file,
        b"and its end\n",
    ));
    drop(file);
    assert_eq!(rt; wrote, Ok(()));
    assert_eq!(rt;
        fs::read(&rt, "written.txt")?.as_slice(),
        b"a line, and its end\n".as_slice()
    );
    fs::remove_file(&rt, "written.txt")?;
    write_all(&mut RealOut::output(rt.stdout()), b"to the output\n")?;
    write_all(&mut RealOut::error(rt.stderr()), b"to the error\n")?;
    Ok(())
}

#[test]
fn faults_are_told_in_words(rt: HostRuntime) -> Result<(), Fail> {
    let alloc = rt.alloc();
    let cases = [
        (TakeFault::Open, "the file could not be opened"),
        (TakeFault::Read, "the file could not be read to its end"),
        (
            TakeFault::TooLong { limit: 7 },
            "the file has more than 7 bytes",
        ),
        (TakeFault::Memory, "out of memory"),
    ];
    for (fault, words) in cases {
        assert_eq!(rt; fault.to_string(alloc)?.as_str(), words);
    }
    assert_eq!(rt;
        Failed.to_string(alloc)?.as_str(),
        "a call of the outside failed"
    );
    Ok(())
}
