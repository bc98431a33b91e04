// The texts that nest deepest. The gate runs the program of the rows as Rattle's own compiler makes it too, and that needs more than 8 MB of stack
// for these.
use crate::files::ran;
use dcv_io::MemFiles;
use std::alloc::{AllocError, Global};
use std::test::Fail;

// What a text begins with, what stands so many times before and after its inside, and what it ends with.
struct Nested {
    start: &'static str,
    open: &'static str,
    times: u32,
    inside: &'static str,
    close: &'static str,
    end: &'static str,
}

// Each has a list of each kind at each depth, and its goal nests more nodes than it may.
const DEEPEST: [(Nested, &str); 3] = [
    (
        Nested {
            start: "var p; infer ",
            open: "(<p> <=> <p> || <p> && <p> ^ ",
            times: 499,
            inside: "<p>",
            close: ")",
            end: ";",
        },
        "fault depth at 13\n",
    ),
    (
        Nested {
            start: "var p; infer [[",
            open: "(p <=> p || p && ",
            times: 499,
            inside: "p",
            close: ")",
            end: "]];",
        },
        "fault depth at 13\n",
    ),
    (
        Nested {
            start: "var p; prop g(a) as !a; infer [[",
            open: "p <=> p || p && g(",
            times: 500,
            inside: "p",
            close: ")",
            end: "]];",
        },
        "fault depth at 30\n",
    ),
];

// The text.
fn text_of(alloc: Global, nested: &Nested) -> Result<String, AllocError> {
    let mut text = String::new(alloc);
    text.push_str(nested.start)?;
    for _ in 0..nested.times {
        text.push_str(nested.open)?;
    }
    text.push_str(nested.inside)?;
    for _ in 0..nested.times {
        text.push_str(nested.close)?;
    }
    text.push_str(nested.end)?;
    Ok(text)
}

// The status of a check of the text, and its message.
fn checked(alloc: Global, nested: &Nested) -> Result<(u8, Vec<u8>), AllocError> {
    let text = text_of(alloc, nested)?;
    let mut files = MemFiles::new(alloc, &[], &[])?;
    files.hold("f", text.as_bytes())?;
    ran(alloc, &["check", "f"], &mut files)
}

#[test]
fn goals_that_nest_deepest(rt: HostRuntime) -> Result<(), Fail> {
    for (nested, message) in &DEEPEST {
        let (status, written) = checked(rt.alloc(), nested)?;
        assert_eq!(rt; status, 3, "{message}");
        assert_eq!(rt; written.as_slice(), message.as_bytes(), "{message}");
    }
    Ok(())
}
