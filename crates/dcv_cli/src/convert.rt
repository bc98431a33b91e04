// The command that asks for an automaton's text in a version.
ghost use Rattle.std.specs.Prelude.{◌≡◌};
ghost use Rattle.dcv_automaton_text.specs.Form.{HasForm};
ghost use Rattle.dcv_automaton_text.specs.Spelled.{spelled};
ghost use Rattle.dcv_cli.specs.Conversion.{as_version, conversion_text};

use crate::command::AutomatonCommand;
use crate::refused::Ended;
use crate::reply::{Reply, reply_with};
use crate::status::Status;
use dcv_automaton_read::AutoFile;
use dcv_automaton_text::laws::versions_stand_for_the_same;
use dcv_command::Version;
use dcv_io::{Sink, Target};
use std::alloc::Global;

// How many bytes of a text say which version it is of: those of `automaton 1`.
const VERSION_BYTES: usize = 11;

/// A text in pieces: what says its version, what follows up to the step part or the last line, and these.
#[derive(Clone, Copy)]
pub(crate) struct Conversion<'a> {
    // the line of the version
    head: &'a [u8],
    // what follows, up to the step part or the last line
    said: &'a [u8],
    // the step part or the last line
    end: &'a [u8],
}

/// Writes an automaton's text in a version.
#[derive(Clone, Copy)]
pub(crate) struct Converter {
    /// The version that is asked for.
    pub to: Version,
}

impl AutomatonCommand for Converter {
    ghost use Rattle.dcv_cli.specs.Conversion.{IsConverted};

    ghost right = { λ converter. IsConverted converter.to };

    // No memory is taken after the reader.
    fn answer<O: Sink>(&self, _: Global, text: &[u8], file: &AutoFile, out: &mut O) -> Ended {
        let conversion = in_version(text, file, self.to);
        reply_with(&conversion, Status::Done, out)
    }
}

// The file's text in this version: the text itself where it is of the version.
fn in_version<'a>(text: &'a [u8], file: &AutoFile, to: Version) -> Conversion<'a>
    requires { HasForm text.now file.now }
    ensures { conversion_text result ≡ spelled (as_version to file.now) }
{
    versions_stand_for_the_same();
    let said = &text[VERSION_BYTES..file.steps_at() as usize];
    let has_steps = file.version() == 2;
    match to {
        Version::One => {
            if has_steps {
                Conversion {
                    head: b"automaton 1",
                    said,
                    end: b"end\n",
                }
            } else {
                unchanged(text)
            }
        }
        Version::Two => {
            if has_steps {
                unchanged(text)
            } else {
                Conversion {
                    head: b"automaton 2",
                    said,
                    end: b"steps 0\nend\n",
                }
            }
        }
    }
}

// The text as it is.
fn unchanged<'a>(text: &'a [u8]) -> Conversion<'a>
    ensures { conversion_text result ≡ text.entry.now }
{
    Conversion {
        head: text,
        said: b"",
        end: b"",
    }
}

impl Reply for Conversion<'_> {
    ghost use Rattle.dcv_cli.specs.Conversion.{conversion_text};

    ghost text = { conversion_text };

    fn put<T: Target>(&self, target: &mut T) {
        target.put(self.head);
        target.put(self.said);
        target.put(self.end);
    }
}
