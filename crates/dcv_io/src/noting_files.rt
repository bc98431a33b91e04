// Files that note what they are asked for.
ghost use Rattle.std.specs.Prelude.{◌≡◌, [], ◌∷◌, ◌++◌, Some, map, option_map, string_bytes, IfOk};
ghost use Rattle.dcv_io.specs.Asked.{Asks};

use crate::{Failed, Files};
use std::alloc::{AllocError, Global};
use std::marker::Model;

/// Files that note the names by which they are asked for, as long as memory lasts. Once it ran out for a name, they
/// expose no names any more.
#[derive(Drop)]
pub struct NotingFiles<F: Files> {
    // where names are kept
    alloc: Global,
    // the files that are asked
    files: F,
    // the names that were asked for, as long as memory lasts
    names: Option<Vec<String>>,
}

impl<F: Files> Model for NotingFiles<F> {
    ghost use Rattle.std.specs.Prelude.{map, option_map, string_bytes};
    ghost use Rattle.dcv_io.specs.Noted.{Noted};

    ghost Value = { Noted F };

    ghost view = { λ n. record {
      files = n.files;
      asked = option_map (λ names. map string_bytes names.items) n.names;
    } };
}

impl<F: Files> NotingFiles<F> {
    /// These files, and no name so far.
    pub fn new(alloc: Global, files: F) -> Self
        ensures { result ≡ record { files = files; asked = Some [] } }
    {
        NotingFiles {
            alloc,
            files,
            names: Some(Vec::new(alloc)),
        }
    }

    /// The names so far, in order, or None where memory ran out for one.
    pub fn asked(&self) -> Option<&[String]>
        ensures { option_map (λ names. map string_bytes names.now) result ≡ self.now.asked }
    {
        self.names.as_deref()
    }

    // Puts a name after the others, and lets all go where there is no memory for it.
    fn note(&mut self, name: &str)
        ensures files { self.new.files ≡ self.old.files }
        ensures asked { Asks (name.now ∷ []) self.old.asked self.new.asked }
    {
        self.names = match self.names.take() {
            Some(names) => with_name(self.alloc, names, name).ok(),
            None => None,
        };
    }
}

impl<F: Files> Files for NotingFiles<F> {
    ghost open_faults = { λ n. F.open_faults n.files };

    ghost read_faults = { λ n. F.read_faults n.files };

    ghost calls = { λ n. F.calls n.files };

    ghost told = { λ n. F.told n.files };

    ghost asked = { λ n. n.asked };

    fn open_file(&mut self, name: &str) -> Result<(), Failed> {
        self.note(name);
        self.files.open_file(name)
    }

    fn read(&mut self, buf: &mut [u8]) -> Result<usize, Failed> {
        self.files.read(buf)
    }
}

// The names with one more at their end.
fn with_name(alloc: Global, mut names: Vec<String>, name: &str) -> Result<Vec<String>, AllocError>
    ensures { IfOk result (λ all.
        map string_bytes all.items ≡ map string_bytes names.items ++ name.now ∷ []) }
{
    names.push(String::from_str(alloc, name)?)?;
    Ok(names)
}
