// The words of the command line.
ghost use Rattle.std.specs.Prelude.{◌≡◌, [], ◌∷◌, ◌++◌, map, drop, IfOk, OnOk, OnErr};
ghost use Rattle.std.specs.String.{string_bytes};

use std::alloc::{AllocError, Global};
use std::marker::Model;

/// The words after the program's name, in order.
#[derive(Drop)]
pub struct Words {
    // where requests are allocated
    alloc: Global,
    // the words after the program's name
    words: Vec<String>,
}

impl Model for Words {
    ghost use Rattle.std.specs.Prelude.{List, ℕ, map};
    ghost use Rattle.std.specs.String.{string_bytes};

    ghost Value = { List (List ℕ) };

    ghost view = { λ w. map string_bytes w.words.items };
}

impl Words {
    /// No words.
    pub fn new(alloc: Global) -> Words
        ensures { result ≡ [] }
    {
        Words {
            alloc,
            words: Vec::new(alloc),
        }
    }

    // The arguments of a process after the first, which is the program's name.
    pub(crate) fn of_arguments(alloc: Global, arguments: &[String]) -> Result<Words, AllocError>
        ensures { IfOk result (λ words. words ≡ map string_bytes (drop 1 arguments.now)) }
    {
        let mut words = Words::new(alloc);
        let rest = arguments.get(1..).unwrap_or_default();
        for argument in rest {
            words.push(argument)?;
        }
        Ok(words)
    }

    /// Adds a word at the end.
    pub fn push(&mut self, word: &str) -> Result<(), AllocError>
        ensures ok { OnOk result (self.new ≡ self.old ++ word.now ∷ []) }
        ensures err { OnErr result (self.new ≡ self.old) }
    {
        let word = String::from_str(self.alloc, word)?;
        self.words.push(word)?;
        Ok(())
    }

    // All of them.
    pub(crate) fn as_slice(&self) -> &[String]
        ensures { map string_bytes result.now ≡ self.now }
    {
        self.words.as_slice()
    }
}
