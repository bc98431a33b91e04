// The names that are declared in a text, each with its place.
ghost use Rattle.std.specs.Prelude.{◌≡◌, [], IfOk, OnErr};

use indexmap::IndexSet;
use std::alloc::{AllocError, Global};
use std::marker::Model;

/// The names that are declared so far, each a part of the text, in order. The first has the place 0, and each is found by its
/// hash.
#[derive(Drop)]
pub struct Declared<'a> {
    // the names, in the order of their places
    names: IndexSet<&'a [u8]>,
}

impl<'a> Model for Declared<'a> {
    ghost use Rattle.std.specs.Prelude.{List, ℕ, map};

    ghost Value = { List (List ℕ) };

    ghost view = { λ declared. map (λ name. name.now) declared.names.keys };
}

impl<'a> Declared<'a> {
    ghost use Rattle.std.specs.Prelude.{◌++◌, ◌∷◌, not, bytes_eq, if◌then◌else◌};
    ghost use Rattle.std.specs.List.{list_any, position};

    /// No names.
    pub fn new(alloc: Global) -> Self
        ensures { result ≡ [] }
    {
        Declared {
            names: IndexSet::new(alloc),
        }
    }

    /// The place of a name, and none where it is not declared.
    pub fn place_of(&self, name: &[u8]) -> Option<usize>
        ensures { result ≡ position (bytes_eq name.now) self.now }
    {
        self.names.get_index_of(name)
    }

    /// Whether a name is declared.
    pub fn contains(&self, name: &[u8]) -> bool
        ensures { result ≡ list_any (bytes_eq name.now) self.now }
    {
        self.names.contains(name)
    }

    /// Adds a name, unless it is there, and tells whether it was new.
    pub fn declare(&mut self, name: &'a [u8]) -> Result<bool, AllocError>
        ensures new { IfOk result (λ new. new ≡ not (list_any (bytes_eq name.now) self.old)) }
        ensures names { IfOk result (λ new. self.new ≡ if new then self.old ++ name.now ∷ [] else self.old) }
        ensures failed { OnErr result (self.new ≡ self.old) }
    {
        let (_, new) = self.names.insert_full(name)?;
        Ok(new)
    }
}
