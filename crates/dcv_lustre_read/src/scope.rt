// The names of a node, each with its place, its kind, and whether it is known.
ghost use Rattle.std.specs.Prelude.{◌≡◌, ◌+◌, ◌&&◌, ◌∷◌, ℕ, Bool, Option, List, true, map, length, slice_get};
ghost use Rattle.dcv_lexer.specs.Cuts.{Token};
ghost use Rattle.dcv_observer.specs.Conditions.{Names as PlainNames};
ghost use Rattle.dcv_lustre.specs.Seen.{seen_kind};
ghost use Rattle.dcv_lustre.specs.Tree.{Node as PlainNode};
ghost use Rattle.dcv_lustre.specs.Rules.{is_same_kind};
ghost use Rattle.dcv_observer.specs.Judged.{Leads};

use dcv_lustre::{Kind, ObsFault};
use dcv_observer::Declared;
use std::alloc::AllocError;

/// The facts about a name where it is declared, and whether it is known: an input, or on the left of an earlier equation.
#[derive(Clone, Copy)]
pub(crate) struct Declaration {
    // the number of the name
    pub(crate) place: u32,
    // the type of the variable
    pub(crate) kind: Kind,
    // whether it has a value at its place
    pub(crate) known: bool,
}

impl Declaration {
    // Whether an equation may read it, as a value of a kind.
    pub(crate) fn reads_as(&self, kind: Kind) -> bool
        ensures { result ≡ self.now.known && is_same_kind (seen_kind kind) (seen_kind self.now.kind) }
    {
        self.known && self.is_of(kind)
    }

    pub(crate) fn is_of(&self, kind: Kind) -> bool
        ensures { result ≡ is_same_kind (seen_kind kind) (seen_kind self.now.kind) }
    {
        self.kind == kind
    }
}

/// The names that are declared.
#[derive(Drop)]
pub(crate) struct Scope<'a> {
    // that of the node, its inputs, its output and its locals
    pub(crate) declared: Declared<'a>,
    // of each but that of the node
    pub(crate) names: Vec<Declaration>,
}

fn declaration_at(names: &[Declaration], place: usize) -> Option<Declaration>
    ensures { result ≡ slice_get names.now place }
{
    names.get(place).copied()
}

impl<'a> Scope<'a> {
    ghost use Rattle.dcv_lustre_read.specs.Scope.{seen_row, Told, IsDeclaring, is_within, Knows, IsFound};

    // Adds a name.
    pub(crate) fn declare(
        &mut self,
        name: &'a [u8],
        at: u32,
        kind: Kind,
        known: bool,
    ) -> Result<(), ObsFault>
        ensures { (node : PlainNode) (whole : Option ℕ) (others : List Token) (others_keep : List Bool)
            (word : List ℕ) (words : List Token) (later : PlainNames) (told : List Told)
            → IsDeclaring node whole others others_keep self.old.declared (map seen_row self.old.names.items)
            (record { bytes = word; start = at } ∷ words) (name.now ∷ later) ((seen_kind kind, known) ∷ told)
            → is_within node (length self.old.declared) ≡ true
            → Leads whole (λ _. IsDeclaring node whole others others_keep self.new.declared (map seen_row self.new.names.items) words later told
            × (length self.new.declared ≡ length self.old.declared + 1)) result }
    {
        let place = self.names.len();
        if place > u32::MAX as usize {
            return Err(ObsFault::Memory);
        }
        if !self.declared.declare(name)? {
            return Err(ObsFault::Names { at });
        }
        let declaration = Declaration {
            place: place as u32,
            kind,
            known,
        };
        self.names.push(declaration)?;
        Ok(())
    }

    // The facts about a name.
    pub(crate) fn find(&self, name: &[u8]) -> Option<Declaration>
        ensures { (node : PlainNode) (earlier : PlainNames) → Knows node earlier self.now.declared (map seen_row self.now.names.items)
            → IsFound node earlier name.now result }
    {
        let Some(place) = self.declared.place_of(name) else {
            return None;
        };
        if place == 0 {
            return None;
        }
        declaration_at(&self.names, place - 1)
    }
}
