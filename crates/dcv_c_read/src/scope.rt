// The names that are declared so far in a unit, and what is known of each.
ghost use Rattle.std.specs.Prelude.{◌≡◌, ◌∷◌, [], Bool, ℕ, List, Option, map, true, slice_get};
ghost use Rattle.std.specs.List.{list_all};
ghost use Rattle.dcv_lexer.specs.Cuts.{Token};
ghost use Rattle.dcv_observer.specs.Left.{seen};
ghost use Rattle.dcv_observer.specs.Naming.{is_among};
ghost use Rattle.dcv_c.specs.Rules.{keeps_new};
ghost use Rattle.dcv_observer.specs.Judged.{Leads, IsLeft};
ghost use Rattle.dcv_c_read.specs.Scope.{seen_row, as_known};
ghost use Rattle.dcv_observer.specs.Rows.{changed};

use dcv_c::ObsFault;
use dcv_observer::{Declared, Item, broken};
use std::alloc::Global;

/// The facts about a name where it is declared, and whether it is known: a parameter, or on the left of an earlier assignment.
#[derive(Clone, Copy)]
pub(crate) struct Declaration {
    // the number of the name
    pub(crate) place: u32,
    // whether a number may be assigned to it: it is a static or a local, and no parameter
    pub(crate) is_left: bool,
    // whether it has a value at its place
    pub(crate) known: bool,
}

/// The names that are declared.
#[derive(Drop)]
pub(crate) struct Scope<'a> {
    // those of functions, two at most
    pub(crate) functions: Declared<'a>,
    // and the others, by their places
    pub(crate) declared: Declared<'a>,
    // of each of these
    pub(crate) names: Vec<Declaration>,
}

fn declaration_at(names: &[Declaration], place: usize) -> Option<Declaration>
    ensures { result ≡ slice_get names.now place }
{
    names.get(place).copied()
}

fn are_known(names: &[Declaration]) -> bool
    ensures { result ≡ list_all (λ name. name.known) names.now }
{
    names.iter().all(|name| name.known)
}

impl<'a> Scope<'a> {
    ghost use Rattle.dcv_c_read.specs.Scope.{Frame, no_names, with_function, with_names, Knows, IsFound};

    /// No names.
    pub(crate) fn new(alloc: Global) -> Scope<'a>
        ensures { Knows no_names result }
    {
        Scope {
            functions: Declared::new(alloc),
            declared: Declared::new(alloc),
            names: Vec::new(alloc),
        }
    }

    /// Adds the name of a function.
    pub(crate) fn function(&mut self, word: &Item<'a>) -> Result<(), ObsFault>
        ensures { (frame : Frame) → Knows frame self.old
            → (whole : Option ℕ) (words : List Token) (keeps : List Bool)
            → IsLeft whole (seen word.now ∷ words) (keeps_new frame.earlier (seen word.now).bytes ∷ keeps)
            → Leads whole (λ _. Knows (with_function (seen word.now).bytes frame) self.new × IsLeft whole words keeps) result }
    {
        if self.declared.contains(word.bytes) {
            return Err(broken(word));
        }
        if !self.functions.declare(word.bytes)? {
            return Err(broken(word));
        }
        Ok(())
    }

    /// Adds a name with a place. A parameter has a number from the start, and none is assigned to it.
    pub(crate) fn declare(&mut self, word: &Item<'a>, is_left: bool) -> Result<(), ObsFault>
        ensures { (frame : Frame) → Knows frame self.old
            → (whole : Option ℕ) (words : List Token) (keeps : List Bool)
            → IsLeft whole (seen word.now ∷ words) (keeps_new frame.earlier (seen word.now).bytes ∷ keeps)
            → Leads whole (λ _. Knows (with_names is_left ((seen word.now).bytes ∷ []) frame) self.new × IsLeft whole words keeps) result }
    {
        let place = self.names.len();
        if place > u32::MAX as usize {
            return Err(ObsFault::Memory);
        }
        if self.functions.contains(word.bytes) {
            return Err(broken(word));
        }
        if !self.declared.declare(word.bytes)? {
            return Err(broken(word));
        }
        let declaration = Declaration {
            place: place as u32,
            is_left,
            known: !is_left,
        };
        self.names.push(declaration)?;
        Ok(())
    }

    /// The facts about a name.
    pub(crate) fn find(&self, name: &[u8]) -> Option<Declaration>
        ensures { (frame : Frame) → Knows frame self.now → IsFound frame name.now result }
    {
        let Some(place) = self.declared.place_of(name) else {
            return None;
        };
        declaration_at(&self.names, place)
    }

    /// From now on the name at a place is known.
    pub(crate) fn mark(&mut self, place: u32)
        ensures functions { self.new.functions ≡ self.old.functions }
        ensures declared { self.new.declared ≡ self.old.declared }
        ensures names { map seen_row self.new.names.items ≡ changed as_known place (map seen_row self.old.names.items) }
    {
        let place = place as usize;
        if place < self.names.len() {
            self.names[place].known = true;
        }
    }

    /// Whether each name with a place is known.
    pub(crate) fn all_known(&self) -> bool
        ensures { (frame : Frame) → Knows frame self.now → result ≡ list_all (is_among frame.known) frame.placed }
    {
        are_known(&self.names)
    }
}
