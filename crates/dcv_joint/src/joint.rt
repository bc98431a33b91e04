// The names of several files as one list, and the core of a file over it.
ghost use Rattle.std.specs.Prelude.{◌≡◌, ◌<◌, ◌≤◌, ◌∷◌, ◌++◌, [], length, map, nat_le, true, None, IfOk, IfErr, OnOk};
ghost use Rattle.std.specs.List.{All};
ghost use Rattle.dcv_core.specs.Core.{CoreTree};
ghost use Rattle.dcv_core.specs.Slots.{OpIsBelow};
ghost use Rattle.dcv_core.specs.Steps.{IsCoreOf};
ghost use Rattle.dcv_joint.specs.Faults.{most_names, too_many_at, has_few_slots, IsFaultOfNames, IsFaultOfCore};
ghost use Rattle.dcv_joint.specs.Moved.{places_of, moved_core};
ghost use Rattle.dcv_joint.specs.Names.{place_of, with_name, with_new};
ghost use Rattle.dcv_joint.specs.declared.joint.JointFault.TheVariants.{Memory as OutOfMemory};
ghost use Rattle.dcv_scope.specs.Names.{texts, stands_in};

use crate::moving::core_over;
use dcv_core::Core;
use dcv_syntax::{Name, Text};
use std::alloc::{AllocError, Global};
use std::marker::Model;
use thiserror::Error;

/// The most names of a joint list, and the most slots of a core over it.
pub const MOST_NAMES: u8 = 32;

/// Why files have no joint list, or a file no core over it.
#[derive(Clone, Copy, Debug, PartialEq, Eq, Error)]
pub enum JointFault {
    /// With this name the list would have more than [`MOST_NAMES`] names.
    #[error("the name at offset {at} is one too many")]
    TooMany { at: u32 },
    /// Over the joint names some step of the core would have more than [`MOST_NAMES`] slots.
    #[error("the goal has too many variables over the names of all files")]
    Slots,
    /// Memory ran out.
    #[error("out of memory")]
    Memory,
}

impl From<AllocError> for JointFault {
    ghost from_gives = { λ _ fault. fault ≡ OutOfMemory };

    fn from(_: AllocError) -> Self {
        JointFault::Memory
    }
}

/// The names of several files, each once: those of the first file first. It is seen as the list of their texts.
#[derive(Drop)]
pub struct Joint {
    // the texts, in order
    names: Vec<Text>,
}

impl Model for Joint {
    ghost use Rattle.std.specs.Prelude.{List, ℕ, ◌≤◌, length};

    ghost Value = { List (List ℕ) };

    ghost view = { λ joint. joint.names.items };

    ghost invariant = { λ joint. length joint.names.items ≤ 32 };
}

impl Joint {
    /// The list without names.
    pub fn new(alloc: Global) -> Joint
        ensures { result ≡ [] }
    {
        Joint {
            names: Vec::new(alloc),
        }
    }

    /// The names, in order.
    pub fn names(&self) -> &[Text]
        ensures { result.now ≡ self.now }
    {
        &self.names
    }

    /// How many names there are.
    pub fn width(&self) -> u8
        ensures { result ≡ length self.now }
    {
        self.names.len() as u8
    }

    /// Adds those of the names that are new, in their order. After a fault the list may have some of them.
    pub fn add(&mut self, alloc: Global, names: &[Name]) -> Result<(), JointFault>
        ensures added { OnOk result (self.new ≡ with_new self.old (texts names.now)) }
        ensures fit { OnOk result (too_many_at most_names self.old names.now ≡ None) }
        ensures fault { IfErr result (IsFaultOfNames self.old names.now) }
    {
        for name in names {
            self.add_name(alloc, name)?;
        }
        Ok(())
    }

    // Adds the name, unless it is there.
    fn add_name(&mut self, alloc: Global, name: &Name) -> Result<(), JointFault>
        ensures added { OnOk result (self.new ≡ with_name self.old name.now.text) }
        ensures fit { OnOk result (nat_le (length (with_name self.old name.now.text)) most_names ≡ true) }
        ensures fault { IfErr result (IsFaultOfNames self.old (name.now ∷ [])) }
    {
        if self.has(&name.text) {
            return Ok(());
        }
        if self.names.len() >= MOST_NAMES as usize {
            return Err(JointFault::TooMany {
                at: name.span.start,
            });
        }
        self.push(alloc, &name.text)?;
        Ok(())
    }

    // Adds the name.
    fn push(&mut self, alloc: Global, name: &Text) -> Result<(), AllocError>
        requires { length self.old < most_names }
        ensures { OnOk result (self.new ≡ self.old ++ name.now ∷ []) }
    {
        let text = Text::copy_of(alloc, name.as_bytes())?;
        self.names.push(text)?;
        Ok(())
    }

    // Whether the name is in the list.
    fn has(&self, name: &Text) -> bool
        ensures { result ≡ stands_in name.now self.now }
    {
        self.names.iter().any(|other| *other == *name)
    }

    /// The core of a file with these names, over the joint names.
    pub fn core_of(&self, alloc: Global, names: &[Name], core: &Core) -> Result<Core, JointFault>
        requires declared { core.now.declared ≡ length names.now }
        requires in_use { All (λ step. OpIsBelow step.slots step.op) core.now.steps }
        ensures declared { IfOk result (λ moved. moved.declared ≡ length self.now) }
        ensures core { IfOk result (λ moved. (tree : CoreTree) → IsCoreOf tree core.now → IsCoreOf (moved_core self.now (texts names.now) tree) moved) }
        ensures few { OnOk result (has_few_slots (places_of self.now (texts names.now)) (length self.now) core.now.steps ≡ true) }
        ensures fault { IfErr result (IsFaultOfCore (places_of self.now (texts names.now)) (length self.now) core.now.steps) }
    {
        let places = places_of(alloc, &self.names, names)?;
        core_over(alloc, &places, self.names.len() as u8, core)
    }
}

// The places of the names among the joint ones.
fn places_of(alloc: Global, joint: &[Text], names: &[Name]) -> Result<Vec<u8>, AllocError>
    requires { length joint.now < 256 }
    ensures { IfOk result (λ places. places.items ≡ places_of joint.now (texts names.now)) }
{
    let mut places = Vec::new(alloc);
    for name in names {
        places.push(place_of(joint, &name.text) as u8)?;
    }
    Ok(places)
}

// The place of the name, or how many names there are.
fn place_of(names: &[Text], name: &Text) -> usize
    ensures place { result ≡ place_of names.now name.now }
    ensures within { result ≤ length names.now }
{
    let place = names.iter().position(|other| *other == *name);
    place.unwrap_or(names.len())
}
