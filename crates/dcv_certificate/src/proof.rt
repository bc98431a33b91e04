// What shows that an automaton has the fewest states: how its access words are spelled, and suffixes that tell them apart.
ghost use Rattle.std.specs.Prelude.{◌≡◌};

use dcv_language::{Access, Suffix};
use std::marker::Model;

/// The access word of each state, and suffixes by which every two of them are told apart: so no automaton with fewer states
/// accepts the same words (A. Nerode, 1958).
#[derive(Drop)]
pub struct Proof {
    // how the access word of each state is spelled
    access: Vec<Access>,
    // how each suffix is spelled
    suffixes: Vec<Suffix>,
}

impl Model for Proof {
    ghost use Rattle.dcv_certificate.specs.Proof.{ProofValue};

    ghost Value = { ProofValue };

    ghost view = { λ proof. record { access = proof.access.items; suffixes = proof.suffixes.items } };
}

impl Proof {
    pub(crate) fn new(access: Vec<Access>, suffixes: Vec<Suffix>) -> Proof
        ensures access { result.access ≡ access.items }
        ensures suffixes { result.suffixes ≡ suffixes.items }
    {
        Proof { access, suffixes }
    }

    /// How the access words are spelled, that of state 0 first.
    pub fn access(&self) -> &[Access]
        ensures { result.now ≡ self.now.access }
    {
        &self.access
    }

    /// The suffixes, each by earlier ones.
    pub fn suffixes(&self) -> &[Suffix]
        ensures { result.now ≡ self.now.suffixes }
    {
        &self.suffixes
    }
}
