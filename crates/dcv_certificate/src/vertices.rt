// The states that are told apart: those of the automaton, and a start that stands alone once more, accepting. The empty suffix
// says nothing of the empty word, so such a start must be told from each other state by a suffix that is not empty.
ghost use Rattle.std.specs.Prelude.{◌≡◌, ◌<◌, true, length, map, if◌then◌else◌, IfOk};
ghost use Rattle.std.specs.List.{All};
ghost use Rattle.dcv_certificate.specs.Vertices.{raw_of, with_start, HasFlagged};

use dcv_arena::{Arena, Ref};
use dcv_refinement::number_of;
use std::alloc::{AllocError, Global};

#[derive(Drop)]
pub(crate) struct Vertices<'a> {
    // the arena of the rows
    pub(crate) arena: &'a Arena,
    // the row of each state
    pub(crate) rows: Vec<Ref>,
    // whether each state accepts
    pub(crate) flags: Vec<bool>,
}

impl<'a> Vertices<'a> {
    // And the start once more, accepting.
    pub(crate) fn with_start(self) -> Result<Vertices<'a>, AllocError>
        requires { 0 < length self.rows.items }
        ensures { IfOk result (λ new. raw_of new ≡ with_start true (raw_of self.entry)) }
    {
        let mut rows = self.rows;
        let mut flags = self.flags;
        rows.push(rows[0])?;
        flags.push(true)?;
        Ok(Vertices {
            arena: self.arena,
            rows,
            flags,
        })
    }
}

impl Vertices<'_> {
    // The states with this flag.
    pub(crate) fn with_flag(&self, alloc: Global, flag: bool) -> Result<Vec<u32>, AllocError>
        ensures flagged { IfOk result (λ states. HasFlagged self.now.flags.items flag states.items) }
        ensures states { IfOk result (λ states. All (λ state. state < length self.now.flags.items) states.items) }
    {
        let mut states = Vec::new(alloc);
        for (state, accepting) in self.flags.iter().enumerate() {
            if *accepting == flag {
                states.push(number_of(state)?)?;
            }
        }
        Ok(states)
    }

    // The flag that no more than half of the states have. It decides the time alone, so it has no clause.
    pub(crate) fn rarer_flag(&self) -> bool {
        let accepting = self.flags.iter().filter(|flag| **flag).count();
        accepting <= self.flags.len() / 2
    }

    // 1 for the states that accept, and 0 for the others.
    pub(crate) fn flag_numbers(&self, alloc: Global) -> Result<Vec<u32>, AllocError>
        ensures { IfOk result (λ numbers. numbers.items ≡ map (λ flag. if flag then 1 else 0) self.now.flags.items) }
    {
        self.flags
            .iter()
            .map(|flag| u32::from(*flag))
            .collect(alloc)
    }
}
