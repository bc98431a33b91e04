// Sets of states as bits: a state is in the set where its bit is 1, the bits of 32 states a word.
ghost use Rattle.std.specs.Prelude.{◌≡◌, ◌≤◌, ◌<◌, ◌/◌, ◌^◌, ◌++◌, length, replicate, IfOk, OnOk};
ghost use Rattle.std.specs.List.{All, fold};
ghost use Rattle.dcv_sets.specs.Bits.{has_state, with_state, bits_of, states_in};

use crate::state_set::States;
use std::alloc::{AllocError, Global};

/// Whether a state is in the set of these bits.
#[inline(always)]
pub fn has_bit(words: &[u32], state: usize) -> bool
    ensures { result ≡ has_state words.now state }
{
    match words.get(state / 32) {
        Some(word) => (*word >> (state % 32) as u32) & 1 == 1,
        None => false,
    }
}

// Adds each of these states to the bits.
fn add_bits(words: &mut [u32], states: &[u32])
    requires { All (λ state. state / 32 < length words.old) states.now }
    ensures { words.new ≡ fold with_state words.old states.now }
{
    for state in states {
        let place = (*state / 32) as usize;
        words[place] |= 1 << (*state % 32);
    }
}

/// So many words of bits, in which these states are.
pub fn bits_from(alloc: Global, width: usize, states: &[u32]) -> Result<States, AllocError>
    requires { All (λ state. state / 32 < width) states.now }
    ensures { IfOk result (λ words. words.items ≡ bits_of width states.now) }
{
    let mut words = States::from_elem(alloc, 0, width)?;
    add_bits(words.as_mut_slice(), states);
    Ok(words)
}

/// Adds the states of these bits to a list, in ascending order.
pub fn push_states(words: &[u32], to: &mut States) -> Result<(), AllocError>
    requires { length words.now ≤ 2 ^ 27 }
    ensures { OnOk result (to.new.items ≡ to.old.items ++ states_in words.now) }
{
    for state in 0..32 * words.len() {
        if has_bit(words, state) {
            to.push(state as u32)?;
        }
    }
    Ok(())
}
