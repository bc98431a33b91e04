// What an automaton is to the machines of which it is an operand.
ghost use Rattle.std.specs.Prelude.{◌≡◌, ◌≤◌, ◌<◌, ℕ, List, Bool, length};
ghost use Rattle.dcv_arena.specs.Arena.{ArenaValue, IsRef, value_of};
ghost use Rattle.dcv_arena.specs.declared.nodes.Ref.{Ref as RowRef};
ghost use Rattle.dcv_language.specs.Automaton.{Automaton};
ghost use Rattle.dcv_dfa.specs.Table.{HasStates};

use dcv_arena::{Arena, Ref};

/// An automaton that can be an operand of a machine: its states are numbers, and the row of each is a ref of one arena, the
/// function from letters to the numbers of the states that come next.
///
/// Nothing is asked of which states there are, so a table need not be canonical. The arena may have more slots than the table;
/// rows are read at letters of the table's slots, and a slot after these is false. No call takes memory.
pub trait Table {
    /// What it stands for.
    ghost automaton: { Self → Automaton ℕ };

    /// How many variables its letters have.
    ghost slots: { Self → ℕ };

    /// How many states it has.
    ghost states: { Self → ℕ };

    /// The arena of its rows.
    ghost arena: { Self → ArenaValue };

    /// The row of a state.
    ghost row_at: { Self → ℕ → RowRef };

    /// How many variables the letters have.
    fn slots(&self) -> u8
        ensures slots { result ≡ slots self.now }
        ensures bound { result ≤ 32 };

    /// How many states there are.
    fn states(&self) -> u32
        ensures count { result ≡ states self.now }
        ensures states { HasStates (automaton self.now) (slots self.now) (states self.now) };

    /// The state in which words begin.
    fn start(&self) -> u32
        ensures { result ≡ (automaton self.now).start };

    /// Whether a state accepts.
    fn accepting(&self, state: u32) -> bool
        requires { state < states self.now }
        ensures { result ≡ (automaton self.now).accepting state };

    /// The function from letters to the states that come next.
    fn row(&self, state: u32) -> Ref
        requires { state < states self.now }
        ensures row { result ≡ row_at self.now state }
        ensures is_ref { IsRef (arena self.now) result }
        ensures steps { (letter : List Bool) → length letter ≡ slots self.now
            → value_of (arena self.now) result letter ≡ (automaton self.now).next state letter };

    /// The arena of the rows.
    fn arena(&self) -> &Arena
        ensures { result.now ≡ arena self.now };
}
