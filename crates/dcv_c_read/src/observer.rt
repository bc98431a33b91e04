// The observer of an automaton as a tree: its text, read back.
ghost use Rattle.std.specs.Prelude.{◌≡◌, ◌≤◌, List, length, IfOk};
ghost use Rattle.dcv_language.specs.Limits.{most_states, most_nodes};
ghost use Rattle.dcv_automaton_file.specs.File.{texts_of, file_of};
ghost use Rattle.dcv_automaton_text.specs.File.{AccessLine, SuffixLine};
ghost use Rattle.dcv_automaton_text.specs.Rules.{AreNames};
ghost use Rattle.dcv_dfa.specs.Auto.{count_of_nodes};
ghost use Rattle.dcv_dfa.specs.Raw.{raw_accepts};
ghost use Rattle.dcv_c.specs.Faults.{IsReadAs};
ghost use Rattle.dcv_c.specs.Laws.{Observes};
ghost use Rattle.dcv_c.specs.Tree.{CUnit as PlainCUnit};
ghost use Rattle.dcv_c.specs.Observer.{observer_of};

use crate::reading::read;
use dcv_c::laws::{observers_accept_the_same, texts_are_units_or_at_fault, texts_spell_units};
use dcv_c::{CUnit, ObsFault, put_observer};
use dcv_dfa::Auto;
use dcv_io::Text;
use dcv_syntax::Name;
use std::alloc::{AllocError, Global};

/// The observer of an automaton, with these names of its variables.
pub fn of_auto(alloc: Global, auto: &Auto, names: &[Name]) -> Result<CUnit, AllocError>
    requires names { AreNames (texts_of names.now) }
    requires slots { length names.now ≡ auto.now.arena.slots }
    requires states { length auto.now.rows ≤ most_states }
    requires nodes { count_of_nodes auto.now ≤ most_nodes }
    ensures observer { (access : List AccessLine) (suffixes : List SuffixLine)
        → IfOk result (λ unit. unit ≡ observer_of (file_of auto.now (texts_of names.now) access suffixes)) }
    ensures accepts { IfOk result (λ unit. Observes auto.now.arena.slots unit (raw_accepts auto.now)) }
{
    observers_accept_the_same();
    texts_spell_units();
    // for the prover: what is true of every canonical automaton.
    let _states = auto.states();
    let nodes = auto.node_lines(alloc)?;
    let mut text = Text::new(alloc);
    put_observer(&mut text, auto, names, &nodes);
    let text = text.finish()?;
    unit_of(alloc, &text)
}

// The unit that a text is of. One of 4 GB counts as out of memory.
fn unit_of(alloc: Global, text: &[u8]) -> Result<CUnit, AllocError>
    requires { (unit : PlainCUnit) × IsReadAs text.now unit }
    ensures { IfOk result (IsReadAs text.now) }
{
    texts_are_units_or_at_fault();
    if text.len() > u32::MAX as usize {
        return Err(AllocError);
    }
    match read(alloc, text) {
        Ok(unit) => Ok(unit),
        Err(fault) => match fault {
            ObsFault::Memory => Err(AllocError),
            _ => unreachable!(),
        },
    }
}
