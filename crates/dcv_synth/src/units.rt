// A controller in the flat subset of C.
ghost use Rattle.std.specs.Prelude.{◌≡◌, ◌<◌, ◌≤◌, ◌∷◌, [], ℕ, List, length, map, IfOk};
ghost use Rattle.std.specs.List.{All};
ghost use Rattle.dcv_word.specs.Behaviour.{Word, IsBehaviour};
ghost use Rattle.dcv_language.specs.Language.{Language};
ghost use Rattle.dcv_language.specs.Limits.{most_nodes, number_bound};
ghost use Rattle.dcv_automaton_text.specs.Rules.{AreNames};
ghost use Rattle.dcv_automaton_file.specs.File.{texts_of};
ghost use Rattle.dcv_c.specs.Tree.{Read as ReadByName};
ghost use Rattle.dcv_c.specs.Observer.{parameter_name};
ghost use Rattle.dcv_c.specs.Seen.{seen_statement, seen_returned};
ghost use Rattle.dcv_synth.specs.Game.{Wins};
ghost use Rattle.dcv_synth.specs.Control.{controller_by, unit_of};
ghost use Rattle.dcv_synth.specs.Units.{step_name, output_name, local_names, statements_of, controller_in};
ghost use Rattle.dcv_synth.specs.Placing.{unit_names, AreFitting};

use crate::control::Control;
use crate::laws::units_answer;
use crate::statements::{Places, statements};
use crate::unit_names::locals;
use dcv_c::{CUnit, Returned, Step, parameter_texts, reset_to_start};
use dcv_dfa::NodeLines;
use dcv_syntax::{Name, Text};
use std::alloc::{AllocError, Global};

impl Control {
    /// The controller in the flat subset of C, with these names of its inputs. Its step is called with the inputs and returns the
    /// outputs as a number, of which the first output is the highest digit. Only memory can be wanting.
    pub fn unit(&self, alloc: Global, names: &[Name]) -> Result<CUnit, AllocError>
        requires names { AreNames (texts_of names.now) }
        requires inputs { length names.now ≡ self.now.next.arena.slots }
        requires next_nodes { length self.now.next.arena.nodes ≤ most_nodes }
        requires output_nodes { length self.now.output.arena.nodes ≤ most_nodes }
        ensures unit { IfOk result (λ unit. unit ≡ unit_of (texts_of names.now) self.now) }

        // Asked with the inputs, its steps return the controller's outputs.
        ensures answers { IfOk result (λ unit. (m : ℕ) (inputs : Word) → IsBehaviour self.now.next.arena.slots inputs
            → controller_in m unit inputs ≡ controller_by m self.now inputs) }

        // So it wins where the controller does.
        ensures wins { IfOk result (λ unit. (m : ℕ) (L : Language) → Wins self.now.next.arena.slots m L (controller_by m self.now)
            → Wins self.now.next.arena.slots m L (controller_in m unit)) }
    {
        units_answer();
        let next = NodeLines::of(alloc, self.next().arena(), self.next().rows())?;
        let output = NodeLines::of(alloc, self.output().arena(), self.output().rows())?;
        let step = step_of(alloc, names, self.states(), &next, &output)?;
        let mut statics = Vec::new(alloc);
        statics.push(Text::copy_of(alloc, b"st")?)?;
        let reset = reset_to_start(alloc, b"controller_reset")?;
        Ok(CUnit::new(statics, reset, step))
    }
}

// The function that makes a step.
fn step_of(
    alloc: Global,
    names: &[Name],
    states: &[u32],
    next: &NodeLines,
    output: &NodeLines,
) -> Result<Step, AllocError>
    requires names { AreNames (texts_of names.now) }
    requires states { All (λ state. state < number_bound) states.now }
    requires next_count { length next.now.rows ≡ length states.now }
    requires output_count { length output.now.rows ≡ length states.now }
    requires next_fits { AreFitting (length names.now) next.now }
    requires output_fits { AreFitting (length names.now) output.now }
    ensures name { IfOk result (λ step. step.name ≡ step_name) }
    ensures parameters { IfOk result (λ step. step.parameters.items ≡ map parameter_name (texts_of names.now)) }
    ensures locals { IfOk result (λ step. step.locals.items ≡ local_names (length next.now.lines) (length output.now.lines)) }
    ensures returned { IfOk result (λ step.
        seen_returned (unit_names (texts_of names.now) (length next.now.lines) (length output.now.lines)) step.returned ≡ ReadByName output_name) }
    ensures statements { IfOk result (λ step.
        map (seen_statement (unit_names (texts_of names.now) (length next.now.lines) (length output.now.lines))) step.statements.items
        ≡ statements_of (record { names = texts_of names.now; states = states.now; next = next.now; output = output.now })) }
{
    let places = Places {
        inputs: names.len() as u32,
        nexts: next.lines().len() as u32,
    };
    let name = Text::copy_of(alloc, b"controller_step")?;
    let parameters = parameter_texts(alloc, names)?;
    let locals = locals(alloc, places.nexts, output.lines().len() as u32)?;
    let statements = statements(alloc, places, states, next, output)?;
    Ok(Step {
        name,
        parameters,
        locals,
        statements,
        returned: Returned::Read(places.output()),
    })
}
