// The reader of the form.
ghost use Rattle.std.specs.Prelude.{◌≢◌, ◌≡◌, ◌<◌, ◌≤◌, ◌^◌, ◌++◌, ℕ, length, IfOk, IfErr};
ghost use Rattle.dcv_automaton_lines.specs.Stops.{IsStuckStop};
ghost use Rattle.dcv_observer.specs.declared.fault.ObsFault.TheVariants.{Syntax, Memory};
ghost use Rattle.dcv_c_tables.specs.Layout.{type_for, text_of};
ghost use Rattle.dcv_tables_read.specs.Form.{Form, IsPlainUnit, HasForm, IsSyntaxFault};
ghost use Rattle.dcv_tables_read.specs.Seen.{seen_tables};

use crate::arrays::{node_arrays, state_arrays};
use crate::counts::counts_line;
use crate::functions::step;
use crate::unit::TableUnit;
use dcv_automaton_lines::Stop;
use dcv_observer::ObsFault;
use std::alloc::Global;

/// The type of so many places.
pub(crate) fn integer(places: u32) -> &'static [u8]
    ensures is { result.now ≡ type_for places }
    ensures short { length result.now ≤ 14 }
{
    if places > 65_535 {
        b"unsigned long"
    } else {
        b"unsigned short"
    }
}

// The unit at the front of a text, and the text after it.
fn front<'a>(alloc: Global, text: &'a [u8]) -> Result<(TableUnit<'a>, &'a [u8]), Stop<'a>>
    ensures plain { IfOk result (λ read. IsPlainUnit (seen_tables read.0)) }
    ensures spelled { IfOk result (λ read. text.now ≡ text_of (seen_tables read.0) ++ read.1.now) }
    ensures fault { IsStuckStop Form text.now result }
{
    let (counts, arrays) = counts_line(text)?;
    let integer = integer(counts.states + counts.nodes);
    let some = counts.nodes > 0;
    let (nodes, behind) = node_arrays(alloc, arrays, integer, counts.nodes)?;
    let (states, functions) = state_arrays(alloc, behind, integer, counts.states)?;
    let (names, rest) = step(alloc, functions, integer, some, counts.variables)?;
    let unit = TableUnit {
        names,
        nodes,
        states,
    };
    Ok((unit, rest))
}

/// The unit of a text that has the form.
pub fn read_form<'a>(alloc: Global, text: &'a [u8]) -> Result<TableUnit<'a>, ObsFault>
    requires { length text.now < 2 ^ 32 }
    ensures form { IfOk result (λ unit. HasForm text.now (seen_tables unit)) }
    ensures fault { IfErr result (λ fault. fault ≢ Memory → (at : ℕ) × (fault ≡ Syntax at) × IsSyntaxFault text.now at) }
{
    let left = match front(alloc, text) {
        Ok((unit, rest)) => {
            if rest.is_empty() {
                return Ok(unit);
            }
            rest
        }
        Err(Stop::Syntax(stuck)) => stuck.left,
        Err(Stop::Memory) => return Err(ObsFault::Memory),
    };
    let at = text.len() - left.len();
    Err(ObsFault::Syntax { at: at as u32 })
}
