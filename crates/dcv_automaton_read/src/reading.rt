// The reader of automaton texts.
ghost use Rattle.std.specs.Prelude.{◌^◌, ◌<◌, length, IfOk, OnOk};
ghost use Rattle.dcv_automaton_text.specs.Form.{HasForm};
ghost use Rattle.dcv_automaton_text.specs.Rules.{IsGood};
ghost use Rattle.dcv_automaton_read.specs.declared.faults.AutoFault.{AutoFault as Fault};
ghost use Rattle.dcv_automaton_read.specs.Read.{HasFault, IsFaultOf};

use crate::building::built;
use crate::faults::AutoFault;
use crate::file::AutoFile;
use crate::laws::texts_are_automata_or_at_fault;
use crate::rules::good_nodes;
use dcv_automaton_lines::{LinesFault, lines_of};
use std::alloc::Global;

/// What the text of an automaton says, or the one fault of it. Only running out of memory is no fault of the text.
///
/// A fault of the form is told before any of the table rules.
pub fn automaton_read(alloc: Global, bytes: &[u8]) -> Result<AutoFile, AutoFault>
    requires { length bytes.now < 2 ^ 32 }
    ensures form { IfOk result (λ file. HasForm bytes.now file) }
    ensures good { IfOk result IsGood }
    ensures no_fault { OnOk result ((fault : Fault) → HasFault bytes.now fault → ⊥) }
    ensures fault { IsFaultOf bytes.now result }
{
    texts_are_automata_or_at_fault();
    let lines = match lines_of(alloc, bytes) {
        Ok(lines) => lines,
        Err(LinesFault::Syntax { at }) => return Err(AutoFault::Syntax { at }),
        Err(LinesFault::Memory) => return Err(AutoFault::Memory),
    };
    let nodes = good_nodes(alloc, bytes, &lines)?;
    let file = built(alloc, &lines, nodes)?;
    Ok(file)
}
