// From the bytes of a text to the tree of a file.
ghost use Rattle.std.specs.Prelude.{◌≢◌, ◌^◌, ◌<◌, length, IfOk, OnOk, IfErr};
ghost use Rattle.dcv_syntax.specs.Views.{plain_file};
ghost use Rattle.dcv_sentence.specs.declared.faults.ReadFault.{ReadFault};
ghost use Rattle.dcv_sentence.specs.Faults.{HasFault, IsFirstFault};
ghost use Rattle.dcv_reader.specs.Spelling.{Spells};

use crate::translation::file_of;
use dcv_sentence::{ReadFault, sentence_of};
use dcv_syntax::File;
use std::alloc::Global;

/// The file that a text spells, with the place of each form, name and number. A text with a fault spells none, and its
/// first fault is the answer.
pub fn read_file(alloc: Global, bytes: &[u8]) -> Result<File, ReadFault>
    requires { length bytes.now < 2 ^ 32 }
    ensures spelled { IfOk result (λ file. Spells bytes.now (plain_file file)) }
    ensures no_fault { OnOk result ((fault : ReadFault) → HasFault bytes.now fault → ⊥) }
    ensures fault { IfErr result (λ fault. fault ≢ ReadFault.Memory → IsFirstFault bytes.now fault) }
{
    let tokens = sentence_of(alloc, bytes)?;
    Ok(file_of(alloc, &tokens)?)
}
