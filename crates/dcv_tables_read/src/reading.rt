// From a text to its unit.
ghost use Rattle.std.specs.Prelude.{◌≢◌, ◌<◌, ◌^◌, length, IfOk, IfErr, OnOk};
ghost use Rattle.dcv_observer.specs.declared.fault.ObsFault.{ObsFault as Fault};
ghost use Rattle.dcv_observer.specs.declared.fault.ObsFault.TheVariants.{Memory};
ghost use Rattle.dcv_tables_read.specs.Reading.{HasFault, IsReadAs};
ghost use Rattle.dcv_tables_read.specs.Seen.{seen_tables};

use crate::form::read_form;
use crate::laws::texts_are_units_or_at_fault;
use crate::rules::judge;
use crate::unit::TableUnit;
use dcv_observer::ObsFault;
use std::alloc::Global;

/// The unit of a text, or the one fault of it. Only running out of memory is no fault of the text.
pub fn read<'a>(alloc: Global, text: &'a [u8]) -> Result<TableUnit<'a>, ObsFault>
    requires { length text.now < 2 ^ 32 }
    ensures read { IfOk result (λ unit. IsReadAs text.now (seen_tables unit)) }
    ensures no_fault { OnOk result ((fault : Fault) → HasFault text.now fault → ⊥) }
    ensures fault { IfErr result (λ fault. fault ≢ Memory → HasFault text.now fault) }
{
    texts_are_units_or_at_fault();
    let unit = read_form(alloc, text)?;
    match judge(&unit) {
        Ok(()) => Ok(unit),
        Err(at) => {
            drop(unit);
            Err(ObsFault::Names { at })
        }
    }
}
