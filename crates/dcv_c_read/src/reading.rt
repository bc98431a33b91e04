// From a text to its unit.
ghost use Rattle.std.specs.Prelude.{◌≡◌, ◌≢◌, ◌<◌, ◌^◌, ℕ, length, IsTrue, IfOk, IfErr, OnOk};
ghost use Rattle.dcv_lexer.specs.Lexicon.{lexicon_of, is_orderly};
ghost use Rattle.dcv_observer.specs.Items.{IsSyntaxFault};
ghost use Rattle.dcv_observer.specs.declared.fault.ObsFault.{ObsFault as Fault};
ghost use Rattle.dcv_observer.specs.declared.fault.ObsFault.TheVariants.{Syntax, Memory};
ghost use Rattle.dcv_c.specs.Classes.{lexicon};
ghost use Rattle.dcv_c.specs.Language.{language};
ghost use Rattle.dcv_c.specs.Actions.{Spells};
ghost use Rattle.dcv_c.specs.Faults.{HasFault, IsReadAs};
ghost use Rattle.dcv_c_read.specs.Seen.{seen_unit};

use crate::names::named;
use crate::parts::Part;
use crate::placed::PlacedUnit;
use crate::tables::LEXICON;
use crate::translation::UnitTranslation;
use dcv_c::laws::texts_are_units_or_at_fault;
use dcv_c::{CUnit, ObsFault};
use dcv_lexer::Lexicon;
use dcv_observer::translate;
use std::alloc::Global;

/// The unit of a text, or the one fault of it. Only running out of memory is no fault of the text.
pub fn read(alloc: Global, bytes: &[u8]) -> Result<CUnit, ObsFault>
    requires { length bytes.now < 2 ^ 32 }
    ensures read { IfOk result (IsReadAs bytes.now) }
    ensures no_fault { OnOk result ((fault : Fault) → HasFault bytes.now fault → ⊥) }
    ensures fault { IfErr result (λ fault. fault ≢ Memory → HasFault bytes.now fault) }
{
    texts_are_units_or_at_fault();
    let placed = placed_unit(alloc, bytes)?;
    let read = named(alloc, &placed);
    drop(placed);
    let unit = read?;
    // for the prover: what is true of every unit.
    unit.keeps_the_rules();
    Ok(unit)
}

// The unit that a text has.
fn placed_unit<'a>(alloc: Global, text: &'a [u8]) -> Result<Box<PlacedUnit<'a>>, ObsFault>
    requires { length text.now < 2 ^ 32 }
    ensures spelled { IfOk result (λ placed. Spells text.now (seen_unit placed.value)) }
    ensures fault { IfErr result (λ fault. fault ≢ Memory → (at : ℕ) × (fault ≡ Syntax at) × IsSyntaxFault lexicon language text.now at) }
{
    match translate(alloc, &UnitTranslation { alloc }, written(), text)? {
        Part::Unit(placed) => Ok(placed),
        _ => unreachable!(),
    }
}

// What units are written with.
#[tactic(auto, unfolding(dcv_c::specs::Classes::lexicon))]
fn written<'a>() -> &'a Lexicon<'a>
    ensures lexicon { lexicon_of result.now ≡ lexicon }
    ensures orderly { IsTrue (is_orderly lexicon) }
{
    &LEXICON
}
