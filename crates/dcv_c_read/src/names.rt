// The names of a unit that a text has: each is judged, in the order of the text, and becomes a place. So the unit becomes a tree.
ghost use Rattle.std.specs.Prelude.{◌≡◌, ◌≢◌, ◌<◌, ◌||◌, [], ◌++◌, ℕ, Bool, not, nat_lt, List, Option, map, IfOk, IfErr};
ghost use Rattle.dcv_lexer.specs.Cuts.{Token};
ghost use Rattle.dcv_observer.specs.Left.{seen};
ghost use Rattle.dcv_observer.specs.declared.fault.ObsFault.TheVariants.{Names, Memory};
ghost use Rattle.dcv_c.specs.Placed.{bytes_of, unit_of};
ghost use Rattle.dcv_c.specs.Actions.{Spells};
ghost use Rattle.dcv_c.specs.Words.{AreWords};
ghost use Rattle.dcv_c.specs.Rules.{IsNamesFault, most_parameters};
ghost use Rattle.dcv_c_read.specs.Seen.{seen_unit};
ghost use Rattle.dcv_observer.specs.Judged.{Leads, IsLeft};

use crate::placed::PlacedUnit;
use crate::scope::Scope;
use dcv_c::{CUnit, ObsFault, Step};
use dcv_language::MOST_VARIABLES;
use dcv_observer::{Item, broken};
use dcv_syntax::Text;
use std::alloc::Global;

/// How many parameters a step may have.
const MOST_PARAMETERS: usize = MOST_VARIABLES;

// Whether a name at a place is one parameter too many.
fn is_beyond(place: usize, is_left: bool) -> bool
    ensures { result ≡ not (is_left || nat_lt place most_parameters) }
{
    !is_left && place >= MOST_PARAMETERS
}

impl<'a> Scope<'a> {
    ghost use Rattle.dcv_c_read.specs.Scope.{Frame, no_names, with_names, keeps_names, behind_reset, Knows};
    ghost use Rattle.dcv_c_read.specs.Contents.{first_fault_of, words_of_step, keeps_step, IsStepOf};

    // Declares statics or locals, to which numbers may be assigned, or parameters.
    fn declare_all(
        &mut self,
        alloc: Global,
        words: &[Item<'a>],
        are_left: bool,
    ) -> Result<Vec<Text>, ObsFault>
        ensures { (frame : Frame) → Knows frame self.old
            → (whole : Option ℕ) (others : List Token) (keeps : List Bool)
            → IsLeft whole (map seen words.now ++ others) (keeps_names are_left frame.earlier 0 (bytes_of (map seen words.now)) ++ keeps)
            → Leads whole (λ texts. (texts.items ≡ bytes_of (map seen words.now))
            × Knows (with_names are_left (bytes_of (map seen words.now)) frame) self.new
            × IsLeft whole others keeps) result }
    {
        let mut texts = Vec::new(alloc);
        for (place, word) in words.iter().enumerate() {
            if is_beyond(place, are_left) {
                return Err(broken(word));
            }
            self.declare(word, are_left)?;
            texts.push(Text::copy_of(alloc, word.bytes)?)?;
        }
        Ok(texts)
    }

    // The function that makes a step of a unit, whose statics are set. After it no word is to be judged.
    fn step(&mut self, alloc: Global, placed: &PlacedUnit<'a>) -> Result<Step, ObsFault>
        requires words { AreWords (seen_unit placed.now) }
        ensures { Knows (behind_reset (unit_of (seen_unit placed.now))) self.old
            → (whole : Option ℕ) → IsLeft whole (words_of_step (seen_unit placed.now)) (keeps_step (unit_of (seen_unit placed.now)))
            → Leads whole (λ made. IsStepOf (unit_of (seen_unit placed.now)) made × IsLeft whole [] []) result }
    {
        let step = &placed.step;
        self.function(&step.name)?;
        let name = Text::copy_of(alloc, step.name.bytes)?;
        let parameters = self.declare_all(alloc, &step.parameters, false)?;
        let locals = self.declare_all(alloc, &step.locals, true)?;
        let statements = self.statements(alloc, &step.statements)?;
        let returned = self.returned(alloc, &step.returned)?;
        Ok(Step {
            name,
            parameters,
            locals,
            statements,
            returned,
        })
    }

    // The whole unit, where no name is declared yet.
    fn unit(&mut self, alloc: Global, placed: &PlacedUnit<'a>) -> Result<CUnit, ObsFault>
        requires words { AreWords (seen_unit placed.now) }
        requires none { Knows no_names self.old }
        ensures { Leads (first_fault_of (seen_unit placed.now)) (λ unit. unit ≡ unit_of (seen_unit placed.now)) result }
    {
        let statics = self.declare_all(alloc, &placed.statics, true)?;
        let reset = self.reset(alloc, &placed.reset)?;
        let step = self.step(alloc, placed)?;
        Ok(CUnit::new(statics, reset, step))
    }
}

/// The unit of the tree of a unit in a text, and at the first of its words that breaks a rule of names the fault.
pub(crate) fn named(alloc: Global, placed: &PlacedUnit<'_>) -> Result<CUnit, ObsFault>
    requires spelled { (text : List ℕ) × Spells text (seen_unit placed.now) }
    ensures named { IfOk result (λ unit. unit ≡ unit_of (seen_unit placed.now)) }
    ensures fault { IfErr result (λ fault. fault ≢ Memory
        → (at : ℕ) × (fault ≡ Names at) × IsNamesFault (seen_unit placed.now) at) }
{
    let mut scope = Scope::new(alloc);
    let unit = scope.unit(alloc, placed);
    drop(scope);
    unit
}
