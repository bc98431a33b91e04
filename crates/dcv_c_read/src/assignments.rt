// The function that sets the statics: each assignment is that of a static without an earlier one.
ghost use Rattle.std.specs.Prelude.{◌≡◌, ◌++◌, ◌∷◌, [], ℕ, Bool, List, Option, map, not, ◌&&◌};
ghost use Rattle.std.specs.List.{list_all, AllByRecursion};
ghost use Rattle.dcv_lexer.specs.Cuts.{Token};
ghost use Rattle.dcv_observer.specs.Conditions.{Names as PlainNames};
ghost use Rattle.dcv_observer.specs.Left.{seen};
ghost use Rattle.dcv_observer.specs.Naming.{is_among};
ghost use Rattle.dcv_c.specs.Placed.{assignment_of};
ghost use Rattle.dcv_c.specs.Words.{AreWordsOfAssignment};
ghost use Rattle.dcv_c.specs.Seen.{seen_assignment as assignment_seen};
ghost use Rattle.dcv_c.specs.Rules.{keeps_new, keeps_assignments};
ghost use Rattle.dcv_c_read.specs.Seen.{seen_assignment};
ghost use Rattle.dcv_c_read.specs.Scope.{Frame, with_function, with_known, of_statics, Knows, KnowsAssigned, IsNamed};
ghost use Rattle.dcv_observer.specs.Judged.{Keeps, Leads, IsLeft};
ghost use Rattle.dcv_c_read.specs.Judged.{words_of_assignments, names_of_assignments};

use crate::placed::{PlacedAssignment, PlacedReset};
use crate::scope::Scope;
use dcv_c::{Assignment, ObsFault, Reset};
use dcv_observer::{Item as Word, broken, number_at};
use dcv_syntax::Text;
use std::alloc::Global;

impl<'a> Scope<'a> {
    // A static that is not assigned yet.
    fn unset(&self, word: &Word<'_>) -> Result<u32, ObsFault>
        ensures { (frame : Frame) → Knows frame self.now
            → Keeps word.now.start (is_among frame.lefts (seen word.now).bytes && keeps_new frame.known (seen word.now).bytes)
            (IsNamed frame.placed (seen word.now).bytes) result }
    {
        let Some(name) = self.find(word.bytes) else {
            return Err(broken(word));
        };
        if !name.is_left {
            return Err(broken(word));
        }
        if name.known {
            return Err(broken(word));
        }
        Ok(name.place)
    }

    // The next assignment.
    fn assignment(&mut self, assignment: &PlacedAssignment<'_>) -> Result<Assignment, ObsFault>
        requires { AreWordsOfAssignment (seen_assignment assignment.now) }
        ensures { (frame : Frame) → Knows frame self.old
            → (whole : Option ℕ) (words : List Token) (keeps : List Bool)
            → IsLeft whole ((seen_assignment assignment.now).name ∷ words)
            ((is_among frame.lefts (seen_assignment assignment.now).name.bytes && keeps_new frame.known (seen_assignment assignment.now).name.bytes) ∷ keeps)
            → Leads whole (λ made. ((more : PlainNames) → assignment_seen (frame.placed ++ more) made ≡ assignment_of (seen_assignment assignment.now))
            × Knows (with_known ((seen_assignment assignment.now).name.bytes ∷ frame.known) frame) self.new
            × IsLeft whole words keeps) result }
    {
        let name = self.unset(&assignment.name)?;
        self.mark(name);
        Ok(Assignment {
            name,
            number: number_at(&assignment.number),
        })
    }

    // All assignments, where no static is assigned yet. After them other words are to be judged.
    fn assignments(
        &mut self,
        alloc: Global,
        assignments: &[PlacedAssignment<'_>],
    ) -> Result<Vec<Assignment>, ObsFault>
        requires { AllByRecursion AreWordsOfAssignment (map seen_assignment assignments.now) }
        ensures { (frame : Frame) → Knows (with_known [] frame) self.old
            → (whole : Option ℕ) (words : List Token) (keeps : List Bool)
            → IsLeft whole (words_of_assignments (map seen_assignment assignments.now) ++ words)
            (keeps_assignments frame.lefts [] (map assignment_of (map seen_assignment assignments.now)) ++ keeps)
            → Leads whole (λ made. ((more : PlainNames) → map (assignment_seen (frame.placed ++ more)) made.items
            ≡ map assignment_of (map seen_assignment assignments.now))
            × KnowsAssigned frame (names_of_assignments (map assignment_of (map seen_assignment assignments.now))) self.new
            × IsLeft whole words keeps) result }
    {
        let mut all = Vec::new(alloc);
        for assignment in assignments {
            all.push(self.assignment(assignment)?)?;
        }
        Ok(all)
    }

    /// The function that sets the statics, of which none is assigned yet. After it all are.
    pub(crate) fn reset(
        &mut self,
        alloc: Global,
        reset: &PlacedReset<'a>,
    ) -> Result<Reset, ObsFault>
        requires { AllByRecursion AreWordsOfAssignment (map seen_assignment reset.now.assignments.items) }
        ensures { (statics : PlainNames) → Knows (of_statics statics) self.old
            → (whole : Option ℕ) (words : List Token) (keeps : List Bool)
            → IsLeft whole (seen reset.now.name ∷ (words_of_assignments (map seen_assignment reset.now.assignments.items) ++ (seen reset.now.end ∷ words)))
            (keeps_new statics (seen reset.now.name).bytes
            ∷ (keeps_assignments statics [] (map assignment_of (map seen_assignment reset.now.assignments.items))
            ++ (list_all (is_among (names_of_assignments (map assignment_of (map seen_assignment reset.now.assignments.items)))) statics ∷ keeps)))
            → Leads whole (λ made. (made.name ≡ (seen reset.now.name).bytes)
            × ((more : PlainNames) → map (assignment_seen (statics ++ more)) made.assignments.items
            ≡ map assignment_of (map seen_assignment reset.now.assignments.items))
            × Knows (with_known statics (with_function (seen reset.now.name).bytes (of_statics statics))) self.new
            × IsLeft whole words keeps) result }
    {
        self.function(&reset.name)?;
        let name = Text::copy_of(alloc, reset.name.bytes)?;
        let assignments = self.assignments(alloc, &reset.assignments)?;
        if !self.all_known() {
            return Err(broken(&reset.end));
        }
        Ok(Reset { name, assignments })
    }
}
