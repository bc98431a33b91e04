// The equations of a node, one after another. After each its left side is known.
ghost use Rattle.std.specs.Prelude.{◌≡◌, ◌++◌, ◌∷◌, [], ℕ, Bool, List, Option, map};
ghost use Rattle.std.specs.List.{list_all, AllByRecursion};
ghost use Rattle.dcv_lexer.specs.Cuts.{Token};
ghost use Rattle.dcv_observer.specs.Conditions.{Names as PlainNames};
ghost use Rattle.dcv_lustre.specs.Placed.{right_of, equation_of};
ghost use Rattle.dcv_lustre.specs.Words.{AreWordsOfEquation};
ghost use Rattle.dcv_lustre.specs.Seen.{seen_kind, seen_equation as equation_seen};
ghost use Rattle.dcv_lustre.specs.Tree.{Node as PlainNode};
ghost use Rattle.dcv_lustre.specs.Meaning.{names_of};
ghost use Rattle.dcv_lustre.specs.Rules.{words_of_right, keeps_left, keeps_equation, keeps_equations, has_all_equations};
ghost use Rattle.dcv_lustre_read.specs.Seen.{seen_right, seen_equation};
ghost use Rattle.dcv_lustre_read.specs.Scope.{seen_row, as_known, fits_form, Knows, KnowsAll, IsFoundAs};
ghost use Rattle.dcv_observer.specs.Judged.{Keeps, Leads, IsLeft};
ghost use Rattle.dcv_lustre_read.specs.Judged.{words_of_equations};
ghost use Rattle.dcv_observer.specs.Rows.{changed};

use crate::placed::{PlacedEquation, PlacedRight};
use crate::scope::{Declaration, Scope};
use dcv_lustre::{Equation, Kind, ObsFault};
use dcv_observer::broken;
use std::alloc::Global;

impl Declaration {
    // Whether it may be on the left of this right side: tests are for truths alone.
    fn fits(&self, right: &PlacedRight<'_>) -> bool
        ensures { result ≡ fits_form (seen_kind self.now.kind) (right_of (seen_right right.now)) }
    {
        if let PlacedRight::Tested(_) = right {
            self.is_of(Kind::OfTruth)
        } else {
            true
        }
    }
}

impl<'a> Scope<'a> {
    // From now on the name at a place has an equation.
    fn mark(&mut self, place: u32)
        ensures declared { self.new.declared ≡ self.old.declared }
        ensures names { map seen_row self.new.names.items ≡ changed as_known place (map seen_row self.old.names.items) }
    {
        let place = place as usize;
        if place < self.names.len() {
            self.names[place].known = true;
        }
    }

    // The output or a local, without an earlier equation.
    fn left(&self, equation: &PlacedEquation<'_>) -> Result<Declaration, ObsFault>
        ensures { (node : PlainNode) (earlier : PlainNames) → Knows node earlier self.now.declared (map seen_row self.now.names.items)
            → Keeps equation.now.left.start (keeps_left node earlier (equation_of (seen_equation equation.now)))
            (λ found. IsFoundAs node earlier (seen_equation equation.now).left.bytes (seen_row found)) result }
    {
        let Some(name) = self.find(equation.left.bytes) else {
            return Err(broken(&equation.left));
        };
        if name.known {
            return Err(broken(&equation.left));
        }
        if !name.fits(&equation.right) {
            return Err(broken(&equation.left));
        }
        Ok(name)
    }

    // The next equation.
    fn equation(
        &mut self,
        alloc: Global,
        equation: &PlacedEquation<'_>,
    ) -> Result<Equation, ObsFault>
        requires { AreWordsOfEquation (seen_equation equation.now) }
        ensures { (node : PlainNode) (earlier : PlainNames) → Knows node earlier self.old.declared (map seen_row self.old.names.items)
            → (whole : Option ℕ) (words : List Token) (keeps : List Bool)
            → IsLeft whole ((seen_equation equation.now).left ∷ (words_of_right (seen_equation equation.now).right ++ words))
            (keeps_equation node earlier (equation_of (seen_equation equation.now)) ++ keeps)
            → Leads whole (λ seen. (equation_seen (names_of node) seen ≡ equation_of (seen_equation equation.now))
            × Knows node ((seen_equation equation.now).left.bytes ∷ earlier) self.new.declared (map seen_row self.new.names.items)
            × IsLeft whole words keeps) result }
    {
        let left = self.left(equation)?;
        let right = self.right(alloc, &equation.right, left.kind)?;
        self.mark(left.place);
        Ok(Equation {
            left: left.place,
            right,
        })
    }

    /// The equations of a node. After them other words are to be judged.
    pub(crate) fn equations(
        &mut self,
        alloc: Global,
        equations: &[PlacedEquation<'_>],
    ) -> Result<Vec<Equation>, ObsFault>
        requires { AllByRecursion AreWordsOfEquation (map seen_equation equations.now) }
        ensures { (node : PlainNode) → Knows node [] self.old.declared (map seen_row self.old.names.items)
            → (whole : Option ℕ) (words : List Token) (keeps : List Bool)
            → IsLeft whole (words_of_equations (map seen_equation equations.now) ++ words)
            (keeps_equations node [] (map equation_of (map seen_equation equations.now)) ++ keeps)
            → Leads whole (λ seen. (map (equation_seen (names_of node)) seen.items ≡ map equation_of (map seen_equation equations.now))
            × KnowsAll node (map equation_of (map seen_equation equations.now)) self.new.declared (map seen_row self.new.names.items)
            × IsLeft whole words keeps) result }
    {
        let mut all = Vec::with_capacity(alloc, equations.len())?;
        for equation in equations {
            all.push(self.equation(alloc, equation)?)?;
        }
        Ok(all)
    }

    /// Whether each local and the output has an equation.
    pub(crate) fn has_all_equations(&self) -> bool
        ensures { (node : PlainNode) → KnowsAll node node.equations self.now.declared (map seen_row self.now.names.items)
            → result ≡ has_all_equations node }
    {
        are_known(&self.names)
    }
}

fn are_known(names: &[Declaration]) -> bool
    ensures { result ≡ list_all (λ name. name.known) names.now }
{
    names.iter().all(|name| name.known)
}
