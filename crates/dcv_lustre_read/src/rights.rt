// The right sides of equations: each word is judged, and each name becomes a place.
ghost use Rattle.std.specs.Prelude.{◌≡◌, ◌++◌, ◌∷◌, ℕ, Bool, List, Option, map, option_map};
ghost use Rattle.std.specs.List.{flat_map, AllByRecursion};
ghost use Rattle.dcv_lexer.specs.Cuts.{Token};
ghost use Rattle.dcv_observer.specs.Left.{seen};
ghost use Rattle.dcv_lustre.specs.Placed.{item_at, condition_of, arm_of, test_of, right_of};
ghost use Rattle.dcv_lustre.specs.Words.{IsItemWord, IsNumberOrNone, AreWordsOfArm, AreWordsOfTest, AreWordsOfRight};
ghost use Rattle.dcv_observer.specs.Conditions.{Names as PlainNames, name_at, seen_condition, seen_test as test_seen};
ghost use Rattle.dcv_observer.specs.Naming.{is_among};
ghost use Rattle.dcv_lustre.specs.Seen.{seen_kind, seen_item, seen_arm as arm_seen, seen_right as right_seen};
ghost use Rattle.dcv_lustre.specs.Tree.{Node as PlainNode, OfNumber};
ghost use Rattle.dcv_lustre.specs.Meaning.{names_of};
ghost use Rattle.dcv_lustre.specs.Rules.{names_of_kind, keeps_name, keeps_item, keeps_condition, keeps_arm, keeps_right};
ghost use Rattle.dcv_lustre.specs.Rules.{words_of_right};
ghost use Rattle.dcv_lustre_read.specs.Seen.{seen_arm, seen_test, seen_right};
ghost use Rattle.dcv_lustre_read.specs.Scope.{seen_row, Knows};
ghost use Rattle.dcv_observer.specs.Judged.{Keeps, Leads, IsLeft};
ghost use Rattle.dcv_lustre_read.specs.Judged.{words_of_arms, words_of_tests, keeps_tests};

use crate::constants::{is_constant, is_of_kind, value_at};
use crate::placed::{PlacedArm, PlacedRight, PlacedTest};
use crate::scope::Scope;
use dcv_lustre::{Arm, Condition, Item, Kind, ObsFault, Right, Test};
use dcv_observer::{Item as Word, broken, number_at};
use std::alloc::Global;

impl<'a> Scope<'a> {
    // A name that an equation may read at the same instant.
    fn name(&self, word: &Word<'_>, kind: Kind) -> Result<u32, ObsFault>
        ensures { (node : PlainNode) (earlier : PlainNames) → Knows node earlier self.now.declared (map seen_row self.now.names.items)
            → Keeps word.now.start (keeps_name node (node.inputs ++ earlier) (seen_kind kind) (seen word.now).bytes)
            (λ place. name_at (names_of node) place ≡ (seen word.now).bytes) result }
    {
        let Some(name) = self.find(word.bytes) else {
            return Err(broken(word));
        };
        if !name.reads_as(kind) {
            return Err(broken(word));
        }
        Ok(name.place)
    }

    // A name after `pre`, which may have its equation later.
    fn delayed(&self, word: &Word<'_>, kind: Kind) -> Result<u32, ObsFault>
        ensures { (node : PlainNode) (earlier : PlainNames) → Knows node earlier self.now.declared (map seen_row self.now.names.items)
            → Keeps word.now.start (is_among (names_of_kind (seen_kind kind) node) (seen word.now).bytes)
            (λ place. name_at (names_of node) place ≡ (seen word.now).bytes) result }
    {
        let Some(name) = self.find(word.bytes) else {
            return Err(broken(word));
        };
        if !name.is_of(kind) {
            return Err(broken(word));
        }
        Ok(name.place)
    }

    fn item(&self, word: &Word<'_>, kind: Kind) -> Result<Item, ObsFault>
        requires { IsItemWord (seen word.now) }
        ensures { (node : PlainNode) (earlier : PlainNames) → Knows node earlier self.now.declared (map seen_row self.now.names.items)
            → Keeps word.now.start (keeps_item node (node.inputs ++ earlier) (seen_kind kind) (item_at (seen word.now)))
            (λ item. seen_item (names_of node) item ≡ item_at (seen word.now)) result }
    {
        if is_constant(word) {
            let value = value_at(word);
            if !is_of_kind(kind, value) {
                return Err(broken(word));
            }
            Ok(Item::Constant(value))
        } else {
            Ok(Item::Named(self.name(word, kind)?))
        }
    }

    fn condition(&self, name: &Word<'_>, number: &Option<Word<'_>>) -> Result<Condition, ObsFault>
        requires { IsNumberOrNone (option_map seen number.now) }
        ensures { (node : PlainNode) (earlier : PlainNames) → Knows node earlier self.now.declared (map seen_row self.now.names.items)
            → Keeps name.now.start (keeps_condition node (node.inputs ++ earlier) (condition_of (seen name.now).bytes (option_map seen number.now)))
            (λ condition. seen_condition (names_of node) condition ≡ condition_of (seen name.now).bytes (option_map seen number.now)) result }
    {
        match number {
            None => Ok(Condition::Holds(self.name(name, Kind::OfTruth)?)),
            Some(number) => {
                let place = self.name(name, Kind::OfNumber)?;
                Ok(Condition::Equals(place, number_at(number)))
            }
        }
    }

    fn arm(&self, arm: &PlacedArm<'_>, kind: Kind) -> Result<Arm, ObsFault>
        requires { AreWordsOfArm (seen_arm arm.now) }
        ensures { (node : PlainNode) (earlier : PlainNames) → Knows node earlier self.now.declared (map seen_row self.now.names.items)
            → (whole : Option ℕ) (words : List Token) (keeps : List Bool)
            → IsLeft whole ((seen_arm arm.now).name ∷ (seen_arm arm.now).item ∷ words)
            (keeps_arm node (node.inputs ++ earlier) (seen_kind kind) (arm_of (seen_arm arm.now)) ++ keeps)
            → Leads whole (λ seen. (arm_seen (names_of node) seen ≡ arm_of (seen_arm arm.now)) × IsLeft whole words keeps) result }
    {
        let condition = self.condition(&arm.name, &arm.number)?;
        let item = self.item(&arm.item, kind)?;
        Ok(Arm { condition, item })
    }

    fn test(&self, test: &PlacedTest<'_>) -> Result<Test, ObsFault>
        requires { AreWordsOfTest (seen_test test.now) }
        ensures { (node : PlainNode) (earlier : PlainNames) → Knows node earlier self.now.declared (map seen_row self.now.names.items)
            → Keeps test.now.name.start (keeps_name node (node.inputs ++ earlier) OfNumber (seen_test test.now).name.bytes)
            (λ seen. test_seen (names_of node) seen ≡ test_of (seen_test test.now)) result }
    {
        let name = self.name(&test.name, Kind::OfNumber)?;
        Ok(Test {
            name,
            number: number_at(&test.number),
        })
    }

    // The arms of a choice. After them other words are to be judged.
    fn arms(&self, alloc: Global, arms: &[PlacedArm<'_>], kind: Kind) -> Result<Vec<Arm>, ObsFault>
        requires { AllByRecursion AreWordsOfArm (map seen_arm arms.now) }
        ensures { (node : PlainNode) (earlier : PlainNames) → Knows node earlier self.now.declared (map seen_row self.now.names.items)
            → (whole : Option ℕ) (words : List Token) (keeps : List Bool)
            → IsLeft whole (words_of_arms (map seen_arm arms.now) ++ words)
            (flat_map (keeps_arm node (node.inputs ++ earlier) (seen_kind kind)) (map arm_of (map seen_arm arms.now)) ++ keeps)
            → Leads whole (λ seen. (map (arm_seen (names_of node)) seen.items ≡ map arm_of (map seen_arm arms.now)) × IsLeft whole words keeps) result }
    {
        let mut all = Vec::with_capacity(alloc, arms.len())?;
        for arm in arms {
            all.push(self.arm(arm, kind)?)?;
        }
        Ok(all)
    }

    fn tests(&self, alloc: Global, tests: &[PlacedTest<'_>]) -> Result<Vec<Test>, ObsFault>
        requires { AllByRecursion AreWordsOfTest (map seen_test tests.now) }
        ensures { (node : PlainNode) (earlier : PlainNames) → Knows node earlier self.now.declared (map seen_row self.now.names.items)
            → (whole : Option ℕ) (words : List Token) (keeps : List Bool)
            → IsLeft whole (words_of_tests (map seen_test tests.now) ++ words)
            (keeps_tests node (node.inputs ++ earlier) (map test_of (map seen_test tests.now)) ++ keeps)
            → Leads whole (λ seen. (map (test_seen (names_of node)) seen.items ≡ map test_of (map seen_test tests.now)) × IsLeft whole words keeps) result }
    {
        let mut all = Vec::with_capacity(alloc, tests.len())?;
        for test in tests {
            all.push(self.test(test)?)?;
        }
        Ok(all)
    }

    pub(crate) fn right(
        &self,
        alloc: Global,
        right: &PlacedRight<'_>,
        kind: Kind,
    ) -> Result<Right, ObsFault>
        requires { AreWordsOfRight (seen_right right.now) }
        ensures { (node : PlainNode) (earlier : PlainNames) → Knows node earlier self.now.declared (map seen_row self.now.names.items)
            → (whole : Option ℕ) (words : List Token) (keeps : List Bool)
            → IsLeft whole (words_of_right (seen_right right.now) ++ words)
            (keeps_right node (node.inputs ++ earlier) (seen_kind kind) (right_of (seen_right right.now)) ++ keeps)
            → Leads whole (λ seen. (right_seen (names_of node) seen ≡ right_of (seen_right right.now)) × IsLeft whole words keeps) result }
    {
        match right {
            PlacedRight::Delayed(first, source) => {
                let value = value_at(first);
                if !is_of_kind(kind, value) {
                    return Err(broken(first));
                }
                Ok(Right::Delayed(value, self.delayed(source, kind)?))
            }
            PlacedRight::Chosen(arms, otherwise) => {
                let arms = self.arms(alloc, arms, kind)?;
                Ok(Right::Chosen(arms, self.item(otherwise, kind)?))
            }
            PlacedRight::Tested(tests) => Ok(Right::Tested(self.tests(alloc, tests)?)),
        }
    }
}
