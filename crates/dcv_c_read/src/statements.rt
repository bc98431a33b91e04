// The statements of a step and what it returns: each word is judged, and each name becomes a place.
ghost use Rattle.std.specs.Prelude.{◌≡◌, ◌++◌, ◌∷◌, [], ℕ, Bool, List, Option, map, option_map};
ghost use Rattle.std.specs.List.{AllByRecursion};
ghost use Rattle.dcv_lexer.specs.Cuts.{Token};
ghost use Rattle.dcv_observer.specs.Conditions.{name_at, seen_condition, seen_test as test_seen};
ghost use Rattle.dcv_observer.specs.Left.{seen};
ghost use Rattle.dcv_observer.specs.Naming.{is_among};
ghost use Rattle.dcv_c.specs.Tree.{CUnit as PlainUnit};
ghost use Rattle.dcv_c.specs.Placed.{item_at, condition_of, test_of, right_of, statement_of, returned_of, PlacedAssign};
ghost use Rattle.dcv_c.specs.Words.{IsItemWord, IsNumberOrNone, AreWordsOfTest, AreWordsOfRight, AreWordsOfStatement, AreWordsOfReturned};
ghost use Rattle.dcv_c.specs.Seen.{seen_item, seen_right as right_seen, seen_statement as statement_seen, seen_returned as returned_seen};
ghost use Rattle.dcv_c.specs.Rules.{keeps_item, keeps_condition, keeps_right, keeps_statement, keeps_statements, keeps_returned};
ghost use Rattle.dcv_c.specs.Rules.{known_after, words_of_right, words_of_statement, words_of_returned};
ghost use Rattle.dcv_c_read.specs.Seen.{seen_test, seen_right, seen_when, seen_statement, seen_returned};
ghost use Rattle.dcv_c_read.specs.Scope.{Frame, with_known, Knows, KnowsMore, IsNamed};
ghost use Rattle.dcv_observer.specs.Judged.{Keeps, Leads, IsLeft};
ghost use Rattle.dcv_c_read.specs.Judged.{words_of_statements, words_of_tests, keeps_tests};

use crate::placed::{PlacedReturned, PlacedRight, PlacedStatement, PlacedTest, PlacedWhen};
use crate::scope::Scope;
use dcv_c::{Condition, Item, ObsFault, Returned, Right, Statement, Test};
use dcv_observer::{Item as Word, broken, is_number, number_at};
use std::alloc::Global;

impl<'a> Scope<'a> {
    // A name that is read.
    fn name(&self, word: &Word<'_>) -> Result<u32, ObsFault>
        ensures { (frame : Frame) → Knows frame self.now
            → Keeps word.now.start (is_among frame.known (seen word.now).bytes) (λ place. name_at frame.placed place ≡ (seen word.now).bytes) result }
    {
        let Some(name) = self.find(word.bytes) else {
            return Err(broken(word));
        };
        if !name.known {
            return Err(broken(word));
        }
        Ok(name.place)
    }

    // A static or a local, which is assigned.
    fn left(&self, word: &Word<'_>) -> Result<u32, ObsFault>
        ensures { (frame : Frame) → Knows frame self.now
            → Keeps word.now.start (is_among frame.lefts (seen word.now).bytes) (IsNamed frame.placed (seen word.now).bytes) result }
    {
        let Some(name) = self.find(word.bytes) else {
            return Err(broken(word));
        };
        if !name.is_left {
            return Err(broken(word));
        }
        Ok(name.place)
    }

    fn item(&self, word: &Word<'_>) -> Result<Item, ObsFault>
        requires { IsItemWord (seen word.now) }
        ensures { (frame : Frame) → Knows frame self.now
            → Keeps word.now.start (keeps_item frame.known (item_at (seen word.now)))
            (λ item. seen_item frame.placed item ≡ item_at (seen word.now)) result }
    {
        if is_number(word.bytes) {
            Ok(Item::Constant(number_at(word)))
        } else {
            Ok(Item::Named(self.name(word)?))
        }
    }

    fn condition(&self, name: &Word<'_>, number: &Option<Word<'_>>) -> Result<Condition, ObsFault>
        requires { IsNumberOrNone (option_map seen number.now) }
        ensures { (frame : Frame) → Knows frame self.now
            → Keeps name.now.start (keeps_condition frame.known (condition_of (seen name.now).bytes (option_map seen number.now)))
            (λ condition. seen_condition frame.placed condition ≡ condition_of (seen name.now).bytes (option_map seen number.now)) result }
    {
        match number {
            None => Ok(Condition::Holds(self.name(name)?)),
            Some(number) => {
                let place = self.name(name)?;
                Ok(Condition::Equals(place, number_at(number)))
            }
        }
    }

    fn right(&self, right: &PlacedRight<'_>) -> Result<Right, ObsFault>
        requires { AreWordsOfRight (seen_right right.now) }
        ensures { (frame : Frame) → Knows frame self.now
            → (whole : Option ℕ) (words : List Token) (keeps : List Bool)
            → IsLeft whole (words_of_right (seen_right right.now) ++ words) (keeps_right frame.known (right_of (seen_right right.now)) ++ keeps)
            → Leads whole (λ made. (right_seen frame.placed made ≡ right_of (seen_right right.now)) × IsLeft whole words keeps) result }
    {
        match right {
            PlacedRight::Plain(item) => Ok(Right::Plain(self.item(item)?)),
            PlacedRight::Chosen(name, choice) => {
                let condition = self.condition(name, &choice.number)?;
                let item = self.item(&choice.item)?;
                let otherwise = self.item(&choice.otherwise)?;
                Ok(Right::Chosen(condition, item, otherwise))
            }
        }
    }

    // `left = right;`, after which the left side is known.
    fn assign(&mut self, left: &Word<'_>, right: &PlacedRight<'_>) -> Result<Statement, ObsFault>
        requires { AreWordsOfRight (seen_right right.now) }
        ensures { (frame : Frame) → Knows frame self.old
            → (whole : Option ℕ) (words : List Token) (keeps : List Bool)
            → IsLeft whole (seen left.now ∷ (words_of_right (seen_right right.now) ++ words))
            (is_among frame.lefts (seen left.now).bytes ∷ (keeps_right frame.known (right_of (seen_right right.now)) ++ keeps))
            → Leads whole (λ made. (statement_seen frame.placed made ≡ statement_of (PlacedAssign (seen left.now) (seen_right right.now)))
            × Knows (with_known ((seen left.now).bytes ∷ frame.known) frame) self.new
            × IsLeft whole words keeps) result }
    {
        let place = self.left(left)?;
        let right = self.right(right)?;
        self.mark(place);
        Ok(Statement::Assign(place, right))
    }

    // `if (condition) left = item;`, after which nothing else is known than before.
    fn when(&self, made: &PlacedWhen<'_>) -> Result<Statement, ObsFault>
        requires { AreWordsOfStatement (seen_when made.now) }
        ensures { (frame : Frame) → Knows frame self.now
            → (whole : Option ℕ) (words : List Token) (keeps : List Bool)
            → IsLeft whole (seen made.now.name ∷ seen made.now.left ∷ seen made.now.item ∷ words)
            (keeps_condition frame.known (condition_of (seen made.now.name).bytes (option_map seen made.now.number))
            ∷ is_among frame.lefts (seen made.now.left).bytes ∷ keeps_item frame.known (item_at (seen made.now.item)) ∷ keeps)
            → Leads whole (λ seen. (statement_seen frame.placed seen ≡ statement_of (seen_when made.now)) × IsLeft whole words keeps) result }
    {
        let condition = self.condition(&made.name, &made.number)?;
        let left = self.left(&made.left)?;
        let item = self.item(&made.item)?;
        Ok(Statement::When(condition, left, item))
    }

    // The next statement.
    fn statement(&mut self, statement: &PlacedStatement<'_>) -> Result<Statement, ObsFault>
        requires { AreWordsOfStatement (seen_statement statement.now) }
        ensures { (frame : Frame) → Knows frame self.old → (unit : PlainUnit) → frame.lefts ≡ unit.statics ++ unit.locals
            → (whole : Option ℕ) (words : List Token) (keeps : List Bool)
            → IsLeft whole (words_of_statement (seen_statement statement.now) ++ words)
            (keeps_statement unit frame.known (statement_of (seen_statement statement.now)) ++ keeps)
            → Leads whole (λ made. (statement_seen frame.placed made ≡ statement_of (seen_statement statement.now))
            × Knows (with_known (known_after frame.known (statement_of (seen_statement statement.now))) frame) self.new
            × IsLeft whole words keeps) result }
    {
        match statement {
            PlacedStatement::Assign(left, right) => self.assign(left, right),
            PlacedStatement::When(made) => self.when(made),
        }
    }

    /// The statements of a step. After them comes the returned number.
    pub(crate) fn statements(
        &mut self,
        alloc: Global,
        statements: &[PlacedStatement<'_>],
    ) -> Result<Vec<Statement>, ObsFault>
        requires { AllByRecursion AreWordsOfStatement (map seen_statement statements.now) }
        ensures { (frame : Frame) → Knows frame self.old → (unit : PlainUnit) → frame.lefts ≡ unit.statics ++ unit.locals
            → (whole : Option ℕ) (words : List Token)
            → IsLeft whole (words_of_statements (map seen_statement statements.now) ++ words)
            (keeps_statements unit frame.known (map statement_of (map seen_statement statements.now)))
            → Leads whole (λ made. (map (statement_seen frame.placed) made.items ≡ map statement_of (map seen_statement statements.now))
            × KnowsMore unit frame whole words self.new) result }
    {
        let mut all = Vec::with_capacity(alloc, statements.len())?;
        for statement in statements {
            all.push(self.statement(statement)?)?;
        }
        Ok(all)
    }

    fn test(&self, test: &PlacedTest<'_>) -> Result<Test, ObsFault>
        requires { AreWordsOfTest (seen_test test.now) }
        ensures { (frame : Frame) → Knows frame self.now
            → Keeps test.now.name.start (is_among frame.known (seen_test test.now).name.bytes)
            (λ made. test_seen frame.placed made ≡ test_of (seen_test test.now)) result }
    {
        let name = self.name(&test.name)?;
        Ok(Test {
            name,
            number: number_at(&test.number),
        })
    }

    // The tests of a result, after which no word is to be judged.
    fn tests(&self, alloc: Global, tests: &[PlacedTest<'_>]) -> Result<Vec<Test>, ObsFault>
        requires { AllByRecursion AreWordsOfTest (map seen_test tests.now) }
        ensures { (frame : Frame) → Knows frame self.now
            → (whole : Option ℕ)
            → IsLeft whole (words_of_tests (map seen_test tests.now)) (keeps_tests frame.known (map test_of (map seen_test tests.now)))
            → Leads whole (λ made. (map (test_seen frame.placed) made.items ≡ map test_of (map seen_test tests.now)) × IsLeft whole [] []) result }
    {
        let mut all = Vec::new(alloc);
        for test in tests {
            all.push(self.test(test)?)?;
        }
        Ok(all)
    }

    /// The returned number of a step, which comes last.
    pub(crate) fn returned(
        &self,
        alloc: Global,
        returned: &PlacedReturned<'_>,
    ) -> Result<Returned, ObsFault>
        requires { AreWordsOfReturned (seen_returned returned.now) }
        ensures { (frame : Frame) → Knows frame self.now
            → (whole : Option ℕ)
            → IsLeft whole (words_of_returned (seen_returned returned.now)) (keeps_returned frame.known (returned_of (seen_returned returned.now)))
            → Leads whole (λ made. (returned_seen frame.placed made ≡ returned_of (seen_returned returned.now)) × IsLeft whole [] []) result }
    {
        match returned {
            PlacedReturned::Fixed(number) => Ok(Returned::Fixed(number_at(number))),
            PlacedReturned::Read(name) => Ok(Returned::Read(self.name(name)?)),
            PlacedReturned::Tested(tests) => Ok(Returned::Tested(self.tests(alloc, tests)?)),
        }
    }
}
