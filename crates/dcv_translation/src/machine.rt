// The machine: a reader's stack that also has the ends of the bodies that are open, and the parts that were made.
ghost use Rattle.std.specs.Prelude.{◌≡◌, ◌<◌, ◌≤◌, ◌++◌, ◌∷◌, [], List, ℕ, Some, length, map, take, drop, reverse, slice_get, IfOk, IfSome, OnOk, option_map};
ghost use Rattle.dcv_grammar.specs.Grammar.{grammar_of, Production, IsSentence};
ghost use Rattle.dcv_grammar.specs.Machine.{Follows};
ghost use Rattle.dcv_grammar.specs.Picked.{body_for};
ghost use Rattle.dcv_grammar.specs.Predictive.{IsPredictive};
ghost use Rattle.dcv_translation.specs.Scheme.{parts_of_token, IsOfBody};
ghost use Rattle.dcv_translation.specs.UnderWay.{step_of, symbols_of, IsUnderWay, IsReady, Advances, Takes};
ghost use Rattle.dcv_translation.specs.declared.machine.Step.TheVariants.{Rule as RuleStep, Close as CloseStep};

use crate::body::Body;
use crate::translation::Translation;
use dcv_grammar::grammar::{ContextFree, Symbol};
use std::alloc::{AllocError, Global};

// What is still to be done.
#[derive(Clone, Copy)]
pub(crate) enum Step {
    // A token of this class is to come.
    Class(u8),
    // What the rule of this number derives is to come.
    Rule(u8),
    // A body of the rule ends, and the parts from the first one on are its own.
    Close { rule: u8, first: usize },
}

/// It takes the tokens of a text one after another, and keeps what is still to be done, and what was made.
// The last step is the next, and the last part was made last.
#[derive(Drop)]
pub struct Machine<'a, 't, T: Translation<'a>> {
    // the actions
    translation: &'t T,
    // what is read by
    grammar: ContextFree<'a>,
    // what is still to be done, the next last
    steps: Vec<Step>,
    // the parts that were made, the newest last
    parts: Vec<T::Part>,
    // of the rule whose action comes next
    body: Body<T::Part>,
}

impl<'a, 't, T: Translation<'a>> Machine<'a, 't, T> {
    /// The start is to come.
    pub fn new(alloc: Global, translation: &'t T) -> Result<Self, AllocError>
        ensures grammar { IfOk result (λ machine. grammar_of machine.grammar ≡ T.scheme.grammar) }
        ensures predictive { OnOk result (IsPredictive T.scheme.grammar) }
        ensures steps { IfOk result (λ machine. machine.steps.items ≡ RuleStep T.scheme.grammar.start ∷ []) }
        ensures parts { IfOk result (λ machine. machine.parts.items ≡ []) }
    {
        let grammar = *translation.grammar();
        let mut steps = Vec::new(alloc);
        steps.push(Step::Rule(grammar.start))?;
        Ok(Machine {
            translation,
            grammar,
            steps,
            parts: Vec::new(alloc),
            body: Body::new(alloc),
        })
    }

    /// Takes the next token, and returns whether a sentence may go on with it.
    pub fn take(&mut self, class: u8, token: T::Token) -> Result<bool, AllocError>
        requires grammar { grammar_of self.old.grammar ≡ T.scheme.grammar }
        requires predictive { IsPredictive T.scheme.grammar }
        requires class { class ≡ T.scheme.class (T.seen token) }
        requires ready { IsReady T.scheme (reverse self.old.steps.items) (map T.meaning self.old.parts.items) }
        ensures grammar { self.new.grammar ≡ self.old.grammar }
        ensures taken { IfOk result (λ taken. Takes T.scheme (T.seen token) taken (reverse self.old.steps.items) (map T.meaning self.old.parts.items)
            (reverse self.new.steps.items) (map T.meaning self.new.parts.items)) }
    {
        let wanted = self.advance(Some(class))?;
        if wanted != Some(class) {
            return Ok(false);
        }
        self.add(class, token)?;
        Ok(true)
    }

    // Adds what a token stands for, if it stands for anything.
    fn add(&mut self, class: u8, token: T::Token) -> Result<(), AllocError>
        ensures grammar { self.new.grammar ≡ self.old.grammar }
        ensures steps { self.new.steps.items ≡ self.old.steps.items }
        ensures parts { OnOk result (map T.meaning self.new.parts.items
            ≡ map T.meaning self.old.parts.items ++ parts_of_token T.scheme class (T.seen token)) }
    {
        if !self.translation.has_part(class) {
            return Ok(());
        }
        self.parts.reserve(1)?;
        self.parts.push_reserved(self.translation.token(token));
        Ok(())
    }

    /// The part of the whole after the last token, where it ends a sentence.
    pub fn finish(mut self) -> Result<Option<T::Part>, AllocError>
        requires grammar { grammar_of self.grammar ≡ T.scheme.grammar }
        requires predictive { IsPredictive T.scheme.grammar }
        requires ready { IsReady T.scheme (reverse self.steps.items) (map T.meaning self.parts.items) }
        ensures ended { IfOk result (λ found. IfSome found (λ _. (done : List ℕ)
            → Follows T.scheme.grammar done (symbols_of (reverse self.entry.steps.items)) → IsSentence T.scheme.grammar done)) }
        ensures whole { IfOk result (λ found. (whole : T.Meaning)
            → IsUnderWay T.scheme (reverse self.entry.steps.items) (map T.meaning self.entry.parts.items) [] (whole ∷ [])
            → option_map T.meaning found ≡ Some whole) }
    {
        if self.advance(None)?.is_some() {
            return Ok(None);
        }
        Ok(self.parts.pop())
    }

    // Takes steps until a class comes, which is taken off, or until there is none.
    fn advance(&mut self, next: Option<u8>) -> Result<Option<u8>, AllocError>
        requires grammar { grammar_of self.old.grammar ≡ T.scheme.grammar }
        requires predictive { IsPredictive T.scheme.grammar }
        requires ready { IsReady T.scheme (reverse self.old.steps.items) (map T.meaning self.old.parts.items) }
        ensures grammar { self.new.grammar ≡ self.old.grammar }
        ensures advances { IfOk result (λ wanted. Advances T.scheme next (reverse self.old.steps.items) (map T.meaning self.old.parts.items)
            wanted (reverse self.new.steps.items) (map T.meaning self.new.parts.items)) }
    {
        while let Some(step) = self.steps.pop() {
            match step {
                Step::Class(class) => return Ok(Some(class)),
                Step::Rule(number) => self.open(number, next)?,
                Step::Close { rule, first } => self.close(rule, first)?,
            }
        }
        Ok(None)
    }

    // The body of a rule that the next class picks is to come, and then its end.
    fn open(&mut self, number: u8, next: Option<u8>) -> Result<(), AllocError>
        requires { number < length (grammar_of self.old.grammar).productions }
        ensures grammar { self.new.grammar ≡ self.old.grammar }
        ensures parts { self.new.parts ≡ self.old.parts }
        ensures steps { OnOk result ((rule : Production) → slice_get (grammar_of self.old.grammar).productions number ≡ Some rule
            → reverse self.new.steps.items ≡ map step_of (body_for rule next)
            ++ CloseStep number (length self.old.parts.items) ∷ reverse self.old.steps.items) }
    {
        self.steps.push(Step::Close {
            rule: number,
            first: self.parts.len(),
        })?;
        push_steps(&mut self.steps, self.grammar.rule(number).body_for(next))?;
        Ok(())
    }

    // The parts from the first one on become one.
    fn close(&mut self, rule: u8, first: usize) -> Result<(), AllocError>
        requires first { first ≤ length self.old.parts.items }
        requires body { IsOfBody T.scheme rule (drop first (map T.meaning self.old.parts.items)) }
        ensures grammar { self.new.grammar ≡ self.old.grammar }
        ensures steps { self.new.steps ≡ self.old.steps }
        ensures parts { OnOk result (map T.meaning self.new.parts.items
            ≡ take first (map T.meaning self.old.parts.items)
            ++ T.scheme.action rule (drop first (map T.meaning self.old.parts.items)) ∷ []) }
    {
        self.body.refill(&mut self.parts, first)?;
        self.parts.reserve(1)?;
        // `?` would move the part once more.
        match self.translation.rule(rule, &mut self.body) {
            Ok(part) => {
                self.parts.push_reserved(part);
                Ok(())
            }
            Err(error) => Err(error),
        }
    }
}

// Pushes the steps of symbols, that of the first one last.
fn push_steps(steps: &mut Vec<Step>, symbols: &[Symbol]) -> Result<(), AllocError>
    ensures { OnOk result (steps.new.items ≡ steps.old.items ++ map step_of (reverse symbols.now)) }
{
    for symbol in symbols.iter().rev() {
        steps.push(step_of(*symbol))?;
    }
    Ok(())
}

// A symbol that is to come.
fn step_of(symbol: Symbol) -> Step
    ensures { result ≡ step_of symbol }
{
    match symbol {
        Symbol::Class(class) => Step::Class(class),
        Symbol::Rule(number) => Step::Rule(number),
    }
}
