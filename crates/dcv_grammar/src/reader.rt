//! The predictive reader: it says whether a list of tokens is a sentence, and else where its first fault is.
//!
//! It is the table-driven LL(1) reader, with a stack of the symbols that are still to come. It takes each token once, and
//! looks through the bodies of a rule one after another.

ghost use Rattle.std.specs.Prelude.{◌≡◌, ◌++◌, ◌∷◌, [], ℕ, List, Option, IfOk, OnOk, map, reverse};
ghost use Rattle.dcv_grammar.specs.Grammar.{grammar_of, IsReached, IsVerdict};
ghost use Rattle.dcv_grammar.specs.Predictive.{IsPredictive};
ghost use Rattle.dcv_grammar.specs.Machine.{Wants};

use crate::grammar::{Classified, ContextFree, Symbol};
use std::alloc::{AllocError, Global};

/// What may still come after the classes that were taken. It keeps a stack, and no list of tokens.
///
/// After a refusal, or running out of memory, nothing more is known of it.
#[derive(Drop)]
pub struct Reading<'g> {
    // what is read by
    grammar: ContextFree<'g>,
    // what is still to come, the next symbol last
    stack: Vec<Symbol>,
}

impl<'g> Reading<'g> {
    ghost use Rattle.dcv_grammar.specs.Taking.{HasTaken, IsTaken, IsEnded};

    /// Nothing was taken yet.
    pub fn new(alloc: Global, grammar: ContextFree<'g>) -> Result<Self, AllocError>
        requires { IsPredictive (grammar_of grammar) }
        ensures grammar { IfOk result (λ reading. reading.grammar ≡ grammar.entry) }
        ensures taken { IfOk result (λ reading. HasTaken reading []) }
    {
        let mut stack = Vec::new(alloc);
        stack.push(Symbol::Rule(grammar.start))?;
        Ok(Reading { grammar, stack })
    }

    /// Takes a class, and tells whether a sentence may begin with all that were taken.
    pub fn take(&mut self, class: u8) -> Result<bool, AllocError>
        requires predictive { IsPredictive (grammar_of self.old.grammar) }
        requires some { (taken : List ℕ) × HasTaken self.old taken }
        ensures grammar { self.new.grammar ≡ self.old.grammar }
        ensures taken { IfOk result (λ viable. (taken : List ℕ) → HasTaken self.old taken →
            IsTaken viable self.new (taken ++ class ∷ [])) }
    {
        let wanted = wanted_class(&self.grammar, &mut self.stack, Some(class))?;
        Ok(wanted == Some(class))
    }

    /// Whether what was taken is a sentence.
    pub fn end(&mut self) -> Result<bool, AllocError>
        requires predictive { IsPredictive (grammar_of self.old.grammar) }
        requires some { (taken : List ℕ) × HasTaken self.old taken }
        ensures { IfOk result (λ whole. (taken : List ℕ) → HasTaken self.old taken →
            IsEnded whole (grammar_of self.old.grammar) taken) }
    {
        let wanted = wanted_class(&self.grammar, &mut self.stack, None)?;
        Ok(wanted.is_none())
    }
}

/// Where the first fault of the tokens is, or none in a sentence. What is before the fault is the beginning of a
/// sentence, and with the token at it no more; at the length of the list the tokens merely stop too early.
///
/// What is still to come stands on a stack on the heap, so a long or deeply nested list does not grow the call stack.
pub fn first_fault<T: Classified>(
    alloc: Global,
    grammar: &ContextFree<'_>,
    tokens: &[T],
) -> Result<Option<usize>, AllocError>
    requires { IsPredictive (grammar_of grammar.now) }
    ensures verdict { IfOk result (IsVerdict (grammar_of grammar.now) (map T.class_of tokens.now)) }
    ensures only { IfOk result (λ found. (other : Option ℕ) →
        IsVerdict (grammar_of grammar.now) (map T.class_of tokens.now) other → other ≡ found) }
{
    let mut reading = Reading::new(alloc, *grammar)?;
    for (place, token) in tokens.iter().enumerate() {
        if !reading.take(token.class())? {
            return Ok(Some(place));
        }
    }
    if !reading.end()? {
        return Ok(Some(tokens.len()));
    }
    Ok(None)
}

// Takes bodies in the place of their rules, as the next class picks them, until a class is on top, and takes it off.
fn wanted_class(
    grammar: &ContextFree<'_>,
    stack: &mut Vec<Symbol>,
    next: Option<u8>,
) -> Result<Option<u8>, AllocError>
    requires predictive { IsPredictive (grammar_of grammar.now) }
    requires reached { IsReached (grammar_of grammar.now) (reverse stack.old.items) }
    ensures { IfOk result (λ wanted.
        Wants (grammar_of grammar.now) next (reverse stack.old.items) wanted (reverse stack.new.items)) }
{
    while let Some(symbol) = stack.pop() {
        match symbol {
            Symbol::Class(class) => return Ok(Some(class)),
            Symbol::Rule(number) => {
                push_symbols(stack, grammar.rule(number).body_for(next))?;
            }
        }
    }
    Ok(None)
}

// Pushes symbols, the first one on top.
fn push_symbols(stack: &mut Vec<Symbol>, symbols: &[Symbol]) -> Result<(), AllocError>
    ensures { OnOk result (reverse stack.new.items ≡ symbols.now ++ reverse stack.old.items) }
{
    for symbol in symbols.iter().rev() {
        stack.push(*symbol)?;
    }
    Ok(())
}
