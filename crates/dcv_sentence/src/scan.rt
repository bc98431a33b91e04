// A text cut into tokens, and its faults of each kind.
ghost use Rattle.std.specs.Prelude.{◌≡◌, ◌^◌, ◌<◌, length, map, find, option_map, IfOk};
ghost use Rattle.dcv_grammar.specs.Grammar.{IsVerdict};
ghost use Rattle.dcv_tokens.specs.Classes.{class_of};
ghost use Rattle.dcv_tokens.specs.Limits.{is_long, is_large};
ghost use Rattle.dcv_tokens.specs.Reading.{seen};
ghost use Rattle.dcv_sentence.specs.Language.{language};
ghost use Rattle.dcv_sentence.specs.Faults.{earlier_of};

use crate::faults::ReadFault;
use crate::language::language;
use dcv_grammar::reader::first_fault;
use dcv_tokens::{Token, Tokens};
use std::alloc::{AllocError, Global};

// How many nesting tokens a definition or the goal may have.
const DEEPEST: u32 = 500;

/// A text with its tokens, and the rest that is cut into none: it is empty, or begins with the byte fault.
#[derive(Drop)]
pub struct Scan<'a> {
    /// The whole text.
    pub text: &'a [u8],
    /// Its tokens, as far as it could be cut.
    pub tokens: Vec<Token<'a>>,
    /// What is left after them.
    pub rest: &'a [u8],
}

// Where the first word is that is too long.
fn long_word(tokens: &[Token]) -> Option<u32>
    ensures { result ≡ option_map (λ token. token.start) (find (λ token. is_long (seen token)) tokens.now) }
{
    tokens
        .iter()
        .find(|token| token.is_long())
        .map(|token| token.start)
}

// Where the first number is that is too large.
fn large_number(tokens: &[Token]) -> Option<u32>
    ensures { result ≡ option_map (λ token. token.start) (find (λ token. is_large (seen token)) tokens.now) }
{
    tokens
        .iter()
        .find(|token| token.is_large())
        .map(|token| token.start)
}

// Where the tokens first are no beginning of a sentence, or the end where they merely stop too early.
fn misplaced(alloc: Global, tokens: &[Token]) -> Result<Option<usize>, AllocError>
    ensures { IfOk result (IsVerdict language (map (λ token. class_of token.bytes.now) tokens.now)) }
{
    first_fault(alloc, language(), tokens)
}

// The left fault, unless the right one is at a lesser offset.
fn earlier_of(left: Option<ReadFault>, right: Option<ReadFault>) -> Option<ReadFault>
    ensures { result ≡ earlier_of left right }
{
    match (left, right) {
        (Some(first), Some(second)) if second.offset() < first.offset() => right,
        (Some(_), _) => left,
        (None, _) => right,
    }
}

impl<'a> Scan<'a> {
    ghost use Rattle.dcv_sentence.specs.Scanning.{IsScanned, IsNoted, IsFirstIfAny};

    /// The text, cut into its tokens.
    pub fn of(alloc: Global, text: &'a [u8]) -> Result<Scan<'a>, AllocError>
        requires { length text.now < 2 ^ 32 }
        ensures text { IfOk result (λ scan. scan.text.now ≡ text.now) }
        ensures scanned { IfOk result IsScanned }
    {
        let mut source = Tokens::new(text);
        let mut tokens = Vec::new(alloc);
        while let Some(token) = source.next() {
            tokens.push(token)?;
        }
        Ok(Scan {
            text,
            tokens,
            rest: source.rest(),
        })
    }

    // Where no token begins.
    fn byte_fault(&self) -> Option<ReadFault>
        requires scanned { IsScanned self.now }
        requires in_range { length self.now.text.now < 2 ^ 32 }
        ensures { IsNoted ReadFault.Byte self.now result }
    {
        if self.rest.is_empty() {
            return None;
        }
        Some(ReadFault::Byte {
            at: (self.text.len() - self.rest.len()) as u32,
        })
    }

    // The first word that is too long.
    fn name_fault(&self) -> Option<ReadFault>
        ensures { IsNoted ReadFault.Name self.now result }
    {
        let at = long_word(&self.tokens)?;
        Some(ReadFault::Name { at })
    }

    // The first number that is too large.
    fn number_fault(&self) -> Option<ReadFault>
        ensures { IsNoted ReadFault.Number self.now result }
    {
        let at = large_number(&self.tokens)?;
        Some(ReadFault::Number { at })
    }

    // The first misplaced token, or the end of a whole text that ends too early.
    fn syntax_fault(&self, alloc: Global) -> Result<Option<ReadFault>, AllocError>
        requires { length self.now.text.now < 2 ^ 32 }
        ensures { IfOk result (IsNoted ReadFault.Syntax self.now) }
    {
        let Some(place) = misplaced(alloc, &self.tokens)? else {
            return Ok(None);
        };
        if place < self.tokens.len() {
            return Ok(Some(ReadFault::Syntax {
                at: self.tokens[place].start,
            }));
        }
        if !self.rest.is_empty() {
            return Ok(None);
        }
        Ok(Some(ReadFault::Syntax {
            at: self.text.len() as u32,
        }))
    }

    // The first token that is nested too deeply.
    fn nest_fault(&self) -> Option<ReadFault>
        ensures { IsNoted ReadFault.Nest self.now result }
    {
        let mut depth = 0;
        for token in &self.tokens {
            if token.begins_part() {
                depth = 0;
            } else if token.nests() {
                depth += 1;
            }
            if depth > DEEPEST {
                return Some(ReadFault::Nest { at: token.start });
            }
        }
        None
    }

    /// The first fault of the text.
    pub fn first_fault(&self, alloc: Global) -> Result<Option<ReadFault>, AllocError>
        requires scanned { IsScanned self.now }
        requires in_range { length self.now.text.now < 2 ^ 32 }
        ensures { IfOk result (IsFirstIfAny self.now.text.now) }
    {
        let fault = earlier_of(self.byte_fault(), self.name_fault());
        let fault = earlier_of(fault, self.number_fault());
        let fault = earlier_of(fault, self.syntax_fault(alloc)?);
        Ok(earlier_of(fault, self.nest_fault()))
    }
}
