// What formulas are made of: a form for each token or rule, in a box where other forms may have it.
ghost use Rattle.std.specs.Prelude.{◌≡◌, ◌∷◌, ◌++◌, ◌<◌, [], List, length, map, IfOk};
ghost use Rattle.dcv_syntax.specs.Plain.{PlainFormulaOperand, formula_operands_of};
ghost use Rattle.dcv_syntax.specs.Views.{plain_prop, plain_formula_kind, plain_formula_operand};
ghost use Rattle.dcv_tokens.specs.Reading.{seen};
ghost use Rattle.dcv_tokens.specs.Tokens.{Token as TextToken, span_of};
ghost use Rattle.dcv_reader.specs.Nodes.{number_of, relation_of, bracket_of, count_of, unary_of, quantifier_of};
ghost use Rattle.dcv_reader.specs.Nodes.{bare, formula_list, implication, prefixed, starred, quantified, bracketed, formula_word, measure, formula_call};

use crate::name::name_of;
use crate::props::Arguments;
use dcv_syntax::{
    Bracket, Connective, Count, Formula, FormulaKind, FormulaOperand, Number, Prop, Quantifier,
    Relation, Span, Unary,
};
use dcv_tokens::Token;
use dcv_tokens::classes::*;
use std::alloc::{AllocError, Global};

// The lists of operands.
#[derive(Clone, Copy)]
pub(crate) enum FormulaList {
    Joined(Connective),
    Chop,
}

// A formula without parentheses of its own.
pub(crate) fn bare(kind: FormulaKind, span: Span) -> FormulaOperand
    ensures { plain_formula_operand result ≡ bare (plain_formula_kind kind) span }
{
    FormulaOperand {
        formula: Formula { kind, span },
        span,
    }
}

// The same in a box.
pub(crate) fn boxed(
    alloc: Global,
    kind: FormulaKind,
    span: Span,
) -> Result<Box<FormulaOperand>, AllocError>
    ensures { IfOk result (λ d. plain_formula_operand d.value ≡ bare (plain_formula_kind kind) span) }
{
    Ok(Box::new(alloc, bare(kind, span))?)
}

impl FormulaList {
    ghost use Rattle.dcv_reader.specs.Lists.{formula_list_kind};

    // The form of a list of operands.
    fn kind(self, operands: Vec<FormulaOperand>) -> FormulaKind
        ensures { plain_formula_kind result ≡ formula_list_kind self (formula_operands_of (map plain_formula_operand operands.items)) }
    {
        match self {
            FormulaList::Joined(connective) => FormulaKind::Joined(connective, operands),
            FormulaList::Chop => FormulaKind::Chop(operands),
        }
    }

    // What these operands come to.
    pub(crate) fn of(
        self,
        alloc: Global,
        operands: Vec<FormulaOperand>,
    ) -> Result<Box<FormulaOperand>, AllocError>
        requires { 0 < length operands.items }
        ensures { IfOk result (λ whole. (d : PlainFormulaOperand) (ds : List PlainFormulaOperand) →
            map plain_formula_operand operands.items ≡ d ∷ ds →
            plain_formula_operand whole.value ≡ formula_list (formula_list_kind self) d ds) }
    {
        let whole = self.whole(operands);
        Ok(Box::new(alloc, whole)?)
    }

    // One operand stands for itself, and more are a list.
    fn whole(self, operands: Vec<FormulaOperand>) -> FormulaOperand
        requires { 0 < length operands.items }
        ensures { (d : PlainFormulaOperand) (ds : List PlainFormulaOperand) → map plain_formula_operand operands.items ≡ d ∷ ds →
            plain_formula_operand result ≡ formula_list (formula_list_kind self) d ds }
    {
        let mut operands = operands;
        let last = operands.len() - 1;
        if last == 0 {
            return operands.remove(0);
        }
        let span = operands[0].span.to(operands[last].span);
        bare(self.kind(operands), span)
    }
}

// `=`, `<`, `<=`, `>` or `>=`
pub(crate) fn relation_of(sign: &Token) -> Relation
    ensures { result ≡ relation_of (seen sign.now) }
{
    match sign.class {
        LESS => Relation::Less,
        LESS_EQUALS => Relation::AtMost,
        GREATER => Relation::Greater,
        GREATER_EQUALS => Relation::AtLeast,
        _ => Relation::Equal,
    }
}

// `pt`, `ext`, `true` or `false`
pub(crate) fn word_kind(word: &Token) -> FormulaKind
    ensures { bare (plain_formula_kind result) (span_of (seen word.now)) ≡ formula_word (seen word.now) }
{
    match word.class {
        WORD_PT => FormulaKind::Pt,
        WORD_EXT => FormulaKind::Ext,
        class => FormulaKind::Constant(class == WORD_TRUE),
    }
}

pub(crate) fn bracketed(opening: &Token, inside: Prop, closing: &Token) -> FormulaOperand
    ensures { plain_formula_operand result ≡ bracketed (seen opening.now) (plain_prop inside) (seen closing.now) }
{
    let span = opening.span_to(closing);
    bare(FormulaKind::Bracketed(bracket_of(opening), inside), span)
}

// `<`, `[`, `[[` or `{{`
fn bracket_of(opening: &Token) -> Bracket
    ensures { result ≡ bracket_of (seen opening.now) }
{
    match opening.class {
        LESS => Bracket::Point,
        OPEN_BRACKET => Bracket::Run,
        OPEN_BRACKETS => Bracket::Every,
        _ => Bracket::Unit,
    }
}

pub(crate) fn measure(
    word: &Token,
    measured: Prop,
    relation: Relation,
    number: Number,
) -> FormulaOperand
    ensures { (digits : TextToken) → number ≡ number_of digits →
        plain_formula_operand result ≡ measure (seen word.now) (plain_prop measured) relation digits }
{
    let span = word.span().to(number.span);
    let counted = FormulaKind::Counted(count_of(word), measured, relation, number);
    bare(counted, span)
}

// `scount` or `sdur`
fn count_of(word: &Token) -> Count
    ensures { result ≡ count_of (seen word.now) }
{
    match word.class {
        WORD_SCOUNT => Count::Scount,
        _ => Count::Sdur,
    }
}

// A call of what a name stands for.
pub(crate) fn formula_call(
    alloc: Global,
    token: &Token,
    arguments: Arguments,
) -> Result<FormulaOperand, AllocError>
    ensures { IfOk result (λ d. plain_formula_operand d ≡ formula_call (seen token.now) (map plain_prop arguments.props.items) arguments.parentheses) }
{
    let span = arguments.call_span(token);
    let name = name_of(alloc, token)?;
    Ok(bare(FormulaKind::Call(name, arguments.props), span))
}

pub(crate) fn starred(
    alloc: Global,
    body: Box<FormulaOperand>,
    star: Span,
) -> Result<Box<FormulaOperand>, AllocError>
    ensures { IfOk result (λ d. plain_formula_operand d.value ≡ starred (plain_formula_operand body.value) star) }
{
    let span = body.span.to(star);
    let body = Box::new(alloc, Box::into_inner(body).formula)?;
    boxed(alloc, FormulaKind::Applied(Unary::Star, body), span)
}

// `!D`, `<>D` or `[]D`
pub(crate) fn prefixed(
    alloc: Global,
    sign: &Token,
    body: Box<FormulaOperand>,
) -> Result<Box<FormulaOperand>, AllocError>
    ensures { IfOk result (λ d. plain_formula_operand d.value ≡ prefixed (seen sign.now) (plain_formula_operand body.value)) }
{
    let span = sign.span().to(body.span);
    let body = Box::new(alloc, Box::into_inner(body).formula)?;
    boxed(alloc, FormulaKind::Applied(unary_of(sign), body), span)
}

// `!`, `<>` or `[]`
fn unary_of(sign: &Token) -> Unary
    ensures { result ≡ unary_of (seen sign.now) }
{
    match sign.class {
        EXCLAMATION => Unary::Not,
        DIAMOND => Unary::Somewhere,
        _ => Unary::Everywhere,
    }
}

// `ex p. D` or `all p. D`
pub(crate) fn quantified(
    alloc: Global,
    word: &Token,
    name: &Token,
    body: Box<FormulaOperand>,
) -> Result<Box<FormulaOperand>, AllocError>
    ensures { IfOk result (λ d. plain_formula_operand d.value ≡ quantified (seen word.now) (seen name.now) (plain_formula_operand body.value)) }
{
    let span = word.span().to(body.span);
    let body = Box::new(alloc, Box::into_inner(body).formula)?;
    let name = name_of(alloc, name)?;
    let quantified = FormulaKind::Quantified(quantifier_of(word), name, body);
    boxed(alloc, quantified, span)
}

// `ex` or `all`
fn quantifier_of(word: &Token) -> Quantifier
    ensures { result ≡ quantifier_of (seen word.now) }
{
    match word.class {
        WORD_EX => Quantifier::Exists,
        _ => Quantifier::ForAll,
    }
}

pub(crate) fn implication(
    alloc: Global,
    premise: Box<FormulaOperand>,
    conclusion: FormulaOperand,
) -> Result<Box<FormulaOperand>, AllocError>
    ensures { IfOk result (λ d. plain_formula_operand d.value
        ≡ implication (plain_formula_operand premise.value) (plain_formula_operand conclusion)) }
{
    let span = premise.span.to(conclusion.span);
    let premise = Box::new(alloc, Box::into_inner(premise).formula)?;
    let conclusion = Box::new(alloc, conclusion.formula)?;
    boxed(alloc, FormulaKind::Implies(premise, conclusion), span)
}
