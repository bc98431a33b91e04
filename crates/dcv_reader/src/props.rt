// What propositions are made of: a form for each token or rule.
ghost use Rattle.std.specs.Prelude.{◌≡◌, ◌∷◌, ◌++◌, ◌<◌, [], List, length, map};
ghost use Rattle.dcv_syntax.specs.Plain.{PlainPropOperand};
ghost use Rattle.dcv_syntax.specs.Views.{plain_prop_kind, plain_prop_operand};
ghost use Rattle.std.specs.Prelude.{IfOk};
ghost use Rattle.dcv_syntax.specs.Views.{plain_prop};
ghost use Rattle.dcv_tokens.specs.Reading.{seen};
ghost use Rattle.dcv_reader.specs.Nodes.{bare_prop, prop_list, prop_constant, prop_call, prop_prefixed, prop_implication, direction_of};

use crate::name::name_of;
use dcv_syntax::{Connective, Direction, Prop, PropKind, PropOperand, Span};
use dcv_tokens::Token;
use dcv_tokens::classes::*;
use std::alloc::{AllocError, Global};

// A proposition without parentheses of its own.
pub(crate) fn bare_prop(kind: PropKind, span: Span) -> PropOperand
    ensures { plain_prop_operand result ≡ bare_prop (plain_prop_kind kind) span }
{
    PropOperand {
        prop: Prop { kind, span },
        span,
    }
}

// The same in a box.
fn boxed_prop(alloc: Global, kind: PropKind, span: Span) -> Result<Box<PropOperand>, AllocError>
    ensures { IfOk result (λ p. plain_prop_operand p.value ≡ bare_prop (plain_prop_kind kind) span) }
{
    Ok(Box::new(alloc, bare_prop(kind, span))?)
}

// What these operands come to.
pub(crate) fn listed_prop(
    alloc: Global,
    connective: Connective,
    operands: Vec<PropOperand>,
) -> Result<Box<PropOperand>, AllocError>
    requires { 0 < length operands.items }
    ensures { IfOk result (λ whole. (p : PlainPropOperand) (ps : List PlainPropOperand) →
        map plain_prop_operand operands.items ≡ p ∷ ps → plain_prop_operand whole.value ≡ prop_list connective p ps) }
{
    let whole = whole_prop(connective, operands);
    Ok(Box::new(alloc, whole)?)
}

// One operand stands for itself, and more are a list.
fn whole_prop(connective: Connective, operands: Vec<PropOperand>) -> PropOperand
    requires { 0 < length operands.items }
    ensures { (p : PlainPropOperand) (ps : List PlainPropOperand) → map plain_prop_operand operands.items ≡ p ∷ ps →
        plain_prop_operand result ≡ prop_list connective p ps }
{
    let mut operands = operands;
    let last = operands.len() - 1;
    if last == 0 {
        return operands.remove(0);
    }
    let span = operands[0].span.to(operands[last].span);
    bare_prop(PropKind::Joined(connective, operands), span)
}

/// The arguments of a call, and the span of their parentheses, if these stand there.
#[derive(Drop)]
pub(crate) struct Arguments {
    /// The arguments, in order.
    pub props: Vec<Prop>,
    /// The place of the parentheses around them, if there are any.
    pub parentheses: Option<Span>,
}

impl Arguments {
    ghost use Rattle.dcv_tokens.specs.Reading.{seen};
    ghost use Rattle.dcv_reader.specs.Nodes.{call_span};

    /// From the name to the last parenthesis.
    pub(crate) fn call_span(&self, name: &Token) -> Span
        ensures { result ≡ call_span (seen name.now) self.now.parentheses }
    {
        let span = name.span();
        match self.parentheses {
            None => span,
            Some(parentheses) => span.to(parentheses),
        }
    }
}

// `true` or `false`
pub(crate) fn prop_constant(constant: &Token) -> PropOperand
    ensures { plain_prop_operand result ≡ prop_constant (seen constant.now) }
{
    bare_prop(
        PropKind::Constant(constant.class == WORD_TRUE),
        constant.span(),
    )
}

// A call of what a name stands for.
pub(crate) fn prop_call(
    alloc: Global,
    token: &Token,
    arguments: Arguments,
) -> Result<Box<PropOperand>, AllocError>
    ensures { IfOk result (λ p. plain_prop_operand p.value
        ≡ prop_call (seen token.now) (map plain_prop arguments.props.items) arguments.parentheses) }
{
    let span = arguments.call_span(token);
    let name = name_of(alloc, token)?;
    boxed_prop(alloc, PropKind::Call(name, arguments.props), span)
}

// `!P`, `-P` or `+P`
pub(crate) fn prop_prefixed(
    alloc: Global,
    sign: &Token,
    operand: Box<PropOperand>,
) -> Result<Box<PropOperand>, AllocError>
    ensures { IfOk result (λ p. plain_prop_operand p.value ≡ prop_prefixed (seen sign.now) (plain_prop_operand operand.value)) }
{
    let span = sign.span().to(operand.span);
    let operand = Box::new(alloc, Box::into_inner(operand).prop)?;
    if sign.class == EXCLAMATION {
        return boxed_prop(alloc, PropKind::Not(operand), span);
    }
    boxed_prop(
        alloc,
        PropKind::Shifted(direction_of(sign), span, operand),
        span,
    )
}

// `-` or `+`
fn direction_of(sign: &Token) -> Direction
    ensures { result ≡ direction_of (seen sign.now) }
{
    match sign.class {
        MINUS => Direction::Prior,
        _ => Direction::Next,
    }
}

pub(crate) fn prop_implication(
    alloc: Global,
    premise: Box<PropOperand>,
    conclusion: PropOperand,
) -> Result<Box<PropOperand>, AllocError>
    ensures { IfOk result (λ p. plain_prop_operand p.value
        ≡ prop_implication (plain_prop_operand premise.value) (plain_prop_operand conclusion)) }
{
    let span = premise.span.to(conclusion.span);
    let premise = Box::new(alloc, Box::into_inner(premise).prop)?;
    let conclusion = Box::new(alloc, conclusion.prop)?;
    boxed_prop(alloc, PropKind::Implies(premise, conclusion), span)
}
