// The core of the goal: a walk over the text, in which a call goes on in the body of its macro.
ghost use Rattle.std.specs.Prelude.{◌≡◌, ◌<◌, ◌≤◌, ◌+◌, ◌^◌, ◌++◌, [], length, map, false, Some, None, IfOk, MatchOption};
ghost use Rattle.std.specs.Option.{option_map};
ghost use Rattle.dcv_syntax.specs.Spans.{covering};
ghost use Rattle.dcv_syntax.specs.Views.{plain_prop_kind, plain_formula_kind, plain_macro, plain_file};
ghost use Rattle.dcv_logic.specs.Environment.{found};
ghost use Rattle.dcv_syntax.specs.declared.propositions.Connective.TheVariants.{Or};
ghost use Rattle.dcv_core.specs.Core.{TruthConstant, TruthNot, TruthJoined, TruthShift, no_truths, truth_operand, BasicConstant, BasicBracketed, BasicCounted};
ghost use Rattle.dcv_core.specs.Core.{CoreAtom, CoreNot, CoreJoined, CoreStar, CoreExists};
ghost use Rattle.dcv_scope.specs.CoreOf.{bind_slot, bind_arguments, declared_slots, truth_of_call, truth_of};
ghost use Rattle.dcv_scope.specs.CoreOf.{core_of_macro, somewhere_core, core_of, list_core, expanded_file};
ghost use Rattle.dcv_scope.specs.Measures.{measure_of_file};
ghost use Rattle.dcv_scope.specs.Linear.{AreMeasuresOf, variables_alone};
ghost use Rattle.dcv_core.specs.Steps.{Made, HasRoom, IsChoppedRound, without_core, steps_of};
ghost use Rattle.dcv_core.specs.StepViews.{plain_operator};
ghost use Rattle.dcv_core.specs.TruthViews.{plain_truth, plain_basic, truths_of};
ghost use Rattle.dcv_scope.specs.Names.{texts};
ghost use Rattle.dcv_scope.specs.Faults.{most_nodes, most_slots};
ghost use Rattle.dcv_scope.specs.Expansions.{meant, names_of, sight_of, top_sight_of, IsSight, IsCalled, used_from, truths_in};
ghost use Rattle.dcv_scope.specs.Expansions.{AreRelays};
ghost use Rattle.dcv_scope.specs.Expansions.{join_of, join_op, unit_of, operands_of};

mod relays;

use self::relays::relays_of;
use crate::measures::MacroMeasure;
use dcv_core::{Basic, Core, Operator, Truth};
use dcv_logic::newest;
use dcv_syntax::{
    Bracket, Connective, Direction, File, Formula, FormulaKind, FormulaOperand, Macro, MacroBody,
    Name, Prop, PropKind, PropOperand, Quantifier, Span, Text, Unary,
};
use std::alloc::{AllocError, Global};

// What a name stands for.
#[derive(Clone, Copy, Drop)]
enum Meaning<'a> {
    Slot(u8),
    Argument(&'a Truth),
}

impl Meaning<'_> {
    fn truth(&self, alloc: Global) -> Result<Truth, AllocError>
        ensures { IfOk result (λ truth. plain_truth truth ≡ meant self.now) }
    {
        match self {
            Meaning::Slot(slot) => Ok(Truth::Slot(*slot)),
            Meaning::Argument(truth) => truth.copy(alloc),
        }
    }
}

#[derive(Clone, Copy, Drop)]
struct Binding<'a> {
    // the name
    name: &'a Name,
    // the slot, or the argument, that it stands for
    meaning: Meaning<'a>,
}

// What is in sight at a form.
#[derive(Drop)]
struct Sight<'a> {
    // where what is made is allocated
    alloc: Global,
    // How many slots are in use.
    slots: u8,
    // Declared variables, parameters and quantified names, the newest first.
    names: Vec<Binding<'a>>,
    // the declared variables
    variables: &'a [Name],
    // The macros before this one, in order, with their measures, and the places to which relays hand on.
    macros: &'a [Macro],
    // the numbers that measure each macro
    measures: &'a [MacroMeasure],
    // for each macro the argument that it hands on, if it does nothing else
    relays: &'a [Option<usize>],
}

// A macro that is called, and what its body sees: the declared variables and the macros before it.
#[derive(Drop)]
struct Called<'a> {
    // the macro
    defined: &'a Macro,
    // its measure
    measure: &'a MacroMeasure,
    // the declared variables
    variables: &'a [Name],
    // the macros before it
    macros: &'a [Macro],
    // the measures of these
    measures: &'a [MacroMeasure],
    // the places to which these hand on, if they are relays
    relays: &'a [Option<usize>],
}

// These names, and then the declared variables.
fn with_variables<'a>(
    mut names: Vec<Binding<'a>>,
    variables: &'a [Name],
) -> Result<Vec<Binding<'a>>, AllocError>
    requires { length variables.now < 256 }
    ensures { IfOk result (λ all. names_of all.items ≡ names_of names.entry.items ++ declared_slots 0 variables.now) }
{
    for (slot, name) in variables.iter().enumerate() {
        names.push(Binding {
            name,
            meaning: Meaning::Slot(slot as u8),
        })?;
    }
    Ok(names)
}

impl<'a> Called<'a> {
    // What the macro's body sees, where its parameters stand for these arguments.
    fn inside(
        &self,
        alloc: Global,
        slots: u8,
        arguments: &'a [Truth],
    ) -> Result<Sight<'a>, AllocError>
        requires few { length self.now.variables.now < 256 }
        requires measured { AreMeasuresOf (variables_alone self.now.variables.now) (map plain_macro self.now.macros.now) self.now.measures.now }
        requires relays { AreRelays self.now.variables.now self.now.macros.now self.now.relays.now }
        ensures sight { IfOk result (λ inner. sight_of inner ≡ record (bind_arguments
            (top_sight_of self.now.variables.now self.now.macros.now)
            (texts self.now.defined.now.parameters.items) (map plain_truth arguments.now)) { slots = slots }) }
        ensures macros { IfOk result (λ inner. inner.macros.now ≡ self.now.macros.now) }
        ensures is_sight { IfOk result IsSight }
    {
        let mut names = Vec::new(alloc);
        for (parameter, argument) in self.defined.parameters.iter().zip(arguments) {
            names.push(Binding {
                name: parameter,
                meaning: Meaning::Argument(argument),
            })?;
        }
        Ok(Sight {
            alloc,
            slots,
            names: with_variables(names, self.variables)?,
            variables: self.variables,
            macros: self.macros,
            measures: self.measures,
            relays: self.relays,
        })
    }
}

impl<'a> Sight<'a> {
    // What the name stands for as a variable, parameter or quantified name.
    fn meaning(&self, name: &Text) -> Option<Meaning<'a>>
        ensures { option_map meant result ≡ found (sight_of self.now).truths name.now }
    {
        let binding = self
            .names
            .iter()
            .find(|binding| binding.name.text == *name)?;
        Some(binding.meaning)
    }

    // The macro that a name stands for.
    fn called(&self, name: &Text) -> Option<Called<'a>>
        requires is_sight { IsSight self.now }
        ensures { MatchOption result
            (found (sight_of self.now).macros name.now ≡ None)
            (IsCalled self.now name.now) }
    {
        let Some((defined, macros)) = newest(self.macros, name) else {
            return None;
        };
        Some(Called {
            defined,
            measure: &self.measures[macros.len()],
            variables: self.variables,
            macros,
            measures: &self.measures[..macros.len()],
            relays: self.relays,
        })
    }

    // The proposition over slots that a proposition stands for.
    #[inline(always)]
    #[cycle(truths)]
    fn prop(&self, prop: &Prop) -> Result<Truth, AllocError>
        requires is_sight { IsSight self.now }
        ensures { IfOk result (λ truth. plain_truth truth
            ≡ truth_of (sight_of self.now) (plain_prop_kind prop.now.kind)) }
    {
        self.form(self.behind(prop))
    }

    // The same, in the form in which it is written.
    #[cycle(truths)]
    #[tactic(auto, using(crate::proofs::TextRows::prop_rows))]
    fn form(&self, prop: &Prop) -> Result<Truth, AllocError>
        requires is_sight { IsSight self.now }
        ensures { IfOk result (λ truth. plain_truth truth
            ≡ truth_of (sight_of self.now) (plain_prop_kind prop.now.kind)) }
    {
        match &prop.kind {
            PropKind::Constant(truth) => Ok(Truth::Constant(*truth)),
            PropKind::Call(name, arguments) => self.named(name, arguments),
            PropKind::Not(operand) => self.opposite(operand),
            PropKind::Joined(connective, operands) => {
                Ok(Truth::Joined(*connective, self.prop_operands(operands)?))
            }
            PropKind::Implies(premise, conclusion) => self.implication(premise, conclusion),
            PropKind::Shifted(direction, form, operand) => self.shifted(*direction, operand, *form),
        }
    }

    // `!P`
    #[cycle(truths)]
    fn opposite(&self, prop: &Prop) -> Result<Truth, AllocError>
        requires is_sight { IsSight self.now }
        ensures { IfOk result (λ truth. plain_truth truth
            ≡ TruthNot (truth_of (sight_of self.now) (plain_prop_kind prop.now.kind))) }
    {
        Ok(Truth::Not(Box::new(self.alloc, self.prop(prop)?)?))
    }

    // `-P` or `+P`, which has this span
    #[cycle(truths)]
    fn shifted(&self, direction: Direction, prop: &Prop, span: Span) -> Result<Truth, AllocError>
        requires is_sight { IsSight self.now }
        ensures { IfOk result (λ truth. plain_truth truth
            ≡ TruthShift direction (truth_of (sight_of self.now) (plain_prop_kind prop.now.kind)) span) }
    {
        Ok(Truth::Shift(direction, Box::new(self.alloc, self.prop(prop)?)?, span))
    }

    // `P => Q`, which is `!P || Q`
    #[cycle(truths)]
    fn implication(&self, premise: &Prop, conclusion: &Prop) -> Result<Truth, AllocError>
        requires is_sight { IsSight self.now }
        ensures { IfOk result (λ truth. plain_truth truth ≡ TruthJoined Or (truth_operand
            (TruthNot (truth_of (sight_of self.now) (plain_prop_kind premise.now.kind))) (truth_operand
            (truth_of (sight_of self.now) (plain_prop_kind conclusion.now.kind)) no_truths))) }
    {
        let mut operands = Vec::new(self.alloc);
        operands.push(self.opposite(premise)?)?;
        operands.push(self.prop(conclusion)?)?;
        Ok(Truth::Joined(Connective::Or, operands))
    }

    // A name with its arguments: a variable, parameter or quantified name hides a macro.
    #[cycle(truths)]
    fn named(&self, name: &Name, arguments: &[Prop]) -> Result<Truth, AllocError>
        requires is_sight { IsSight self.now }
        ensures { IfOk result (λ truth. plain_truth truth ≡ truth_of_call
            (found (sight_of self.now).truths name.now.text) (found (sight_of self.now).macros name.now.text)
            (truths_in (sight_of self.now) arguments.now)) }
    {
        if let Some(meaning) = self.meaning(&name.text) {
            return if arguments.is_empty() {
                meaning.truth(self.alloc)
            } else {
                Ok(Truth::Constant(false))
            };
        }
        let Some(called) = self.called(&name.text) else {
            return Ok(Truth::Constant(false));
        };
        match &called.defined.body {
            MacroBody::Formula(_) => Ok(Truth::Constant(false)),
            MacroBody::Prop(body) => {
                let arguments = self.arguments(called.measure, arguments)?;
                let inside = called.inside(self.alloc, self.slots, &arguments)?;
                inside.prop(body)
            }
        }
    }

    // The arguments of a macro. One that the macro does not use is left out.
    #[cycle(truths)]
    fn arguments(
        &self,
        measure: &MacroMeasure,
        arguments: &[Prop],
    ) -> Result<Vec<Truth>, AllocError>
        requires is_sight { IsSight self.now }
        ensures { IfOk result (λ truths. map plain_truth truths.items
            ≡ used_from measure.now 0 (truths_in (sight_of self.now) arguments.now)) }
    {
        let mut truths = Vec::new(self.alloc);
        for (place, argument) in arguments.iter().enumerate() {
            let truth = if measure.uses(place) {
                self.prop(argument)?
            } else {
                Truth::Constant(false)
            };
            truths.push(truth)?;
        }
        Ok(truths)
    }

    // The operands of a list.
    #[cycle(truths)]
    fn prop_operands(&self, operands: &[PropOperand]) -> Result<Vec<Truth>, AllocError>
        requires is_sight { IsSight self.now }
        ensures { IfOk result (λ truths. map plain_truth truths.items
            ≡ map (λ o. truth_of (sight_of self.now) (plain_prop_kind o.prop.kind)) operands.now) }
    {
        let mut truths = Vec::new(self.alloc);
        for operand in operands {
            truths.push(self.prop(&operand.prop)?)?;
        }
        Ok(truths)
    }
}

// From the first operand to another, the parentheses of both in it.
fn reach(first: &FormulaOperand, last: &FormulaOperand) -> Span
    ensures { result ≡ covering first.now.span last.now.span }
{
    first.span.to(last.span)
}

// What joins two formulas of a list: a connective, or a chop where there is none.
fn join(connective: Option<Connective>, first: u32, second: u32) -> Operator
    ensures { plain_operator result ≡ join_op connective first second }
{
    match connective {
        Some(connective) => Operator::Joined(connective, first, second),
        None => Operator::Chop(first, second),
    }
}

// What a list without operands stands for.
fn unit(connective: Option<Connective>) -> Basic
    ensures { plain_basic result ≡ unit_of connective }
{
    match connective {
        Some(connective) => Basic::Constant(connective != Connective::Or),
        None => Basic::Bracketed(Bracket::Point, Truth::Constant(true)),
    }
}

impl<'a> Sight<'a> {
    // What is in sight after a quantifier.
    fn bind(&self, name: &'a Name) -> Result<Sight<'a>, AllocError>
        requires slots { self.now.slots + 1 < 256 }
        requires is_sight { IsSight self.now }
        ensures sight { IfOk result (λ inner. sight_of inner ≡ bind_slot (sight_of self.now) name.now.text) }
        ensures macros { IfOk result (λ inner. inner.macros.now ≡ self.now.macros.now) }
        ensures is_sight { IfOk result IsSight }
    {
        let mut names = Vec::new(self.alloc);
        names.push(Binding {
            name,
            meaning: Meaning::Slot(self.slots),
        })?;
        for outer in &self.names {
            names.push(*outer)?;
        }
        Ok(Sight {
            names,
            slots: self.slots + 1,
            ..*self
        })
    }

    // A form without a formula in it.
    fn atom(&self, basic: Basic, span: Span, core: &mut Core) -> Result<u32, AllocError>
        requires { HasRoom core.old self.now.slots (CoreAtom (plain_basic basic) span) }
        ensures { IfOk result (Made core.old self.now.slots (CoreAtom (plain_basic basic) span) core.new) }
    {
        core.push(Operator::Atom(basic), span, self.slots)
    }

    // The end of `true ^ D ^ true`, after `true` and D.
    fn chop_round(
        &self,
        before: u32,
        part: u32,
        span: Span,
        core: &mut Core,
    ) -> Result<u32, AllocError>
        requires { length core.old.steps + 3 < 2 ^ 32 }
        ensures { IfOk result (IsChoppedRound core.old before part span self.now.slots core.new) }
    {
        let first = core.push(Operator::Chop(before, part), span, self.slots)?;
        let second = self.atom(Basic::Constant(true), span, core)?;
        core.push(Operator::Chop(first, second), span, self.slots)
    }

    // Adds the steps of a formula, and gives the number of the last.
    #[cycle(cores)]
    #[tactic(auto, using(crate::proofs::TextRows::formula_rows))]
    fn formula(&self, formula: &'a Formula, core: &mut Core) -> Result<u32, AllocError>
        requires is_sight { IsSight self.now }
        requires room { HasRoom core.old self.now.slots
            (core_of (sight_of self.now) (plain_formula_kind formula.now.kind) formula.now.span) }
        ensures { IfOk result (Made core.old self.now.slots
            (core_of (sight_of self.now) (plain_formula_kind formula.now.kind) formula.now.span) core.new) }
    {
        let span = formula.span;
        match &formula.kind {
            FormulaKind::Constant(truth) => self.atom(Basic::Constant(*truth), span, core),
            FormulaKind::Pt => self.atom(
                Basic::Bracketed(Bracket::Point, Truth::Constant(true)),
                span,
                core,
            ),
            FormulaKind::Ext => self.atom(
                Basic::Bracketed(Bracket::Run, Truth::Constant(true)),
                span,
                core,
            ),
            FormulaKind::Bracketed(bracket, prop) => {
                self.atom(Basic::Bracketed(*bracket, self.prop(prop)?), span, core)
            }
            FormulaKind::Slen(relation, number) => {
                self.atom(Basic::Slen(*relation, number.value), span, core)
            }
            FormulaKind::Counted(count, prop, relation, number) => {
                let truth = self.prop(prop)?;
                self.atom(
                    Basic::Counted(*count, truth, *relation, number.value),
                    span,
                    core,
                )
            }
            FormulaKind::Call(name, arguments) => self.call(name, arguments, span, core),
            FormulaKind::Applied(unary, body) => match unary {
                Unary::Not => self.not(body, span, core),
                Unary::Star => self.star(body, span, core),
                Unary::Somewhere => self.somewhere(body, span, core),
                Unary::Everywhere => self.everywhere(body, span, core),
            },
            FormulaKind::Joined(connective, operands) => {
                self.list(Some(*connective), operands, span, core)
            }
            FormulaKind::Implies(premise, conclusion) => {
                self.implies(premise, conclusion, span, core)
            }
            FormulaKind::Chop(operands) => self.list(None, operands, span, core),
            FormulaKind::Quantified(quantifier, name, body) => match quantifier {
                Quantifier::Exists => self.exists(name, body, span, core),
                Quantifier::ForAll => self.for_all(name, body, span, core),
            },
        }
    }

    // `f(P, Q, ..)`
    #[cycle(cores)]
    fn call(
        &self,
        name: &Name,
        arguments: &[Prop],
        span: Span,
        core: &mut Core,
    ) -> Result<u32, AllocError>
        requires is_sight { IsSight self.now }
        requires room { HasRoom core.old self.now.slots (core_of_macro (found (sight_of self.now).macros name.now.text)
            self.now.slots (truths_in (sight_of self.now) arguments.now) span) }
        ensures { IfOk result (Made core.old self.now.slots (core_of_macro (found (sight_of self.now).macros name.now.text)
            self.now.slots (truths_in (sight_of self.now) arguments.now) span) core.new) }
    {
        let Some(called) = self.called(&name.text) else {
            return self.atom(Basic::Constant(false), span, core);
        };
        match &called.defined.body {
            MacroBody::Prop(_) => self.atom(Basic::Constant(false), span, core),
            MacroBody::Formula(body) => {
                let arguments = self.arguments(called.measure, arguments)?;
                let inside = called.inside(self.alloc, self.slots, &arguments)?;
                inside.formula(body, core)
            }
        }
    }

    // `!D`
    #[cycle(cores)]
    fn not(&self, body: &'a Formula, span: Span, core: &mut Core) -> Result<u32, AllocError>
        requires is_sight { IsSight self.now }
        requires room { HasRoom core.old self.now.slots
            (CoreNot (core_of (sight_of self.now) (plain_formula_kind body.now.kind) body.now.span) span) }
        ensures { IfOk result (Made core.old self.now.slots
            (CoreNot (core_of (sight_of self.now) (plain_formula_kind body.now.kind) body.now.span) span) core.new) }
    {
        let operand = self.formula(body, core)?;
        core.push(Operator::Not(operand), span, self.slots)
    }

    // `D*`
    #[cycle(cores)]
    fn star(&self, body: &'a Formula, span: Span, core: &mut Core) -> Result<u32, AllocError>
        requires is_sight { IsSight self.now }
        requires room { HasRoom core.old self.now.slots
            (CoreStar (core_of (sight_of self.now) (plain_formula_kind body.now.kind) body.now.span) span) }
        ensures { IfOk result (Made core.old self.now.slots
            (CoreStar (core_of (sight_of self.now) (plain_formula_kind body.now.kind) body.now.span) span) core.new) }
    {
        let operand = self.formula(body, core)?;
        core.push(Operator::Star(operand), span, self.slots)
    }

    // `C => D`, which is `!C || D`
    #[cycle(cores)]
    fn implies(
        &self,
        premise: &'a Formula,
        conclusion: &'a Formula,
        span: Span,
        core: &mut Core,
    ) -> Result<u32, AllocError>
        requires is_sight { IsSight self.now }
        requires room { HasRoom core.old self.now.slots (CoreJoined Or
            (CoreNot (core_of (sight_of self.now) (plain_formula_kind premise.now.kind) premise.now.span) span)
            (core_of (sight_of self.now) (plain_formula_kind conclusion.now.kind) conclusion.now.span) span) }
        ensures { IfOk result (Made core.old self.now.slots (CoreJoined Or
            (CoreNot (core_of (sight_of self.now) (plain_formula_kind premise.now.kind) premise.now.span) span)
            (core_of (sight_of self.now) (plain_formula_kind conclusion.now.kind) conclusion.now.span) span) core.new) }
    {
        let first = self.not(premise, span, core)?;
        let second = self.formula(conclusion, core)?;
        core.push(
            Operator::Joined(Connective::Or, first, second),
            span,
            self.slots,
        )
    }

    // `<>D`, which is `true ^ D ^ true`
    #[cycle(cores)]
    fn somewhere(&self, body: &'a Formula, span: Span, core: &mut Core) -> Result<u32, AllocError>
        requires is_sight { IsSight self.now }
        requires room { HasRoom core.old self.now.slots (somewhere_core
            (core_of (sight_of self.now) (plain_formula_kind body.now.kind) body.now.span) span) }
        ensures { IfOk result (Made core.old self.now.slots (somewhere_core
            (core_of (sight_of self.now) (plain_formula_kind body.now.kind) body.now.span) span) core.new) }
    {
        let before = self.atom(Basic::Constant(true), span, core)?;
        let part = self.formula(body, core)?;
        self.chop_round(before, part, span, core)
    }

    // `[]D`, which is `!(true ^ !D ^ true)`
    #[cycle(cores)]
    fn everywhere(&self, body: &'a Formula, span: Span, core: &mut Core) -> Result<u32, AllocError>
        requires is_sight { IsSight self.now }
        requires room { HasRoom core.old self.now.slots (CoreNot (somewhere_core (CoreNot
            (core_of (sight_of self.now) (plain_formula_kind body.now.kind) body.now.span) span) span) span) }
        ensures { IfOk result (Made core.old self.now.slots (CoreNot (somewhere_core (CoreNot
            (core_of (sight_of self.now) (plain_formula_kind body.now.kind) body.now.span) span) span) span) core.new) }
    {
        let before = self.atom(Basic::Constant(true), span, core)?;
        let part = self.not(body, span, core)?;
        let somewhere = self.chop_round(before, part, span, core)?;
        core.push(Operator::Not(somewhere), span, self.slots)
    }

    // `ex p. D`
    #[cycle(cores)]
    fn exists(
        &self,
        name: &'a Name,
        body: &'a Formula,
        span: Span,
        core: &mut Core,
    ) -> Result<u32, AllocError>
        requires is_sight { IsSight self.now }
        requires room { HasRoom core.old self.now.slots (CoreExists (core_of
            (bind_slot (sight_of self.now) name.now.text) (plain_formula_kind body.now.kind) body.now.span) span) }
        ensures { IfOk result (Made core.old self.now.slots (CoreExists (core_of
            (bind_slot (sight_of self.now) name.now.text) (plain_formula_kind body.now.kind) body.now.span) span) core.new) }
    {
        let operand = self.bind(name)?.formula(body, core)?;
        core.push(Operator::Exists(operand), span, self.slots)
    }

    // `all p. D`, which is `!(ex p. !D)`
    #[cycle(cores)]
    fn for_all(
        &self,
        name: &'a Name,
        body: &'a Formula,
        span: Span,
        core: &mut Core,
    ) -> Result<u32, AllocError>
        requires is_sight { IsSight self.now }
        requires room { HasRoom core.old self.now.slots (CoreNot (CoreExists (CoreNot (core_of
            (bind_slot (sight_of self.now) name.now.text) (plain_formula_kind body.now.kind) body.now.span) span) span) span) }
        ensures { IfOk result (Made core.old self.now.slots (CoreNot (CoreExists (CoreNot (core_of
            (bind_slot (sight_of self.now) name.now.text) (plain_formula_kind body.now.kind) body.now.span) span) span) span) core.new) }
    {
        let operand = self.bind(name)?.not(body, span, core)?;
        let exists = core.push(Operator::Exists(operand), span, self.slots)?;
        core.push(Operator::Not(exists), span, self.slots)
    }

    // The operands of a list, joined from the left.
    #[cycle(cores)]
    fn list(
        &self,
        connective: Option<Connective>,
        operands: &'a [FormulaOperand],
        span: Span,
        core: &mut Core,
    ) -> Result<u32, AllocError>
        requires is_sight { IsSight self.now }
        requires room { HasRoom core.old self.now.slots
            (list_core (sight_of self.now) (join_of connective) (unit_of connective) (operands_of operands.now) span) }
        ensures { IfOk result (Made core.old self.now.slots
            (list_core (sight_of self.now) (join_of connective) (unit_of connective) (operands_of operands.now) span) core.new) }
    {
        let Some((first, rest)) = operands.split_first() else {
            return self.atom(unit(connective), span, core);
        };
        let mut last = self.formula(&first.formula, core)?;
        for operand in rest {
            let second = self.formula(&operand.formula, core)?;
            let covered = reach(first, operand);
            last = core.push(join(connective, last, second), covered, self.slots)?;
        }
        Ok(last)
    }
}

/// The goal of a file without its macros, each of which has its measure, as steps in which prior and next propositions have no slots yet.
pub(crate) fn expanded_goal(
    alloc: Global,
    file: &File,
    measures: &[MacroMeasure],
) -> Result<Core, AllocError>
    requires size { (measure_of_file (plain_file file.now)).size ≤ most_nodes }
    requires slots { length (plain_file file.now).variables + (measure_of_file (plain_file file.now)).quantifiers ≤ most_slots }
    requires measured { AreMeasuresOf (variables_alone file.now.variables.items) (plain_file file.now).macros measures.now }
    ensures declared { IfOk result (λ core. core.declared ≡ length (plain_file file.now).variables) }
    ensures steps { IfOk result (λ core. core.steps ≡ map without_core
        (steps_of (length (plain_file file.now).variables) (expanded_file (plain_file file.now)))) }
{
    let declared = file.variables.len() as u8;
    let relays = relays_of(alloc, &file.variables, &file.macros)?;
    let sight = Sight {
        alloc,
        slots: declared,
        names: with_variables(Vec::new(alloc), &file.variables)?,
        variables: &file.variables,
        macros: &file.macros,
        measures,
        relays: &relays,
    };
    let mut core = Core::new(alloc, declared);
    sight.formula(&file.goal.formula, &mut core)?;
    Ok(core)
}
