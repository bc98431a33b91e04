// Measures of macros and of the goal, taken on the text: of each macro once, whose body is never entered again.
ghost use Rattle.std.specs.Prelude.{◌≡◌, ◌++◌, ◌∷◌, [], IfOk, Some, None, length, map, drop};
ghost use Rattle.std.specs.Option.{option_map};
ghost use Rattle.dcv_syntax.specs.Views.{plain_prop_kind, plain_formula_kind, plain_body, plain_macro, plain_file};
ghost use Rattle.dcv_logic.specs.Environment.{found};
ghost use Rattle.dcv_scope.specs.Measures.{leaf, nothing, unary_nodes, unary_depth, quantifier_nodes, measure_of_file};
ghost use Rattle.dcv_scope.specs.Names.{fault_of_names};
ghost use Rattle.dcv_scope.specs.Linear.{AreMeasuresOf, variables_alone, measure_with, numbers_of, share_of, uses_parameter, capped_numbers};
ghost use Rattle.dcv_scope.specs.Linear.{capped_share, capped_macro};
ghost use Rattle.dcv_scope.specs.Walk.{numbers_beside, numbers_under, shares_beside, share_under, share_within};
ghost use Rattle.dcv_scope.specs.Walk.{constant, argument_at, linear_beside, linear_under, linear_within, linear_with, linear_at};
ghost use Rattle.dcv_scope.specs.Walk.{linear_of_name, linear_of_macro, linear_of_prop, linear_of_formula, linear_of_body};
ghost use Rattle.dcv_scope.specs.Walk.{linear_in_sight, leaves, quantified_leaves, parameters_from, name_too, first_linear, all_in_turn, IsMeasured};
ghost use Rattle.dcv_scope.specs.Walk.{linear_of, with_linears, declared_alone, linear_measures};

use crate::faults::MOST_PARAMETERS;
use dcv_syntax::{
    File, Formula, FormulaKind, FormulaOperand, Macro, MacroBody, Name, Prop, PropKind,
    PropOperand, Quantifier, Text, Unary,
};
use std::alloc::{AllocError, Global};

/// How many nodes a goal or a body has, how deep they are nested, and how deep its quantifiers are. Each number stops at the
/// greatest of its type.
#[derive(Clone, Copy)]
pub(crate) struct Measure {
    // how many nodes there are
    pub(crate) size: u32,
    // how many of them stand one below another
    pub(crate) depth: u32,
    // how many quantifiers stand one inside another
    pub(crate) quantifiers: u32,
}

impl Measure {
    // One node.
    fn leaf() -> Measure
        ensures { result ≡ numbers_of leaf }
    {
        Measure {
            size: 1,
            depth: 1,
            quantifiers: 0,
        }
    }

    fn nothing() -> Measure
        ensures { result ≡ numbers_of nothing }
    {
        Measure {
            size: 0,
            depth: 0,
            quantifiers: 0,
        }
    }

    // Side by side.
    fn beside(self, other: Measure) -> Measure
        ensures { result ≡ capped_numbers (numbers_beside self other) }
    {
        Measure {
            size: self.size.saturating_add(other.size),
            depth: self.depth.max(other.depth),
            quantifiers: self.quantifiers.max(other.quantifiers),
        }
    }

    // Below so many nodes more, so much deeper, and below so many quantifiers.
    fn under(self, nodes: u32, deeper: u32, quantifiers: u32) -> Measure
        ensures { result ≡ capped_numbers (numbers_under nodes deeper quantifiers self) }
    {
        Measure {
            size: nodes.saturating_add(self.size),
            depth: deeper.saturating_add(self.depth),
            quantifiers: quantifiers.saturating_add(self.quantifiers),
        }
    }
}

/// How often a macro's expansion has an argument, and how deep below the root its deepest use is, in nodes and in quantifiers.
#[derive(Clone, Copy)]
pub(crate) struct Share {
    // how often the argument is used
    uses: u32,
    // how many nodes stand above its deepest use
    depth: u32,
    // how many quantifiers stand around its uses at most
    quantifiers: u32,
}

impl Share {
    fn beside(self, other: Share) -> Share
        ensures { Some result ≡ capped_share (shares_beside (Some self) (Some other)) }
    {
        Share {
            uses: self.uses.saturating_add(other.uses),
            depth: self.depth.max(other.depth),
            quantifiers: self.quantifiers.max(other.quantifiers),
        }
    }

    fn under(self, deeper: u32, quantifiers: u32) -> Share
        ensures { Some result ≡ capped_share (share_under deeper quantifiers (Some self)) }
    {
        Share {
            uses: self.uses,
            depth: deeper.saturating_add(self.depth),
            quantifiers: quantifiers.saturating_add(self.quantifiers),
        }
    }

    // What this share of something has of another, of which that has this much.
    fn within(self, inner: Share) -> Share
        ensures { Some result ≡ capped_share (share_within self (Some inner)) }
    {
        Share {
            uses: self.uses.saturating_mul(inner.uses),
            depth: self.depth.saturating_add(inner.depth),
            quantifiers: self.quantifiers.saturating_add(inner.quantifiers),
        }
    }

    // What the uses of something of that measure come to.
    fn of(self, argument: Measure) -> Measure
        ensures { result ≡ capped_numbers (numbers_of (share_of self (measure_with argument))) }
    {
        Measure {
            size: self.uses.saturating_mul(argument.size),
            depth: self.depth.saturating_add(argument.depth),
            quantifiers: self.quantifiers.saturating_add(argument.quantifiers),
        }
    }
}

/// The measure of a macro as a function of its arguments' measures: its own nodes, and a share of each argument that is used.
/// Sizes add up, and depths go by the greatest.
#[derive(Clone, Copy)]
pub(crate) struct MacroMeasure {
    // of the body without its arguments
    own: Measure,
    // for each parameter what an argument adds
    shares: [Option<Share>; MOST_PARAMETERS],
}

impl MacroMeasure {
    // The same whatever the arguments.
    #[tactic(auto, unfolding(crate::specs::Walk::constant, crate::specs::Linear::capped_macro))]
    fn constant(own: Measure) -> MacroMeasure
        ensures { result ≡ capped_macro (constant (measure_with own)) }
    {
        MacroMeasure {
            own,
            shares: [None; MOST_PARAMETERS],
        }
    }

    // That of the argument at a place. A ninth argument, which no well-named file has, counts nothing.
    #[tactic(auto, unfolding(crate::specs::Walk::argument_at, crate::specs::Linear::capped_macro))]
    fn argument(place: usize) -> MacroMeasure
        ensures { result ≡ capped_macro (argument_at place) }
    {
        let mut shares = [None; MOST_PARAMETERS];
        if place < MOST_PARAMETERS {
            shares[place] = Some(Share {
                uses: 1,
                depth: 0,
                quantifiers: 0,
            });
        }
        MacroMeasure {
            own: Measure::nothing(),
            shares,
        }
    }

    #[tactic(auto, unfolding(crate::specs::Walk::linear_beside, crate::specs::Linear::capped_macro))]
    fn beside(self, other: MacroMeasure) -> MacroMeasure
        ensures { result ≡ capped_macro (linear_beside self other) }
    {
        let mut shares = self.shares;
        for place in 0..MOST_PARAMETERS {
            shares[place] = beside(self.shares[place], other.shares[place]);
        }
        MacroMeasure {
            own: self.own.beside(other.own),
            shares,
        }
    }

    #[tactic(auto, unfolding(crate::specs::Walk::linear_under, crate::specs::Linear::capped_macro))]
    fn under(self, nodes: u32, deeper: u32, quantifiers: u32) -> MacroMeasure
        ensures { result ≡ capped_macro (linear_under nodes deeper quantifiers self) }
    {
        let mut shares = self.shares;
        for place in 0..MOST_PARAMETERS {
            shares[place] = under(self.shares[place], deeper, quantifiers);
        }
        MacroMeasure {
            own: self.own.under(nodes, deeper, quantifiers),
            shares,
        }
    }

    // The share of something with this measure.
    #[tactic(auto, unfolding(crate::specs::Walk::linear_within, crate::specs::Linear::capped_macro))]
    fn within(self, share: Share) -> MacroMeasure
        ensures { result ≡ capped_macro (linear_within share self) }
    {
        let mut shares = self.shares;
        for place in 0..MOST_PARAMETERS {
            shares[place] = within(share, self.shares[place]);
        }
        MacroMeasure {
            own: share.of(self.own),
            shares,
        }
    }

    /// The macro's expansion has the argument at this place.
    pub(crate) fn uses(&self, parameter: usize) -> bool
        ensures { result ≡ uses_parameter self.now parameter }
    {
        match self.shares.get(parameter) {
            Some(share) => share.is_some(),
            None => false,
        }
    }
}

// Both shares of one argument.
fn beside(share: Option<Share>, other: Option<Share>) -> Option<Share>
    ensures { result ≡ capped_share (shares_beside share other) }
{
    match (share, other) {
        (Some(share), Some(other)) => Some(share.beside(other)),
        (Some(share), None) => Some(share),
        (None, other) => other,
    }
}

fn under(share: Option<Share>, deeper: u32, quantifiers: u32) -> Option<Share>
    ensures { result ≡ capped_share (share_under deeper quantifiers share) }
{
    match share {
        Some(share) => Some(share.under(deeper, quantifiers)),
        None => None,
    }
}

fn within(outer: Share, share: Option<Share>) -> Option<Share>
    ensures { result ≡ capped_share (share_within outer share) }
{
    match share {
        Some(share) => Some(outer.within(share)),
        None => None,
    }
}

// What is in sight in a macro's body or in the goal.
#[derive(Drop)]
struct Sight<'a> {
    // where what is made is allocated
    alloc: Global,
    // Quantified names, the innermost first, the macro's parameters, and the declared variables.
    quantified: Vec<&'a Name>,
    // the parameters of the macro that is measured
    parameters: &'a [Name],
    // the variables
    declared: &'a [Name],
    // The macros before this one, in order, and their measures.
    macros: &'a [Macro],
    // the numbers that measure each macro
    measures: &'a [MacroMeasure],
}

impl<'a> Sight<'a> {
    // The measure of the quantified name.
    fn bound(&self, name: &Text) -> Option<MacroMeasure>
        ensures { result ≡ option_map capped_macro (found (quantified_leaves self.now.quantified.items) name.now) }
    {
        let is_bound = self.quantified.iter().any(|other| other.text == *name);
        is_bound.then_some(leaf())
    }

    // The argument for which the parameter of that name stands.
    fn parameter(&self, name: &Text) -> Option<MacroMeasure>
        ensures { result ≡ option_map capped_macro (found (parameters_from 0 self.now.parameters.now) name.now) }
    {
        let place = self
            .parameters
            .iter()
            .position(|parameter| parameter.text == *name)?;
        Some(MacroMeasure::argument(place))
    }

    // The measure of the declared variable.
    fn variable(&self, name: &Text) -> Option<MacroMeasure>
        ensures { result ≡ option_map capped_macro (found (leaves self.now.declared.now) name.now) }
    {
        let is_declared = self.declared.iter().any(|other| other.text == *name);
        is_declared.then_some(leaf())
    }

    // A quantified name hides a parameter, and a parameter a declared variable.
    #[tactic(auto, using(crate::proofs::LookUps::found_in_turn))]
    fn named(&self, name: &Text) -> Option<MacroMeasure>
        ensures { result ≡ option_map capped_macro (found (linear_in_sight self.now).names name.now) }
    {
        self.bound(name)
            .or(self.parameter(name))
            .or(self.variable(name))
    }

    // The measure of the macro of that name, the newest first.
    fn called(&self, name: &Text) -> Option<MacroMeasure>
        requires measured { IsMeasured self.now }
        ensures { result ≡ option_map capped_macro (found (linear_in_sight self.now).macros name.now) }
    {
        for place in (0..self.macros.len()).rev() {
            if self.macros[place].name.text == *name {
                return Some(self.measures[place]);
            }
        }
        None
    }

    // The measure of a proposition.
    #[cycle(props)]
    #[tactic(auto, using(crate::proofs::LinearRows::rows))]
    fn prop(&self, prop: &Prop) -> Result<Box<MacroMeasure>, AllocError>
        requires measured { IsMeasured self.now }
        ensures { IfOk result (λ measure. measure.value ≡ capped_macro
            (linear_of_prop (linear_in_sight self.now) (plain_prop_kind prop.now.kind))) }
    {
        match &prop.kind {
            PropKind::Constant(_) => alone(self.alloc),
            PropKind::Call(name, arguments) => self.use_of(name, arguments),
            PropKind::Not(operand) => Ok(below(self.prop(operand)?, 1, 1, 0)),
            PropKind::Joined(_, operands) => Ok(below(self.prop_operands(operands)?, 1, 1, 0)),
            PropKind::Implies(premise, conclusion) => {
                let refuted = below(self.prop(premise)?, 1, 1, 0);
                Ok(below(both(refuted, self.prop(conclusion)?), 1, 1, 0))
            }
            PropKind::Shifted(_, _, operand) => Ok(below(self.prop(operand)?, 1, 1, 0)),
        }
    }

    #[inline(never)]
    #[cycle(props)]
    fn prop_operands(&self, operands: &[PropOperand]) -> Result<Box<MacroMeasure>, AllocError>
        requires measured { IsMeasured self.now }
        ensures { IfOk result (λ measure. measure.value ≡ capped_macro (all_in_turn (λ (o : PropOperand). linear_of_prop
            (linear_in_sight self.now) (plain_prop_kind o.prop.kind)) (constant nothing) operands.now)) }
    {
        let none = MacroMeasure::constant(Measure::nothing());
        let mut all = Box::new(self.alloc, none)?;
        for operand in operands {
            let measure = self.prop(&operand.prop)?;
            all = both(all, measure);
        }
        Ok(all)
    }

    // A name where a proposition is asked for, with these arguments.
    #[inline(never)]
    #[cycle(props)]
    fn use_of(&self, name: &Name, arguments: &[Prop]) -> Result<Box<MacroMeasure>, AllocError>
        requires measured { IsMeasured self.now }
        ensures { IfOk result (λ measure. let sight = linear_in_sight self.now in measure.value ≡ capped_macro (linear_of_name
            (found sight.names name.now.text) (found sight.macros name.now.text)
            (map (λ (p : Prop). linear_of_prop sight (plain_prop_kind p.kind)) arguments.now))) }
    {
        match self.named(&name.text) {
            Some(named) => Ok(Box::new(self.alloc, named)?),
            None => self.call(name, arguments),
        }
    }

    // A macro at these arguments.
    #[cycle(props)]
    fn call(&self, name: &Name, arguments: &[Prop]) -> Result<Box<MacroMeasure>, AllocError>
        requires measured { IsMeasured self.now }
        ensures { IfOk result (λ measure. let sight = linear_in_sight self.now in measure.value ≡ capped_macro (linear_of_macro
            (found sight.macros name.now.text)
            (map (λ (p : Prop). linear_of_prop sight (plain_prop_kind p.kind)) arguments.now))) }
    {
        match self.called(&name.text) {
            Some(called) => self.expanded(called, arguments),
            None => alone(self.alloc),
        }
    }

    // What a macro measures at these arguments.
    #[cycle(props)]
    fn expanded(
        &self,
        called: MacroMeasure,
        arguments: &[Prop],
    ) -> Result<Box<MacroMeasure>, AllocError>
        requires measured { IsMeasured self.now }
        ensures { IfOk result (λ measure. measure.value ≡ capped_macro (linear_at called
            (map (λ (p : Prop). linear_of_prop (linear_in_sight self.now) (plain_prop_kind p.kind)) arguments.now))) }
    {
        let own = MacroMeasure::constant(called.own);
        let mut whole = Box::new(self.alloc, own)?;
        for place in 0..MOST_PARAMETERS {
            whole = self.with_argument(whole, called.shares[place], arguments, place)?;
        }
        Ok(whole)
    }

    // What an argument adds, of which the macro has this share.
    #[cycle(props)]
    fn with_argument(
        &self,
        whole: Box<MacroMeasure>,
        share: Option<Share>,
        arguments: &[Prop],
        place: usize,
    ) -> Result<Box<MacroMeasure>, AllocError>
        requires measured { IsMeasured self.now }
        requires capped { whole.value ≡ capped_macro whole.value }
        ensures { IfOk result (λ measure. measure.value ≡ capped_macro (linear_with whole.value share (first_linear (drop place
            (map (λ (p : Prop). linear_of_prop (linear_in_sight self.now) (plain_prop_kind p.kind)) arguments.now))))) }
    {
        match share {
            Some(share) => {
                let argument = self.argument(arguments, place)?;
                Ok(both(whole, shared(argument, share)))
            }
            None => Ok(whole),
        }
    }

    // The argument at a place. One that is missing, as none is in a well-named file, counts as one node.
    #[cycle(props)]
    fn argument(&self, arguments: &[Prop], place: usize) -> Result<Box<MacroMeasure>, AllocError>
        requires measured { IsMeasured self.now }
        ensures { IfOk result (λ measure. measure.value ≡ capped_macro (first_linear (drop place
            (map (λ (p : Prop). linear_of_prop (linear_in_sight self.now) (plain_prop_kind p.kind)) arguments.now)))) }
    {
        if place < arguments.len() {
            self.prop(&arguments[place])
        } else {
            alone(self.alloc)
        }
    }
}

impl<'a> Sight<'a> {
    // What is in sight after a quantifier.
    fn bind(&self, name: &'a Name) -> Result<Sight<'a>, AllocError>
        ensures sight { IfOk result (λ inner.
            linear_in_sight inner ≡ name_too (linear_in_sight self.now) name.now.text) }
        ensures measured { IfOk result (λ inner. IsMeasured self.now → IsMeasured inner) }
    {
        let mut quantified = Vec::new(self.alloc);
        quantified.push(name)?;
        for outer in &self.quantified {
            quantified.push(*outer)?;
        }
        Ok(Sight {
            quantified,
            ..*self
        })
    }

    // The measure of a form round a proposition.
    #[inline(never)]
    #[tactic(auto, using(crate::proofs::Capped::under_capped))]
    fn around(&self, prop: &Prop) -> Result<Box<MacroMeasure>, AllocError>
        requires measured { IsMeasured self.now }
        ensures { IfOk result (λ measure. measure.value ≡ capped_macro
            (linear_under 1 1 0 (linear_of_prop (linear_in_sight self.now) (plain_prop_kind prop.now.kind)))) }
    {
        Ok(below(self.prop(prop)?, 1, 1, 0))
    }

    // The measure of a formula.
    #[cycle(formulas)]
    #[tactic(auto, using(crate::proofs::LinearRows::formula_rows))]
    fn formula(&self, formula: &'a Formula) -> Result<Box<MacroMeasure>, AllocError>
        requires measured { IsMeasured self.now }
        ensures { IfOk result (λ measure. measure.value ≡ capped_macro
            (linear_of_formula (linear_in_sight self.now) (plain_formula_kind formula.now.kind))) }
    {
        match &formula.kind {
            FormulaKind::Constant(_) => alone(self.alloc),
            FormulaKind::Pt => Ok(below(alone(self.alloc)?, 1, 1, 0)),
            FormulaKind::Ext => Ok(below(alone(self.alloc)?, 1, 1, 0)),
            FormulaKind::Bracketed(_, prop) => self.around(prop),
            FormulaKind::Slen(_, _) => alone(self.alloc),
            FormulaKind::Counted(_, prop, _, _) => self.around(prop),
            FormulaKind::Call(name, arguments) => self.call(name, arguments),
            FormulaKind::Applied(unary, body) => {
                let inside = self.formula(body)?;
                Ok(below(inside, unary_nodes(*unary), unary_depth(*unary), 0))
            }
            FormulaKind::Joined(_, operands) => Ok(below(self.operands(operands)?, 1, 1, 0)),
            FormulaKind::Implies(premise, conclusion) => {
                let refuted = below(self.formula(premise)?, 1, 1, 0);
                Ok(below(both(refuted, self.formula(conclusion)?), 1, 1, 0))
            }
            FormulaKind::Chop(operands) => Ok(below(self.operands(operands)?, 1, 1, 0)),
            FormulaKind::Quantified(quantifier, name, body) => {
                let nodes = quantifier_nodes(*quantifier);
                Ok(below(self.quantified(name, body)?, nodes, nodes, 1))
            }
        }
    }

    #[cycle(formulas)]
    fn operands(&self, operands: &'a [FormulaOperand]) -> Result<Box<MacroMeasure>, AllocError>
        requires measured { IsMeasured self.now }
        ensures { IfOk result (λ measure. measure.value ≡ capped_macro (all_in_turn (λ (o : FormulaOperand).
            linear_of_formula (linear_in_sight self.now) (plain_formula_kind o.formula.kind)) (constant nothing) operands.now)) }
    {
        let none = MacroMeasure::constant(Measure::nothing());
        let mut all = Box::new(self.alloc, none)?;
        for operand in operands {
            let measure = self.formula(&operand.formula)?;
            all = both(all, measure);
        }
        Ok(all)
    }

    // The formula after a quantifier.
    #[cycle(formulas)]
    fn quantified(&self, name: &'a Name, body: &'a Formula) -> Result<Box<MacroMeasure>, AllocError>
        requires measured { IsMeasured self.now }
        ensures { IfOk result (λ measure. measure.value ≡ capped_macro (linear_of_formula
            (name_too (linear_in_sight self.now) name.now.text) (plain_formula_kind body.now.kind))) }
    {
        let inside = self.bind(name)?;
        let measure = inside.formula(body)?;
        Ok(measure)
    }

    // What a macro stands for.
    fn body(&self, body: &'a MacroBody) -> Result<MacroMeasure, AllocError>
        requires measured { IsMeasured self.now }
        ensures { IfOk result (λ measure. measure ≡ capped_macro
            (linear_of_body (linear_in_sight self.now) (plain_body body.now))) }
    {
        match body {
            MacroBody::Formula(formula) => Ok(Box::into_inner(self.formula(formula)?)),
            MacroBody::Prop(prop) => Ok(Box::into_inner(self.prop(prop)?)),
        }
    }
}

// How many nodes an operator is.
fn unary_nodes(unary: Unary) -> u32
    ensures { result ≡ unary_nodes unary }
{
    match unary {
        Unary::Not | Unary::Star => 1,
        Unary::Somewhere => 3,
        Unary::Everywhere => 5,
    }
}

// How much deeper its formula stands.
fn unary_depth(unary: Unary) -> u32
    ensures { result ≡ unary_depth unary }
{
    match unary {
        Unary::Not | Unary::Star | Unary::Somewhere => 1,
        Unary::Everywhere => 3,
    }
}

// How many nodes a quantifier is, one below the other.
fn quantifier_nodes(quantifier: Quantifier) -> u32
    ensures { result ≡ quantifier_nodes quantifier }
{
    match quantifier {
        Quantifier::Exists => 1,
        Quantifier::ForAll => 3,
    }
}

// One node.
fn leaf() -> MacroMeasure
    ensures { result ≡ capped_macro (constant leaf) }
{
    MacroMeasure::constant(Measure::leaf())
}

// The same in a box, as formulas have theirs: a measure is large, and calls nest as deep as the text.
#[inline(never)]
fn alone(alloc: Global) -> Result<Box<MacroMeasure>, AllocError>
    ensures { IfOk result (λ measure. measure.value ≡ capped_macro (constant leaf)) }
{
    Ok(Box::new(alloc, leaf())?)
}

// Below so many nodes more, so much deeper, and below so many quantifiers.
#[inline(never)]
fn below(inside: Box<MacroMeasure>, nodes: u32, deeper: u32, quantifiers: u32) -> Box<MacroMeasure>
    ensures { result.value ≡ capped_macro (linear_under nodes deeper quantifiers inside.value) }
{
    let mut inside = inside;
    *inside = inside.under(nodes, deeper, quantifiers);
    inside
}

// The share of something with this measure.
#[inline(never)]
fn shared(inside: Box<MacroMeasure>, share: Share) -> Box<MacroMeasure>
    ensures { result.value ≡ capped_macro (linear_within share inside.value) }
{
    let mut inside = inside;
    *inside = inside.within(share);
    inside
}

// Side by side.
#[inline(never)]
fn both(left: Box<MacroMeasure>, right: Box<MacroMeasure>) -> Box<MacroMeasure>
    ensures { result.value ≡ capped_macro (linear_beside left.value right.value) }
{
    let mut left = left;
    *left = left.beside(Box::into_inner(right));
    left
}

// The measure of a macro, before which these variables and macros are in sight.
fn measure_of_macro<'a>(
    alloc: Global,
    declared: &'a [Name],
    earlier: &'a [Macro],
    measures: &'a [MacroMeasure],
    defined: &'a Macro,
) -> Result<MacroMeasure, AllocError>
    requires measured { measures.now ≡ linear_measures declared.now (map plain_macro earlier.now) }
    ensures { IfOk result (λ measure. measure ≡ capped_macro (linear_of
        (with_linears (declared_alone declared.now) (map plain_macro earlier.now)) (plain_macro defined.now))) }
{
    let sight = Sight {
        alloc,
        quantified: Vec::new(alloc),
        parameters: &defined.parameters,
        declared,
        macros: earlier,
        measures,
    };
    let measure = sight.body(&defined.body)?;
    Ok(measure)
}

/// The measure of each macro, as a function of its arguments', in order.
pub(crate) fn measures_of_macros(
    alloc: Global,
    file: &File,
) -> Result<Vec<MacroMeasure>, AllocError>
    requires well_named { fault_of_names (plain_file file.now) ≡ None }
    ensures measured { IfOk result (λ measures. AreMeasuresOf
        (variables_alone file.now.variables.items) (plain_file file.now).macros measures.items) }
    ensures numbers { IfOk result (λ measures. measures.items
        ≡ linear_measures file.now.variables.items (plain_file file.now).macros) }
{
    let mut measures = Vec::new(alloc);
    for (place, defined) in file.macros.iter().enumerate() {
        let earlier = &file.macros[..place];
        let measure = measure_of_macro(alloc, &file.variables, earlier, &measures, defined)?;
        measures.push(measure)?;
    }
    Ok(measures)
}

/// The measure of the goal, where these are those of the macros. No macro is expanded.
pub(crate) fn measure_of_goal(
    alloc: Global,
    file: &File,
    macros: &[MacroMeasure],
) -> Result<Measure, AllocError>
    requires well_named { fault_of_names (plain_file file.now) ≡ None }
    requires numbers { macros.now ≡ linear_measures file.now.variables.items (plain_file file.now).macros }
    ensures { IfOk result (λ measure. measure ≡ capped_numbers (numbers_of (measure_of_file (plain_file file.now)))) }
{
    let sight = Sight {
        alloc,
        quantified: Vec::new(alloc),
        parameters: &[],
        declared: &file.variables,
        macros: &file.macros,
        measures: macros,
    };
    let measure = sight.formula(&file.goal.formula)?;
    Ok(measure.own)
}
