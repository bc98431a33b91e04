// The first fault of names: a walk over the text, with what is in sight.
ghost use Rattle.std.specs.Prelude.{◌≡◌, ◌==◌, ◌++◌, ◌∷◌, [], IfOk, MatchOption, Some, None, length, map, if◌then◌else◌};
ghost use Rattle.dcv_syntax.specs.Views.{plain_prop_kind, plain_formula_kind, plain_body, plain_macro, plain_file};
ghost use Rattle.dcv_logic.specs.Environment.{found};
ghost use Rattle.dcv_scope.specs.Names.{stands_in, taken_names, macro_in_sight, in_sight_too, nothing_in_sight, texts};
ghost use Rattle.dcv_scope.specs.Names.{Declared, Parameter, Defined, Quantified, AtFormula, AtProposition, occurs, fault_at};
ghost use Rattle.dcv_scope.specs.Names.{occurrences_in_prop, occurrences_in_formula, occurrences_in_list, occurrences_in_body};
ghost use Rattle.dcv_scope.specs.Names.{occurrences_in_macro, first_fault, fault_of_names};
ghost use Rattle.std.specs.Option.{option_or, is_some};
ghost use Rattle.dcv_scope.specs.declared.faults.ScopeFault.TheVariants.{Arity};
ghost use Rattle.dcv_scope.specs.Sights.{in_sight_of, first_of, top_sight, faults_of_macros};

use crate::faults::{MOST_MACROS, MOST_PARAMETERS, ScopeFault};
use dcv_language::MOST_VARIABLES;
use dcv_syntax::{
    File, Formula, FormulaKind, FormulaOperand, Macro, MacroBody, Name, Prop, PropKind,
    PropOperand, Text,
};
use std::alloc::{AllocError, Global};

// What is in sight at a name.
#[derive(Drop)]
struct Sight<'a> {
    // where what is made is allocated
    alloc: Global,
    // Declared variables, parameters and quantified names.
    variables: Vec<&'a Name>,
    // The macros before this one, in order.
    macros: &'a [Macro],
    // The name of the macro that is being defined, and none in the goal.
    defining: Option<&'a Name>,
}

impl<'a> Sight<'a> {
    fn is_variable(&self, name: &Text) -> bool
        ensures { result ≡ stands_in name.now (in_sight_of self.now).variables }
    {
        self.variables.iter().any(|other| other.text == *name)
    }

    // The macro of that name.
    fn called(&self, name: &Text) -> Option<&'a Macro>
        ensures taken { is_some result ≡ stands_in name.now (map (λ m. m.0) (in_sight_of self.now).macros) }
        ensures signature { MatchOption result
            (found (in_sight_of self.now).macros name.now ≡ None)
            (λ called. found (in_sight_of self.now).macros name.now
            ≡ Some (macro_in_sight (plain_macro called.now)).1) }
    {
        self.macros.iter().find(|called| called.name.text == *name)
    }

    // A macro has the name, or it is that of the macro being defined.
    fn is_taken(&self, name: &Text) -> bool
        ensures { result ≡ stands_in name.now (taken_names (in_sight_of self.now)) }
    {
        match self.defining {
            Some(defining) => { defining.text == *name || self.called(name).is_some() }
            None => self.called(name).is_some(),
        }
    }

    // The fault of a name that is used where a formula is asked for.
    fn at_formula(&self, name: &Name, arguments: usize) -> Option<ScopeFault>
        ensures { result ≡ fault_at (occurs name.now (AtFormula arguments) (in_sight_of self.now)) }
    {
        let at = name.span.start;
        if self.is_variable(&name.text) {
            return Some(ScopeFault::Kind { at });
        }
        let Some(called) = self.called(&name.text) else {
            return Some(ScopeFault::Unknown { at });
        };
        match called.body {
            MacroBody::Prop(_) => Some(ScopeFault::Kind { at }),
            MacroBody::Formula(_) => fault_of_arity(called, arguments, at),
        }
    }

    // The fault of a name that is used where a proposition is asked for.
    fn at_proposition(&self, name: &Name, arguments: usize) -> Option<ScopeFault>
        ensures { result ≡ fault_at (occurs name.now (AtProposition arguments) (in_sight_of self.now)) }
    {
        let at = name.span.start;
        if self.is_variable(&name.text) {
            return if arguments == 0 {
                None
            } else {
                Some(ScopeFault::Arity { at })
            };
        }
        let Some(called) = self.called(&name.text) else {
            return Some(ScopeFault::Unknown { at });
        };
        match called.body {
            MacroBody::Formula(_) => Some(ScopeFault::Kind { at }),
            MacroBody::Prop(_) => fault_of_arity(called, arguments, at),
        }
    }

    // The first fault in a proposition.
    #[cycle(names)]
    #[tactic(auto, using(crate::proofs::NameRows::rows))]
    fn fault_in_prop(&self, prop: &Prop) -> Option<ScopeFault>
        ensures { result ≡ first_fault
            (occurrences_in_prop (in_sight_of self.now) (plain_prop_kind prop.now.kind)) }
    {
        match &prop.kind {
            PropKind::Constant(_) => None,
            PropKind::Call(name, arguments) => self
                .at_proposition(name, arguments.len())
                .or(self.arguments(arguments)),
            PropKind::Not(operand) => self.fault_in_prop(operand),
            PropKind::Joined(_, operands) => self.prop_operands(operands),
            PropKind::Implies(premise, conclusion) => self
                .fault_in_prop(premise)
                .or(self.fault_in_prop(conclusion)),
            PropKind::Shifted(_, _, operand) => self.fault_in_prop(operand),
        }
    }

    #[cycle(names)]
    fn arguments(&self, arguments: &[Prop]) -> Option<ScopeFault>
        ensures { result ≡ first_of (λ (p : Prop). first_fault
            (occurrences_in_prop (in_sight_of self.now) (plain_prop_kind p.kind))) arguments.now }
    {
        for argument in arguments {
            let fault = self.fault_in_prop(argument);
            if fault.is_some() {
                return fault;
            }
        }
        None
    }

    #[cycle(names)]
    fn prop_operands(&self, operands: &[PropOperand]) -> Option<ScopeFault>
        ensures { result ≡ first_of (λ (o : PropOperand). first_fault
            (occurrences_in_prop (in_sight_of self.now) (plain_prop_kind o.prop.kind))) operands.now }
    {
        for operand in operands {
            let fault = self.fault_in_prop(&operand.prop);
            if fault.is_some() {
                return fault;
            }
        }
        None
    }
}

impl<'a> Sight<'a> {
    // What is in sight after a quantifier.
    fn bind(&self, name: &'a Name) -> Result<Sight<'a>, AllocError>
        ensures { IfOk result (λ inner.
            in_sight_of inner ≡ in_sight_too (in_sight_of self.now) name.now.text) }
    {
        let mut variables = Vec::new(self.alloc);
        variables.push(name)?;
        for outer in &self.variables {
            variables.push(*outer)?;
        }
        Ok(Sight { variables, ..*self })
    }

    // What is in sight in a macro of that name, after these parameters.
    fn defining(&self, name: &'a Name, parameters: &'a [Name]) -> Result<Sight<'a>, AllocError>
        ensures { IfOk result (λ inner. in_sight_of inner ≡ record (in_sight_of self.now) {
          defining = name.now.text ∷ [];
          variables = texts parameters.now ++ (in_sight_of self.now).variables;
        }) }
    {
        let mut variables = Vec::new(self.alloc);
        for parameter in parameters {
            variables.push(parameter)?;
        }
        for outer in &self.variables {
            variables.push(*outer)?;
        }
        Ok(Sight {
            variables,
            defining: Some(name),
            ..*self
        })
    }

    // The fault of a quantified name.
    fn at_quantifier(&self, name: &Name) -> Option<ScopeFault>
        ensures { result ≡ fault_at (occurs name.now Quantified (in_sight_of self.now)) }
    {
        if self.is_taken(&name.text) {
            return Some(ScopeFault::Taken {
                at: name.span.start,
            });
        }
        None
    }

    // The first fault in a formula.
    #[cycle(names_of_formula)]
    #[tactic(auto, using(crate::proofs::NameRows::formula_rows))]
    fn fault_in_formula(&self, formula: &'a Formula) -> Result<Option<ScopeFault>, AllocError>
        ensures { IfOk result (λ fault. fault ≡ first_fault
            (occurrences_in_formula (in_sight_of self.now) (plain_formula_kind formula.now.kind))) }
    {
        match &formula.kind {
            FormulaKind::Constant(_) => Ok(None),
            FormulaKind::Pt => Ok(None),
            FormulaKind::Ext => Ok(None),
            FormulaKind::Bracketed(_, prop) => Ok(self.fault_in_prop(prop)),
            FormulaKind::Slen(_, _) => Ok(None),
            FormulaKind::Counted(_, prop, _, _) => Ok(self.fault_in_prop(prop)),
            FormulaKind::Call(name, arguments) => Ok(
                self.at_formula(name, arguments.len())
                    .or(self.arguments(arguments)),
            ),
            FormulaKind::Applied(_, body) => self.fault_in_formula(body),
            FormulaKind::Joined(_, operands) => self.operands(operands),
            FormulaKind::Implies(premise, conclusion) => {
                let first = self.fault_in_formula(premise)?;
                Ok(first.or(self.fault_in_formula(conclusion)?))
            }
            FormulaKind::Chop(operands) => self.operands(operands),
            FormulaKind::Quantified(_, name, body) => self.quantified(name, body),
        }
    }

    #[cycle(names_of_formula)]
    fn operands(&self, operands: &'a [FormulaOperand]) -> Result<Option<ScopeFault>, AllocError>
        ensures { IfOk result (λ fault. fault ≡ first_of (λ (o : FormulaOperand). first_fault
            (occurrences_in_formula (in_sight_of self.now) (plain_formula_kind o.formula.kind))) operands.now) }
    {
        for operand in operands {
            let fault = self.fault_in_formula(&operand.formula)?;
            if fault.is_some() {
                return Ok(fault);
            }
        }
        Ok(None)
    }

    // A quantified name, and the formula that it stands before.
    #[cycle(names_of_formula)]
    fn quantified(
        &self,
        name: &'a Name,
        body: &'a Formula,
    ) -> Result<Option<ScopeFault>, AllocError>
        ensures { IfOk result (λ fault. fault ≡ option_or
            (fault_at (occurs name.now Quantified (in_sight_of self.now)))
            (first_fault (occurrences_in_formula
            (in_sight_too (in_sight_of self.now) name.now.text) (plain_formula_kind body.now.kind)))) }
    {
        if let Some(fault) = self.at_quantifier(name) {
            return Ok(Some(fault));
        }
        let inside = self.bind(name)?;
        inside.fault_in_formula(body)
    }

    // The first fault of a list of parameters.
    fn fault_of_parameters(&self, names: &[Name]) -> Option<ScopeFault>
        ensures { result ≡ first_fault (occurrences_in_list Parameter (in_sight_of self.now) [] names.now) }
    {
        for (place, name) in names.iter().enumerate() {
            let fault = self.fault_of_parameter(name, &names[..place]);
            if fault.is_some() {
                return fault;
            }
        }
        None
    }

    // The fault of a parameter after these.
    fn fault_of_parameter(&self, name: &Name, before: &[Name]) -> Option<ScopeFault>
        ensures { result ≡ fault_at (occurs name.now (Parameter (texts before.now)) (in_sight_of self.now)) }
    {
        let at = name.span.start;
        if before.len() >= MOST_PARAMETERS {
            return Some(ScopeFault::TooMany { at });
        }
        if is_among(&name.text, before) {
            return Some(ScopeFault::Duplicate { at });
        }
        if self.is_taken(&name.text) {
            return Some(ScopeFault::Taken { at });
        }
        None
    }

    // The fault of the name of a macro, where it is defined.
    fn at_definition(&self, name: &Name) -> Option<ScopeFault>
        ensures { result ≡ fault_at (occurs name.now Defined (in_sight_of self.now)) }
    {
        let at = name.span.start;
        if self.macros.len() >= MOST_MACROS {
            return Some(ScopeFault::TooMany { at });
        }
        if self.is_variable(&name.text) || self.is_taken(&name.text) {
            return Some(ScopeFault::Taken { at });
        }
        None
    }

    // The first fault in what a macro stands for.
    fn fault_in_body(&self, body: &'a MacroBody) -> Result<Option<ScopeFault>, AllocError>
        ensures { IfOk result (λ fault. fault ≡ first_fault
            (occurrences_in_body (in_sight_of self.now) (plain_body body.now))) }
    {
        match body {
            MacroBody::Formula(formula) => self.fault_in_formula(formula),
            MacroBody::Prop(prop) => Ok(self.fault_in_prop(prop)),
        }
    }
}

// One of these names has the text.
fn is_among(text: &Text, names: &[Name]) -> bool
    ensures { result ≡ stands_in text.now (texts names.now) }
{
    names.iter().any(|other| other.text == *text)
}

// The fault of a macro that is called with so many arguments.
fn fault_of_arity(called: &Macro, arguments: usize, at: u32) -> Option<ScopeFault>
    ensures { result ≡ (if arguments == length called.now.parameters.items then None else Some (Arity at)) }
{
    if called.parameters.len() == arguments {
        None
    } else {
        Some(ScopeFault::Arity { at })
    }
}

// The fault of a declared variable after these.
fn fault_of_variable(name: &Name, before: &[Name]) -> Option<ScopeFault>
    ensures { result ≡ fault_at (occurs name.now (Declared (texts before.now)) nothing_in_sight) }
{
    let at = name.span.start;
    if before.len() >= MOST_VARIABLES {
        return Some(ScopeFault::TooMany { at });
    }
    if is_among(&name.text, before) {
        return Some(ScopeFault::Duplicate { at });
    }
    None
}

// The first fault of the declared variables.
fn fault_of_variables(names: &[Name]) -> Option<ScopeFault>
    ensures { result ≡ first_fault (occurrences_in_list Declared nothing_in_sight [] names.now) }
{
    for (place, name) in names.iter().enumerate() {
        let fault = fault_of_variable(name, &names[..place]);
        if fault.is_some() {
            return fault;
        }
    }
    None
}

// What is in sight where no macro is being defined.
fn outermost<'a>(
    alloc: Global,
    variables: &'a [Name],
    macros: &'a [Macro],
) -> Result<Sight<'a>, AllocError>
    ensures { IfOk result (λ names. in_sight_of names ≡ top_sight variables.now macros.now) }
{
    let mut names = Vec::new(alloc);
    for name in variables {
        names.push(name)?;
    }
    Ok(Sight {
        alloc,
        variables: names,
        macros,
        defining: None,
    })
}

// The first fault of a macro, before which these variables and macros are in sight.
#[tactic(auto, using(crate::proofs::NameRows::macro_faults))]
fn in_macro<'a>(
    alloc: Global,
    variables: &'a [Name],
    earlier: &'a [Macro],
    defined: &'a Macro,
) -> Result<Option<ScopeFault>, AllocError>
    ensures { IfOk result (λ fault. fault ≡ first_fault
        (occurrences_in_macro (top_sight variables.now earlier.now) (plain_macro defined.now))) }
{
    let outside = outermost(alloc, variables, earlier)?;
    if let Some(fault) = outside.at_definition(&defined.name) {
        return Ok(Some(fault));
    }
    let heading = outside.defining(&defined.name, &[])?;
    if let Some(fault) = heading.fault_of_parameters(&defined.parameters) {
        return Ok(Some(fault));
    }
    let inside = outside.defining(&defined.name, &defined.parameters)?;
    inside.fault_in_body(&defined.body)
}

// The first fault of the macros.
fn fault_of_macros(alloc: Global, file: &File) -> Result<Option<ScopeFault>, AllocError>
    ensures { IfOk result (λ fault. fault ≡ faults_of_macros file.now.variables.items [] file.now.macros.items) }
{
    for (place, defined) in file.macros.iter().enumerate() {
        let fault = in_macro(alloc, &file.variables, &file.macros[..place], defined)?;
        if fault.is_some() {
            return Ok(fault);
        }
    }
    Ok(None)
}

/// The first fault of the names of the file: of its variables, its macros in order, whether they are called or not, and its
/// goal. It does not depend on the size of what the macros stand for.
#[tactic(auto, using(crate::proofs::NameRows::file_faults))]
pub fn fault_of_names(alloc: Global, file: &File) -> Result<Option<ScopeFault>, AllocError>
    ensures { IfOk result (λ fault. fault ≡ fault_of_names (plain_file file.now)) }
{
    if let Some(fault) = fault_of_variables(&file.variables) {
        return Ok(Some(fault));
    }
    if let Some(fault) = fault_of_macros(alloc, file)? {
        return Ok(Some(fault));
    }
    let at_goal = outermost(alloc, &file.variables, &file.macros)?;
    at_goal.fault_in_formula(&file.goal.formula)
}
