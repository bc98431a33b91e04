// Relays: macros that stand for one of their arguments, whatever the others are. A call of one is no node, and its argument
// takes its place, so calls in calls of relays, of which a text may have thousands, are passed over before anything is made of
// them.
ghost use Rattle.std.specs.Prelude.{◌≡◌, ◌<◌, ◌≤◌, ◌++◌, None, Some, IfOk, IfSome, map, length, slice_index_or};
ghost use Rattle.dcv_syntax.specs.declared.propositions.Prop.{size-Prop};
ghost use Rattle.dcv_syntax.specs.Views.{plain_prop_kind, plain_macro};
ghost use Rattle.dcv_logic.specs.Environment.{found};
ghost use Rattle.dcv_scope.specs.CoreOf.{expansion_of, declared_slots};
ghost use Rattle.dcv_scope.specs.Expansions.{names_of, sight_of, top_sight_of, IsRelay, IsRelayTo, AreRelays, IsRelayed, StandAlike};
ghost use Rattle.dcv_scope.specs.Expansions.{parameter_slots, places_from, IsParameter};

use super::{Binding, Meaning, Sight, with_variables};
use dcv_logic::newest;
use dcv_syntax::{Macro, MacroBody, Name, Prop, PropKind, Text};
use std::alloc::{AllocError, Global};

// The place to which a relay hands on, and none where the macro at this place is no relay.
fn relay_at(relays: &[Option<usize>], place: usize) -> Option<usize>
    ensures { result ≡ slice_index_or relays.now place None }
{
    relays.get(place).copied().unwrap_or(None)
}

impl<'a> Sight<'a> {
    // The place of the argument to which the name hands on, where it stands for a relay.
    #[inline(never)]
    fn relay(&self, name: &Text) -> Option<usize>
        requires relays { AreRelays self.now.variables.now self.now.macros.now self.now.relays.now }
        ensures { IfSome result (IsRelayed (sight_of self.now) name.now) }
    {
        if self.meaning(name).is_some() {
            return None;
        }
        let Some((last, before)) = newest(self.macros, name) else {
            return None;
        };
        relay_at(self.relays, before.len())
    }

    // What is left of a proposition where each call of a relay is replaced by its argument.
    #[cycle(behind)]
    pub(super) fn behind<'p>(&self, prop: &'p Prop) -> &'p Prop
        requires relays { AreRelays self.now.variables.now self.now.macros.now self.now.relays.now }
        ensures alike { StandAlike (sight_of self.now) (plain_prop_kind result.now.kind) (plain_prop_kind prop.now.kind) }
        ensures size { size-Prop result.now ≤ size-Prop prop.now }
    {
        let PropKind::Call(name, arguments) = &prop.kind else {
            return prop;
        };
        let Some(place) = self.relay(&name.text) else {
            return prop;
        };
        if place >= arguments.len() {
            return prop;
        }
        self.behind(&arguments[place])
    }
}

// The place of the parameter of that name.
fn place_of(parameters: &[Name], name: &Text) -> Option<usize>
    ensures { result ≡ found (places_from 0 parameters.now) name.now }
{
    parameters
        .iter()
        .position(|parameter| parameter.text == *name)
}

// What is in sight in a macro of these parameters, whatever they stand for.
fn with_parameters<'a>(
    alloc: Global,
    parameters: &'a [Name],
    variables: &'a [Name],
) -> Result<Vec<Binding<'a>>, AllocError>
    requires { length variables.now < 256 }
    ensures { IfOk result (λ all. names_of all.items ≡ parameter_slots parameters.now ++ declared_slots 0 variables.now) }
{
    let mut names = Vec::new(alloc);
    for name in parameters {
        names.push(Binding {
            name,
            meaning: Meaning::Slot(0),
        })?;
    }
    with_variables(names, variables)
}

// The place to which a macro hands on, where it is a relay.
fn relay_of<'a>(
    alloc: Global,
    variables: &'a [Name],
    macros: &'a [Macro],
    relays: &'a [Option<usize>],
    defined: &'a Macro,
) -> Result<Option<usize>, AllocError>
    requires few { length variables.now < 256 }
    requires relays { AreRelays variables.now macros.now relays.now }
    ensures { IfOk result (λ relay. IsRelayTo relay (expansion_of (top_sight_of variables.now macros.now) (plain_macro defined.now))) }
{
    let MacroBody::Prop(body) = &defined.body else {
        return Ok(None);
    };
    let sight = Sight {
        alloc,
        slots: 0,
        names: with_parameters(alloc, &defined.parameters, variables)?,
        variables,
        macros,
        measures: &[],
        relays,
    };
    let behind = sight.behind(body);
    let relay = parameter_at(behind, &defined.parameters);
    Ok(relay)
}

// The place of the parameter that the proposition is.
fn parameter_at(prop: &Prop, parameters: &[Name]) -> Option<usize>
    ensures { IfSome result (IsParameter parameters.now (plain_prop_kind prop.now.kind)) }
{
    let PropKind::Call(name, arguments) = &prop.kind else {
        return None;
    };
    if !arguments.is_empty() {
        return None;
    }
    place_of(parameters, &name.text)
}

// For each macro the place to which it hands on, where it is a relay.
pub(super) fn relays_of(
    alloc: Global,
    variables: &[Name],
    macros: &[Macro],
) -> Result<Vec<Option<usize>>, AllocError>
    requires few { length variables.now < 256 }
    ensures { IfOk result (λ relays. AreRelays variables.now macros.now relays.items) }
{
    let mut relays = Vec::new(alloc);
    for (place, defined) in macros.iter().enumerate() {
        let relay = relay_of(alloc, variables, &macros[..place], &relays, defined)?;
        relays.push(relay)?;
    }
    Ok(relays)
}
