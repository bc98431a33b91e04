// Parts of the unit of an automaton.
ghost use Rattle.std.specs.Prelude.{◌≡◌, [], ◌∷◌, map, IfOk};
ghost use Rattle.dcv_automaton_file.specs.File.{texts_of};
ghost use Rattle.dcv_c.specs.Observer.{parameter_name};

use crate::unit::{Assignment, Reset};
use crate::words::VARIABLE;
use dcv_syntax::{Name, Text};
use std::alloc::{AllocError, Global};

/// The reset of a unit that has one static, a state: it is of this name, and makes the static 0.
pub fn reset_to_start(alloc: Global, name: &[u8]) -> Result<Reset, AllocError>
    ensures name { IfOk result (λ reset. reset.name ≡ name.now) }
    ensures assignments { IfOk result (λ reset. reset.assignments.items ≡ record { name = 0; number = 0 } ∷ []) }
{
    let name = Text::copy_of(alloc, name)?;
    let mut assignments = Vec::new(alloc);
    assignments.push(Assignment { name: 0, number: 0 })?;
    Ok(Reset { name, assignments })
}

/// The names of a unit's parameters: `v_NAME`, for each of these variables.
pub fn parameter_texts(alloc: Global, names: &[Name]) -> Result<Vec<Text>, AllocError>
    ensures { IfOk result (λ parameters. parameters.items ≡ map parameter_name (texts_of names.now)) }
{
    let mut parameters = Vec::new(alloc);
    for name in names {
        parameters.push(parameter_text(alloc, name)?)?;
    }
    Ok(parameters)
}

// `v_NAME`.
fn parameter_text(alloc: Global, name: &Name) -> Result<Text, AllocError>
    ensures { IfOk result (λ text. text ≡ parameter_name name.now.text) }
{
    let mut bytes = Vec::new(alloc);
    bytes.extend_from_slice(VARIABLE)?;
    bytes.extend_from_slice(name.text.as_bytes())?;
    Text::copy_of(alloc, &bytes)
}
