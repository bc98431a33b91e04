// The names of a controller's unit, as texts.
ghost use Rattle.std.specs.Prelude.{◌≡◌, ◌++◌, IfOk, OnOk};
ghost use Rattle.dcv_synth.specs.Units.{local_names, names_of_nodes};
ghost use Rattle.dcv_synth.specs.Placing.{numbered};

use dcv_syntax::Text;
use itoa::Buffer;
use std::alloc::{AllocError, Global};

// `nx` and `y`, and the nodes of both kinds.
pub(crate) fn locals(alloc: Global, nexts: u32, outputs: u32) -> Result<Vec<Text>, AllocError>
    ensures { IfOk result (λ locals. locals.items ≡ local_names nexts outputs) }
{
    let mut locals = Vec::new(alloc);
    locals.push(Text::copy_of(alloc, b"nx")?)?;
    locals.push(Text::copy_of(alloc, b"y")?)?;
    push_nodes(alloc, &mut locals, b'n', nexts)?;
    push_nodes(alloc, &mut locals, b'o', outputs)?;
    Ok(locals)
}

// The names of so many nodes, after the others.
fn push_nodes(
    alloc: Global,
    locals: &mut Vec<Text>,
    letter: u8,
    count: u32,
) -> Result<(), AllocError>
    ensures { OnOk result (locals.new.items ≡ locals.old.items ++ names_of_nodes (numbered letter) count) }
{
    for number in 0..count {
        locals.push(node(alloc, letter, number)?)?;
    }
    Ok(())
}

// A letter and a number.
fn node(alloc: Global, letter: u8, number: u32) -> Result<Text, AllocError>
    ensures { IfOk result (λ text. text ≡ numbered letter number) }
{
    let mut digits = Buffer::new();
    let mut bytes = Vec::new(alloc);
    bytes.push(letter)?;
    bytes.extend_from_slice(digits.format(number).as_bytes())?;
    Text::copy_of(alloc, &bytes)
}
