// What the rule of a node stands for, by the parts of its body.
ghost use Rattle.std.specs.Prelude.{◌≡◌, map, IfOk};
ghost use Rattle.dcv_lustre.specs.Actions.{node_part};
ghost use Rattle.dcv_lustre_read.specs.Symbols.{seen_part, IsMeant};

use crate::accessors;
use crate::parts::{Made, Part, Parts};
use crate::placed::PlacedNode;
use dcv_translation::with_first;
use std::alloc::Global;

// node = "node" name "(" input more_inputs ")" output variables "let" equations "tel"
#[tactic(auto, using(dcv_translation::proofs::Reversed::forwards))]
pub(crate) fn node<'a>(alloc: Global, parts: &mut Parts<'a>) -> Made<'a>
    requires { IsMeant (node_part (map seen_part parts.old)) }
    ensures { IfOk result (λ part. seen_part part ≡ node_part (map seen_part parts.old)) }
{
    let name = accessors::token(parts);
    let mut inputs = with_first(accessors::token(parts), accessors::tokens(parts))?;
    let output = accessors::token(parts);
    let mut locals = accessors::locals(parts);
    let mut equations = accessors::equations(parts);
    let tel = accessors::token(parts);
    inputs.reverse();
    locals.reverse();
    equations.reverse();
    let placed = PlacedNode {
        name,
        inputs,
        output,
        locals,
        equations,
        tel,
    };
    Ok(Part::Node(Box::new(alloc, placed)?))
}
