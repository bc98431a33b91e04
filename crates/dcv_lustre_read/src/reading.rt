// From a text to its node.
ghost use Rattle.std.specs.Prelude.{◌≡◌, ◌≢◌, ◌<◌, ◌^◌, ℕ, length, IsTrue, IfOk, IfErr, OnOk};
ghost use Rattle.dcv_lexer.specs.Lexicon.{lexicon_of, is_orderly};
ghost use Rattle.dcv_observer.specs.Items.{IsSyntaxFault};
ghost use Rattle.dcv_observer.specs.declared.fault.ObsFault.{ObsFault as Fault};
ghost use Rattle.dcv_observer.specs.declared.fault.ObsFault.TheVariants.{Syntax, Memory};
ghost use Rattle.dcv_lustre.specs.Classes.{lexicon};
ghost use Rattle.dcv_lustre.specs.Language.{language};
ghost use Rattle.dcv_lustre.specs.Actions.{Spells};
ghost use Rattle.dcv_lustre.specs.Faults.{HasFault, IsReadAs};
ghost use Rattle.dcv_lustre_read.specs.Seen.{seen_node};

use crate::names::named;
use crate::parts::Part;
use crate::placed::PlacedNode;
use crate::tables::LEXICON;
use crate::translation::NodeTranslation;
use dcv_lexer::Lexicon;
use dcv_lustre::laws::texts_are_nodes_or_at_fault;
use dcv_lustre::{Node, ObsFault};
use dcv_observer::translate;
use std::alloc::Global;

/// The node of a text, or the one fault of it. Only running out of memory is no fault of the text.
pub fn read(alloc: Global, bytes: &[u8]) -> Result<Node, ObsFault>
    requires { length bytes.now < 2 ^ 32 }
    ensures read { IfOk result (IsReadAs bytes.now) }
    ensures no_fault { OnOk result ((fault : Fault) → HasFault bytes.now fault → ⊥) }
    ensures fault { IfErr result (λ fault. fault ≢ Memory → HasFault bytes.now fault) }
{
    texts_are_nodes_or_at_fault();
    let placed = placed_node(alloc, bytes)?;
    let read = named(alloc, &placed);
    drop(placed);
    let node = read?;
    // for the prover: what is true of every node.
    node.keeps_the_rules();
    Ok(node)
}

// The node that a text has.
fn placed_node<'a>(alloc: Global, text: &'a [u8]) -> Result<Box<PlacedNode<'a>>, ObsFault>
    requires { length text.now < 2 ^ 32 }
    ensures spelled { IfOk result (λ placed. Spells text.now (seen_node placed.value)) }
    ensures fault { IfErr result (λ fault. fault ≢ Memory → (at : ℕ) × (fault ≡ Syntax at) × IsSyntaxFault lexicon language text.now at) }
{
    match translate(alloc, &NodeTranslation { alloc }, written(), text)? {
        Part::Node(placed) => Ok(placed),
        _ => unreachable!(),
    }
}

// What nodes are written with.
#[tactic(auto, unfolding(dcv_lustre::specs::Classes::lexicon))]
fn written<'a>() -> &'a Lexicon<'a>
    ensures lexicon { lexicon_of result.now ≡ lexicon }
    ensures orderly { IsTrue (is_orderly lexicon) }
{
    &LEXICON
}
