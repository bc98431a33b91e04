// The form in which an arena keeps its nodes, 12 bytes each. What it stands for is the node itself, so nothing else
// speaks of it.
ghost use Rattle.std.specs.Prelude.{◌≡◌};
ghost use Rattle.dcv_arena.specs.Stored.{ref_of, number_of, is_leaf, code_of};

use crate::nodes::{Node, Ref};
use std::hash::{Hash, Hasher};
use std::marker::Model;

// A node with the numbers of its children apart from whether they are leaves.
#[derive(Clone, Copy, Debug, PartialEq, Eq)]
pub(crate) struct StoredNode {
    // the number or the place of the child where the slot is false
    lo: u32,
    // those of the child where it is true
    hi: u32,
    // the slot at which the function divides
    slot: u8,
    // whether `lo` is a number
    lo_is_leaf: bool,
    // whether `hi` is one
    hi_is_leaf: bool,
}

impl Model for StoredNode {
    ghost use Rattle.dcv_arena.specs.declared.nodes.Node.{Node as AnyNode};

    ghost Value = { AnyNode };

    ghost use Rattle.dcv_arena.specs.Stored.{ref_of, number_of, is_leaf, number_of-ref_of, is_leaf-ref_of};

    ghost view = { λ a. record { slot = a.slot; lo = ref_of a.lo_is_leaf a.lo; hi = ref_of a.hi_is_leaf a.hi } };

    ghost inverse = { λ node. record {
      lo = number_of node.lo;
      hi = number_of node.hi;
      slot = node.slot;
      lo_is_leaf = is_leaf node.lo;
      hi_is_leaf = is_leaf node.hi;
    } };

    ghost inverse_ok = { λ a _ i. record {
      lo = number_of-ref_of a.lo_is_leaf a.lo i;
      hi = number_of-ref_of a.hi_is_leaf a.hi i;
      slot = a.slot;
      lo_is_leaf = is_leaf-ref_of a.lo_is_leaf a.lo i;
      hi_is_leaf = is_leaf-ref_of a.hi_is_leaf a.hi i;
    } };
}

// A node is hashed as one number.
impl Hash for StoredNode {
    ghost use Rattle.std.proofs.Common.{rules};
    ghost use Rattle.std.specs.Hash as fed;
    ghost use Rattle.std.specs.Cmp.Rules.{hashing};

    ghost hash_input = { λ node. fed.u128 (code_of node) };

    ghost respects_eq = { Prim.search (hashing, rules) };

    fn hash<H: Hasher>(&self, state: &mut H) {
        state.write_u128(self.code());
    }
}

impl StoredNode {
    // The node as one number.
    fn code(self) -> u128
        ensures { result ≡ code_of self }
    {
        let numbers = u128::from(self.lo) + u128::from(self.hi) * 0x1_0000_0000;
        let leaves = u128::from(self.lo_is_leaf) + u128::from(self.hi_is_leaf) * 2;
        numbers + (u128::from(self.slot) * 4 + leaves) * 0x1_0000_0000_0000_0000
    }

    // The form of a node.
    pub(crate) fn new(node: Node) -> StoredNode
        ensures { result ≡ node }
    {
        let (lo_is_leaf, lo) = parts(node.lo);
        let (hi_is_leaf, hi) = parts(node.hi);
        StoredNode {
            lo,
            hi,
            slot: node.slot,
            lo_is_leaf,
            hi_is_leaf,
        }
    }

    // The node that is kept so.
    pub(crate) fn node(self) -> Node
        ensures { result ≡ self }
    {
        Node {
            slot: self.slot,
            lo: reference(self.lo_is_leaf, self.lo),
            hi: reference(self.hi_is_leaf, self.hi),
        }
    }
}

// Whether a ref is a leaf, and its number or place.
fn parts(root: Ref) -> (bool, u32)
    ensures { result ≡ (is_leaf root, number_of root) }
{
    match root {
        Ref::Leaf(number) => (true, number),
        Ref::Place(place) => (false, place),
    }
}

// The ref of which these are the parts.
fn reference(is_leaf: bool, number: u32) -> Ref
    ensures { result ≡ ref_of is_leaf number }
{
    if is_leaf {
        Ref::Leaf(number)
    } else {
        Ref::Place(number)
    }
}
