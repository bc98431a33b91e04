// What is remembered of: operands in a round. Two have a form of their own, for speed: it lies in 16 bytes, and is copied from visit to
// visit and hashed as one number. Any other number of them stand in a list.
ghost use Rattle.std.specs.Prelude.{◌≡◌, [], ◌∷◌, map, IfSome};
ghost use Rattle.dcv_apply.specs.Remembered.{entry_of, entry_of_pair};
ghost use Rattle.dcv_arena.specs.declared.nodes.Ref.{Ref as AnyRef};
ghost use Rattle.dcv_apply.specs.Pairs.{operand_at, pair_operands, plain};

use crate::operands::{IN_PLACE, Kind, Operand, Operands, told};
use dcv_arena::Ref;
use smallvec::SmallVec;
use std::alloc::Global;
use std::hash::{Hash, Hasher};

// Two operands, which most visits have. Which place above 0 the second arena had, and the place of a leaf, are left out.
#[derive(Clone, Copy, Debug, PartialEq, Eq)]
pub(crate) struct Pair {
    // the operation with its sources
    round: u32,
    // the number or the place of the first operand
    one: u32,
    // those of the second
    other: u32,
    // the first operand's source, and whether it is a leaf
    one_kind: Kind,
    // those of the second
    other_kind: Kind,
}

impl Pair {
    #[inline(always)]
    pub(crate) fn new(round: u32, one: Operand, other: Operand) -> Pair
        ensures round { result.round ≡ round }
        ensures operands { pair_operands result ≡ plain one ∷ plain other ∷ [] }
    {
        let (one_kind, one) = told(one);
        let (other_kind, other) = told(other);
        Pair {
            round,
            one,
            other,
            one_kind,
            other_kind,
        }
    }

    // Operands of which there are two.
    pub(crate) fn of(round: u32, operands: &[Operand]) -> Option<Pair>
        ensures round { IfSome result (λ pair. pair.round ≡ round) }
        ensures operands { IfSome result (λ pair. pair_operands pair ≡ map plain operands.now) }
    {
        match operands {
            [one, other] => Some(Pair::new(round, *one, *other)),
            _ => None,
        }
    }

    pub(crate) fn round(self) -> u32
        ensures { result ≡ self.round }
    {
        self.round
    }

    // The first operand.
    #[inline(always)]
    pub(crate) fn one(self) -> Operand
        ensures { result ≡ operand_at self.one_kind self.one }
    {
        self.one_kind.operand(self.one)
    }

    // The second operand.
    #[inline(always)]
    pub(crate) fn other(self) -> Operand
        ensures { result ≡ operand_at self.other_kind self.other }
    {
        self.other_kind.operand(self.other)
    }

    // A number that spreads pairs over an index. That decides the time alone, so no clause says which it is.
    #[inline(always)]
    pub(crate) fn digest(self) -> u32 {
        let numbers = u64::from(self.one) | u64::from(self.other) << 32;
        let kinds = self.one_kind.code() | self.other_kind.code() << 2;
        let rest = (u64::from(self.round) << 4 | kinds).wrapping_mul(GOLDEN_RATIO);
        let mixed = (numbers ^ rest).wrapping_mul(GOLDEN_RATIO);
        (mixed >> 32) as u32
    }

    // The same as a key of any number of operands.
    pub(crate) fn key(self, alloc: Global) -> Key
        ensures { (root : AnyRef) → entry_of (result, root) ≡ entry_of_pair (self, root) }
    {
        let operands = [self.one(), self.other(), Operand::default()];
        Key::new(self.round, SmallVec::from_buf_and_len(alloc, operands, 2))
    }
}

// Any number of operands. The digest is a number that they were mixed into once, so that neither a look-up nor
// an entry goes over the operands again to hash them. Leaves alone are not looked up, so they have none.
#[derive(PartialEq, Eq, Drop)]
pub(crate) struct Key {
    // a hash of the round and the operands, by which keys are told apart first
    digest: u32,
    // the operation with its sources
    pub(crate) round: u32,
    // what is merged
    pub(crate) operands: Operands,
}

impl Key {
    pub(crate) fn new(round: u32, operands: Operands) -> Key
        ensures round { result.round ≡ round }
        ensures operands { result.operands.items ≡ operands.items }
    {
        Key {
            digest: digest_of(round, &operands),
            round,
            operands,
        }
    }

    // Whether there is one operand. That decides the time and the memory alone, so no clause says it.
    pub(crate) fn is_alone(&self) -> bool {
        self.operands.len() == 1
    }

    // Whether the operands take no memory of their own. That decides no more than the other.
    pub(crate) fn is_in_place(&self) -> bool {
        self.operands.len() <= IN_PLACE
    }
}

impl Hash for Key {
    ghost use Rattle.std.proofs.Common.{rules};
    ghost use Rattle.std.specs.Hash as fed;
    ghost use Rattle.std.specs.Cmp.Rules.{hashing};

    ghost hash_input = { λ key. fed.u32 key.digest };

    ghost respects_eq = { Prim.search (hashing, rules) };

    fn hash<H: Hasher>(&self, state: &mut H) {
        state.write_u32(self.digest);
    }
}

// 2^64 over the golden ratio: multiplicative hashing (D. E. Knuth, "The Art of Computer Programming", volume 3, section 6.4) spreads numbers
// that are near each other by it.
const GOLDEN_RATIO: u64 = 0x9E37_79B9_7F4A_7C15;

// The digest of operands in a round.
fn digest_of(round: u32, operands: &[Operand]) -> u32 {
    if operands.iter().all(is_leaf) {
        return 0;
    }
    (operands.iter().fold(u64::from(round), mixed_with) >> 32) as u32
}

fn is_leaf(operand: &Operand) -> bool {
    matches!(operand.1, Ref::Leaf(_))
}

// The digest of what comes before an operand and of the operand.
fn mixed_with(before: u64, operand: &Operand) -> u64 {
    let (place, root) = *operand;
    let number = match root {
        Ref::Leaf(number) => u64::from(number) << 1 | 1,
        Ref::Place(number) => u64::from(number) << 1,
    };
    let mixed = (before ^ number ^ u64::from(place) << 33).wrapping_mul(GOLDEN_RATIO);
    mixed ^ mixed >> 29
}
