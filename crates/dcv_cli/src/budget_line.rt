// What is said of the first step of a goal that is over the limits, of a product, and of the tuples of a set.
ghost use Rattle.std.specs.Prelude.{◌≡◌};
ghost use Rattle.dcv_io.specs.Putting.{Puts};
ghost use Rattle.dcv_cli.specs.Refusal.{excess_word_of, over_words, product_words, tuples_words};

use dcv_io::{Target, put_pieces};
use itoa::Buffer;

/// What a step has too many of.
#[derive(Clone, Copy)]
pub enum Excess {
    /// States of the machine that is explored for it.
    States,
    /// Nodes of the rows of these states, with those of its proposition.
    Nodes,
}

impl Excess {
    // What it is, in a word.
    fn word(self) -> &'static [u8]
        ensures { result.now ≡ excess_word_of self }
    {
        match self {
            Excess::States => b"states",
            Excess::Nodes => b"nodes",
        }
    }
}

/// The first step of a goal that is over the limits: what it has more of than the limit, the offset at which its part of the text
/// begins, and its number, from 0, in the order in which steps are built.
#[derive(Clone, Copy)]
pub struct Over {
    /// Which limits it exceeds.
    pub excess: Excess,
    /// The limit that is named.
    pub limit: u32,
    /// The place of the step's operator in the text.
    pub at: u32,
    /// The number of the step.
    pub step: u32,
}

impl Over {
    /// Puts the words that say so. It takes no memory.
    pub fn put<T: Target>(self, target: &mut T)
        ensures { Puts (T.standing target.old) (T.standing target.new) (over_words self) }
    {
        let (mut limit, mut at, mut step) = (Buffer::new(), Buffer::new(), Buffer::new());
        let pieces: [&[u8]; 8] = [
            b"budget ",
            self.excess.word(),
            b" ",
            limit.format(self.limit).as_bytes(),
            b" at ",
            at.format(self.at).as_bytes(),
            b" step ",
            step.format(self.step).as_bytes(),
        ];
        put_pieces(target, &pieces);
    }
}

/// Puts the words that say that the product of two automata has more of this than the limit.
pub(crate) fn put_product<T: Target>(target: &mut T, excess: Excess, limit: u32)
    ensures { Puts (T.standing target.old) (T.standing target.new) (product_words excess limit) }
{
    let mut digits = Buffer::new();
    put_pieces(
        target,
        &[
            b"budget ",
            excess.word(),
            b" ",
            digits.format(limit).as_bytes(),
            b" in product",
        ],
    );
}

/// Puts the words that say that more tuples of states come before an answer than this.
pub(crate) fn put_tuples<T: Target>(target: &mut T, limit: u32)
    ensures { Puts (T.standing target.old) (T.standing target.new) (tuples_words limit) }
{
    let mut digits = Buffer::new();
    put_pieces(
        target,
        &[b"budget tuples ", digits.format(limit).as_bytes()],
    );
}
