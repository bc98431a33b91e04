//! Answers, gathered in a block before they are written.
ghost use Rattle.std.specs.Prelude.{◌≡◌, ◌≢◌, ℕ, List, ◌++◌, [], OnOk, OnErr, is_err};
ghost use Rattle.dcv_io.specs.Faults.{RisesIf};
ghost use Rattle.dcv_word.specs.TraceLine.{digit_of};
ghost use Rattle.dcv_replay.specs.Answers.{answer_line};
ghost use Rattle.dcv_replay.specs.Replayed.{Sends};

use dcv_io::{Failed, Sink, write_all};
use std::marker::Model;

const BLOCK: usize = 4096;

/// The lines of answers that have not been written.
#[derive(Drop)]
pub(crate) struct Answers {
    // a line of two bytes for each answer
    bytes: [u8; BLOCK],
    // how many bytes there are
    filled: usize,
}

impl Model for Answers {
    ghost use Rattle.std.specs.Prelude.{List, ℕ, take, ◌+◌, ◌≤◌};

    ghost Value = { List ℕ };

    ghost view = { λ a. take a.filled a.bytes };

    ghost invariant = { λ a. a.filled + 2 ≤ 4096 };
}

impl Answers {
    // None so far.
    pub(crate) fn new() -> Answers
        ensures { result ≡ [] }
    {
        Answers {
            bytes: [0; BLOCK],
            filled: 0,
        }
    }

    // Adds an answer, and writes the block where it is full.
    pub(crate) fn push<S: Sink>(&mut self, sink: &mut S, answer: bool) -> Result<(), Failed>
        ensures ok { OnOk result (Sends (S.written sink.old) (S.written sink.new) (self.old ++ answer_line answer) self.new) }
        ensures err { OnErr result ((left : List ℕ) × (left ≢ []) × Sends (S.written sink.old) (S.written sink.new) (self.old ++ answer_line answer) left) }
        ensures faults { RisesIf (is_err result) (S.faults sink.old) (S.faults sink.new) }
    {
        let length = self.filled;
        self.bytes[length] = digit(answer);
        self.bytes[length + 1] = b'\n';
        if length + 4 <= BLOCK {
            self.filled = length + 2;
            return Ok(());
        }
        self.filled = 0;
        write_all(sink, &self.bytes[..length + 2])
    }

    // Writes those that have not been written.
    pub(crate) fn send<S: Sink>(&mut self, sink: &mut S) -> Result<(), Failed>
        ensures ok { OnOk result (Sends (S.written sink.old) (S.written sink.new) self.old []) }
        ensures err { OnErr result ((left : List ℕ) × (left ≢ []) × Sends (S.written sink.old) (S.written sink.new) self.old left) }
        ensures faults { RisesIf (is_err result) (S.faults sink.old) (S.faults sink.new) }
    {
        let length = self.filled;
        self.filled = 0;
        write_all(sink, &self.bytes[..length])
    }
}

// The digit of an answer.
fn digit(answer: bool) -> u8
    ensures { result ≡ digit_of answer }
{
    if answer { b'1' } else { b'0' }
}
