// The command that asks whether the words of an automaton's text show that it is minimal.
ghost use Rattle.std.specs.Prelude.{◌≡◌};
ghost use Rattle.dcv_cli.specs.Certificate.{status_of_answer};

use crate::command::AutomatonCommand;
use crate::refused::Ended;
use crate::reply::{Reply, reply_with};
use crate::status::Status;
use dcv_automaton_read::AutoFile;
use dcv_certify::{Answer, certify};
use dcv_io::{Sink, Target, put_pieces};
use itoa::Buffer;
use std::alloc::Global;

/// Says whether the words of an automaton's text show that it is minimal.
#[derive(Clone, Copy)]
pub(crate) struct Certifier;

impl AutomatonCommand for Certifier {
    ghost use Rattle.dcv_cli.specs.Certificate.{IsCertificate};

    ghost right = { λ _. IsCertificate };

    fn answer<O: Sink>(&self, alloc: Global, _: &[u8], file: &AutoFile, out: &mut O) -> Ended {
        let answer = certify(alloc, file)?;
        let certified = Certified {
            states: file.states(),
            answer,
        };
        reply_with(&certified, certified.status(), out)
    }
}

/// What is said of an automaton with so many states.
#[derive(Clone, Copy)]
pub(crate) struct Certified {
    // how many states the automaton has
    states: u32,
    // what was found of its words
    answer: Answer,
}

impl Certified {
    fn status(self) -> Status
        ensures { result ≡ status_of_answer self.answer }
    {
        match self.answer {
            Answer::Minimal => Status::Done,
            Answer::Access { .. } | Answer::Pair { .. } => Status::NotValid,
        }
    }
}

impl Reply for Certified {
    ghost use Rattle.dcv_language.specs.VerdictText.{line};
    ghost use Rattle.dcv_cli.specs.Certificate.{answer_words};

    ghost text = { λ certified. line (answer_words certified.states certified.answer) };

    fn put<T: Target>(&self, target: &mut T) {
        let (mut one, mut other) = (Buffer::new(), Buffer::new());
        match self.answer {
            Answer::Minimal => put_pieces(
                target,
                &[b"certified ", one.format(self.states).as_bytes(), b"\n"],
            ),
            Answer::Access { state } => put_pieces(
                target,
                &[b"refused access ", one.format(state).as_bytes(), b"\n"],
            ),
            Answer::Pair { first, second } => put_pieces(
                target,
                &[
                    b"refused pair ",
                    one.format(first).as_bytes(),
                    b" ",
                    other.format(second).as_bytes(),
                    b"\n",
                ],
            ),
        }
    }
}
