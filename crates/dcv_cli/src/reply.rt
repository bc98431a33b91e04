// What is said to the output or on the messages, and how it is written.
ghost use Rattle.std.specs.Prelude.{is_err, OnOk, OnErr};
ghost use Rattle.dcv_io.specs.Faults.{RisesIf};
ghost use Rattle.dcv_io.specs.Putting.{Puts};
ghost use Rattle.dcv_io.specs.Written.{Appends, AppendsStrictPrefix};
ghost use Rattle.dcv_cli.specs.Outside.{stream};
ghost use Rattle.dcv_cli.specs.Performed.{Replies};

use crate::refusal::Refusal;
use crate::refused::{Ended, Which};
use crate::status::Status;
use dcv_io::{Block, Failed, Sink, Target};

/// What is said.
pub(crate) trait Reply {
    ghost use Rattle.std.specs.Prelude.{ℕ, List};

    /// Its text.
    ghost text: { Self → List ℕ };

    /// Puts the text.
    fn put<T: Target>(&self, target: &mut T)
        ensures { Puts (T.standing target.old) (T.standing target.new) (text self.now) };
}

/// Writes the text of a reply, for an answer with this status.
pub(crate) fn reply_with<R: Reply, S: Sink>(reply: &R, status: Status, sink: &mut S) -> Ended
    ensures { Replies status (R.text reply.now) result (stream S.Sink sink.old) (stream S.Sink sink.new) }
{
    match send(reply, sink) {
        Ok(()) => Ok(status),
        Err(_) => Err(Refusal::Write.of(Which::Only)),
    }
}

/// Writes the text of a reply, in blocks. It takes no memory.
pub(crate) fn send<R: Reply, S: Sink>(reply: &R, sink: &mut S) -> Result<(), Failed>
    ensures ok { OnOk result (Appends (S.written sink.old) (S.written sink.new) (R.text reply.now)) }
    ensures failed { OnErr result (AppendsStrictPrefix (S.written sink.old) (S.written sink.new) (R.text reply.now)) }
    ensures faults { RisesIf (is_err result) (S.faults sink.old) (S.faults sink.new) }
{
    let mut block = Block::new(sink);
    reply.put(&mut block);
    block.finish()
}
