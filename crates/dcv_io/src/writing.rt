// Writes a whole piece.
ghost use Rattle.std.specs.Prelude.{◌≡◌, true, is_err, OnOk, OnErr};
ghost use Rattle.dcv_io.specs.Faults.{raised, RisesIf};
ghost use Rattle.dcv_io.specs.Written.{Appends, AppendsStrictPrefix};

use crate::{Failed, Sink};

/// Writes all the bytes, in as many pieces as the sink takes them, and takes no memory.
pub fn write_all<S: Sink>(sink: &mut S, bytes: &[u8]) -> Result<(), Failed>
    ensures ok { OnOk result (Appends (S.written sink.old) (S.written sink.new) bytes.now) }
    ensures failed { OnErr result
        (AppendsStrictPrefix (S.written sink.old) (S.written sink.new) bytes.now) }
    ensures faults { RisesIf (is_err result) (S.faults sink.old) (S.faults sink.new) }

    // It stops at the first write that fails: one has failed, and it was the last.
    ensures once { OnErr result (S.faults sink.new ≡ raised (S.faults sink.old)) }
    ensures stops { OnErr result (S.last_failed sink.new ≡ true) }
{
    let mut rest = bytes;
    while !rest.is_empty() {
        let count = sink.write(rest)?;
        rest = &rest[count..];
    }
    Ok(())
}
