// Compares the outcome of a row's run with the expected one.
ghost use Rattle.std.specs.Prelude.{◌≡◌, false, IfNone, IfOk, OnSome};

use crate::fault::Fault;
use crate::outcome::{Outcome, run_in_memory, run_on_system};
use crate::pattern::Pattern;
use crate::row::Row;
use std::alloc::{AllocError, Global};

/// Whether the row holds. If not, it prints why.
pub(crate) fn judge(rt: &HostRuntime, row: &Row) -> Result<bool, Fault>
    // A row with a line that is not of this form, without words or without a status never holds.
    ensures refused { OnSome row.now.refused (IfOk result (λ holds. holds ≡ false)) }
    ensures words { IfNone row.now.arguments (IfOk result (λ holds. holds ≡ false)) }
    ensures status { IfNone row.now.numbers.status (IfOk result (λ holds. holds ≡ false)) }
{
    if let Some(line) = &row.refused {
        println!(rt; "{}: not a line of a row: {line}", row.title)?;
        return Ok(false);
    }
    let (Some(arguments), Some(status)) = (&row.arguments, row.numbers.status) else {
        println!(rt; "{}: no words or no status", row.title)?;
        return Ok(false);
    };
    let outcome = if row.is_real {
        run_on_system(rt, arguments, row)?
    } else {
        run_in_memory(rt.alloc(), arguments, row)?
    };
    let holds = u64::from(outcome.status) == status
        && fits(&row.out, &outcome.out)
        && fits(&row.err, &outcome.err);
    if !holds {
        tell(rt, row, status, &outcome)?;
    }
    Ok(holds)
}

// Whether exactly the expected bytes were written. A row that says nothing of them expects none.
fn fits(expected: &Option<Pattern>, bytes: &[u8]) -> bool {
    match expected {
        Some(pattern) => pattern.fits(bytes),
        None => bytes.is_empty(),
    }
}

// Prints the expected and the actual outcome of a row that does not hold.
fn tell(rt: &HostRuntime, row: &Row, status: u64, outcome: &Outcome) -> Result<(), Fault> {
    let alloc = rt.alloc();
    println!(rt; "{}: does not hold", row.title)?;
    let out = shown(alloc, &row.out)?;
    let err = shown(alloc, &row.err)?;
    println!(rt; "  expected: status {status}, out {out}, err {err}")?;
    let out = String::from_utf8_lossy(alloc, &outcome.out)?;
    let err = String::from_utf8_lossy(alloc, &outcome.err)?;
    println!(rt;
        "  actual: status {}, out {out:?}, err {err:?}",
        outcome.status
    )?;
    Ok(())
}

// An expected text in quotes, or the two parts around its gap.
fn shown(alloc: Global, expected: &Option<Pattern>) -> Result<String, AllocError> {
    let Some(pattern) = expected else {
        return String::from_str(alloc, "\"\"");
    };
    let prefix = String::from_utf8_lossy(alloc, &pattern.prefix)?;
    let Some(suffix) = &pattern.suffix else {
        return format!(in alloc; "{prefix:?}");
    };
    let suffix = String::from_utf8_lossy(alloc, suffix)?;
    format!(in alloc; "{prefix:?} .. {suffix:?}")
}
