// A count of faults or of calls.
ghost use Rattle.std.specs.Prelude.{◌≡◌};
ghost use Rattle.dcv_io.specs.Faults.{raised, Rises};

// Adds one, up to the last value.
pub fn raise(count: &mut u64)
    ensures raised { count.new ≡ raised count.old }
    ensures rises { Rises count.old count.new }
{
    *count = count.saturating_add(1);
}
