// Which macro a name stands for.
ghost use Rattle.std.specs.Prelude.{◌≢◌, MatchOption};
ghost use Rattle.std.specs.List.{AllByRecursion};
ghost use Rattle.dcv_logic.specs.Newest.{IsNewest};

use dcv_syntax::{Macro, Text};

/// The last macro of the name, which hides those before it, and these.
pub fn newest<'a>(macros: &'a [Macro], name: &Text) -> Option<(&'a Macro, &'a [Macro])>
    ensures { MatchOption result
        (AllByRecursion (λ m. m.name.text ≢ name.now) macros.now)
        (λ found. IsNewest macros.now name.now found.0.now found.1.now) }
{
    let mut earlier = macros;
    while let Some((last, before)) = earlier.split_last() {
        if last.name.text == *name {
            return Some((last, before));
        }
        earlier = before;
    }
    None
}
