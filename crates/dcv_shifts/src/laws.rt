//! Laws of shifts. Each function here does nothing: its contract is the law.
ghost use Rattle.dcv_shifts.specs.Laws.{BackMachineAccepts, ForeMachineAccepts};

/// The machines of shifts accept the words in which one test is another, an instant later or earlier.
pub fn shifts_accept()
    ensures back { BackMachineAccepts }
    ensures fore { ForeMachineAccepts }
{}
