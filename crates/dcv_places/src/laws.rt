//! Laws of places in texts. Each function here does nothing: its contract is the law.
ghost use Rattle.dcv_places.specs.Laws.{NamesAscend, StepsBeginInText};

/// The names of a text occur in the order of their offsets. So the first fault of names, which counts, is the one at the least
/// offset.
pub fn names_ascend()
    ensures { NamesAscend }
{}

/// Each step of a file's core begins at a byte of the text that spells the file.
pub fn steps_begin_in_text()
    ensures { StepsBeginInText }
{}
