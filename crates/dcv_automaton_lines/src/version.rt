// The versions of an automaton's text, and the words in which they differ.
ghost use Rattle.std.specs.Prelude.{◌≡◌, ◌++◌, ◌∷◌, []};
ghost use Rattle.dcv_automaton_lines.specs.Parts.{title as title_of, closing_word, closing_end};

/// The version of a text, 1 or 2.
#[derive(Clone, Copy, Debug, PartialEq, Eq)]
pub enum Version {
    First,
    Second,
}

impl Version {
    /// The text up to the names.
    pub fn title(self) -> &'static [u8]
        ensures { result.now ≡ title_of self }
    {
        match self {
            Version::First => b"automaton 1\nvariables ",
            Version::Second => b"automaton 2\nvariables ",
        }
    }

    /// The word that closes the sections, and the byte after it: the last line, or the first word of the step part.
    pub fn closing(self) -> &'static [u8]
        ensures { result.now ≡ closing_word self ++ closing_end self ∷ [] }
    {
        match self {
            Version::First => b"end\n",
            Version::Second => b"steps ",
        }
    }
}
