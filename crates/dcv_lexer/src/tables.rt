// What a language is written with, and the classes of its tokens.
ghost use Rattle.std.specs.Prelude.{◌≡◌, map, IsTrue};
ghost use Rattle.dcv_lexer.specs.Lexicon.{class_in, has_leading_zero};

/// What a language is written with. Each token has a class, a number for which the crate above has a name.
#[derive(Clone, Copy)]
pub struct Lexicon<'a> {
    /// Each symbol with its class, the longer ones first.
    pub symbols: &'a [(&'a [u8], u8)],
    /// Each reserved word with its class.
    pub words: &'a [(&'a [u8], u8)],
    /// The class of a word that is not reserved.
    pub name: u8,
    /// The class of a number.
    pub number: u8,
    /// The class of what is no token, and of a number whose first digit is a 0 that may not stand there.
    pub unknown: u8,
    /// Whether `//` and what stands after it in its line is a comment. If not, it is nothing.
    pub comments: bool,
    /// Whether a number of two digits or more may begin with 0.
    pub leading_zeros: bool,
}

// The class that a table has for a text.
fn class_in(table: &[(&[u8], u8)], bytes: &[u8]) -> Option<u8>
    ensures { result ≡ class_in (map (λ entry. (entry.0.now, entry.1)) table.now) bytes.now }
{
    for (text, class) in table {
        if bytes == *text {
            return Some(*class);
        }
    }
    None
}

// Whether a 0 stands before other digits.
fn has_leading_zero(digits: &[u8]) -> bool
    ensures { result ≡ has_leading_zero digits.now }
{
    digits.len() > 1 && digits[0] == b'0'
}

impl Lexicon<'_> {
    ghost use Rattle.dcv_lexer.specs.Lexicon.{lexicon_of, is_token, word_class, number_class, class_of, is_orderly};

    /// The class of a word.
    pub fn word_class(&self, bytes: &[u8]) -> u8
        ensures { result ≡ word_class (lexicon_of self.now) bytes.now }
    {
        class_in(self.words, bytes).unwrap_or(self.name)
    }

    /// The class of a number.
    pub fn number_class(&self, digits: &[u8]) -> u8
        ensures { result ≡ number_class (lexicon_of self.now) digits.now }
    {
        if self.leading_zeros || !has_leading_zero(digits) {
            self.number
        } else {
            self.unknown
        }
    }

    /// The class of a token.
    pub fn class_of(&self, bytes: &[u8]) -> u8
        requires orderly { IsTrue (is_orderly (lexicon_of self.now)) }
        requires token { IsTrue (is_token (lexicon_of self.now) bytes.now) }
        ensures { result ≡ class_of (lexicon_of self.now) bytes.now }
    {
        let first = bytes[0];
        if first.is_ascii_alphabetic() {
            self.word_class(bytes)
        } else if first.is_ascii_digit() {
            self.number_class(bytes)
        } else {
            class_in(self.symbols, bytes).unwrap_or(self.unknown)
        }
    }
}
