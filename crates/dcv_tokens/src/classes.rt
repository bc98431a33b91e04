//! The classes of tokens, as the grammar sees them: a number from 0 to 42 for each.
ghost use Rattle.std.specs.Prelude.{◌≡◌, IsTrue};
ghost use Rattle.dcv_lexer.specs.Lexicon.{lexicon_of, is_orderly};
ghost use Rattle.dcv_tokens.specs.Tokens.{is_token};
ghost use Rattle.dcv_tokens.specs.Formulas.{formulas};
ghost use Rattle.dcv_tokens.specs.Classes.{class_of};

use dcv_lexer::Lexicon;

/// `(`.
pub const OPEN_PARENTHESIS: u8 = 0;

/// `)`.
pub const CLOSE_PARENTHESIS: u8 = 1;

/// `,`.
pub const COMMA: u8 = 2;

/// `;`.
pub const SEMICOLON: u8 = 3;

/// `.`.
pub const DOT: u8 = 4;

/// `!`.
pub const EXCLAMATION: u8 = 5;

/// `^`.
pub const CARET: u8 = 6;

/// `*`.
pub const STAR: u8 = 7;

/// `=`.
pub const EQUALS: u8 = 8;

/// `<`.
pub const LESS: u8 = 9;

/// `>`.
pub const GREATER: u8 = 10;

/// `<=`.
pub const LESS_EQUALS: u8 = 11;

/// `>=`.
pub const GREATER_EQUALS: u8 = 12;

/// `<>`.
pub const DIAMOND: u8 = 13;

/// `=>`.
pub const ARROW: u8 = 14;

/// `<=>`.
pub const DOUBLE_ARROW: u8 = 15;

/// `&&`.
pub const DOUBLE_AMPERSAND: u8 = 16;

/// `||`.
pub const DOUBLE_BAR: u8 = 17;

/// `[`.
pub const OPEN_BRACKET: u8 = 18;

/// `]`.
pub const CLOSE_BRACKET: u8 = 19;

/// `[]`.
pub const BOX: u8 = 20;

/// `[[`.
pub const OPEN_BRACKETS: u8 = 21;

/// `]]`.
pub const CLOSE_BRACKETS: u8 = 22;

/// `{{`.
pub const OPEN_BRACES: u8 = 23;

/// `}}`.
pub const CLOSE_BRACES: u8 = 24;

/// `var`.
pub const WORD_VAR: u8 = 25;

/// `define`.
pub const WORD_DEFINE: u8 = 26;

/// `prop`.
pub const WORD_PROP: u8 = 27;

/// `as`.
pub const WORD_AS: u8 = 28;

/// `infer`.
pub const WORD_INFER: u8 = 29;

/// `ex`.
pub const WORD_EX: u8 = 30;

/// `all`.
pub const WORD_ALL: u8 = 31;

/// `true`.
pub const WORD_TRUE: u8 = 32;

/// `false`.
pub const WORD_FALSE: u8 = 33;

/// `pt`.
pub const WORD_PT: u8 = 34;

/// `ext`.
pub const WORD_EXT: u8 = 35;

/// `slen`.
pub const WORD_SLEN: u8 = 36;

/// `scount`.
pub const WORD_SCOUNT: u8 = 37;

/// `sdur`.
pub const WORD_SDUR: u8 = 38;

/// A word that is not reserved.
pub const NAME: u8 = 39;

/// One digit or more.
pub const NUMBER: u8 = 40;

/// `-`.
pub const MINUS: u8 = 41;

/// `+`.
pub const PLUS: u8 = 42;

/// What is no token.
pub const UNKNOWN: u8 = 43;

// The symbols with their classes, the longer ones first.
const SYMBOLS: [(&[u8], u8); 27] = [
    (b"<=>", DOUBLE_ARROW),
    (b"<=", LESS_EQUALS),
    (b">=", GREATER_EQUALS),
    (b"<>", DIAMOND),
    (b"=>", ARROW),
    (b"&&", DOUBLE_AMPERSAND),
    (b"||", DOUBLE_BAR),
    (b"[]", BOX),
    (b"[[", OPEN_BRACKETS),
    (b"]]", CLOSE_BRACKETS),
    (b"{{", OPEN_BRACES),
    (b"}}", CLOSE_BRACES),
    (b"(", OPEN_PARENTHESIS),
    (b")", CLOSE_PARENTHESIS),
    (b",", COMMA),
    (b";", SEMICOLON),
    (b".", DOT),
    (b"!", EXCLAMATION),
    (b"^", CARET),
    (b"*", STAR),
    (b"=", EQUALS),
    (b"<", LESS),
    (b">", GREATER),
    (b"[", OPEN_BRACKET),
    (b"]", CLOSE_BRACKET),
    (b"-", MINUS),
    (b"+", PLUS),
];

// The reserved words with their classes.
const WORDS: [(&[u8], u8); 14] = [
    (b"var", WORD_VAR),
    (b"define", WORD_DEFINE),
    (b"prop", WORD_PROP),
    (b"as", WORD_AS),
    (b"infer", WORD_INFER),
    (b"ex", WORD_EX),
    (b"all", WORD_ALL),
    (b"true", WORD_TRUE),
    (b"false", WORD_FALSE),
    (b"pt", WORD_PT),
    (b"ext", WORD_EXT),
    (b"slen", WORD_SLEN),
    (b"scount", WORD_SCOUNT),
    (b"sdur", WORD_SDUR),
];

static FORMULAS: Lexicon<'static> = Lexicon {
    symbols: &SYMBOLS,
    words: &WORDS,
    name: NAME,
    number: NUMBER,
    unknown: UNKNOWN,
    comments: true,
    leading_zeros: true,
};

/// What formula files are written with.
#[tactic(auto, unfolding(crate::specs::Formulas::fixed_symbols, crate::specs::Formulas::fixed_words))]
pub fn formulas() -> &'static Lexicon<'static>
    ensures lexicon { lexicon_of result.now ≡ formulas }
    ensures orderly { IsTrue (is_orderly (lexicon_of result.now)) }
{
    &FORMULAS
}

/// The class of a token, from 0 to 42.
pub fn class_of(bytes: &[u8]) -> u8
    requires { IsTrue (is_token bytes.now) }
    ensures { result ≡ class_of bytes.now }
{
    formulas().class_of(bytes)
}
