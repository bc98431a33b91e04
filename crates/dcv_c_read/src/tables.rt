// The lexicon and the grammar of the subset as tables. In the comments `{x}` is any number of x, and `[x]` is x or nothing.
use dcv_grammar::grammar::Symbol::{Class, Rule};
use dcv_grammar::grammar::{Alternative, ContextFree, Production};
use dcv_grammar::{after, always, optional};
use dcv_lexer::Lexicon;
use dcv_observer::{NAME, NUMBER, UNKNOWN};

const OPEN_PARENTHESIS: u8 = 3;

const CLOSE_PARENTHESIS: u8 = 4;

const OPEN_BRACE: u8 = 5;

pub(crate) const CLOSE_BRACE: u8 = 6;

const COMMA: u8 = 7;

const SEMICOLON: u8 = 8;

const COLON: u8 = 9;

const QUESTION: u8 = 10;

const EQUALS: u8 = 11;

const DOUBLE_EQUALS: u8 = 12;

const DOUBLE_BAR: u8 = 13;

const WORD_STATIC: u8 = 14;

const WORD_INT: u8 = 15;

const WORD_VOID: u8 = 16;

const WORD_RETURN: u8 = 17;

const WORD_IF: u8 = 18;

const SYMBOLS: [(&[u8], u8); 11] = [
    (b"==", DOUBLE_EQUALS),
    (b"||", DOUBLE_BAR),
    (b"(", OPEN_PARENTHESIS),
    (b")", CLOSE_PARENTHESIS),
    (b"{", OPEN_BRACE),
    (b"}", CLOSE_BRACE),
    (b",", COMMA),
    (b";", SEMICOLON),
    (b":", COLON),
    (b"?", QUESTION),
    (b"=", EQUALS),
];

const WORDS: [(&[u8], u8); 5] = [
    (b"static", WORD_STATIC),
    (b"int", WORD_INT),
    (b"void", WORD_VOID),
    (b"return", WORD_RETURN),
    (b"if", WORD_IF),
];

// What units are written with.
pub(crate) static LEXICON: Lexicon<'static> = Lexicon {
    symbols: &SYMBOLS,
    words: &WORDS,
    name: NAME,
    number: NUMBER,
    unknown: UNKNOWN,
    comments: false,
    leading_zeros: false,
};

// The numbers of the rules.
pub(crate) const UNIT: u8 = 0;

pub(crate) const STATIC: u8 = 1;

pub(crate) const MORE_STATICS: u8 = 2;

pub(crate) const RESET: u8 = 3;

pub(crate) const ASSIGNMENTS: u8 = 4;

pub(crate) const ASSIGNMENT: u8 = 5;

pub(crate) const STEP: u8 = 6;

pub(crate) const PARAMETERS: u8 = 7;

pub(crate) const MORE_PARAMETERS: u8 = 8;

pub(crate) const PARAMETER: u8 = 9;

pub(crate) const LOCALS: u8 = 10;

pub(crate) const LOCAL: u8 = 11;

pub(crate) const STATEMENTS: u8 = 12;

pub(crate) const STATEMENT: u8 = 13;

pub(crate) const RIGHT: u8 = 14;

pub(crate) const CHOICE: u8 = 15;

pub(crate) const CONDITION: u8 = 16;

pub(crate) const COMPARED: u8 = 17;

pub(crate) const ITEM: u8 = 18;

pub(crate) const RETURNED: u8 = 19;

pub(crate) const TESTS: u8 = 20;

pub(crate) const MORE_TESTS: u8 = 21;

pub(crate) const TEST: u8 = 22;

// Any number of what begins with one of some classes.
macro_rules! many {
    ([$($class:expr),*], $one:expr, $more:expr) => {
        Production {
            alternatives: &[Alternative {
                classes: &[$($class),*],
                body: &[Rule($one), Rule($more)],
            }],
            otherwise: &[],
        }
    };
}

const RULES: [Production<'static>; 23] = [
    // unit = static more_statics reset step
    always!(Rule(STATIC), Rule(MORE_STATICS), Rule(RESET), Rule(STEP)),
    // static = "static" "int" name ";"
    always!(
        Class(WORD_STATIC),
        Class(WORD_INT),
        Class(NAME),
        Class(SEMICOLON)
    ),
    // more_statics = {static}
    many!([WORD_STATIC], STATIC, MORE_STATICS),
    // reset = "void" name "(" "void" ")" "{" assignments "}"
    always!(
        Class(WORD_VOID),
        Class(NAME),
        Class(OPEN_PARENTHESIS),
        Class(WORD_VOID),
        Class(CLOSE_PARENTHESIS),
        Class(OPEN_BRACE),
        Rule(ASSIGNMENTS),
        Class(CLOSE_BRACE)
    ),
    // assignments = {assignment}
    many!([NAME], ASSIGNMENT, ASSIGNMENTS),
    // assignment = name "=" number ";"
    always!(Class(NAME), Class(EQUALS), Class(NUMBER), Class(SEMICOLON)),
    // step = "int" name "(" parameters ")" "{" locals statements "return" returned ";" "}"
    always!(
        Class(WORD_INT),
        Class(NAME),
        Class(OPEN_PARENTHESIS),
        Rule(PARAMETERS),
        Class(CLOSE_PARENTHESIS),
        Class(OPEN_BRACE),
        Rule(LOCALS),
        Rule(STATEMENTS),
        Class(WORD_RETURN),
        Rule(RETURNED),
        Class(SEMICOLON),
        Class(CLOSE_BRACE)
    ),
    // parameters = "void" | parameter more_parameters
    Production {
        alternatives: &[after!(WORD_VOID)],
        otherwise: &[Rule(PARAMETER), Rule(MORE_PARAMETERS)],
    },
    // more_parameters = {"," parameter}
    optional!(COMMA, Rule(PARAMETER), Rule(MORE_PARAMETERS)),
    // parameter = "int" name
    always!(Class(WORD_INT), Class(NAME)),
    // locals = {local}
    many!([WORD_INT], LOCAL, LOCALS),
    // local = "int" name ";"
    always!(Class(WORD_INT), Class(NAME), Class(SEMICOLON)),
    // statements = {statement}
    many!([NAME, WORD_IF], STATEMENT, STATEMENTS),
    // statement = "if" "(" condition ")" name "=" item ";" | name "=" right ";"
    Production {
        alternatives: &[after!(
            WORD_IF,
            Class(OPEN_PARENTHESIS),
            Rule(CONDITION),
            Class(CLOSE_PARENTHESIS),
            Class(NAME),
            Class(EQUALS),
            Rule(ITEM),
            Class(SEMICOLON)
        )],
        otherwise: &[Class(NAME), Class(EQUALS), Rule(RIGHT), Class(SEMICOLON)],
    },
    // right = number | name choice
    Production {
        alternatives: &[after!(NUMBER)],
        otherwise: &[Class(NAME), Rule(CHOICE)],
    },
    // choice = ["?" item ":" item | "==" number "?" item ":" item]
    Production {
        alternatives: &[
            after!(QUESTION, Rule(ITEM), Class(COLON), Rule(ITEM)),
            after!(
                DOUBLE_EQUALS,
                Class(NUMBER),
                Class(QUESTION),
                Rule(ITEM),
                Class(COLON),
                Rule(ITEM)
            ),
        ],
        otherwise: &[],
    },
    // condition = name compared
    always!(Class(NAME), Rule(COMPARED)),
    // compared = ["==" number]
    optional!(DOUBLE_EQUALS, Class(NUMBER)),
    // item = number | name
    Production {
        alternatives: &[after!(NUMBER)],
        otherwise: &[Class(NAME)],
    },
    // returned = number | name tests
    Production {
        alternatives: &[after!(NUMBER)],
        otherwise: &[Class(NAME), Rule(TESTS)],
    },
    // tests = ["==" number more_tests]
    optional!(DOUBLE_EQUALS, Class(NUMBER), Rule(MORE_TESTS)),
    // more_tests = {"||" test}
    optional!(DOUBLE_BAR, Rule(TEST), Rule(MORE_TESTS)),
    // test = name "==" number
    always!(Class(NAME), Class(DOUBLE_EQUALS), Class(NUMBER)),
];

// The grammar of units.
pub(crate) static GRAMMAR: ContextFree<'static> = ContextFree {
    start: UNIT,
    tables: &[&RULES],
};
