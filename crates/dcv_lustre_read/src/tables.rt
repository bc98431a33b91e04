// The lexicon and the grammar of the subset as tables. In the comments `{x}` is any number of x, and `[x]` is x or nothing.
use dcv_grammar::grammar::Symbol::{Class, Rule};
use dcv_grammar::grammar::{Alternative, ContextFree, Production};
use dcv_grammar::{after, always, optional};
use dcv_lexer::Lexicon;
use dcv_observer::{NAME, NUMBER, UNKNOWN};

const OPEN_PARENTHESIS: u8 = 3;

const CLOSE_PARENTHESIS: u8 = 4;

const COLON: u8 = 5;

const SEMICOLON: u8 = 6;

const EQUALS: u8 = 7;

const ARROW: u8 = 8;

const WORD_NODE: u8 = 9;

const WORD_RETURNS: u8 = 10;

const WORD_VAR: u8 = 11;

const WORD_LET: u8 = 12;

pub(crate) const WORD_TEL: u8 = 13;

const WORD_IF: u8 = 14;

const WORD_THEN: u8 = 15;

const WORD_ELSE: u8 = 16;

const WORD_PRE: u8 = 17;

const WORD_OR: u8 = 18;

pub(crate) const WORD_TRUE: u8 = 19;

pub(crate) const WORD_FALSE: u8 = 20;

pub(crate) const WORD_BOOL: u8 = 21;

pub(crate) const WORD_INT: u8 = 22;

// The name of the output.
pub(crate) const WORD_OK: u8 = 23;

const SYMBOLS: [(&[u8], u8); 6] = [
    (b"->", ARROW),
    (b"(", OPEN_PARENTHESIS),
    (b")", CLOSE_PARENTHESIS),
    (b":", COLON),
    (b";", SEMICOLON),
    (b"=", EQUALS),
];

const WORDS: [(&[u8], u8); 15] = [
    (b"ok", WORD_OK),
    (b"node", WORD_NODE),
    (b"returns", WORD_RETURNS),
    (b"var", WORD_VAR),
    (b"let", WORD_LET),
    (b"tel", WORD_TEL),
    (b"if", WORD_IF),
    (b"then", WORD_THEN),
    (b"else", WORD_ELSE),
    (b"pre", WORD_PRE),
    (b"or", WORD_OR),
    (b"true", WORD_TRUE),
    (b"false", WORD_FALSE),
    (b"bool", WORD_BOOL),
    (b"int", WORD_INT),
];

// What nodes are written with.
pub(crate) static LEXICON: Lexicon<'static> = Lexicon {
    symbols: &SYMBOLS,
    words: &WORDS,
    name: NAME,
    number: NUMBER,
    unknown: UNKNOWN,
    comments: false,
    leading_zeros: true,
};

// The numbers of the rules.
pub(crate) const NODE: u8 = 0;

pub(crate) const MORE_INPUTS: u8 = 1;

pub(crate) const INPUT: u8 = 2;

pub(crate) const VARIABLES: u8 = 3;

pub(crate) const LOCALS: u8 = 4;

pub(crate) const LOCAL: u8 = 5;

pub(crate) const KIND: u8 = 6;

pub(crate) const EQUATIONS: u8 = 7;

pub(crate) const EQUATION: u8 = 8;

pub(crate) const RIGHT: u8 = 9;

pub(crate) const DELAY: u8 = 10;

pub(crate) const CHOICE: u8 = 11;

pub(crate) const CONDITION: u8 = 12;

pub(crate) const COMPARED: u8 = 13;

pub(crate) const TEST: u8 = 14;

pub(crate) const MORE_TESTS: u8 = 15;

pub(crate) const ITEM: u8 = 16;

pub(crate) const LITERAL: u8 = 17;

pub(crate) const NAME_RULE: u8 = 18;

pub(crate) const OUTPUT: u8 = 19;

// A body that begins with a name, or nothing.
macro_rules! by_name {
    ($($symbol:expr),*) => {
        Production {
            alternatives: &[Alternative {
                classes: &[NAME, WORD_OK],
                body: &[$($symbol),*],
            }],
            otherwise: &[],
        }
    };
}

const RULES: [Production<'static>; 20] = [
    // node = "node" name "(" input more_inputs ")" output variables "let" equations "tel"
    always!(
        Class(WORD_NODE),
        Rule(NAME_RULE),
        Class(OPEN_PARENTHESIS),
        Rule(INPUT),
        Rule(MORE_INPUTS),
        Class(CLOSE_PARENTHESIS),
        Rule(OUTPUT),
        Rule(VARIABLES),
        Class(WORD_LET),
        Rule(EQUATIONS),
        Class(WORD_TEL)
    ),
    // more_inputs = {";" input}
    optional!(SEMICOLON, Rule(INPUT), Rule(MORE_INPUTS)),
    // input = name ":" "bool"
    always!(Rule(NAME_RULE), Class(COLON), Class(WORD_BOOL)),
    // variables = ["var" local locals]
    optional!(WORD_VAR, Rule(LOCAL), Rule(LOCALS)),
    // locals = {local}
    by_name!(Rule(LOCAL), Rule(LOCALS)),
    // local = name ":" kind ";"
    always!(Rule(NAME_RULE), Class(COLON), Rule(KIND), Class(SEMICOLON)),
    // kind = "bool" | "int"
    Production {
        alternatives: &[after!(WORD_BOOL)],
        otherwise: &[Class(WORD_INT)],
    },
    // equations = {equation}
    by_name!(Rule(EQUATION), Rule(EQUATIONS)),
    // equation = name "=" right ";"
    always!(
        Rule(NAME_RULE),
        Class(EQUALS),
        Rule(RIGHT),
        Class(SEMICOLON)
    ),
    // right = literal delay | "if" condition "then" item "else" choice | test more_tests | name
    Production {
        alternatives: &[
            Alternative {
                classes: &[NUMBER, WORD_TRUE, WORD_FALSE],
                body: &[Rule(LITERAL), Rule(DELAY)],
            },
            after!(
                WORD_IF,
                Rule(CONDITION),
                Class(WORD_THEN),
                Rule(ITEM),
                Class(WORD_ELSE),
                Rule(CHOICE)
            ),
            Alternative {
                classes: &[OPEN_PARENTHESIS],
                body: &[Rule(TEST), Rule(MORE_TESTS)],
            },
        ],
        otherwise: &[Rule(NAME_RULE)],
    },
    // delay = ["->" "pre" name]
    optional!(ARROW, Class(WORD_PRE), Rule(NAME_RULE)),
    // choice = {"if" condition "then" item "else"} item
    Production {
        alternatives: &[after!(
            WORD_IF,
            Rule(CONDITION),
            Class(WORD_THEN),
            Rule(ITEM),
            Class(WORD_ELSE),
            Rule(CHOICE)
        )],
        otherwise: &[Rule(ITEM)],
    },
    // condition = name compared
    always!(Rule(NAME_RULE), Rule(COMPARED)),
    // compared = ["=" number]
    optional!(EQUALS, Class(NUMBER)),
    // test = "(" name "=" number ")"
    always!(
        Class(OPEN_PARENTHESIS),
        Rule(NAME_RULE),
        Class(EQUALS),
        Class(NUMBER),
        Class(CLOSE_PARENTHESIS)
    ),
    // more_tests = {"or" test}
    optional!(WORD_OR, Rule(TEST), Rule(MORE_TESTS)),
    // item = literal | name
    Production {
        alternatives: &[Alternative {
            classes: &[NUMBER, WORD_TRUE, WORD_FALSE],
            body: &[Rule(LITERAL)],
        }],
        otherwise: &[Rule(NAME_RULE)],
    },
    // literal = number | "true" | "false"
    Production {
        alternatives: &[after!(NUMBER), after!(WORD_TRUE)],
        otherwise: &[Class(WORD_FALSE)],
    },
    // name = a word that is not reserved | "ok"
    Production {
        alternatives: &[after!(WORD_OK)],
        otherwise: &[Class(NAME)],
    },
    // output = "returns" "(" "ok" ":" "bool" ")" ";"
    always!(
        Class(WORD_RETURNS),
        Class(OPEN_PARENTHESIS),
        Class(WORD_OK),
        Class(COLON),
        Class(WORD_BOOL),
        Class(CLOSE_PARENTHESIS),
        Class(SEMICOLON)
    ),
];

// The grammar of nodes.
pub(crate) static GRAMMAR: ContextFree<'static> = ContextFree {
    start: NODE,
    tables: &[&RULES],
};
