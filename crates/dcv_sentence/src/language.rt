//! The grammar of formula files as tables. In the comments `{x}` is any number of x, and `[x]` is x or nothing.
ghost use Rattle.std.specs.Prelude.{◌≡◌};
ghost use Rattle.dcv_grammar.specs.Grammar.{grammar_of};
ghost use Rattle.dcv_sentence.specs.Language.{language};

use dcv_grammar::grammar::Symbol::{Class, Rule};
use dcv_grammar::grammar::{Alternative, ContextFree, Production};
use dcv_grammar::{after, always, optional};
use dcv_tokens::classes::*;

pub const FILE: u8 = 0;

pub const DECLARATION: u8 = 1;

pub const MORE_NAMES: u8 = 2;

pub const MACROS: u8 = 3;

pub const MACRO: u8 = 4;

pub const PARAMETERS: u8 = 5;

pub const ARGUMENTS: u8 = 6;

pub const MORE_ARGUMENTS: u8 = 7;

pub const FORMULA: u8 = 8;

pub const FORMULA_IFF: u8 = 9;

pub const FORMULA_IFF_MORE: u8 = 10;

pub const FORMULA_IMPLIES: u8 = 11;

pub const FORMULA_IMPLIED: u8 = 12;

pub const FORMULA_OR: u8 = 13;

pub const FORMULA_OR_MORE: u8 = 14;

pub const FORMULA_AND: u8 = 15;

pub const FORMULA_AND_MORE: u8 = 16;

pub const FORMULA_CHOP: u8 = 17;

pub const FORMULA_CHOP_MORE: u8 = 18;

pub const FORMULA_PREFIX: u8 = 19;

pub const FORMULA_STAR: u8 = 20;

pub const STARS: u8 = 21;

pub const FORMULA_ATOM: u8 = 22;

pub const RELATION: u8 = 23;

pub const PROP: u8 = 24;

pub const PROP_IFF_MORE: u8 = 25;

pub const PROP_IMPLIES: u8 = 26;

pub const PROP_IMPLIED: u8 = 27;

pub const PROP_OR: u8 = 28;

pub const PROP_OR_MORE: u8 = 29;

pub const PROP_AND: u8 = 30;

pub const PROP_AND_MORE: u8 = 31;

pub const PROP_PREFIX: u8 = 32;

pub const PROP_ATOM: u8 = 33;

// The rules of a file and its macros.
const FILE_RULES: [Production<'static>; 8] = [
    // file = declaration macros "infer" formula ";"
    always!(
        Rule(DECLARATION),
        Rule(MACROS),
        Class(WORD_INFER),
        Rule(FORMULA),
        Class(SEMICOLON)
    ),
    // declaration = ["var" name more_names ";"]
    optional!(WORD_VAR, Class(NAME), Rule(MORE_NAMES), Class(SEMICOLON)),
    // more_names = {"," name}
    optional!(COMMA, Class(NAME), Rule(MORE_NAMES)),
    // macros = {macro}
    Production {
        alternatives: &[Alternative {
            classes: &[WORD_DEFINE, WORD_PROP],
            body: &[Rule(MACRO), Rule(MACROS)],
        }],
        otherwise: &[],
    },
    // macro = "define" name parameters "as" formula ";" | "prop" name parameters "as" prop ";"
    Production {
        alternatives: &[after!(
            WORD_DEFINE,
            Class(NAME),
            Rule(PARAMETERS),
            Class(WORD_AS),
            Rule(FORMULA),
            Class(SEMICOLON)
        )],
        otherwise: &[
            Class(WORD_PROP),
            Class(NAME),
            Rule(PARAMETERS),
            Class(WORD_AS),
            Rule(PROP),
            Class(SEMICOLON),
        ],
    },
    // parameters = ["(" name more_names ")"]
    optional!(
        OPEN_PARENTHESIS,
        Class(NAME),
        Rule(MORE_NAMES),
        Class(CLOSE_PARENTHESIS)
    ),
    // arguments = ["(" prop more_arguments ")"]
    optional!(
        OPEN_PARENTHESIS,
        Rule(PROP),
        Rule(MORE_ARGUMENTS),
        Class(CLOSE_PARENTHESIS)
    ),
    // more_arguments = {"," prop}
    optional!(COMMA, Rule(PROP), Rule(MORE_ARGUMENTS)),
];

// The rules of formulas.
const FORMULA_RULES: [Production<'static>; 16] = [
    // formula = ("ex" | "all") name "." formula | formula_iff
    Production {
        alternatives: &[
            after!(WORD_EX, Class(NAME), Class(DOT), Rule(FORMULA)),
            after!(WORD_ALL, Class(NAME), Class(DOT), Rule(FORMULA)),
        ],
        otherwise: &[Rule(FORMULA_IFF)],
    },
    // formula_iff = formula_implies formula_iff_more
    always!(Rule(FORMULA_IMPLIES), Rule(FORMULA_IFF_MORE)),
    // formula_iff_more = {"<=>" formula_implies}
    optional!(DOUBLE_ARROW, Rule(FORMULA_IMPLIES), Rule(FORMULA_IFF_MORE)),
    // formula_implies = formula_or formula_implied
    always!(Rule(FORMULA_OR), Rule(FORMULA_IMPLIED)),
    // formula_implied = ["=>" formula_implies]
    optional!(ARROW, Rule(FORMULA_IMPLIES)),
    // formula_or = formula_and formula_or_more
    always!(Rule(FORMULA_AND), Rule(FORMULA_OR_MORE)),
    // formula_or_more = {"||" formula_and}
    optional!(DOUBLE_BAR, Rule(FORMULA_AND), Rule(FORMULA_OR_MORE)),
    // formula_and = formula_chop formula_and_more
    always!(Rule(FORMULA_CHOP), Rule(FORMULA_AND_MORE)),
    // formula_and_more = {"&&" formula_chop}
    optional!(DOUBLE_AMPERSAND, Rule(FORMULA_CHOP), Rule(FORMULA_AND_MORE)),
    // formula_chop = formula_prefix formula_chop_more
    always!(Rule(FORMULA_PREFIX), Rule(FORMULA_CHOP_MORE)),
    // formula_chop_more = {"^" formula_prefix}
    optional!(CARET, Rule(FORMULA_PREFIX), Rule(FORMULA_CHOP_MORE)),
    // formula_prefix = ("!" | "<>" | "[]") formula_prefix | formula_star
    Production {
        alternatives: &[
            after!(EXCLAMATION, Rule(FORMULA_PREFIX)),
            after!(DIAMOND, Rule(FORMULA_PREFIX)),
            after!(BOX, Rule(FORMULA_PREFIX)),
        ],
        otherwise: &[Rule(FORMULA_STAR)],
    },
    // formula_star = formula_atom stars
    always!(Rule(FORMULA_ATOM), Rule(STARS)),
    // stars = {"*"}
    optional!(STAR, Rule(STARS)),
    // formula_atom = "(" formula ")" | "<" prop ">" | "[" prop "]" | "[[" prop "]]" | "{{" prop "}}"
    //              | "pt" | "ext" | "true" | "false" | "slen" relation number
    //              | ("scount" | "sdur") prop_prefix relation number | name arguments
    Production {
        alternatives: &[
            after!(OPEN_PARENTHESIS, Rule(FORMULA), Class(CLOSE_PARENTHESIS)),
            after!(LESS, Rule(PROP), Class(GREATER)),
            after!(OPEN_BRACKET, Rule(PROP), Class(CLOSE_BRACKET)),
            after!(OPEN_BRACKETS, Rule(PROP), Class(CLOSE_BRACKETS)),
            after!(OPEN_BRACES, Rule(PROP), Class(CLOSE_BRACES)),
            after!(WORD_PT),
            after!(WORD_EXT),
            after!(WORD_TRUE),
            after!(WORD_FALSE),
            after!(WORD_SLEN, Rule(RELATION), Class(NUMBER)),
            after!(
                WORD_SCOUNT,
                Rule(PROP_PREFIX),
                Rule(RELATION),
                Class(NUMBER)
            ),
            after!(WORD_SDUR, Rule(PROP_PREFIX), Rule(RELATION), Class(NUMBER)),
        ],
        otherwise: &[Class(NAME), Rule(ARGUMENTS)],
    },
    // relation = "=" | "<" | "<=" | ">" | ">="
    Production {
        alternatives: &[
            after!(LESS),
            after!(LESS_EQUALS),
            after!(GREATER),
            after!(GREATER_EQUALS),
        ],
        otherwise: &[Class(EQUALS)],
    },
];

// The rules of propositions.
const PROP_RULES: [Production<'static>; 10] = [
    // prop = prop_implies prop_iff_more
    always!(Rule(PROP_IMPLIES), Rule(PROP_IFF_MORE)),
    // prop_iff_more = {"<=>" prop_implies}
    optional!(DOUBLE_ARROW, Rule(PROP_IMPLIES), Rule(PROP_IFF_MORE)),
    // prop_implies = prop_or prop_implied
    always!(Rule(PROP_OR), Rule(PROP_IMPLIED)),
    // prop_implied = ["=>" prop_implies]
    optional!(ARROW, Rule(PROP_IMPLIES)),
    // prop_or = prop_and prop_or_more
    always!(Rule(PROP_AND), Rule(PROP_OR_MORE)),
    // prop_or_more = {"||" prop_and}
    optional!(DOUBLE_BAR, Rule(PROP_AND), Rule(PROP_OR_MORE)),
    // prop_and = prop_prefix prop_and_more
    always!(Rule(PROP_PREFIX), Rule(PROP_AND_MORE)),
    // prop_and_more = {"&&" prop_prefix}
    optional!(DOUBLE_AMPERSAND, Rule(PROP_PREFIX), Rule(PROP_AND_MORE)),
    // prop_prefix = ("!" | "-" | "+") prop_prefix | prop_atom
    Production {
        alternatives: &[
            after!(EXCLAMATION, Rule(PROP_PREFIX)),
            after!(MINUS, Rule(PROP_PREFIX)),
            after!(PLUS, Rule(PROP_PREFIX)),
        ],
        otherwise: &[Rule(PROP_ATOM)],
    },
    // prop_atom = "(" prop ")" | "true" | "false" | name arguments
    Production {
        alternatives: &[
            after!(OPEN_PARENTHESIS, Rule(PROP), Class(CLOSE_PARENTHESIS)),
            after!(WORD_TRUE),
            after!(WORD_FALSE),
        ],
        otherwise: &[Class(NAME), Rule(ARGUMENTS)],
    },
];

static LANGUAGE: ContextFree<'static> = ContextFree {
    start: FILE,
    tables: &[&FILE_RULES, &FORMULA_RULES, &PROP_RULES],
};

/// The grammar of formula files.
#[tactic(auto, unfolding(crate::specs::Language::language, crate::specs::Language::file_rules, crate::specs::Language::formula_rules, crate::specs::Language::prop_rules))]
pub fn language() -> &'static ContextFree<'static>
    ensures { grammar_of result.now ≡ language }
{
    &LANGUAGE
}
