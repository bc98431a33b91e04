// Nested lists: a grammar and its first faults, and grammars that the test of predictive ones passes or refuses.
ghost use Rattle.std.specs.Prelude.{◌≡◌, true, false, IfOk, map, [], ◌∷◌};
ghost use Rattle.dcv_grammar.specs.Grammar.{production_of, IsVerdict};
ghost use Rattle.dcv_grammar.specs.Predictive.{is_predictive};
ghost use Rattle.dcv_text_tests.specs.Examples.{lists, item, items, more, dangling_else, left_recursion, common_beginning, endless, unknown_rule, thirty_levels};

use dcv_grammar::grammar::{Alternative, ContextFree, Production, Symbol};
use dcv_grammar::reader::first_fault;
use std::alloc::{AllocError, Global};
use std::test::Fail;

const OPEN: u8 = 0;

const CLOSE: u8 = 1;

const COMMA: u8 = 2;

const NAME: u8 = 3;

const ITEM: u8 = 0;

const ITEMS: u8 = 1;

const MORE: u8 = 2;

/// item = "(" items ")" | name
fn item_rules() -> &'static [Production<'static>]
    ensures { map production_of result.now ≡ item ∷ [] }
{
    &[Production {
        alternatives: &[Alternative {
            classes: &[OPEN],
            body: &[
                Symbol::Class(OPEN),
                Symbol::Rule(ITEMS),
                Symbol::Class(CLOSE),
            ],
        }],
        otherwise: &[Symbol::Class(NAME)],
    }]
}

/// items = item more, more = "," item more | nothing
fn list_rules() -> &'static [Production<'static>]
    ensures { map production_of result.now ≡ items ∷ more ∷ [] }
{
    &[
        Production {
            alternatives: &[],
            otherwise: &[Symbol::Rule(ITEM), Symbol::Rule(MORE)],
        },
        Production {
            alternatives: &[Alternative {
                classes: &[COMMA],
                body: &[Symbol::Class(COMMA), Symbol::Rule(ITEM), Symbol::Rule(MORE)],
            }],
            otherwise: &[],
        },
    ]
}

fn dangling_else_is_refused()
    ensures { is_predictive dangling_else ≡ false }
{}

fn left_recursion_is_refused()
    ensures { is_predictive left_recursion ≡ false }
{}

fn a_common_beginning_is_refused()
    ensures { is_predictive common_beginning ≡ false }
{}

fn an_endless_rule_is_refused()
    ensures { is_predictive endless ≡ false }
{}

fn an_unknown_rule_is_refused()
    ensures { is_predictive unknown_rule ≡ false }
{}

fn thirty_levels_pass()
    ensures { is_predictive thirty_levels ≡ true }
{}

/// Where the first fault of a nested list is, as `(a, (b), c)`.
fn fault_of(alloc: Global, tokens: &[u8]) -> Result<Option<usize>, AllocError>
    ensures { IfOk result (IsVerdict lists (map (λ class. class) tokens.now)) }
{
    let tables = [item_rules(), list_rules()];
    let grammar = ContextFree {
        start: ITEM,
        tables: &tables,
    };
    first_fault(alloc, &grammar, tokens)
}

#[test]
fn names_the_first_fault(rt: HostRuntime) -> Result<(), Fail> {
    assert_eq!(rt; fault_of(rt.alloc(), &[NAME])?, None);
    assert_eq!(rt;
        fault_of(
            rt.alloc(),
            &[OPEN, NAME, COMMA, OPEN, NAME, CLOSE, COMMA, NAME, CLOSE]
        )?,
        None
    );
    assert_eq!(rt; fault_of(rt.alloc(), &[OPEN, NAME, CLOSE, CLOSE])?, Some(3));
    assert_eq!(rt;
        fault_of(rt.alloc(), &[OPEN, NAME, COMMA, OPEN, NAME, CLOSE])?,
        Some(6)
    );
    Ok(())
}
