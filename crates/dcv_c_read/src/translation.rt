// The translation of units: what each token and each rule of the grammar stands for.
ghost use Rattle.std.specs.Prelude.{◌≡◌, map, IfOk};
ghost use Rattle.dcv_c.specs.Actions.{action};
ghost use Rattle.dcv_c_read.specs.Symbols.{seen_part, IsMeant};

use crate::parts::{Made, Part, Parts, Words};
use crate::{choices, functions, rules, tables};
use dcv_grammar::grammar::ContextFree;
use dcv_observer::{Item, NAME, NUMBER};
use dcv_translation::{Body, Translation};
use std::alloc::Global;

// From texts to units.
#[derive(Drop)]
pub(crate) struct UnitTranslation {
    // where trees are allocated
    pub(crate) alloc: Global,
}

impl<'a> Translation<'a> for UnitTranslation {
    ghost use Rattle.dcv_observer.specs.Left.{seen};
    ghost use Rattle.dcv_observer.specs.Scheme.{over};
    ghost use Rattle.dcv_translation.specs.Scheme.{IsOfBody};
    ghost use Rattle.dcv_c.specs.Actions.{Part as PlainPart, has_part, scheme};

    type Part = Part<'a>;

    type Token = Item<'a>;

    ghost Meaning = { PlainPart };

    ghost scheme = { over scheme };

    ghost meaning = { seen_part };

    ghost seen = { seen };

    #[tactic(auto, unfolding(dcv_c::specs::Language::language, dcv_grammar::specs::Predictive::IsPredictive))]
    fn grammar(&self) -> &'a ContextFree<'a> {
        &tables::GRAMMAR
    }

    fn has_part(&self, class: u8) -> bool
        ensures { result ≡ has_part class }
    {
        class == NAME || class == NUMBER || class == tables::CLOSE_BRACE
    }

    fn token(&self, item: Item<'a>) -> Part<'a> {
        Part::Words(Words::Token(item))
    }

    fn rule(&self, rule: u8, parts: &mut Parts<'a>) -> Made<'a>
        requires { IsOfBody (over scheme) rule (map seen_part parts.old) }
        ensures { IfOk result (λ part. seen_part part ≡ action rule (map seen_part parts.old)) }
    {
        act(self.alloc, rule, parts)
    }
}

// The action of a rule.
fn act<'a>(alloc: Global, rule: u8, parts: &mut Parts<'a>) -> Made<'a>
    requires { IsMeant (action rule (map seen_part parts.old)) }
    ensures { IfOk result (λ part. seen_part part ≡ action rule (map seen_part parts.old)) }
{
    match rule {
        tables::UNIT => functions::unit(alloc, parts),
        tables::RESET => Ok(functions::reset(parts)),
        tables::ASSIGNMENTS => rules::assignments(alloc, parts),
        tables::ASSIGNMENT => Ok(rules::assignment(parts)),
        tables::STEP => functions::step(alloc, parts),
        tables::STATEMENTS => rules::statements(alloc, parts),
        tables::STATEMENT => choices::statement(alloc, parts),
        tables::RIGHT => Ok(choices::right(parts)),
        tables::CHOICE => choices::choice(alloc, parts),
        tables::CONDITION => Ok(rules::condition(parts)),
        tables::COMPARED => Ok(rules::compared(parts)),
        tables::RETURNED => choices::returned(parts),
        tables::TESTS => Ok(rules::tests(parts)),
        tables::MORE_TESTS => rules::more_tests(alloc, parts),
        tables::TEST => Ok(rules::test(parts)),
        tables::MORE_STATICS | tables::LOCALS => rules::tokens(alloc, parts),
        tables::PARAMETERS => rules::tokens(alloc, parts),
        tables::MORE_PARAMETERS => rules::tokens(alloc, parts),
        tables::STATIC | tables::PARAMETER | tables::LOCAL | tables::ITEM => {
            Ok(rules::token(parts))
        }
        _ => unreachable!(),
    }
}
