// The translation of nodes: what each token and each rule of the grammar stands for.
ghost use Rattle.std.specs.Prelude.{◌≡◌, map, IfOk};
ghost use Rattle.dcv_lustre.specs.Actions.{action};
ghost use Rattle.dcv_lustre_read.specs.Symbols.{seen_part, IsMeant};

use crate::parts::{Made, Part, Parts, Words};
use crate::{choices, nodes, rules, tables};
use dcv_grammar::grammar::ContextFree;
use dcv_observer::{Item, NAME, NUMBER};
use dcv_translation::{Body, Translation};
use std::alloc::Global;

// From texts to nodes.
#[derive(Drop)]
pub(crate) struct NodeTranslation {
    // where trees are allocated
    pub(crate) alloc: Global,
}

impl<'a> Translation<'a> for NodeTranslation {
    ghost use Rattle.dcv_observer.specs.Left.{seen};
    ghost use Rattle.dcv_observer.specs.Scheme.{over};
    ghost use Rattle.dcv_translation.specs.Scheme.{IsOfBody};
    ghost use Rattle.dcv_lustre.specs.Actions.{Part as PlainPart, has_part, scheme};

    type Part = Part<'a>;

    type Token = Item<'a>;

    ghost Meaning = { PlainPart };

    ghost scheme = { over scheme };

    ghost meaning = { seen_part };

    ghost seen = { seen };

    #[tactic(auto, unfolding(dcv_lustre::specs::Language::language, dcv_grammar::specs::Predictive::IsPredictive))]
    fn grammar(&self) -> &'a ContextFree<'a> {
        &tables::GRAMMAR
    }

    fn has_part(&self, class: u8) -> bool
        ensures { result ≡ has_part class }
    {
        class == NAME
            || class == NUMBER
            || class == tables::WORD_TEL
            || class == tables::WORD_TRUE
            || class == tables::WORD_FALSE
            || class == tables::WORD_BOOL
            || class == tables::WORD_INT
            || class == tables::WORD_OK
    }

    fn token(&self, item: Item<'a>) -> Part<'a> {
        Part::Words(Words::Token(item))
    }

    fn rule(&self, rule: u8, parts: &mut Parts<'a>) -> Made<'a>
        requires { IsOfBody (over scheme) rule (map seen_part parts.old) }
        ensures { IfOk result (λ part. seen_part part ≡ action rule (map seen_part parts.old)) }
    {
        act(self.alloc, rule, parts)
    }
}

// The action of a rule.
fn act<'a>(alloc: Global, rule: u8, parts: &mut Parts<'a>) -> Made<'a>
    requires { IsMeant (action rule (map seen_part parts.old)) }
    ensures { IfOk result (λ part. seen_part part ≡ action rule (map seen_part parts.old)) }
{
    match rule {
        tables::NODE => nodes::node(alloc, parts),
        tables::MORE_INPUTS => rules::more_inputs(alloc, parts),
        tables::INPUT | tables::OUTPUT => Ok(rules::truth(parts)),
        tables::VARIABLES | tables::LOCALS => rules::locals(alloc, parts),
        tables::LOCAL => Ok(rules::local(parts)),
        tables::EQUATIONS => rules::equations(alloc, parts),
        tables::EQUATION => Ok(rules::equation(parts)),
        tables::RIGHT => choices::right(alloc, parts),
        tables::DELAY | tables::COMPARED => Ok(rules::maybe(parts)),
        tables::CHOICE => choices::choice(alloc, parts),
        tables::CONDITION => Ok(rules::condition(parts)),
        tables::TEST => Ok(rules::test(parts)),
        tables::MORE_TESTS => rules::more_tests(alloc, parts),
        tables::KIND | tables::ITEM | tables::LITERAL | tables::NAME_RULE => Ok(rules::token(
            parts,
        )),
        _ => unreachable!(),
    }
}
