// From the tokens of a sentence to the file that they spell: what each token and each rule of the grammar stands for.
ghost use Rattle.std.specs.Prelude.{◌≡◌, ◌≤◌, ◌<◌, true, map, IfOk};
ghost use Rattle.dcv_grammar.specs.Grammar.{IsSentence};
ghost use Rattle.dcv_syntax.specs.Views.{plain_file};
ghost use Rattle.dcv_tokens.specs.Classes.{class_of};
ghost use Rattle.dcv_tokens.specs.Reading.{seen};
ghost use Rattle.dcv_sentence.specs.Language.{language};
ghost use Rattle.dcv_sentence.specs.RuleNumbers as rules;
ghost use Rattle.dcv_translation.specs.Scheme.{StandFor};
ghost use Rattle.dcv_reader.specs.Actions.{action, scheme};
ghost use Rattle.dcv_reader.specs.Parts.{seen_part, IsMeant, HasNumber, HasSmallNumbers};
ghost use Rattle.dcv_reader.specs.Spelling.{SpellsFile};

use crate::formulas::FormulaList;
use crate::parts::{Leaf, Made, Part, Parts};
use crate::{file_rules, formula_rules, prop_rules};
use dcv_grammar::grammar::ContextFree;
use dcv_sentence::language;
use dcv_syntax::{Connective, File};
use dcv_tokens::Token;
use dcv_translation::{Machine, Translation};
use std::alloc::{AllocError, Global};

// From sentences to files.
#[derive(Drop)]
struct FileTranslation {
    // where trees are allocated
    alloc: Global,
}

impl<'a> Translation<'a> for FileTranslation {
    ghost use Rattle.dcv_translation.specs.Scheme.{IsOfBody};
    ghost use Rattle.dcv_reader.specs.Actions.{Part as PlainPart};

    type Part = Part<'a>;

    type Token = Leaf<'a>;

    ghost Meaning = { PlainPart };

    ghost scheme = { scheme };

    ghost meaning = { seen_part };

    ghost seen = { λ leaf. seen leaf.token };

    fn grammar(&self) -> &'a ContextFree<'a> {
        language::language()
    }

    fn has_part(&self, _class: u8) -> bool
        ensures { result ≡ true }
    {
        true
    }

    fn token(&self, token: Leaf<'a>) -> Part<'a> {
        Part::Token(token)
    }

    fn rule(&self, rule: u8, parts: &mut Parts<'a>) -> Made<'a>
        requires { IsOfBody scheme rule (map seen_part parts.old) }
        ensures { IfOk result (λ part. seen_part part ≡ action rule (map seen_part parts.old)) }
    {
        act(self.alloc, rule, parts)
    }
}

// The action of a rule.
fn act<'a>(alloc: Global, rule: u8, parts: &mut Parts<'a>) -> Made<'a>
    requires meant { IsMeant (action rule (map seen_part parts.old)) }
    requires number { rule ≡ rules.formula_atom → HasNumber (map seen_part parts.old) }
    ensures { IfOk result (λ part. seen_part part ≡ action rule (map seen_part parts.old)) }
{
    match rule {
        language::FILE => file_rules::file(alloc, parts),
        language::DECLARATION => file_rules::names(alloc, parts),
        language::MORE_NAMES => file_rules::more_names(alloc, parts),
        language::MACROS => file_rules::macros(alloc, parts),
        language::MACRO => file_rules::one_macro(alloc, parts),
        language::PARAMETERS => file_rules::names(alloc, parts),
        language::ARGUMENTS => prop_rules::arguments(alloc, parts),
        language::MORE_ARGUMENTS => prop_rules::more_props(alloc, parts),
        _ if rule < language::PROP => act_formula(alloc, rule, parts),
        _ => act_prop(alloc, rule, parts),
    }
}

// That of a rule of formulas.
fn act_formula<'a>(alloc: Global, rule: u8, parts: &mut Parts<'a>) -> Made<'a>
    requires meant { IsMeant (action rule (map seen_part parts.old)) }
    requires from { rules.formula ≤ rule }
    requires to { rule < rules.prop }
    requires number { rule ≡ rules.formula_atom → HasNumber (map seen_part parts.old) }
    ensures { IfOk result (λ part. seen_part part ≡ action rule (map seen_part parts.old)) }
{
    match rule {
        language::FORMULA => formula_rules::formula(alloc, parts),
        language::FORMULA_IFF => formula_rules::formula_list(
            alloc,
            FormulaList::Joined(Connective::Iff),
            parts,
        ),
        language::FORMULA_IFF_MORE => formula_rules::more_formulas(alloc, parts),
        language::FORMULA_IMPLIES => formula_rules::formula_implies(alloc, parts),
        language::FORMULA_IMPLIED => formula_rules::more_formulas(alloc, parts),
        language::FORMULA_OR => formula_rules::formula_list(
            alloc,
            FormulaList::Joined(Connective::Or),
            parts,
        ),
        language::FORMULA_OR_MORE => formula_rules::more_formulas(alloc, parts),
        language::FORMULA_AND => formula_rules::formula_list(
            alloc,
            FormulaList::Joined(Connective::And),
            parts,
        ),
        language::FORMULA_AND_MORE => formula_rules::more_formulas(alloc, parts),
        language::FORMULA_CHOP => formula_rules::formula_list(alloc, FormulaList::Chop, parts),
        language::FORMULA_CHOP_MORE => formula_rules::more_formulas(alloc, parts),
        language::FORMULA_PREFIX => formula_rules::formula_prefix(alloc, parts),
        language::FORMULA_STAR => formula_rules::formula_star(alloc, parts),
        language::STARS => formula_rules::stars(alloc, parts),
        language::FORMULA_ATOM => formula_rules::formula_atom(alloc, parts),
        language::RELATION => formula_rules::relation(parts),
        _ => unreachable!(),
    }
}

// That of a rule of propositions.
fn act_prop<'a>(alloc: Global, rule: u8, parts: &mut Parts<'a>) -> Made<'a>
    requires from { rules.prop ≤ rule }
    requires meant { IsMeant (action rule (map seen_part parts.old)) }
    ensures { IfOk result (λ part. seen_part part ≡ action rule (map seen_part parts.old)) }
{
    match rule {
        language::PROP => prop_rules::joined_props(alloc, Connective::Iff, parts),
        language::PROP_IFF_MORE => prop_rules::more_props(alloc, parts),
        language::PROP_IMPLIES => prop_rules::prop_implies(alloc, parts),
        language::PROP_IMPLIED => prop_rules::more_props(alloc, parts),
        language::PROP_OR => prop_rules::joined_props(alloc, Connective::Or, parts),
        language::PROP_OR_MORE => prop_rules::more_props(alloc, parts),
        language::PROP_AND => prop_rules::joined_props(alloc, Connective::And, parts),
        language::PROP_AND_MORE => prop_rules::more_props(alloc, parts),
        language::PROP_PREFIX => prop_rules::prop_prefix(alloc, parts),
        language::PROP_ATOM => prop_rules::prop_atom(alloc, parts),
        _ => unreachable!(),
    }
}

/// The file that the tokens of a sentence spell.
pub(crate) fn file_of(alloc: Global, tokens: &[Token]) -> Result<File, AllocError>
    requires sentence { IsSentence language (map (λ token. class_of token.bytes.now) tokens.now) }
    requires small { HasSmallNumbers (map seen tokens.now) }
    ensures { IfOk result (λ file. SpellsFile (map seen tokens.now) (plain_file file)) }
{
    match part_of(alloc, tokens)? {
        Part::File(file) => Ok(Box::into_inner(file)),
        _ => unreachable!(),
    }
}

// What the tokens of a sentence stand for.
fn part_of<'a>(alloc: Global, tokens: &[Token<'a>]) -> Result<Part<'a>, AllocError>
    requires sentence { IsSentence language (map (λ token. class_of token.bytes.now) tokens.now) }
    requires small { HasSmallNumbers (map seen tokens.now) }
    ensures { IfOk result (λ part. StandFor scheme (map seen tokens.now) (seen_part part)) }
{
    let translation = FileTranslation { alloc };
    let mut machine = Machine::new(alloc, &translation)?;
    for token in tokens {
        let leaf = Leaf { token: *token };
        if !machine.take(token.class, leaf)? {
            unreachable!();
        }
    }
    match machine.finish()? {
        Some(part) => Ok(part),
        None => unreachable!(),
    }
}
