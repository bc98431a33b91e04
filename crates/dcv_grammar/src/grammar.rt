//! Grammars as data.
//!
//! A grammar is written as one reads it, rule by rule. `{x}` is a rule `more = x more | nothing`, and an alternative
//! is factored until the next class picks its body. Rules and classes are numbers, for which a crate above has names.

ghost use Rattle.std.specs.Prelude.{◌≡◌, ◌==◌, ◌<◌, ℕ, Some, length, slice_get};
ghost use Rattle.std.specs.List.{list_any};
ghost use Rattle.dcv_grammar.specs.Grammar.{production_of, grammar_of};
ghost use Rattle.dcv_grammar.specs.Picked.{body_for};

/// A symbol of a body.
#[derive(Clone, Copy, Debug, PartialEq, Eq)]
pub enum Symbol {
    /// A token of this class.
    Class(u8),
    /// What the rule of this number derives.
    Rule(u8),
}

/// A body, and the classes that pick it. What the body derives begins with one of them.
#[derive(Clone, Copy)]
pub struct Alternative<'g> {
    /// The classes of tokens with which it is chosen.
    pub classes: &'g [u8],
    /// What it stands for.
    pub body: &'g [Symbol],
}

/// A rule: the bodies that the next class picks, and the one that is taken otherwise, which may be empty.
///
/// A rule with no empty body has one of its others as `otherwise`, from which such bodies alone come to an end. The
/// reader takes it at a class that picks nothing too, and still finds the fault at that class.
#[derive(Clone, Copy)]
pub struct Production<'g> {
    /// The bodies that are chosen by the class of the next token.
    pub alternatives: &'g [Alternative<'g>],
    /// The body that is chosen by no class of these.
    pub otherwise: &'g [Symbol],
}

/// A grammar: the number of the rule that a sentence is derived from, and the rules.
///
/// The rules stand in tables, and are numbered through all of them from 0. A table of more than about thirty rules
/// may be too large for a check, so a large grammar has several, each from a function of its own.
#[derive(Clone, Copy)]
pub struct ContextFree<'g> {
    /// The rule of whole texts.
    pub start: u8,
    /// The rules, table by table.
    pub tables: &'g [&'g [Production<'g>]],
}

/// What a token is to a grammar.
pub trait Classified {
    /// The number of its class.
    ghost class_of: { Self → ℕ };

    /// The number of the token's class.
    fn class(&self) -> u8
        ensures { result ≡ class_of self.now };
}

/// A class alone is a token of it.
impl Classified for u8 {
    ghost class_of = { λ class. class };

    fn class(&self) -> u8 {
        *self
    }
}

// Whether a class is among some. There are few, so they are looked through one by one.
fn has_class(classes: &[u8], class: u8) -> bool
    ensures { result ≡ list_any (λ k. k == class) classes.now }
{
    classes.iter().any(|other| *other == class)
}

impl<'g> Production<'g> {
    /// The body that the next class picks, or at the end the one that is taken otherwise.
    pub fn body_for(&self, next: Option<u8>) -> &'g [Symbol]
        ensures { result.now ≡ body_for (production_of self.now) next }
    {
        if let Some(class) = next {
            for alternative in self.alternatives {
                if has_class(alternative.classes, class) {
                    return alternative.body;
                }
            }
        }
        self.otherwise
    }
}

impl<'g> ContextFree<'g> {
    /// The rule of a number.
    pub fn rule(&self, number: u8) -> Production<'g>
        requires { number < length (grammar_of self.now).productions }
        ensures { slice_get (grammar_of self.now).productions number ≡ Some (production_of result) }
    {
        let mut behind = usize::from(number);
        for table in self.tables {
            if behind < table.len() {
                return table[behind];
            }
            behind -= table.len();
        }
        unreachable!()
    }
}
