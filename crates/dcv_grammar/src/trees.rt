//! Derivation trees: their laws.
ghost use Rattle.std.specs.Prelude.{◌≡◌, ◌↔◌, List, map};
ghost use Rattle.dcv_grammar.specs.Grammar.{ContextFree, IsSentence};
ghost use Rattle.dcv_grammar.specs.Predictive.{IsPredictive};
ghost use Rattle.dcv_grammar.specs.Trees.{Nodes, IsTree};

use crate::grammar::Classified;

/// A sentence has a tree, and with a predictive grammar no other. What has a tree is a sentence.
pub fn one_tree<T: Classified>()
    ensures sentence { (grammar : ContextFree) (tokens : List T) →
        IsSentence grammar (map T.class_of tokens)
        ↔ ((tree : Nodes T) × IsTree grammar T.class_of tokens tree) }
    ensures only { (grammar : ContextFree) → IsPredictive grammar →
        (tokens : List T) (tree other : Nodes T) →
        IsTree grammar T.class_of tokens tree → IsTree grammar T.class_of tokens other → tree ≡ other }
{}
