// The names of a node that a text has: each is judged, in the order of the text, and becomes a place. So the node becomes a tree.
ghost use Rattle.std.specs.Prelude.{◌≡◌, ◌≢◌, ◌<◌, ◌+◌, ◌++◌, ◌∷◌, [], ℕ, Bool, List, Option, map, true, false, length, IfOk, IfErr};
ghost use Rattle.dcv_lexer.specs.Cuts.{Token};
ghost use Rattle.dcv_observer.specs.Conditions.{Names as PlainNames};
ghost use Rattle.dcv_observer.specs.Left.{seen};
ghost use Rattle.dcv_observer.specs.declared.fault.ObsFault.TheVariants.{Names, Memory};
ghost use Rattle.dcv_lustre.specs.Placed.{bytes_of, local_of, node_of};
ghost use Rattle.dcv_lustre.specs.Actions.{Spells};
ghost use Rattle.dcv_lustre.specs.Words.{AreWords};
ghost use Rattle.dcv_lustre.specs.Seen.{seen_local as local_seen};
ghost use Rattle.dcv_lustre.specs.Tree.{Node as PlainNode};
ghost use Rattle.dcv_lustre.specs.Rules.{IsNamesFault};
ghost use Rattle.dcv_lustre_read.specs.Seen.{seen_local, seen_node};
ghost use Rattle.dcv_lustre_read.specs.Scope.{seen_row, Told, told_inputs, told_locals, IsDeclaring};
ghost use Rattle.dcv_observer.specs.Judged.{Leads};
ghost use Rattle.dcv_lustre_read.specs.Judged.{words_of_locals, names_of_locals};

use crate::constants::kind_at;
use crate::placed::{PlacedLocal, PlacedNode};
use crate::scope::Scope;
use dcv_language::MOST_VARIABLES;
use dcv_lustre::{Kind, Local, Node, ObsFault};
use dcv_observer::{Declared, Item, broken};
use dcv_syntax::Text;
use std::alloc::Global;

/// How many inputs a node may have.
const MOST_INPUTS: usize = MOST_VARIABLES;

impl<'a> Scope<'a> {
    ghost use Rattle.dcv_lustre_read.specs.Contents.{first_fault_of, AreDeclared};

    // The name of the node is declared, and no other.
    fn of_node(alloc: Global, name: &Item<'a>) -> Result<Scope<'a>, ObsFault>
        ensures declared { IfOk result (λ scope. scope.declared ≡ (seen name.now).bytes ∷ []) }
        ensures names { IfOk result (λ scope. scope.names.items ≡ []) }
        ensures fault { IfErr result (λ fault. fault ≡ Memory) }
    {
        let mut declared = Declared::new(alloc);
        declared.declare(name.bytes)?;
        Ok(Scope {
            declared,
            names: Vec::new(alloc),
        })
    }

    // Declares the inputs of the node, whose own name is declared.
    fn inputs(&mut self, alloc: Global, inputs: &[Item<'a>]) -> Result<Vec<Text>, ObsFault>
        ensures { (node : PlainNode) (whole : Option ℕ) (others : List Token) (others_keep : List Bool)
            (words : List Token) (later : PlainNames) (told : List Told)
            → IsDeclaring node whole others others_keep self.old.declared (map seen_row self.old.names.items)
            (map seen inputs.now ++ words) (bytes_of (map seen inputs.now) ++ later) (told_inputs (bytes_of (map seen inputs.now)) ++ told)
            → length self.old.declared ≡ 1 → node.inputs ≡ bytes_of (map seen inputs.now)
            → Leads whole (λ texts. (texts.items ≡ bytes_of (map seen inputs.now))
            × IsDeclaring node whole others others_keep self.new.declared (map seen_row self.new.names.items) words later told
            × (length self.new.declared ≡ length inputs.now + 1)) result }
    {
        let mut texts = Vec::new(alloc);
        for (place, input) in inputs.iter().enumerate() {
            if place >= MOST_INPUTS {
                return Err(broken(input));
            }
            self.declare(input.bytes, input.start, Kind::OfTruth, true)?;
            texts.push(Text::copy_of(alloc, input.bytes)?)?;
        }
        Ok(texts)
    }

    // Declares the locals, after the inputs and the output.
    fn locals(&mut self, alloc: Global, locals: &[PlacedLocal<'a>]) -> Result<Vec<Local>, ObsFault>
        ensures { (node : PlainNode) (whole : Option ℕ) (others : List Token) (others_keep : List Bool)
            → IsDeclaring node whole others others_keep self.old.declared (map seen_row self.old.names.items)
            (words_of_locals (map seen_local locals.now)) (names_of_locals (map seen_local locals.now)) (told_locals (map local_of (map seen_local locals.now)))
            → length node.inputs < length self.old.declared
            → Leads whole (λ made. (map local_seen made.items ≡ map local_of (map seen_local locals.now))
            × IsDeclaring node whole others others_keep self.new.declared (map seen_row self.new.names.items) [] [] []) result }
    {
        let mut all = Vec::with_capacity(alloc, locals.len())?;
        for local in locals {
            let kind = kind_at(&local.kind);
            self.declare(local.name.bytes, local.name.start, kind, false)?;
            let name = Text::copy_of(alloc, local.name.bytes)?;
            all.push(Local { name, kind })?;
        }
        Ok(all)
    }

    // Declares all names of a node, of which its own is declared: the inputs, the output and the locals.
    fn declare_all(
        &mut self,
        alloc: Global,
        placed: &PlacedNode<'a>,
    ) -> Result<(Vec<Text>, Vec<Local>), ObsFault>
        requires declared { self.old.declared ≡ (seen_node placed.now).name.bytes ∷ [] }
        requires names { self.old.names.items ≡ [] }
        ensures { Leads (first_fault_of (seen_node placed.now))
            (λ made. AreDeclared (seen_node placed.now) made.0.items made.1.items self.new.declared (map seen_row self.new.names.items)) result }
    {
        let inputs = self.inputs(alloc, &placed.inputs)?;
        self.declare(b"ok", placed.output.start, Kind::OfTruth, false)?;
        let locals = self.locals(alloc, &placed.locals)?;
        Ok((inputs, locals))
    }

    // The whole node, of which its own name is declared.
    fn node(&mut self, alloc: Global, placed: &PlacedNode<'a>) -> Result<Node, ObsFault>
        requires words { AreWords (seen_node placed.now) }
        requires declared { self.old.declared ≡ (seen_node placed.now).name.bytes ∷ [] }
        requires names { self.old.names.items ≡ [] }
        ensures { Leads (first_fault_of (seen_node placed.now)) (λ node. node ≡ node_of (seen_node placed.now)) result }
    {
        let name = Text::copy_of(alloc, placed.name.bytes)?;
        let declared = self.declare_all(alloc, placed)?;
        let equations = self.equations(alloc, &placed.equations)?;
        if !self.has_all_equations() {
            return Err(broken(&placed.tel));
        }
        Ok(Node::new(name, declared.0, declared.1, equations))
    }
}

/// The node of the tree of a node in a text, and at the first of its words that breaks a rule of names the fault.
pub(crate) fn named(alloc: Global, placed: &PlacedNode<'_>) -> Result<Node, ObsFault>
    requires spelled { (text : List ℕ) × Spells text (seen_node placed.now) }
    ensures named { IfOk result (λ node. node ≡ node_of (seen_node placed.now)) }
    ensures fault { IfErr result (λ fault. fault ≢ Memory
        → (at : ℕ) × (fault ≡ Names at) × IsNamesFault (seen_node placed.now) at) }
{
    let mut scope = Scope::of_node(alloc, &placed.name)?;
    let node = scope.node(alloc, placed);
    drop(scope);
    node
}
