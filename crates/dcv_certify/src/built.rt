//! The automaton that a text says, its rows refs of one arena.
ghost use Rattle.std.specs.Prelude.{◌≡◌, ◌<◌, ◌≤◌, length, map, IfOk};
ghost use Rattle.std.specs.List.{All};
ghost use Rattle.dcv_language.specs.Language.{HaveSameBehaviours};
ghost use Rattle.dcv_dfa.specs.Raw.{raw_accepts};
ghost use Rattle.dcv_automaton_read.specs.Walk.{IsEarlier};
ghost use Rattle.dcv_certify.specs.Built.{ref_at, AreNodes, StandFor};
ghost use Rattle.dcv_certify.specs.Certified.{set_of};

use dcv_arena::{Arena, ArenaFault, Ref};
use dcv_automaton_read::{AutoFile, Node, Row};
use dcv_automaton_text::laws::good_files_are_tables;
use dcv_dfa::Raw;
use dcv_language::{Child, MOST_NODES};
use dcv_word::laws::letters_of_width_are_all;
use std::alloc::{AllocError, Global};

// The nodes of an arena, and for each node of a text the ref that stands for it.
#[derive(Drop)]
struct Built {
    // the nodes of the text
    arena: Arena,
    // the ref of each node of the text
    refs: Vec<Ref>,
}

// The automaton of a text. It accepts what the table accepts.
pub(crate) fn automaton_of(alloc: Global, file: &AutoFile) -> Result<Raw, ArenaFault>
    ensures slots { IfOk result (λ raw. raw.arena.slots ≡ length file.now.names) }
    ensures accepts { IfOk result (λ raw. HaveSameBehaviours (length file.now.names) (raw_accepts raw) (set_of file.now)) }
{
    letters_of_width_are_all();
    good_files_are_tables();
    // for the prover: what is true of every file.
    file.keeps_the_rules();
    let built = refs_of(alloc, file.names().len() as u8, file.nodes())?;
    let states = file.rows();
    let rows = rows_of(alloc, &built.refs, states)?;
    let flags = flags_of(alloc, states)?;
    Ok(Raw::new(built.arena, rows, flags, 0))
}

// The refs of the nodes. Each is made of those of its children, which stand before it.
fn refs_of(alloc: Global, slots: u8, nodes: &[Node]) -> Result<Built, ArenaFault>
    requires { AreNodes slots nodes.now }
    ensures { IfOk result (λ built. StandFor slots nodes.now built.arena built.refs.items) }
{
    let mut arena = Arena::new(alloc, slots, MOST_NODES);
    let mut refs = Vec::new(alloc);
    for node in nodes {
        let lo = ref_of(&refs, node.lo);
        let hi = ref_of(&refs, node.hi);
        refs.push(arena.node(node.slot as u8, lo, hi)?)?;
    }
    Ok(Built { arena, refs })
}

// The ref of a child, given those of the nodes.
fn ref_of(refs: &[Ref], child: Child) -> Ref
    requires { IsEarlier (length refs.now) child }
    ensures { result ≡ ref_at refs.now child }
{
    match child {
        Child::State(state) => Ref::Leaf(state),
        Child::Node(number) => refs[number as usize],
    }
}

// The rows of the states.
fn rows_of(alloc: Global, refs: &[Ref], rows: &[Row]) -> Result<Vec<Ref>, AllocError>
    requires { All (λ row. IsEarlier (length refs.now) row.next) rows.now }
    ensures { IfOk result (λ made. made.items ≡ map (λ row. ref_at refs.now row.next) rows.now) }
{
    let mut made = Vec::new(alloc);
    for row in rows {
        made.push(ref_of(refs, row.next))?;
    }
    Ok(made)
}

// Which states accept.
fn flags_of(alloc: Global, rows: &[Row]) -> Result<Vec<bool>, AllocError>
    ensures { IfOk result (λ flags. flags.items ≡ map (λ row. row.accepting) rows.now) }
{
    let mut flags = Vec::new(alloc);
    for row in rows {
        flags.push(row.accepting)?;
    }
    Ok(flags)
}
