// The way through a row. Slots grow on it, so it takes a step for each variable at most.
ghost use Rattle.std.specs.Prelude.{◌≡◌, ◌<◌, ◌≤◌, length};
ghost use Rattle.dcv_automaton_text.specs.Meaning.{state_at};
ghost use Rattle.dcv_automaton_read.specs.Walk.{child_at, leaves_of, IsEarlier, AreOrdered};

use crate::nodes::Node;
use dcv_language::Child;
use dcv_word::Letter;

// What comes next at a letter.
fn child_at(node: &Node, letter: &Letter) -> Child
    requires slot { node.now.slot < length letter.now }
    requires narrow { length letter.now ≤ 32 }
    ensures { result ≡ child_at letter.now node.now }
{
    if letter.get(node.slot as u8) {
        node.hi
    } else {
        node.lo
    }
}

// The state to which a letter leads from here.
pub(crate) fn leaf(nodes: &[Node], start: Child, letter: &Letter) -> u32
    requires ordered { AreOrdered (length letter.now) nodes.now }
    requires narrow { length letter.now ≤ 32 }
    requires start { IsEarlier (length nodes.now) start }
    ensures { result ≡ state_at (leaves_of letter.now nodes.now) start }
{
    let mut at = start;
    'way: loop {
        match at {
            Child::State(state) => return state,
            Child::Node(number) => at = child_at(&nodes[number as usize], letter),
        }
    }
}
