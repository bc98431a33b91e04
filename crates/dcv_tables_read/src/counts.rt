// The first line, which has the counts.
ghost use Rattle.std.specs.Prelude.{◌≡◌, ◌+◌, ◌<◌, ◌++◌, IfOk};
ghost use Rattle.std.specs.Char.{is_ascii_digit};
ghost use Rattle.dcv_automaton_text.specs.Form.{IsNumber};
ghost use Rattle.dcv_automaton_lines.specs.Stops.{IsNumberEnd, IsStuckAt};
ghost use Rattle.dcv_tables_read.specs.Parts.{count_text, CountSet, AreCounts, counts_text, CountsSet};
ghost use Rattle.dcv_tables_read.specs.Values.{counts_of};

use dcv_automaton_lines::{Stuck, literal, number};

/// How many there are of each.
#[derive(Clone, Copy)]
pub struct Counts {
    /// States.
    pub states: u32,
    /// Nodes.
    pub nodes: u32,
    /// Parameters.
    pub variables: u32,
}

// A number between a word and a byte, and the text after it.
fn count<'a>(text: &'a [u8], lead: &[u8], end: u8) -> Result<(u32, &'a [u8]), Stuck<'a>>
    requires { IsNumberEnd end }
    ensures small { IfOk result (λ read. IsNumber read.0) }
    ensures spelled { IfOk result (λ read. text.now ≡ count_text lead.now end read.0 ++ read.1.now) }
    ensures fault { IsStuckAt (CountSet lead.now end) text.now result }
{
    let digits = literal(text, lead)?;
    number(digits, end)
}

/// The counts, and the text after their line.
pub fn counts_line<'a>(text: &'a [u8]) -> Result<(Counts, &'a [u8]), Stuck<'a>>
    ensures small { IfOk result (λ read. AreCounts (counts_of read.0)) }
    ensures spelled { IfOk result (λ read. text.now ≡ counts_text (counts_of read.0) ++ read.1.now) }
    ensures fault { IsStuckAt CountsSet text.now result }
{
    let (states, after_states) = count(text, b"enum { states = ", b',')?;
    let (nodes, after_nodes) = count(after_states, b" nodes = ", b',')?;
    let (variables, after_variables) = count(after_nodes, b" variables = ", b' ')?;
    let rest = literal(after_variables, b"};\n\n")?;
    let counts = Counts {
        states,
        nodes,
        variables,
    };
    Ok((counts, rest))
}
