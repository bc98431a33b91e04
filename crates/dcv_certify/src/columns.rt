//! Whether each suffix is accepted from each state: a column of bits for each suffix, made of the column that its suffix goes on from. After
//! the last state the start stands once more, with its other flag, since the empty suffix says nothing of an empty word.
ghost use Rattle.std.specs.Prelude.{◌≡◌, ◌<◌, [], length, map, List, IfOk, OnOk};
ghost use Rattle.std.specs.List.{All};
ghost use Rattle.dcv_word.specs.Behaviour.{Word as AnyWord};
ghost use Rattle.dcv_automaton_text.specs.Meaning.{table_of, suffix_word_of};
ghost use Rattle.dcv_automaton_read.specs.File.{suffix_from};
ghost use Rattle.dcv_certify.specs.Columns.{IsColumn, with_start, GoesOnFromColumn, IsColumnBefore};
ghost use Rattle.dcv_certify.specs.Split.{bit_at};
ghost use Rattle.dcv_certify.specs.Steps.{AreKept};

use crate::steps::Steps;
use dcv_automaton_read::{AutoFile, Suffix};
use dcv_automaton_text::laws::good_files_are_tables;
use std::alloc::{AllocError, Global};

// The column of a suffix, given that of the one that it goes on from.
pub(crate) fn column(
    alloc: Global,
    file: &AutoFile,
    steps: &mut Steps,
    from: &[bool],
    suffix: Suffix,
) -> Result<Vec<bool>, AllocError>
    requires kept { AreKept (table_of file.now) steps.old.kept.items }
    requires goes_on { GoesOnFromColumn file.now from.now (suffix_from suffix) }
    ensures kept { OnOk result (AreKept (table_of file.now) steps.new.kept.items) }
    ensures column { IfOk result (λ column. (words : List AnyWord) → IsColumnBefore (table_of file.now) words from.now (suffix_from suffix)
        → IsColumn (table_of file.now) (suffix_word_of words (suffix_from suffix)) column.items) }
{
    good_files_are_tables();
    // for the prover: what is true of every file.
    file.keeps_the_rules();
    match suffix {
        Suffix::Empty => flags(alloc, file),
        Suffix::Then(letter, _) => {
            let place = steps.meet(alloc, file, letter)?;
            behind(alloc, from, steps.next_at(place))
        }
    }
}

// The column of the empty suffix.
fn flags(alloc: Global, file: &AutoFile) -> Result<Vec<bool>, AllocError>
    ensures { IfOk result (λ column. IsColumn (table_of file.now) [] column.items) }
{
    good_files_are_tables();
    // for the prover: what is true of every file.
    file.keeps_the_rules();
    let mut column = Vec::new(alloc);
    for state in 0..file.states() {
        column.push(file.accepting(state))?;
    }
    column.push(!column[0])?;
    Ok(column)
}

// The bits of the states that come next, and that of the start once more.
fn behind(alloc: Global, from: &[bool], next: &[u32]) -> Result<Vec<bool>, AllocError>
    requires some { 0 < length next.now }
    requires states { All (λ state. state < length from.now) next.now }
    ensures { IfOk result (λ column. column.items ≡ with_start (map (bit_at from.now) next.now)) }
{
    let mut column = vec![in alloc; false; next.len() + 1]?;
    for (state, to) in next.iter().enumerate() {
        column[state] = from[*to as usize];
    }
    column[next.len()] = column[0];
    Ok(column)
}
