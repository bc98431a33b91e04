// The commands that run an observer over a trace.
ghost use Rattle.std.specs.Prelude.{◌≡◌, ◌≤◌, ◌+◌, [], ◌∷◌, length, IfOk, IfErr, IsTrue};
ghost use Rattle.std.specs.Bool.{OnTrue};
ghost use Rattle.dcv_command.specs.Request.{Replay as ReplayRequest};
ghost use Rattle.dcv_command.specs.declared.words.Subset.TheVariants.{Lustre, C, Tables};
ghost use Rattle.dcv_replay.specs.Coming.{most_reads};
ghost use Rattle.dcv_replay.specs.Observer.{Observer, KeepsTheRules, Follows};
ghost use Rattle.dcv_cli.specs.Held.{OfHeldText};
ghost use Rattle.dcv_cli.specs.ObserverFile.{IsRefusedObserver};
ghost use Rattle.dcv_cli.specs.Outside.{of_files, outside};
ghost use Rattle.dcv_cli.specs.Performed.{Performs, PerformsRequest, Takes};
ghost use Rattle.dcv_cli.specs.Refusal.{most_observer_bytes, is_of_text, status_of};
ghost use Rattle.dcv_cli.specs.Replaying.{IsReplayOf, FulfilsTrace, LeavesTrace};
ghost use Rattle.dcv_cli.specs.Status.{is_determined};

use crate::faults::{MOST_OBSERVER_BYTES, ObserverFault};
use crate::refusal::Refusal;
use crate::refused::Ended;
use crate::status::Status;
use crate::text::take;
use dcv_c_read::read as read_unit;
use dcv_command::Subset;
use dcv_io::{Files, Sink};
use dcv_lustre_read::read as read_node;
use dcv_replay::Replay;
use dcv_replay::laws::{letters_have_one_text_of_answers, traces_have_one_verdict};
use dcv_tables_read::laws::read_units_keep_the_rules;
use dcv_tables_read::read as read_tables;
use std::alloc::Global;

/// Answers each line of the trace in the file of the second name, by the observer in the file of the first.
pub(crate) fn replay_file<F: Files, O: Sink>(
    alloc: Global,
    subset: Subset,
    observer: &str,
    trace: &str,
    files: &mut F,
    out: &mut O,
) -> Ended
    ensures { PerformsRequest (ReplayRequest subset observer.entry.now trace.entry.now) result
        (outside F.Files O.Sink files.old out.old) (outside F.Files O.Sink files.new out.new) }
{
    read_units_keep_the_rules();
    let mut replay = observer_file(alloc, subset, files, observer)?;
    answer_trace(&mut replay, trace, files, out)
}

// The observer in the file of this name, as before the first line of a trace.
fn observer_file<F: Files>(
    alloc: Global,
    subset: Subset,
    files: &mut F,
    name: &str,
) -> Result<Replay, Refusal>
    ensures observer { IfOk result (λ replay. OfHeldText (F.told files.old) name.now (λ text. IsReplayOf subset text replay)) }
    ensures refused { IfErr result (λ refusal. OnTrue (is_determined (status_of refusal))
        (OfHeldText (F.told files.old) name.now (λ text. IsRefusedObserver subset text refusal))) }
    ensures taken { Takes most_observer_bytes name.now result (of_files F.Files files.old) (of_files F.Files files.new) }
{
    let too_long = Refusal::Observer(ObserverFault::Length);
    let text = take(alloc, files, name, MOST_OBSERVER_BYTES, too_long)?;
    observer_of(alloc, subset, &text)
}

// The observer that the text spells.
fn observer_of(alloc: Global, subset: Subset, text: &[u8]) -> Result<Replay, Refusal>
    requires { length text.now ≤ most_observer_bytes }
    ensures observer { IfOk result (IsReplayOf subset text.now) }
    ensures refused { IfErr result (λ refusal. OnTrue (is_determined (status_of refusal)) (IsRefusedObserver subset text.now refusal)) }
    ensures own { IfErr result (λ refusal. IsTrue (is_of_text refusal)) }
{
    match subset {
        Subset::Lustre => node_of(alloc, text),
        Subset::C => unit_of(alloc, text),
        Subset::Tables => tables_of(alloc, text),
    }
}

// The node of Lustre that the text spells.
fn node_of(alloc: Global, text: &[u8]) -> Result<Replay, Refusal>
    requires { length text.now ≤ most_observer_bytes }
    ensures observer { IfOk result (IsReplayOf Lustre text.now) }
    ensures refused { IfErr result (λ refusal. OnTrue (is_determined (status_of refusal)) (IsRefusedObserver Lustre text.now refusal)) }
    ensures own { IfErr result (λ refusal. IsTrue (is_of_text refusal)) }
{
    let node = read_node(alloc, text)?;
    let replay = Replay::lustre(alloc, &node)?;
    Ok(replay)
}

// The unit of C that the text spells.
fn unit_of(alloc: Global, text: &[u8]) -> Result<Replay, Refusal>
    requires { length text.now ≤ most_observer_bytes }
    ensures observer { IfOk result (IsReplayOf C text.now) }
    ensures refused { IfErr result (λ refusal. OnTrue (is_determined (status_of refusal)) (IsRefusedObserver C text.now refusal)) }
    ensures own { IfErr result (λ refusal. IsTrue (is_of_text refusal)) }
{
    let unit = read_unit(alloc, text)?;
    let replay = Replay::c(alloc, &unit)?;
    Ok(replay)
}

// The unit of constant tables that the text spells.
fn tables_of(alloc: Global, text: &[u8]) -> Result<Replay, Refusal>
    requires { length text.now ≤ most_observer_bytes }
    ensures observer { IfOk result (IsReplayOf Tables text.now) }
    ensures refused { IfErr result (λ refusal. OnTrue (is_determined (status_of refusal)) (IsRefusedObserver Tables text.now refusal)) }
    ensures own { IfErr result (λ refusal. IsTrue (is_of_text refusal)) }
{
    read_units_keep_the_rules();
    let unit = read_tables(alloc, text)?;
    let replay = Replay::tables(alloc, unit)?;
    Ok(replay)
}

// Answers each line of the trace in the file of this name. It takes no memory.
fn answer_trace<F: Files, O: Sink>(
    replay: &mut Replay,
    trace: &str,
    files: &mut F,
    out: &mut O,
) -> Ended
    ensures { (observer : Observer) → KeepsTheRules observer → Follows observer [] replay.old
        → Performs (FulfilsTrace observer trace.entry.now (F.told files.old)) (LeavesTrace observer trace.entry.now) (trace.entry.now ∷ []) (1 + most_reads) result
        (outside F.Files O.Sink files.old out.old) (outside F.Files O.Sink files.new out.new) }
{
    traces_have_one_verdict();
    letters_have_one_text_of_answers();
    replay.run(files, trace, out)?;
    Ok(Status::Done)
}
