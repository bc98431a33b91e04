//! The run over a trace.
ghost use Rattle.std.specs.Prelude.{◌≡◌, ◌≢◌, ℕ, List, ◌+◌, ◌<◌, ◌≤◌, [], ◌∷◌, ◌++◌, length, take, is_err, IfOk, OnOk, OnErr, IfErr, IfSome, IfNone, IsSome, MatchOption, None, Some, Err};
ghost use Rattle.dcv_io.specs.Asked.{Asks};
ghost use Rattle.dcv_io.specs.Disk.{WhereTold, Gives, IsAtEnd, held_of};
ghost use Rattle.dcv_io.specs.Faults.{RisesIf};
ghost use Rattle.dcv_word.specs.Behaviour.{Word};
ghost use Rattle.dcv_replay.specs.Coming.{IsLines, budget, most_reads};
ghost use Rattle.dcv_replay.specs.Observer.{Observer, Follows};
ghost use Rattle.dcv_replay.specs.Replayed.{Replayed, HasLines, ReadCount, is_open, is_write};
ghost use Rattle.dcv_replay.specs.Running.{going, Answered, Leads, Breaks, Ran, IsEnding, IsCut, EndsSo, BreaksOff, EndsBy, RunsOver, is_read};
ghost use Rattle.dcv_replay.specs.declared.fault.ReplayFault.TheVariants.{Open, Read};

use crate::answers::Answers;
use crate::fault::Stop;
use crate::lines::Lines;
use crate::{Replay, ReplayFault};
use dcv_io::{Failed, Files, Sink};
use dcv_word::Letter;

const BLOCK: usize = 4096;

impl Replay {
    /// Answers each line of a trace, the file of this name, by a line `1` or `0`: whether the observer accepts the letters so far. Lines end by a
    /// line feed or by a carriage return and a line feed; the last may lack its end.
    ///
    /// It takes no memory. It reads blocks of 4,096 bytes, the last of them the one with the first fault. Answers are written in
    /// blocks of 4,096 bytes, and before a fault is returned; where that write fails, the answer is `Write`.
    pub fn run<F: Files, S: Sink>(
        &mut self,
        files: &mut F,
        name: &str,
        sink: &mut S,
    ) -> Result<(), ReplayFault>
        // Which answers are written, and the observer's store: whatever the observer, and the word after which its store is the replay's.
        ensures replayed { (observer : Observer) (before : Word) → Follows observer before self.old
            → Replayed observer before name.now (F.told files.old) (F.told files.new) (S.written sink.old) (S.written sink.new) self.new result }
        ensures program { self.new.program ≡ self.old.program }

        // No fault is passed over, and none is invented. Where a write failed, a read may have failed before it.
        ensures missing { IfSome (held_of (F.told files.old)) (λ held. IfNone (held name.now) (result ≡ Err Open)) }
        ensures open_faults { RisesIf (is_open result) (F.open_faults files.old) (F.open_faults files.new) }
        ensures read_faults { ReadCount result (F.read_faults files.old) (F.read_faults files.new) }
        ensures faults { RisesIf (is_write result) (S.faults sink.old) (S.faults sink.new) }

        // Without a fault the trace was read to its end.
        ensures end { OnOk result (IsAtEnd (F.told files.new)) }

        // Whatever the outcome: one open, and no more reads than a trace can have bytes.
        ensures asked { Asks (name.now ∷ []) (F.asked files.old) (F.asked files.new) }
        ensures calls { F.calls files.new ≤ F.calls files.old + 1 + most_reads }
        ensures held { held_of (F.told files.new) ≡ held_of (F.told files.old) }
    {
        self.run_file(files, name, sink)
    }

    // The same, with what the replay's own program answers.
    fn run_file<F: Files, S: Sink>(
        &mut self,
        files: &mut F,
        name: &str,
        sink: &mut S,
    ) -> Result<(), ReplayFault>
        ensures replayed { RunsOver name.now (F.told files.old) (F.told files.new) self.old (S.written sink.old)
            self.new (S.written sink.new) result }
        ensures program { self.new.program ≡ self.old.program }
        ensures missing { IfSome (held_of (F.told files.old)) (λ held. IfNone (held name.now) (result ≡ Err Open)) }
        ensures open_faults { RisesIf (is_open result) (F.open_faults files.old) (F.open_faults files.new) }
        ensures read_faults { ReadCount result (F.read_faults files.old) (F.read_faults files.new) }
        ensures faults { RisesIf (is_write result) (S.faults sink.old) (S.faults sink.new) }
        ensures end { OnOk result (IsAtEnd (F.told files.new)) }
        ensures asked { Asks (name.now ∷ []) (F.asked files.old) (F.asked files.new) }
        ensures calls { F.calls files.new ≤ F.calls files.old + 1 + most_reads }
        ensures held { held_of (F.told files.new) ≡ held_of (F.told files.old) }
    {
        if files.open_file(name).is_err() {
            return Err(ReplayFault::Open);
        }
        let mut answers = Answers::new();
        match self.run_over(files, sink, &mut answers) {
            Ok(stop) => end(&mut answers, sink, stop),
            Err(_) => Err(ReplayFault::Write),
        }
    }

    // Answers each line of the open file, to its end or to a fault, which it returns.
    fn run_over<F: Files, S: Sink>(
        &mut self,
        files: &mut F,
        sink: &mut S,
        answers: &mut Answers,
    ) -> Result<Option<Stop>, Failed>
        requires { IfSome (F.told files.old) (λ disk. IsSome disk.open) }
        ensures ok { IfOk result (λ stop. Ran (λ text letters. IsEnding self.old.program.width text letters stop)
            (IsCut self.old.program.width stop)
            (F.told files.old) (F.told files.new) self.old (S.written sink.old) answers.old
            self.new (S.written sink.new) answers.new) }
        ensures err { OnErr result ((left : List ℕ) × (left ≢ []) × Ran (HasLines self.old.program.width) (λ read letters. Unit {0})
            (F.told files.old) (F.told files.new) self.old (S.written sink.old) answers.old
            self.new (S.written sink.new) left) }
        ensures end { IfOk result (λ stop. IfNone stop (IsAtEnd (F.told files.new))) }
        ensures held { held_of (F.told files.new) ≡ held_of (F.told files.old) }
        ensures asked { F.asked files.new ≡ F.asked files.old }
        ensures calls { F.calls files.new ≤ F.calls files.old + most_reads }
        ensures open_faults { F.open_faults files.new ≡ F.open_faults files.old }
        ensures read_faults { IfOk result (λ stop. RisesIf (is_read stop) (F.read_faults files.old) (F.read_faults files.new)) }
        ensures no_read_fault { OnErr result (F.read_faults files.new ≡ F.read_faults files.old) }
        ensures faults { RisesIf (is_err result) (S.faults sink.old) (S.faults sink.new) }
    {
        let mut lines = Lines::new(self.width());
        let mut block = [0; BLOCK];
        loop {
            let Ok(count) = files.read(&mut block) else {
                return Ok(Some(Stop::Read));
            };
            if count == 0 {
                return self.take_end(&lines, sink, answers);
            }
            if let Some(stop) = self.take_block(&mut lines, sink, answers, &block[..count])? {
                return Ok(Some(stop));
            }
        }
    }

    // Takes these bytes of a trace, and answers each line that ends in them.
    fn take_block<S: Sink>(
        &mut self,
        lines: &mut Lines,
        sink: &mut S,
        answers: &mut Answers,
        bytes: &[u8],
    ) -> Result<Option<Stop>, Failed>
        requires lines { IsLines lines.old }
        requires width { lines.old.width ≡ self.old.program.width }
        ensures lines { IsLines lines.new }
        ensures width { lines.new.width ≡ self.new.program.width }
        ensures budget { IfOk result (λ stop. IfNone stop (budget lines.new + length bytes.now ≤ budget lines.old)) }
        ensures ok { IfOk result (Leads (going self.old lines.old (S.written sink.old) answers.old) bytes.now
            (going self.new lines.new (S.written sink.new) answers.new)) }
        ensures err { OnErr result (Breaks (going self.old lines.old (S.written sink.old) answers.old) bytes.now
            self.new lines.new (S.written sink.new)) }
        ensures faults { RisesIf (is_err result) (S.faults sink.old) (S.faults sink.new) }
    {
        for byte in bytes {
            if let Some(stop) = self.take_byte(lines, sink, answers, *byte)? {
                return Ok(Some(stop));
            }
        }
        Ok(None)
    }

    // Takes a byte of a trace, and answers the line that it ends, if it ends one.
    fn take_byte<S: Sink>(
        &mut self,
        lines: &mut Lines,
        sink: &mut S,
        answers: &mut Answers,
        byte: u8,
    ) -> Result<Option<Stop>, Failed>
        requires lines { IsLines lines.old }
        requires width { lines.old.width ≡ self.old.program.width }
        ensures lines { IsLines lines.new }
        ensures width { lines.new.width ≡ self.new.program.width }
        ensures budget { IfOk result (λ stop. IfNone stop (budget lines.new + 1 ≤ budget lines.old)) }
        ensures ok { IfOk result (Leads (going self.old lines.old (S.written sink.old) answers.old) (byte ∷ [])
            (going self.new lines.new (S.written sink.new) answers.new)) }
        ensures err { OnErr result (Breaks (going self.old lines.old (S.written sink.old) answers.old) (byte ∷ [])
            self.new lines.new (S.written sink.new)) }
        ensures faults { RisesIf (is_err result) (S.faults sink.old) (S.faults sink.new) }
    {
        match lines.take(byte) {
            Err(stop) => Ok(Some(stop)),
            Ok(None) => Ok(None),
            Ok(Some(letter)) => {
                self.answer(sink, answers, &letter)?;
                Ok(None)
            }
        }
    }

    // Takes the end of a trace, and answers its last line, if that lacks its end.
    fn take_end<S: Sink>(
        &mut self,
        lines: &Lines,
        sink: &mut S,
        answers: &mut Answers,
    ) -> Result<Option<Stop>, Failed>
        requires lines { IsLines lines.now }
        requires width { lines.now.width ≡ self.old.program.width }
        ensures ok { IfOk result (λ stop. EndsSo (going self.old lines.now (S.written sink.old) answers.old)
            (going self.new lines.now (S.written sink.new) answers.new) stop) }
        ensures err { OnErr result (BreaksOff (going self.old lines.now (S.written sink.old) answers.old)
            self.new (S.written sink.new)) }
        ensures faults { RisesIf (is_err result) (S.faults sink.old) (S.faults sink.new) }
    {
        match lines.last() {
            Err(stop) => Ok(Some(stop)),
            Ok(None) => Ok(None),
            Ok(Some(letter)) => {
                self.answer(sink, answers, &letter)?;
                Ok(None)
            }
        }
    }

    // Answers a letter.
    fn answer<S: Sink>(
        &mut self,
        sink: &mut S,
        answers: &mut Answers,
        letter: &Letter,
    ) -> Result<(), Failed>
        requires { length letter.now ≡ self.old.program.width }
        ensures program { self.new.program ≡ self.old.program }
        ensures ok { OnOk result (Answered self.old (S.written sink.old) answers.old (letter.now ∷ []) self.new (S.written sink.new) answers.new) }
        ensures err { OnErr result ((left : List ℕ) × (left ≢ []) × Answered self.old (S.written sink.old) answers.old (letter.now ∷ []) self.new (S.written sink.new) left) }
        ensures faults { RisesIf (is_err result) (S.faults sink.old) (S.faults sink.new) }
    {
        let answer = self.step(letter);
        answers.push(sink, answer)
    }
}

// Writes the answers that are left, and returns how the run ended.
fn end<S: Sink>(answers: &mut Answers, sink: &mut S, stop: Option<Stop>) -> Result<(), ReplayFault>
    ensures ends { EndsBy stop (S.written sink.old) (S.written sink.new) answers.old result }
    ensures faults { RisesIf (is_write result) (S.faults sink.old) (S.faults sink.new) }
{
    if answers.send(sink).is_err() {
        return Err(ReplayFault::Write);
    }
    match stop {
        None => Ok(()),
        Some(stop) => Err(stop.fault()),
    }
}
