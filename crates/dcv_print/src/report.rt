// A report on the words of an automaton. It holds words, lists and references, and neither text nor tree: it is written in pieces.
ghost use Rattle.std.specs.Prelude.{◌≡◌, ◌≤◌, ◌++◌, true, length, codes, is_err, IfOk, OnOk, OnErr};
ghost use Rattle.dcv_io.specs.Faults.{raised, RisesIf};
ghost use Rattle.dcv_io.specs.Putting.{Puts};
ghost use Rattle.dcv_io.specs.Written.{Appends, AppendsStrictPrefix};
ghost use Rattle.dcv_language.specs.Verdict.{IsVerdict};
ghost use Rattle.dcv_dfa.specs.Auto.{count_of_nodes};
ghost use Rattle.dcv_dfa.specs.Raw.{raw_accepts};
ghost use Rattle.dcv_automaton_text.specs.Rules.{AreNames};
ghost use Rattle.dcv_print.specs.Counts.{ArePrintableCounts};
ghost use Rattle.dcv_print.specs.Printed.{texts_of};
ghost use Rattle.dcv_language.specs.VerdictText.{verdict_text};
ghost use Rattle.dcv_language.specs.Limits.{most_states, most_nodes};
ghost use Rattle.dcv_print.specs.Listed.{lustre_text, c_text, tables_text, IsLined};
ghost use Rattle.dcv_print.specs.Report.{Says, SpellsAllBy, text_of_sections, seen_report, IsContent};
ghost use Rattle.dcv_print.specs.Verdict.{seen_verdict};
ghost use Rattle.dcv_print.specs.declared.verdict_lines.Verdict.{Verdict as CodeVerdict};

use crate::automaton_lines::{Lined, Listed, put_automaton};
use crate::verdict_lines::Verdict;
use crate::verdicts::verdict;
use dcv_certificate::Proof;
use dcv_dfa::Auto;
use dcv_io::{Block, Failed, Sink, Target, Text};
use dcv_language::{Count, Kind};
use dcv_syntax::Name;
use std::alloc::{AllocError, Global};
use std::marker::Model;

// What is written beside a verdict, or in its place. An observer is put straight from the lines, so no tree of it is held.
#[derive(Drop)]
pub(crate) enum Content<'a> {
    Verdict,
    Automaton(Listed<'a>),
    Lustre(Lined<'a>),
    C(Lined<'a>),
    Tables(Lined<'a>),
    All(Listed<'a>),
}

impl Lined<'_> {
    // Puts the text of the observer in Lustre.
    fn put_lustre<T: Target>(&self, target: &mut T)
        requires { IsLined self.now }
        ensures { Puts (T.standing target.old) (T.standing target.new) (lustre_text self.now) }
    {
        dcv_lustre::put_observer(target, self.auto, self.names, &self.nodes);
    }

    // Puts the text of the observer in C.
    fn put_c<T: Target>(&self, target: &mut T)
        requires { IsLined self.now }
        ensures { Puts (T.standing target.old) (T.standing target.new) (c_text self.now) }
    {
        dcv_c::put_observer(target, self.auto, self.names, &self.nodes);
    }

    // Puts the text of the observer in constant tables of C.
    fn put_tables<T: Target>(&self, target: &mut T)
        requires { IsLined self.now }
        ensures { Puts (T.standing target.old) (T.standing target.new) (tables_text self.now) }
    {
        dcv_c_tables::put_tables(target, self.auto, self.names, &self.nodes);
    }
}

impl Listed<'_> {
    // Puts the four texts.
    fn put_sections<T: Target>(&self, verdict: &Verdict, target: &mut T)
        requires { IsLined self.now.lined }
        ensures { Puts (T.standing target.old) (T.standing target.new) (text_of_sections (verdict_text (seen_verdict verdict.now)) self.now) }
    {
        put_verdict(target, verdict);
        self.put(target);
        put_observers(target, &self.lined);
    }
}

/// All that is said of an automaton: its verdict, its own text with the words of this proof and what the steps took, and both
/// observers, each after a line that names it.
pub fn all_text(
    alloc: Global,
    auto: &Auto,
    names: &[Name],
    proof: &Proof,
    counts: &[Count],
) -> Result<Vec<u8>, AllocError>
    requires names { AreNames (texts_of names.now) }
    requires slots { length names.now ≡ auto.now.arena.slots }
    requires states { length auto.now.rows ≤ most_states }
    requires nodes { count_of_nodes auto.now ≤ most_nodes }
    requires counts { ArePrintableCounts counts.now }
    ensures { IfOk result (λ text. SpellsAllBy auto.now (texts_of names.now) proof.now.access proof.now.suffixes counts.now text.items) }
{
    let verdict = verdict(alloc, auto)?;
    let lined = Lined::new(alloc, auto, names)?;
    let mut text = Text::new(alloc);
    put_verdict(&mut text, &verdict);
    put_automaton(&mut text, auto, names, &lined.nodes, proof, counts);
    put_observers(&mut text, &lined);
    text.finish()
}

// Puts the verdict after its line, and the line of the automaton.
fn put_verdict<T: Target>(target: &mut T, verdict: &Verdict)
    ensures { Puts (T.standing target.old) (T.standing target.new)
        (codes "--- verdict\n" ++ (verdict_text (seen_verdict verdict.now) ++ codes "--- automaton\n")) }
{
    target.put(b"--- verdict\n");
    verdict.put(target);
    target.put(b"--- automaton\n");
}

// Puts both observers, each after its line.
fn put_observers<T: Target>(target: &mut T, lined: &Lined<'_>)
    requires { IsLined lined.now }
    ensures { Puts (T.standing target.old) (T.standing target.new)
        (codes "--- lustre\n" ++ (lustre_text lined.now ++ (codes "--- c\n" ++ c_text lined.now))) }
{
    target.put(b"--- lustre\n");
    lined.put_lustre(target);
    target.put(b"--- c\n");
    lined.put_c(target);
}

/// A report on the words that an automaton accepts, before it is written.
///
/// It is made whole before a byte is written, so that memory cannot run out half-way.
#[derive(Drop)]
pub struct Report<'a> {
    // what is said first
    verdict: Verdict,
    // what is asked for
    content: Content<'a>,
}

impl<'a> Model for Report<'a> {
    ghost use Rattle.dcv_print.specs.Report.{ReportValue, seen_report, IsContent};

    ghost Value = { ReportValue };

    ghost view = { λ report. seen_report report.verdict report.content };

    ghost invariant = { λ report. IsContent report.content };
}

impl<'a> Report<'a> {
    /// What the kind says of an automaton over variables with these names, which was built in steps that took so much: one count for each
    /// step in order.
    pub fn make(
        alloc: Global,
        auto: &'a Auto,
        names: &'a [Name],
        kind: Kind,
        counts: &'a [Count],
    ) -> Result<Report<'a>, AllocError>
        requires names { AreNames (texts_of names.now) }
        requires slots { length names.now ≡ auto.now.arena.slots }
        requires states { length auto.now.rows ≤ most_states }
        requires nodes { count_of_nodes auto.now ≤ most_nodes }
        requires counts { ArePrintableCounts counts.now }
        ensures verdict { IfOk result (λ report. IsVerdict auto.now.arena.slots (raw_accepts auto.now) report.verdict) }
        ensures says { IfOk result (Says kind auto.now (texts_of names.now) counts.now) }
    {
        let verdict = verdict(alloc, auto)?;
        let content = content_of(alloc, auto, names, kind, counts)?;
        Ok(Report { verdict, content })
    }

    /// The report that says a verdict alone.
    pub fn of_verdict(verdict: Verdict) -> Report<'a>
        ensures verdict { result.verdict ≡ seen_verdict verdict }
        ensures says { result.text ≡ verdict_text (seen_verdict verdict) }
    {
        Report {
            verdict,
            content: Content::Verdict,
        }
    }

    /// The verdict, of whatever kind the report is.
    pub fn verdict(&self) -> &Verdict
        ensures { seen_verdict result.now ≡ self.now.verdict }
    {
        &self.verdict
    }

    /// Writes the report in blocks of 4,096 bytes, and takes no memory.
    pub fn send<S: Sink>(&self, sink: &mut S) -> Result<(), Failed>
        ensures ok { OnOk result (Appends (S.written sink.old) (S.written sink.new) self.now.text) }
        ensures failed { OnErr result (AppendsStrictPrefix (S.written sink.old) (S.written sink.new) self.now.text) }
        ensures faults { RisesIf (is_err result) (S.faults sink.old) (S.faults sink.new) }

        // It stops at the first write that fails: one has failed, and it was the last.
        ensures once { OnErr result (S.faults sink.new ≡ raised (S.faults sink.old)) }
        ensures stops { OnErr result (S.last_failed sink.new ≡ true) }
    {
        let mut block = Block::new(sink);
        self.put(&mut block);
        block.finish()
    }

    // Puts the text.
    fn put<T: Target>(&self, target: &mut T)
        ensures { Puts (T.standing target.old) (T.standing target.new) self.now.text }
    {
        match &self.content {
            Content::Verdict => self.verdict.put(target),
            Content::Automaton(listed) => listed.put(target),
            Content::Lustre(lined) => lined.put_lustre(target),
            Content::C(lined) => lined.put_c(target),
            Content::Tables(lined) => lined.put_tables(target),
            Content::All(listed) => listed.put_sections(&self.verdict, target),
        }
    }
}

// What the kind asks for.
fn content_of<'a>(
    alloc: Global,
    auto: &'a Auto,
    names: &'a [Name],
    kind: Kind,
    counts: &'a [Count],
) -> Result<Content<'a>, AllocError>
    requires names { AreNames (texts_of names.now) }
    requires slots { length names.now ≡ auto.now.arena.slots }
    requires states { length auto.now.rows ≤ most_states }
    requires nodes { count_of_nodes auto.now ≤ most_nodes }
    ensures says { IfOk result (λ content. (verdict : CodeVerdict) → Says kind auto.now (texts_of names.now) counts.now (seen_report verdict content)) }
    ensures content { IfOk result IsContent }
{
    match kind {
        Kind::Check => Ok(Content::Verdict),
        Kind::Automaton => Ok(Content::Automaton(Listed::new(alloc, auto, names, counts)?)),
        Kind::Lustre => Ok(Content::Lustre(Lined::new(alloc, auto, names)?)),
        Kind::C => Ok(Content::C(Lined::new(alloc, auto, names)?)),
        Kind::Tables => Ok(Content::Tables(Lined::new(alloc, auto, names)?)),
        Kind::All => Ok(Content::All(Listed::new(alloc, auto, names, counts)?)),
    }
}
