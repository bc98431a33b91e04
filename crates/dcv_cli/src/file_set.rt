// The commands over a set of formula files: whether their requirements go together, or whether the first follows from the others.
ghost use Rattle.std.specs.Prelude.{◌≡◌, ◌<◌, ◌+◌, ◌++◌, ◌∷◌, ◌^◌, [], ℕ, suc, List, codes, length, map, IfOk, IfErr, OnOk};
ghost use Rattle.dcv_automaton_text.specs.Spelled.{name_words};
ghost use Rattle.dcv_print.specs.Pushed.{spaced};
ghost use Rattle.dcv_command.specs.Request.{Set as SetRequest};
ghost use Rattle.dcv_dfa.specs.Raw.{raw_accepts};
ghost use Rattle.dcv_io.specs.Putting.{Puts};
ghost use Rattle.dcv_print.specs.Verdict.{letters_of};
ghost use Rattle.dcv_syntax.specs.Plain.{PlainFile};
ghost use Rattle.dcv_together.specs.Answered.{answer_of};
ghost use Rattle.dcv_together.specs.Answers.{Least, TooMany};
ghost use Rattle.dcv_cli.specs.FileSet.{IsDecidedFollowing, IsDecidedTogether, IsOfSet, follows_text, joint_of as joint_of_files, names_line, possible_text};
ghost use Rattle.dcv_cli.specs.Joined.{AreAutosOver, AreRead, IsExtraName, IsJoinedSet, IsJoint, IsOverAt, IsUnjoined, IsWhole, StopsTaking, TakesAll, WereRead};
ghost use Rattle.dcv_cli.specs.Outside.{of_files, outside, stream};
ghost use Rattle.dcv_cli.specs.Performed.{Answers, PerformsRequest};
ghost use Rattle.dcv_cli.specs.SetAnswers.{IsRefusedIn, outcome_of_decided, outcome_of_following};
ghost use Rattle.dcv_cli.specs.declared.refusal.Refusal.TheVariants.{Tuples};
ghost use Rattle.dcv_cli.specs.declared.refused.Which.TheVariants.{Number};

use crate::formula_file::FormulaFile;
use crate::refusal::Refusal;
use crate::refused::{Ended, Refused, Which};
use crate::reply::{Reply, reply_with};
use crate::status::Status;
use dcv_command::SetQuestion;
use dcv_dfa::Auto;
use dcv_explore::Limits;
use dcv_io::{Files, Sink, Target, put_pieces};
use dcv_joint::Joint;
use dcv_joint::laws::names_are_joint;
use dcv_print::{put_stuck, put_word};
use dcv_syntax::Text;
use dcv_together::laws::answers_are_of_sets;
use dcv_together::{Answer, follows, possible, stuck};
use dcv_word::Word;
use std::alloc::{AllocError, Global};

/// What is asked of a set of files, and within which limits.
#[derive(Clone, Copy)]
pub(crate) struct Question {
    /// What is asked.
    pub asked: SetQuestion,
    /// How large a step may be.
    pub limits: Limits,
    /// How many tuples may come before an answer.
    pub tuples: u32,
}

/// The files of a set over the names of all of them.
#[derive(Drop)]
struct JoinedSet {
    // the names of their variables, each once
    joint: Joint,
    // the automaton of each file over these names
    autos: Vec<Auto>,
}

/// Answers for the set of the files with these names.
pub(crate) fn decide_set<F: Files, O: Sink>(
    alloc: Global,
    question: Question,
    names: &[&str],
    files: &mut F,
    out: &mut O,
) -> Ended
    requires some { 0 < length names.now }
    requires tuples { question.tuples + 1 < 2 ^ 32 }
    ensures { PerformsRequest (SetRequest question.asked (map (λ name. name.now) names.entry.now) question.limits question.tuples) result
        (outside F.Files O.Sink files.old out.old) (outside F.Files O.Sink files.new out.new) }
{
    let formulas = take_files(alloc, names, files)?;
    answer(alloc, question, &formulas, out)
}

// Takes the files of these names in order.
fn take_files<F: Files>(
    alloc: Global,
    names: &[&str],
    files: &mut F,
) -> Result<Vec<FormulaFile>, Refused>
    ensures taken { IfOk result (λ formulas. TakesAll (map (λ name. name.now) names.entry.now) formulas.items (of_files F.Files files.old) (of_files F.Files files.new)) }
    ensures stops { IfErr result (λ refused. StopsTaking (map (λ name. name.now) names.entry.now) refused (of_files F.Files files.old) (of_files F.Files files.new)) }
{
    let mut taken = Vec::new(alloc);
    for name in names {
        match FormulaFile::take(alloc, files, name) {
            Ok(formula) => push(&mut taken, formula)?,
            Err(refusal) => return Err(refusal.in_file(number(taken.len()))),
        }
    }
    Ok(taken)
}

// Answers for these files.
fn answer<O: Sink>(
    alloc: Global,
    question: Question,
    formulas: &[FormulaFile],
    out: &mut O,
) -> Ended
    requires some { 0 < length formulas.now }
    requires read { WereRead formulas.now }
    requires tuples { question.tuples + 1 < 2 ^ 32 }
    ensures { (files : List PlainFile) → AreRead files formulas.now
        → Answers (IsOfSet question.asked question.limits question.tuples files) result (stream O.Sink out.old) (stream O.Sink out.new) }
{
    answers_are_of_sets();
    let set = joined(alloc, formulas, question.limits)?;
    match question.asked {
        SetQuestion::Together => answer_together(alloc, &set, question.tuples, out),
        SetQuestion::Follows => answer_follows(alloc, &set, question.tuples, out),
    }
}

// The files over the names of all of them.
fn joined(alloc: Global, formulas: &[FormulaFile], limits: Limits) -> Result<JoinedSet, Refused>
    requires read { WereRead formulas.now }
    ensures joined { (files : List PlainFile) → AreRead files formulas.now → IfOk result (IsJoinedSet limits files) }
    ensures refused { (files : List PlainFile) → AreRead files formulas.now → IfErr result (IsUnjoined limits files) }
{
    let joint = joint_of(alloc, formulas)?;
    let autos = autos_over(alloc, &joint, formulas, limits)?;
    Ok(JoinedSet { joint, autos })
}

// The names of all files, each once.
fn joint_of(alloc: Global, formulas: &[FormulaFile]) -> Result<Joint, Refused>
    ensures joint { (files : List PlainFile) → AreRead files formulas.now → IfOk result (IsJoint files) }
    ensures extra { (files : List PlainFile) → AreRead files formulas.now → IfErr result (IsExtraName files) }
{
    let mut joint = Joint::new(alloc);
    for (place, formula) in formulas.iter().enumerate() {
        if let Err(refusal) = formula.join(alloc, &mut joint) {
            return Err(refusal.in_file(number(place)));
        }
    }
    Ok(joint)
}

// The automaton of each file over these names.
fn autos_over(
    alloc: Global,
    joint: &Joint,
    formulas: &[FormulaFile],
    limits: Limits,
) -> Result<Vec<Auto>, Refused>
    requires read { WereRead formulas.now }
    ensures autos { (files : List PlainFile) → AreRead files formulas.now → joint.now ≡ joint_of_files files → IfOk result (λ autos. AreAutosOver limits joint.now files autos.items) }
    ensures over { (files : List PlainFile) → AreRead files formulas.now → joint.now ≡ joint_of_files files → IfErr result (IsOverAt limits joint.now files) }
{
    names_are_joint();
    let mut autos = Vec::new(alloc);
    for (place, formula) in formulas.iter().enumerate() {
        match formula.build_over(alloc, joint, limits) {
            Ok(auto) => push(&mut autos, auto)?,
            Err(refusal) => return Err(refusal.in_file(number(place))),
        }
    }
    Ok(autos)
}

// Adds one at the end.
fn push<T: Drop>(list: &mut Vec<T>, one: T) -> Result<(), AllocError>
    ensures { OnOk result (list.new.items ≡ list.old.items ++ one ∷ []) }
{
    list.push(one)?;
    Ok(())
}

// The file at this place.
fn number(place: usize) -> Which
    requires { place + 1 < 2 ^ 64 }
    ensures { result ≡ Number (suc place) }
{
    Which::Number(place as u64 + 1)
}

// ---- what is said

/// The least behaviour of all files, and the least stuck one.
#[derive(Drop)]
struct Decided<'a> {
    joint: &'a Joint,
    example: Option<Word>,
    stuck: Option<Word>,
}

/// The least behaviour that satisfies all files but the first, and not that.
#[derive(Drop)]
struct Following<'a> {
    joint: &'a Joint,
    least: Option<Word>,
}

// Whether the requirements go together.
fn answer_together<O: Sink>(alloc: Global, set: &JoinedSet, tuples: u32, out: &mut O) -> Ended
    requires whole { IsWhole set.now }
    requires tuples { tuples + 1 < 2 ^ 32 }
    ensures { Answers (IsDecidedTogether tuples set.now.joint (map raw_accepts set.now.autos.items)) result (stream O.Sink out.old) (stream O.Sink out.new) }
{
    let decided = decide_together(alloc, set, tuples)?;
    reply_with(&decided, Status::of_least(&decided.stuck), out)
}

fn decide_together<'a>(
    alloc: Global,
    set: &'a JoinedSet,
    tuples: u32,
) -> Result<Decided<'a>, Refusal>
    requires whole { IsWhole set.now }
    requires tuples { tuples + 1 < 2 ^ 32 }
    ensures decided { IfOk result (λ decided. IsDecidedTogether tuples set.now.joint (map raw_accepts set.now.autos.items) (outcome_of_decided decided)) }
    ensures over { IfErr result (IsRefusedIn (IsDecidedTogether tuples set.now.joint (map raw_accepts set.now.autos.items))) }
{
    let width = set.joint.width();
    let example = least_within(possible(alloc, &set.autos, width, tuples)?, tuples)?;
    let stuck = least_within(stuck(alloc, &set.autos, width, tuples)?, tuples)?;
    Ok(Decided {
        joint: &set.joint,
        example,
        stuck,
    })
}

// Whether the first requirement follows from the others.
fn answer_follows<O: Sink>(alloc: Global, set: &JoinedSet, tuples: u32, out: &mut O) -> Ended
    requires whole { IsWhole set.now }
    requires tuples { tuples + 1 < 2 ^ 32 }
    ensures { Answers (IsDecidedFollowing tuples set.now.joint (map raw_accepts set.now.autos.items)) result (stream O.Sink out.old) (stream O.Sink out.new) }
{
    let following = decide_following(alloc, set, tuples)?;
    reply_with(&following, Status::of_least(&following.least), out)
}

fn decide_following<'a>(
    alloc: Global,
    set: &'a JoinedSet,
    tuples: u32,
) -> Result<Following<'a>, Refusal>
    requires whole { IsWhole set.now }
    requires tuples { tuples + 1 < 2 ^ 32 }
    ensures decided { IfOk result (λ following. IsDecidedFollowing tuples set.now.joint (map raw_accepts set.now.autos.items) (outcome_of_following following)) }
    ensures over { IfErr result (IsRefusedIn (IsDecidedFollowing tuples set.now.joint (map raw_accepts set.now.autos.items))) }
{
    let width = set.joint.width();
    let least = least_within(follows(alloc, &set.autos, width, tuples)?, tuples)?;
    Ok(Following {
        joint: &set.joint,
        least,
    })
}

// The least word of an answer, unless too many tuples come before it.
fn least_within(answer: Answer, tuples: u32) -> Result<Option<Word>, Refusal>
    ensures least { IfOk result (λ least. answer_of answer ≡ Least (letters_of least)) }
    ensures many { IfErr result (λ refusal. (answer_of answer ≡ TooMany) × (refusal ≡ Tuples tuples)) }
{
    match answer {
        Answer::Least(word) => Ok(word),
        Answer::TooMany => Err(Refusal::Tuples { limit: tuples }),
    }
}

impl Reply for Decided<'_> {
    ghost use Rattle.dcv_cli.specs.SetAnswers.{text_of_decided};

    ghost text = { text_of_decided };

    fn put<T: Target>(&self, target: &mut T) {
        put_variables(target, self.joint.names());
        put_possible(target, &self.example);
        put_stuck(target, &self.stuck);
    }
}

impl Reply for Following<'_> {
    ghost use Rattle.dcv_cli.specs.SetAnswers.{text_of_following};

    ghost text = { text_of_following };

    fn put<T: Target>(&self, target: &mut T) {
        put_variables(target, self.joint.names());
        put_follows(target, &self.least);
    }
}

// The line of the variables.
fn put_variables<T: Target>(target: &mut T, names: &[Text])
    ensures { Puts (T.standing target.old) (T.standing target.new) (names_line names.now) }
{
    target.put(b"variables");
    put_names(target, names);
    target.put(b"\n");
}

// The names, each after a space.
fn put_names<T: Target>(target: &mut T, names: &[Text])
    ensures { Puts (T.standing target.old) (T.standing target.new) (spaced (name_words names.now)) }
{
    if names.is_empty() {
        target.put(b" -");
        return;
    }
    for name in names {
        put_name(target, name.as_bytes());
    }
}

fn put_name<T: Target>(target: &mut T, name: &[u8])
    ensures { Puts (T.standing target.old) (T.standing target.new) (codes " " ++ name.now) }
{
    put_pieces(target, &[b" ", name]);
}

// The least behaviour of all files.
fn put_possible<T: Target>(target: &mut T, example: &Option<Word>)
    ensures { Puts (T.standing target.old) (T.standing target.new) (possible_text (letters_of example.now)) }
{
    match example {
        None => target.put(b"impossible\n"),
        Some(_) => put_word(target, b"possible", example),
    }
}

// The least behaviour of the others that the first does not have.
fn put_follows<T: Target>(target: &mut T, least: &Option<Word>)
    ensures { Puts (T.standing target.old) (T.standing target.new) (follows_text (letters_of least.now)) }
{
    match least {
        None => target.put(b"follows\n"),
        Some(_) => put_word(target, b"does not follow", least),
    }
}
