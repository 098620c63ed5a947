// Answers as words, for programs in C and Rust.
#![tactic(auto)]

ghost use Rattle.std.specs.Prelude.{◌≡◌};
ghost use Rattle.answerwords.specs.Codes.{length_in, refusal_in, verdict_code, kind_code, value_code, outcome_words, kind_from, verdict_from, outcome_from};

use spec::{AccessKind, Outcome, Refusal, Value, Verdict};

// No `From` to codes, and none from refusals to words: a crate implements it only between types of which one is its own.
#[tactic(auto, unfolding(crate::specs::Codes::kind_code))]
fn kind_code(kind: AccessKind) -> u32
    ensures { result ≡ kind_code kind }
{
    match kind {
        AccessKind::ReadWrite => 1,
        AccessKind::WriteRead => 2,
        AccessKind::WriteWrite => 3,
        AccessKind::ReadAdd => 4,
        AccessKind::AddRead => 5,
        AccessKind::WriteAdd => 6,
        AccessKind::AddWrite => 7,
    }
}

#[tactic(auto, unfolding(crate::specs::Codes::verdict_code))]
fn verdict_code(verdict: Verdict) -> u32
    ensures { result ≡ verdict_code verdict }
{
    match verdict {
        Verdict::Passed => 1,
        Verdict::Race(_, _, _, _) => 2,
        Verdict::GroupRace(_, _, _, _) => 6,
        Verdict::Outside(_, _) => 3,
        Verdict::Common(_, _) => 7,
        Verdict::Diverged(_, _) => 4,
        Verdict::Spent => 5,
    }
}

#[tactic(auto, unfolding(crate::specs::Codes::value_code))]
fn value_code(value: Value) -> u32
    ensures { result ≡ value_code value }
{
    match value {
        Value::Hyphen => 0,
        Value::Number(n) => n,
        Value::Verdict(v) => verdict_code(v),
        Value::Kind(k) => kind_code(k),
        Value::Report => 0,
    }
}

// How many words an outcome has.
pub const WORDS: usize = 11;

#[tactic(auto, using(crate::proofs::Words::all_coded))]
pub fn outcome_words(outcome: Outcome) -> [u32; WORDS]
    ensures { result ≡ outcome_words outcome }
{
    let values = reportvalues::run_values(outcome);
    let mut words = [0u32; WORDS];
    for i in 0..WORDS {
        words[i] = value_code(values[i]);
    }
    words
}

#[tactic(auto, unfolding(crate::specs::Codes::kind_from))]
fn kind_from(code: u32) -> AccessKind
    ensures { result ≡ kind_from code }
{
    match code {
        1 => AccessKind::ReadWrite,
        2 => AccessKind::WriteRead,
        4 => AccessKind::ReadAdd,
        5 => AccessKind::AddRead,
        6 => AccessKind::WriteAdd,
        7 => AccessKind::AddWrite,
        _ => AccessKind::WriteWrite,
    }
}

#[tactic(auto, unfolding(crate::specs::Codes::verdict_from))]
fn verdict_from(code: u32, othergroup: u32, thread: u32, other: u32, kind: u32, at: u32) -> Verdict
    ensures { result ≡ verdict_from code othergroup thread other kind at }
{
    match code {
        1 => Verdict::Passed,
        2 => Verdict::Race(thread, other, kind_from(kind), at),
        3 => Verdict::Outside(thread, at),
        4 => Verdict::Diverged(thread, other),
        6 => Verdict::GroupRace(thread, othergroup, kind_from(kind), at),
        7 => Verdict::Common(thread, at),
        _ => Verdict::Spent,
    }
}

#[tactic(auto, unfolding(crate::specs::Codes::outcome_from))]
pub fn outcome_from(words: &[u32; WORDS]) -> Outcome
    ensures { result ≡ outcome_from words.now }
{
    let verdict = verdict_from(words[0], words[3], words[4], words[5], words[6], words[7]);
    Outcome {
        verdict,
        row: words[1],
        group: words[2],
        rows: words[8],
        barriers: words[9],
        conflicts: words[10],
    }
}

#[tactic(auto, unfolding(crate::specs::Codes::length_in, crate::specs::Codes::refusal_in))]
pub fn tell_written(answer: Result<usize, Refusal>, refusal: &mut [u32; 2]) -> usize
    ensures size { result ≡ length_in answer }
    ensures why { refusal.new ≡ refusal_in answer }
{
    match answer {
        Err(why) => {
            *refusal = refusals::words(why);
            0
        }
        Ok(size) => {
            *refusal = [0, 0];
            size
        }
    }
}
