// The words of the rules: a step, a refusal, an answer, and what a step gives.
#![tactic(auto)]

ghost use Rattle.std.specs.Prelude.{◌≡◌};
ghost use Rattle.steps.specs.Refusals.{refusal_number, NamesRefusal};
ghost use Rattle.steps.specs.Answers.{answering, refusing, refusing_all, telling_of, number_of, is_refused};

use clock::Time;
use cluster::{Cluster, Server};
use mail::Report;

// One variant a kind, in the order of 01 and 02, holding just the fields that it uses, each as wide as on the wire.
#[derive(Clone, Copy)]
pub enum Step {
    // a servers, the set of followers
    Start(u8, u8),
    // a, set
    Elect(u8, u8),
    // a
    StepDown(u8),
    // a, b
    Hears(u8, u8),
    // a, b
    Pulls(u8, u8),
    // a, b
    RollsBack(u8, u8),
    // a, key, value, the client's time
    Writes(u8, u8, u16, Time),
    // a
    Advances(u8),
    // a
    WallClock(u8),
    // a
    Restarts(u8),
    // a, key, the time asked
    LocalRead(u8, u8, Time),
    // a, key, the time asked
    MajorityRead(u8, u8, Time),
    // a, count, position, term
    Acknowledged(u8, u8, u16, u16),
    ClocksAgree,
    // a
    WritesNothing(u8),
    // a, key, position, term
    NewestRead(u8, u8, u16, u16),
    // a
    TakesReport(u8),
}

// The fields of a step frame, in the order of its bytes; set is a set or a count.
#[derive(Clone, Copy)]
pub struct Frame {
    pub kind: u8,
    pub a: u8,
    pub b: u8,
    pub set: u8,
    pub key: u8,
    pub number: u16,
    pub term: u16,
    pub time: Time,
}

// In the order of their numbers, from 1.
#[derive(Clone, Copy, PartialEq, Eq)]
pub enum Refusal {
    NotAFrame,
    IllFormed,
    OutOfRange,
    WrongRole,
    ConditionUnmet,
    LogFull,
    AtLimit,
    NotYet,
    BelowCommitPoint,
    NoSuchEntry,
    ClockAhead,
    Retired,
}

// A byte that is no refusal's number.
#[derive(Clone, Copy, PartialEq, Eq)]
pub struct NoRefusal(pub u8);

impl From<Refusal> for u8 {
    ghost from_gives = { λ r n. n ≡ refusal_number r };

    fn from(r: Refusal) -> u8 {
        match r {
            Refusal::NotAFrame => 1,
            Refusal::IllFormed => 2,
            Refusal::OutOfRange => 3,
            Refusal::WrongRole => 4,
            Refusal::ConditionUnmet => 5,
            Refusal::LogFull => 6,
            Refusal::AtLimit => 7,
            Refusal::NotYet => 8,
            Refusal::BelowCommitPoint => 9,
            Refusal::NoSuchEntry => 10,
            Refusal::ClockAhead => 11,
            Refusal::Retired => 12,
        }
    }
}

impl TryFrom<u8> for Refusal {
    type Error = NoRefusal;

    ghost try_from_gives = { NamesRefusal };

    fn try_from(n: u8) -> Result<Self, NoRefusal> {
        match n {
            1 => Ok(Refusal::NotAFrame),
            2 => Ok(Refusal::IllFormed),
            3 => Ok(Refusal::OutOfRange),
            4 => Ok(Refusal::WrongRole),
            5 => Ok(Refusal::ConditionUnmet),
            6 => Ok(Refusal::LogFull),
            7 => Ok(Refusal::AtLimit),
            8 => Ok(Refusal::NotYet),
            9 => Ok(Refusal::BelowCommitPoint),
            10 => Ok(Refusal::NoSuchEntry),
            11 => Ok(Refusal::ClockAhead),
            12 => Ok(Refusal::Retired),
            _ => Err(NoRefusal(n)),
        }
    }
}

// An answer carries either its numbers or one refusal, never both.
// Kept: its name stands in the theorems, and 01 names the form of an enum of answers.
#[derive(Clone, Copy)]
pub enum Answer {
    // nothing to tell
    Done,
    // the new term
    Elected(u16),
    // the new length or commit point
    Reached(usize),
    // position, and the entry's term and time
    Entry(usize, u16, Time),
    // value, with the applied time, the commit time or that of the position asked
    Value(u16, Time),
    Refused(Refusal),
}

// What an answer frame says of what is done.
#[derive(Clone, Copy)]
pub struct Numbers {
    pub number: u16,
    pub term: u16,
    pub time: Time,
}

// What an answer frame says: its numbers, or a refusal.
pub type Telling = Result<Numbers, Refusal>;

// A report, and the server that it is sent to.
#[derive(Clone, Copy)]
pub struct Sent {
    pub to: usize,
    pub report: Report,
}

// What a step of one server gives.
#[derive(Clone, Copy)]
pub struct Stepped {
    pub server: Server,
    pub answer: Answer,
    pub sends: Option<Sent>,
}

// What a step of the whole record gives.
#[derive(Clone, Copy)]
pub struct Outcome {
    pub cluster: Cluster,
    pub answer: Answer,
}

// The server and its answer; nothing is sent.
pub fn answered(s: Server, a: Answer) -> Stepped
    ensures { result ≡ answering s a }
{
    Stepped {
        server: s,
        answer: a,
        sends: None,
    }
}

// The server as it was, and the refusal.
pub fn refuse(s: Server, r: Refusal) -> Stepped
    ensures { result ≡ refusing s r }
{
    answered(s, Answer::Refused(r))
}

// The record as it was, and the refusal.
pub fn refuse_all(c: Cluster, r: Refusal) -> Outcome
    ensures { result ≡ refusing_all c r }
{
    Outcome {
        cluster: c,
        answer: Answer::Refused(r),
    }
}

// A position or a length as an answer's number.
pub fn number(n: usize) -> u16
    ensures { result ≡ number_of n }
{
    (n % 65536) as u16
}

// 01's numbers for each case of an answer.
pub fn told(a: Answer) -> Telling
    ensures { result ≡ telling_of a }
{
    let (number, term, time) = match a {
        Answer::Done => (0, 0, clock::ZERO_TIME),
        Answer::Elected(term) => (0, term, clock::ZERO_TIME),
        Answer::Reached(n) => (number(n), 0, clock::ZERO_TIME),
        Answer::Entry(n, term, time) => (number(n), term, time),
        Answer::Value(value, time) => (value, 0, time),
        Answer::Refused(r) => return Err(r),
    };
    Ok(Numbers { number, term, time })
}

// Whether the answer is a refusal.
pub fn is_refused(a: Answer) -> bool
    ensures { result ≡ is_refused a }
{
    matches!(a, Answer::Refused(_))
}
