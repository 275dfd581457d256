// Texts: one answer line for each line, in whatever pieces the text arrives.
#![tactic(auto)]

ghost use Rattle.std.specs.Prelude.{◌≡◌, ◌≤◌, ◌<◌, ◌+◌, length};
ghost use Rattle.frames.specs.Steps.{read_step};
ghost use Rattle.replay.specs.Texts.{respond, line_of};
ghost use Rattle.lines.specs.Readers.{line_held};
ghost use Rattle.lines.specs.Texts.{placed};
ghost use Rattle.replay.specs.Pieces.{answer_line, begun, came_whole, byte_is, whole_line, next_of, fed_of, fed_out, finish_of, finish_out};
ghost use Rattle.replay.specs.Plans.{plan_alone, plan_apart, place_of, plan_of};

use cluster::Cluster;
use lines::{LINE_FEED, Reader};
use steps::{Answer, Outcome, Refusal, Step};

// How many bytes an answer line has.
pub const ANSWER_LINE: usize = answers::ANSWER_CHARS + 1;

// The record, and the line that is being read.
#[derive(Clone, Copy)]
pub struct Session {
    pub cluster: Cluster,
    pub reader: Reader,
}

#[derive(Clone, Copy)]
pub struct Fed {
    pub session: Session,
    pub taken: usize,
    pub wrote: usize,
}

// Kept: a flag beside the session, since `an_end_without_room_waits` of claims says which session is left where the text has not ended.
#[derive(Clone, Copy)]
pub struct Finished {
    pub session: Session,
    pub wrote: usize,
    pub ended: bool,
}

// What a text has next: a line, with the step that it reads as, or no line yet; how many bytes of the text it took, and the last of these, which the
// reader takes.
#[derive(Clone, Copy)]
pub struct Next {
    pub line: Option<Option<Step>>,
    pub took: usize,
    pub last: u8,
}

// What a line that isn't refused is to do to the record: step one server that looks at another, or step the whole record.
#[derive(Clone, Copy)]
pub enum Plan {
    Server(usize, usize, Step),
    Record(Step),
}

// The record with a reader that has read nothing.
pub fn begin(c: Cluster) -> Session
    ensures { result ≡ begun c }
{
    let r = lines::fresh_reader();
    Session {
        cluster: c,
        reader: r,
    }
}

// The step of the line that was read.
pub fn step_held(r: Reader) -> Option<Step>
    ensures { result ≡ read_step (line_held r) }
{
    if r.over || r.fill != frames::STEP_CHARS {
        return None;
    }
    frames::read_frame(r.held)
}

// A whole step line came.
fn came_whole(s: Step) -> Next
    ensures { result ≡ came_whole s }
{
    Next {
        line: Some(Some(s)),
        took: frames::STEP_CHARS + 1,
        last: LINE_FEED,
    }
}

// What a byte is: the end of the line that was read, or a character.
#[tactic(auto, unfolding(crate::specs::Pieces::byte_is))]
fn byte_is(r: Reader, b: u8) -> Option<Option<Step>>
    ensures { result ≡ byte_is r b }
{
    if b == LINE_FEED {
        Some(step_held(r))
    } else {
        None
    }
}

// The step of the whole line that the text has from a place on, where the reader is fresh and the line is a step's frame.
#[tactic(auto, unfolding(crate::specs::Pieces::whole_line))]
fn whole_line(r: Reader, text: &[u8], at: usize) -> Option<Step>
    requires { at < length text.now }
    ensures { result ≡ whole_line r text.now at }
{
    if !lines::is_empty(r) || text.len() - at <= frames::STEP_CHARS {
        return None;
    }
    let end = at + frames::STEP_CHARS;
    if text[end] != LINE_FEED {
        return None;
    }
    frames::read_step(&text[at..end])
}

// What the text has next from a place on: a whole step line is read where it stands, anything else byte by byte.
#[tactic(auto, unfolding(crate::specs::Pieces::next_by))]
fn take_next(r: Reader, text: &[u8], at: usize) -> Next
    requires { at < length text.now }
    ensures { result ≡ next_of r text.now at }
{
    let whole = whole_line(r, text, at);
    if let Some(s) = whole {
        return came_whole(s);
    }
    let b = text[at];
    Next {
        line: byte_is(r, b),
        took: 1,
        last: b,
    }
}

#[tactic(auto, unfolding(crate::specs::Plans::plan_alone))]
fn plan_alone(size: usize, a: usize, s: Step) -> Result<Plan, Refusal>
    ensures { result ≡ plan_alone size a s }
{
    if a < size {
        Ok(Plan::Server(a, a, s))
    } else {
        Err(Refusal::OutOfRange)
    }
}

#[tactic(auto, unfolding(crate::specs::Plans::plan_apart))]
fn plan_apart(size: usize, a: usize, b: usize, s: Step) -> Result<Plan, Refusal>
    ensures { result ≡ plan_apart size a b s }
{
    if a < size && b < size && a != b {
        Ok(Plan::Server(a, b, s))
    } else {
        Err(Refusal::OutOfRange)
    }
}

// Which servers a step is about.
#[tactic(auto, unfolding(crate::specs::Plans::place_of))]
fn place(size: usize, s: Step) -> Result<Plan, Refusal>
    ensures { result ≡ place_of size s }
{
    match s {
        Step::Start(_, _) => Ok(Plan::Record(s)),
        Step::Elect(_, _) => Ok(Plan::Record(s)),
        Step::StepDown(a) => plan_alone(size, usize::from(a), s),
        Step::Hears(a, b) => plan_apart(size, usize::from(a), usize::from(b), s),
        Step::Pulls(_, _) => Ok(Plan::Record(s)),
        Step::RollsBack(_, _) => Ok(Plan::Record(s)),
        Step::Writes(a, _, _, _) => plan_alone(size, usize::from(a), s),
        Step::Advances(_) => Ok(Plan::Record(s)),
        Step::WallClock(a) => plan_alone(size, usize::from(a), s),
        Step::Restarts(a) => plan_alone(size, usize::from(a), s),
        Step::LocalRead(a, _, _) => plan_alone(size, usize::from(a), s),
        Step::MajorityRead(a, _, _) => plan_alone(size, usize::from(a), s),
        Step::Acknowledged(a, _, _, _) => plan_alone(size, usize::from(a), s),
        Step::ClocksAgree => Ok(Plan::Record(s)),
        Step::WritesNothing(a) => plan_alone(size, usize::from(a), s),
        Step::NewestRead(a, _, _, _) => plan_alone(size, usize::from(a), s),
        Step::TakesReport(_) => Ok(Plan::Record(s)),
    }
}

// What a line that reads so is to do to a record of so many servers, well formed or not.
#[tactic(auto, unfolding(crate::specs::Plans::plan_of))]
pub fn plan_for(size: usize, formed: bool, read: Option<Step>) -> Result<Plan, Refusal>
    ensures { result ≡ plan_of size formed read }
{
    let s = read.ok_or(Refusal::NotAFrame)?;
    if formed || rules::is_start(s) {
        place(size, s)
    } else {
        Err(Refusal::IllFormed)
    }
}

// An answer line, written at a place of the buffer.
fn put(out: &mut [u8], at: usize, a: Answer)
    requires { at + answer_line ≤ length out.old }
    ensures { out.new ≡ placed out.old at (line_of a) }
{
    let end = at + answers::ANSWER_CHARS;
    out[at..end].copy_from_slice(&answers::write_answer(a));
    out[end] = LINE_FEED;
}

// A session part of the way along a text.
fn so_far(c: Cluster, r: Reader, taken: usize, wrote: usize) -> Fed
    ensures { result ≡ record { session = record { cluster = c; reader = r }; taken = taken; wrote = wrote } }
{
    Fed {
        session: Session {
            cluster: c,
            reader: r,
        },
        taken: taken,
        wrote: wrote,
    }
}

// A piece of a text: its bytes are taken while the buffer has room for an answer line. The record and the reader stay in locals: one server is replaced
// a step, and the reader is lent for a byte.
// Kept: a `while`, since a turn takes one byte or a whole line.
pub fn pour(s: Session, text: &[u8], out: &mut [u8]) -> Fed
    ensures result { result ≡ fed_of s text.now (length out.old) }
    ensures output { out.new ≡ fed_out s text.now out.old }
{
    let mut c = s.cluster;
    let mut r = s.reader;
    let mut w: usize = 0;
    let mut i: usize = 0;
    while i < text.len() && ANSWER_LINE <= out.len() - w {
        let n = take_next(r, text, i);
        i += n.took;
        r = lines::taken(r, n.last);
        let Some(read) = n.line else {
            continue;
        };
        let size = cluster::server_count(c.count);
        let formed = cluster::well_formed(c);
        let answer = match plan_for(size, formed, read) {
            Ok(Plan::Server(a, b, step)) => {
                let o = rules::one(size, c.servers[a], c.servers[b], step);
                let d = o.server;
                c.servers[a] = d;
                o.answer
            }
            Ok(Plan::Record(step)) => {
                let o = rules::core(c, step);
                c = o.cluster;
                o.answer
            }
            Err(refusal) => Answer::Refused(refusal),
        };
        put(out, w, answer);
        w += ANSWER_LINE;
    }
    so_far(c, r, i, w)
}

// The record and the answer after a line that reads so.
#[tactic(auto, unfolding(crate::specs::Texts::respond))]
pub fn respond_to(c: Cluster, read: Option<Step>) -> Outcome
    ensures { result ≡ respond c read }
{
    let Some(s) = read else {
        return steps::refuse_all(c, Refusal::NotAFrame);
    };
    rules::step(c, s)
}

// The end of the text: a rest without a line feed counts if it isn't empty, and the reader is fresh again.
pub fn close(s: Session, out: &mut [u8]) -> Finished
    ensures result { result ≡ finish_of s (length out.old) }
    ensures output { out.new ≡ finish_out s out.old }
{
    let c = s.cluster;
    let r = s.reader;
    if lines::is_empty(r) {
        return Finished {
            session: begin(c),
            wrote: 0,
            ended: true,
        };
    }
    if out.len() < ANSWER_LINE {
        return Finished {
            session: s,
            wrote: 0,
            ended: false,
        };
    }
    let o = respond_to(c, step_held(r));
    put(out, 0, o.answer);
    Finished {
        session: begin(o.cluster),
        wrote: ANSWER_LINE,
        ended: true,
    }
}

// A piece of a text, from the record on: the caller's reader is lent, and changed in place.
pub fn feed(c: Cluster, r: &mut Reader, text: &[u8], out: &mut [u8]) -> Fed
    ensures result { result ≡ fed_of (record { cluster = c; reader = r.old }) text.now (length out.old) }
    ensures reader { r.new ≡ (fed_of (record { cluster = c; reader = r.old }) text.now (length out.old)).session.reader }
    ensures output { out.new ≡ fed_out (record { cluster = c; reader = r.old }) text.now out.old }
{
    let s = Session {
        cluster: c,
        reader: *r,
    };
    let f = pour(s, text, out);
    *r = f.session.reader;
    f
}

// The end of a text, likewise.
pub fn finish(c: Cluster, r: &mut Reader, out: &mut [u8]) -> Finished
    ensures result { result ≡ finish_of (record { cluster = c; reader = r.old }) (length out.old) }
    ensures reader { r.new ≡ (finish_of (record { cluster = c; reader = r.old }) (length out.old)).session.reader }
    ensures output { out.new ≡ finish_out (record { cluster = c; reader = r.old }) out.old }
{
    let s = Session {
        cluster: c,
        reader: *r,
    };
    let f = close(s, out);
    *r = f.session.reader;
    f
}
