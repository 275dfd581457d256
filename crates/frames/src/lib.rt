// Step frames: lines of hexadecimal, read and written by one layout.
#![tactic(auto)]

ghost use Rattle.std.specs.Prelude.{◌≡◌};
ghost use Rattle.steps.specs.Fields.{fields, frame_for};
ghost use Rattle.frames.specs.Layout.{bytes_of_frame, frame_of};
ghost use Rattle.frames.specs.Kinds.{step_of_frame};
ghost use Rattle.frames.specs.Steps.{step_in, read_step, write_frame, write_step};

use clock::{Time, ZERO_TIME};
use steps::{Frame, Step};
use words::line::{read_bytes, write_bytes};
use words::{high, low, word};

mod masks;

const STEP_BYTES: usize = 13;

// How many characters a step frame has.
pub const STEP_CHARS: usize = hex_text::CHARS * STEP_BYTES;

// The kinds' numbers.
// Kept: `Step` is the enum of the kinds; another one without fields would list all of them once more in its TryFrom, beside `step_of` and `frame_for`,
// which each name a number once.
const START: u8 = 0;

const ELECT: u8 = 1;

const STEP_DOWN: u8 = 2;

const HEARS: u8 = 3;

const PULLS: u8 = 4;

const ROLLS_BACK: u8 = 5;

const WRITES: u8 = 6;

const ADVANCES: u8 = 7;

const WALL_CLOCK: u8 = 8;

const RESTARTS: u8 = 9;

const LOCAL_READ: u8 = 10;

const MAJORITY_READ: u8 = 11;

const ACKNOWLEDGED: u8 = 12;

const CLOCKS_AGREE: u8 = 13;

const WRITES_NOTHING: u8 = 14;

const NEWEST_READ: u8 = 15;

const TAKES_REPORT: u8 = 16;

#[tactic(auto, unfolding(crate::specs::Layout::frame_of))]
fn frame_of(b: [u8; STEP_BYTES]) -> Frame
    ensures { result ≡ frame_of b }
{
    Frame {
        kind: b[0],
        a: b[1],
        b: b[2],
        set: b[3],
        key: b[4],
        number: word(b[5], b[6]),
        term: word(b[7], b[8]),
        time: Time {
            p: word(b[9], b[10]),
            l: word(b[11], b[12]),
        },
    }
}

// The step that the kind makes of the fields that it uses.
#[tactic(auto, unfolding(crate::specs::Kinds::step_of_frame))]
fn step_of(f: Frame) -> Option<Step>
    ensures { result ≡ step_of_frame f }
{
    match f.kind {
        START => Some(Step::Start(f.a, f.set)),
        ELECT => Some(Step::Elect(f.a, f.set)),
        STEP_DOWN => Some(Step::StepDown(f.a)),
        HEARS => Some(Step::Hears(f.a, f.b)),
        PULLS => Some(Step::Pulls(f.a, f.b)),
        ROLLS_BACK => Some(Step::RollsBack(f.a, f.b)),
        WRITES => Some(Step::Writes(f.a, f.key, f.number, f.time)),
        ADVANCES => Some(Step::Advances(f.a)),
        WALL_CLOCK => Some(Step::WallClock(f.a)),
        RESTARTS => Some(Step::Restarts(f.a)),
        LOCAL_READ => Some(Step::LocalRead(f.a, f.key, f.time)),
        MAJORITY_READ => Some(Step::MajorityRead(f.a, f.key, f.time)),
        ACKNOWLEDGED => Some(Step::Acknowledged(f.a, f.set, f.number, f.term)),
        CLOCKS_AGREE => Some(Step::ClocksAgree),
        WRITES_NOTHING => Some(Step::WritesNothing(f.a)),
        NEWEST_READ => Some(Step::NewestRead(f.a, f.key, f.number, f.term)),
        TAKES_REPORT => Some(Step::TakesReport(f.a)),
        _ => None,
    }
}

// The step whose frame has these bytes.
fn step_in(b: [u8; STEP_BYTES]) -> Option<Step>
    ensures { result ≡ step_in b }
{
    let kind = usize::from(b[0]);
    if masks::KINDS <= kind || !masks::is_clean(kind, b) {
        return None;
    }
    step_of(frame_of(b))
}

// The step whose frame the line is, of any bytes and of any length.
#[tactic(auto, using(words::proofs::Framed::framed_none, words::proofs::Framed::framed_some))]
pub fn read_step(line: &[u8]) -> Option<Step>
    ensures { result ≡ read_step line.now }
{
    step_in(read_bytes(line)?)
}

// The same of characters that are as many as a step frame's.
pub fn read_frame(chars: [u8; STEP_CHARS]) -> Option<Step>
    ensures { result ≡ read_step chars }
{
    read_step(&chars)
}

// Kept: written as `Frame { kind: HEARS, a, b, ..ZERO_FRAME }` an arm of `frame_for` takes six lines, and the whole more than forty.
fn fields(kind: u8, a: u8, b: u8, set: u8, key: u8, number: u16, term: u16, time: Time) -> Frame
    ensures { result ≡ fields kind a b set key number term time }
{
    Frame {
        kind,
        a,
        b,
        set,
        key,
        number,
        term,
        time,
    }
}

// The fields that a step fills, all others zero.
pub fn frame_for(s: Step) -> Frame
    ensures { result ≡ frame_for s }
{
    match s {
        Step::Start(a, set) => fields(START, a, 0, set, 0, 0, 0, ZERO_TIME),
        Step::Elect(a, set) => fields(ELECT, a, 0, set, 0, 0, 0, ZERO_TIME),
        Step::StepDown(a) => fields(STEP_DOWN, a, 0, 0, 0, 0, 0, ZERO_TIME),
        Step::Hears(a, b) => fields(HEARS, a, b, 0, 0, 0, 0, ZERO_TIME),
        Step::Pulls(a, b) => fields(PULLS, a, b, 0, 0, 0, 0, ZERO_TIME),
        Step::RollsBack(a, b) => fields(ROLLS_BACK, a, b, 0, 0, 0, 0, ZERO_TIME),
        Step::Writes(a, key, value, client) => fields(WRITES, a, 0, 0, key, value, 0, client),
        Step::Advances(a) => fields(ADVANCES, a, 0, 0, 0, 0, 0, ZERO_TIME),
        Step::WallClock(a) => fields(WALL_CLOCK, a, 0, 0, 0, 0, 0, ZERO_TIME),
        Step::Restarts(a) => fields(RESTARTS, a, 0, 0, 0, 0, 0, ZERO_TIME),
        Step::LocalRead(a, key, time) => fields(LOCAL_READ, a, 0, 0, key, 0, 0, time),
        Step::MajorityRead(a, key, time) => fields(MAJORITY_READ, a, 0, 0, key, 0, 0, time),
        Step::Acknowledged(a, n, at, term) => fields(ACKNOWLEDGED, a, 0, n, 0, at, term, ZERO_TIME),
        Step::ClocksAgree => fields(CLOCKS_AGREE, 0, 0, 0, 0, 0, 0, ZERO_TIME),
        Step::WritesNothing(a) => fields(WRITES_NOTHING, a, 0, 0, 0, 0, 0, ZERO_TIME),
        Step::NewestRead(a, key, at, term) => fields(
            NEWEST_READ,
            a,
            0,
            0,
            key,
            at,
            term,
            ZERO_TIME,
        ),
        Step::TakesReport(a) => fields(TAKES_REPORT, a, 0, 0, 0, 0, 0, ZERO_TIME),
    }
}

#[tactic(auto, unfolding(crate::specs::Layout::bytes_of_frame))]
fn bytes_of_frame(f: Frame) -> [u8; STEP_BYTES]
    ensures { result ≡ bytes_of_frame f }
{
    [
        f.kind,
        f.a,
        f.b,
        f.set,
        f.key,
        high(f.number),
        low(f.number),
        high(f.term),
        low(f.term),
        high(f.time.p),
        low(f.time.p),
        high(f.time.l),
        low(f.time.l),
    ]
}

// The characters of a frame.
pub fn write_frame(f: Frame) -> [u8; STEP_CHARS]
    ensures { result ≡ write_frame f }
{
    write_bytes(bytes_of_frame(f))
}

// The one frame of a step.
pub fn write_step(s: Step) -> [u8; STEP_CHARS]
    ensures { result ≡ write_step s }
{
    write_frame(frame_for(s))
}
