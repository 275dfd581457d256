// Answer frames: lines of hexadecimal, read and written by one layout.
#![tactic(auto)]

ghost use Rattle.std.specs.Prelude.{◌≡◌};
ghost use Rattle.answers.specs.Answers.{answer_frame, refusal_byte, bytes_of_telling, refusal_of, telling_by, telling_in, read_answer, write_answer};

use clock::{Time, ZERO_TIME};
use steps::{Answer, Numbers, Refusal, Telling};
use words::line::{read_bytes, write_bytes};
use words::{high, low, word};

const ANSWER_BYTES: usize = 9;

// How many characters an answer frame has.
pub const ANSWER_CHARS: usize = hex_text::CHARS * ANSWER_BYTES;

// The first byte of an answer that is no refusal.
const DONE: u8 = 0;

#[tactic(auto, unfolding(crate::specs::Answers::answer_frame))]
fn answer_frame(refusal: u8, number: u16, term: u16, time: Time) -> [u8; ANSWER_BYTES]
    ensures { result ≡ answer_frame refusal number term time }
{
    [
        refusal,
        high(number),
        low(number),
        high(term),
        low(term),
        high(time.p),
        low(time.p),
        high(time.l),
        low(time.l),
    ]
}

// The first byte of an answer frame.
fn refusal_byte(t: Telling) -> u8
    ensures { result ≡ refusal_byte t }
{
    let Err(r) = t else {
        return DONE;
    };
    u8::from(r)
}

// The numbers, or a refusal and zeros.
fn bytes_of_telling(t: Telling) -> [u8; ANSWER_BYTES]
    ensures { result ≡ bytes_of_telling t }
{
    let Ok(n) = t else {
        return answer_frame(refusal_byte(t), 0, 0, ZERO_TIME);
    };
    answer_frame(DONE, n.number, n.term, n.time)
}

// The one frame of an answer.
pub fn write_answer(a: Answer) -> [u8; ANSWER_CHARS]
    ensures { result ≡ write_answer a }
{
    write_bytes(bytes_of_telling(steps::told(a)))
}

// The refusal of a number.
fn refusal_of(n: u8) -> Option<Telling>
    ensures { result ≡ refusal_of n }
{
    match Refusal::try_from(n) {
        Ok(r) => Some(Err(r)),
        Err(_) => None,
    }
}

// What the fields of an answer frame tell.
#[tactic(auto, unfolding(crate::specs::Answers::telling_by, clock::specs::Times::same_time))]
fn telling_by(refusal: u8, number: u16, term: u16, time: Time) -> Option<Telling>
    ensures { result ≡ telling_by refusal number term time }
{
    if refusal == DONE {
        return Some(Ok(Numbers { number, term, time }));
    }
    if number != 0 || term != 0 || time != ZERO_TIME {
        return None;
    }
    refusal_of(refusal)
}

#[tactic(auto, unfolding(crate::specs::Answers::telling_in))]
fn telling_in(b: [u8; ANSWER_BYTES]) -> Option<Telling>
    ensures { result ≡ telling_in b }
{
    let time = Time {
        p: word(b[5], b[6]),
        l: word(b[7], b[8]),
    };
    telling_by(b[0], word(b[1], b[2]), word(b[3], b[4]), time)
}

// What the line tells, of any bytes and of any length.
#[tactic(auto, using(words::proofs::Framed::framed_none, words::proofs::Framed::framed_some))]
pub fn read_answer(line: &[u8]) -> Option<Telling>
    ensures { result ≡ read_answer line.now }
{
    telling_in(read_bytes(line)?)
}
