// What is passed over of a text: how many of its lines are no step frames, and the first of them; and the first line that ends in CR.
#![tactic(auto, unfolding(crate::specs::Passing::counted, crate::specs::Passing::first_noted, crate::specs::Passing::passed_after_read, crate::specs::Passing::after_byte, crate::specs::Passing::finished_passed))]

ghost use Rattle.std.specs.Prelude.{◌≡◌};
ghost use Rattle.checks.specs.Passing.{counted, first_noted, passed_after_read, new_passing, after_byte, passed_by, finished_passed};

use lines::Reader;
use steps::Step;

const CARRIAGE_RETURN: u8 = 13;

// The number of the line that is being read; how many lines were no frames, the first one's number, and that of the first line that ended
// in CR.
#[derive(Clone, Copy)]
pub struct Passed {
    pub number: usize,
    pub count: usize,
    pub first: Option<usize>,
    pub cr: Option<usize>,
}

// The same, the line that is being read, and its last character.
#[derive(Clone, Copy)]
pub struct Passing {
    pub passed: Passed,
    pub reader: Reader,
    pub last: u8,
}

// Before the first line.
pub(crate) fn begin() -> Passing
    ensures { result ≡ new_passing }
{
    Passing {
        passed: Passed {
            number: 1,
            count: 0,
            first: None,
            cr: None,
        },
        reader: lines::fresh_reader(),
        last: 0,
    }
}

// One more where it is so, as far as a number goes.
fn counted(n: usize, so: bool) -> usize
    ensures { result ≡ counted n so }
{
    if so {
        return lines::one_more(n);
    }
    n
}

// The number of the first line where it was so: this one's, where it is so and was not before.
fn noted(first: Option<usize>, number: usize, so: bool) -> Option<usize>
    ensures { result ≡ first_noted first number so }
{
    first.or(so.then_some(number))
}

// After a line that reads so and ends in that character.
fn after_line(p: Passed, read: Option<Step>, last: u8) -> Passed
    ensures { result ≡ passed_after_read p read last }
{
    let none = read.is_none();
    Passed {
        number: counted(p.number, true),
        count: counted(p.count, none),
        first: noted(p.first, p.number, none),
        cr: noted(p.cr, p.number, last == CARRIAGE_RETURN),
    }
}

fn after_byte(p: Passing, b: u8) -> Passing
    ensures { result ≡ after_byte p b }
{
    let next = lines::taken(p.reader, b);
    if b != lines::LINE_FEED {
        return Passing {
            reader: next,
            last: b,
            ..p
        };
    }
    Passing {
        passed: after_line(p.passed, replay::step_held(p.reader), p.last),
        reader: next,
        last: 0,
    }
}

// One piece more of the text.
pub(crate) fn pass(p: Passing, piece: &[u8]) -> Passing
    ensures { result ≡ passed_by p piece.now }
{
    let mut q = p;
    for &b in piece {
        q = after_byte(q, b);
    }
    q
}

// The end of the text, where a rest without a line feed is a line if it isn't empty.
pub(crate) fn finish(p: Passing) -> Passed
    ensures { result ≡ finished_passed p }
{
    if lines::is_empty(p.reader) {
        return p.passed;
    }
    after_line(p.passed, replay::step_held(p.reader), p.last)
}
