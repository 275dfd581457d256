// What the program is ordered to do: a short line, which the launcher writes.
#![tactic(auto)]

ghost use Rattle.std.specs.Prelude.{◌≡◌, None};
ghost use Rattle.words.specs.Words.{framed};
ghost use Rattle.orders.specs.Orders.{order_bytes, long_at, end_of_stretch, orders_of, known_in, orders_in};

use cluster::sets;
use lines::LINE_FEED;
use words::line::read_bytes;

const BYTES: usize = 12;

const ORDER_CHARS: usize = hex_text::CHARS * BYTES;

// How long the line is, with its line feed.
pub const ORDER_LINE: usize = ORDER_CHARS + 1;

// How many bits of the first byte are orders.
const ORDER_BITS: usize = 6;

// What a run does beside going through its lines: it begins with a record that is loaded, leaves one that is saved, and writes, in the place of answers,
// a table of it, the plan that gets it going by writing the value for the key, or a trace, brief or not, of the lines after so many and before so many.
#[derive(Clone, Copy)]
pub struct Orders {
    pub load: bool,
    pub save: bool,
    pub list: bool,
    pub recover: bool,
    pub trace: bool,
    pub brief: bool,
    pub key: u8,
    pub value: u16,
    pub before: usize,
    pub last: Option<usize>,
}

// The number of four bytes.
#[tactic(auto, unfolding(crate::specs::Orders::long_of, words::specs::Words::word_of))]
fn long(b: [u8; 4]) -> usize
    ensures { result ≡ long_at b 0 }
{
    u32::from_be_bytes(b) as usize
}

// Where a trace's stretch ends: with 0 it goes on to the last line.
#[tactic(auto, unfolding(crate::specs::Orders::end_of_stretch))]
fn end_of_stretch(n: usize) -> Option<usize>
    ensures { result ≡ end_of_stretch n }
{
    (n != 0).then_some(n)
}

// The orders of the bytes.
fn orders_of(b: [u8; BYTES]) -> Orders
    ensures { result ≡ orders_of b }
{
    Orders {
        load: sets::is_member(b[0], 0),
        save: sets::is_member(b[0], 1),
        list: sets::is_member(b[0], 2),
        recover: sets::is_member(b[0], 3),
        trace: sets::is_member(b[0], 4),
        brief: sets::is_member(b[0], 5),
        key: b[1],
        value: words::word(b[2], b[3]),
        before: long([b[4], b[5], b[6], b[7]]),
        last: end_of_stretch(long([b[8], b[9], b[10], b[11]])),
    }
}

// The same, where no other bit is set.
#[tactic(auto, unfolding(crate::specs::Orders::known_in))]
fn known_in(b: [u8; BYTES]) -> Option<Orders>
    ensures { result ≡ known_in b }
{
    sets::within(b[0], ORDER_BITS).then(|| orders_of(b))
}

// The orders of a line without its line feed.
#[tactic(auto, using(words::proofs::Framed::framed_none, words::proofs::Framed::framed_some))]
fn line_in(line: &[u8]) -> Option<Orders>
    ensures { result ≡ framed order_bytes known_in None line.now }
{
    known_in(read_bytes(line)?)
}

// The orders of a text, whatever it is; an empty one orders nothing.
#[tactic(auto, unfolding(crate::specs::Orders::orders_in))]
pub fn orders_in(text: &[u8]) -> Option<Orders>
    ensures { result ≡ orders_in text.now }
{
    if text.is_empty() {
        return Some(orders_of([0; BYTES]));
    }
    if text.len() != ORDER_LINE || text[ORDER_CHARS] != LINE_FEED {
        return None;
    }
    line_in(&text[..ORDER_CHARS])
}
