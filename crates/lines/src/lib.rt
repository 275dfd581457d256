// A text's lines: the reader of one, lent and changed in place as pieces arrive, and what all that read or write lines share.
#![tactic(auto)]

ghost use Rattle.std.specs.Prelude.{◌≡◌};
ghost use Rattle.lines.specs.Texts.{one_more};
ghost use Rattle.lines.specs.Held.{nothing_read, only_long};
ghost use Rattle.lines.specs.Readers.{reader_of, is_empty, push_of, reader_after};
ghost use Rattle.lines.specs.Turns.{is_input};

pub mod walks;

pub const LINE_FEED: u8 = 10;

// How many characters of a line are kept.
pub const WIDTH: usize = 26;

// How many bytes are read at once.
pub const PIECE: usize = 16384;

// A line that is being read: at most N of its characters, how many there are, and whether it is too long; then nothing else is kept.
// Kept: the flag and the fill beside the bytes are the form that 02's reader is named in (docs/FORMS.md).
#[derive(Clone, Copy)]
pub struct ReaderOf<const N: usize> {
    pub held: [u8; N],
    pub fill: usize,
    pub over: bool,
}

// The reader of a text's lines.
pub type Reader = ReaderOf<WIDTH>;

// Why an input was read no further: as many turns are over as nobody lives to see, it can't be read, or something can't be written.
#[derive(Clone, Copy, PartialEq, Eq)]
pub enum Broke {
    More,
    CannotRead,
    CannotWrite,
}

// How an input ended: all of it was read, or why not.
pub type End = Result<(), Broke>;

// A reader that has read nothing of a line.
pub fn fresh_reader<const N: usize>() -> ReaderOf<N>
    ensures { result ≡ nothing_read N reader_of }
{
    ReaderOf {
        held: [0; N],
        fill: 0,
        over: false,
    }
}

// Whether nothing of a line was read.
pub fn is_empty<const N: usize>(r: ReaderOf<N>) -> bool
    ensures { result ≡ is_empty r.entry }
{
    !r.over && r.fill == 0
}

// A line that is too long: that alone is remembered.
fn only_long<const N: usize>() -> ReaderOf<N>
    ensures { result ≡ only_long N reader_of }
{
    ReaderOf {
        over: true,
        ..fresh_reader()
    }
}

// The reader with one character more.
#[tactic(auto, unfolding(crate::specs::Readers::push_of))]
pub fn pushed<const N: usize>(r: ReaderOf<N>, b: u8) -> ReaderOf<N>
    ensures { result ≡ push_of r.entry b }
{
    if r.over || N <= r.fill {
        return only_long();
    }
    let mut q = r;
    q.held[r.fill] = b;
    q.fill += 1;
    q
}

// The reader after one byte: a line feed ends the line, anything else is a character of it.
#[tactic(auto, unfolding(crate::specs::Readers::reader_after))]
fn after(r: Reader, b: u8) -> Reader
    ensures { result ≡ reader_after r b }
{
    if b == LINE_FEED {
        fresh_reader()
    } else {
        pushed(r, b)
    }
}

// One byte more: the reader is lent, and changed in place.
pub fn take(r: &mut Reader, b: u8)
    ensures { r.new ≡ reader_after r.old b }
{
    *r = after(*r, b);
}

// The same where the reader is in a local, which is lent: whoever calls this needs no walk by hand.
pub fn taken(r: Reader, b: u8) -> Reader
    ensures { result ≡ reader_after r b }
{
    let mut q = r;
    take(&mut q, b);
    q
}

// Whether the input was read to its end.
pub fn is_input(end: End) -> bool
    ensures { result ≡ is_input end }
{
    end.is_ok()
}

// One more, as far as a number goes.
#[tactic(auto, unfolding(crate::specs::Texts::one_more))]
pub fn one_more(n: usize) -> usize
    ensures { result ≡ one_more n }
{
    n.saturating_add(1)
}
