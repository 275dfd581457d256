// What a trace has for a line: the line as it is shown, and its answer, as one line in plain characters. Of any line 40 bytes are kept, so in fixed memory.
#![tactic(auto)]

ghost use Rattle.std.specs.Prelude.{◌≡◌};
ghost use Rattle.traces.specs.Shown.{is_plain, shown_byte, shown_bytes, shown_more};
ghost use Rattle.traces.specs.Writing.{nothing_kept, kept_after, kept_over, held_in, no_pair, put_of, put_all, pair_made};

use lines::LINE_FEED;
use steps::Answer;

// How many bytes of a line are shown.
pub const SHOWN: usize = 40;

// Each as four characters, \+ and 20 digits, a blank, an answer of 18 and a line feed.
pub const ROOM: usize = 202;

const BACKSLASH: u8 = b'\\';

// The first bytes of a line, how many there are, and how many came after them.
// Kept: an array with a length beside it, since memory is fixed, a byte more can't fail, and a line goes by value (arrayvec's `ArrayVec` isn't Copy).
#[derive(Clone, Copy)]
pub struct CutLine {
    pub held: [u8; SHOWN],
    pub fill: usize,
    pub more: usize,
}

// A pair's characters, and how many there are.
// Kept: as for a line.
#[derive(Clone, Copy)]
pub struct Pair {
    pub text: [u8; ROOM],
    pub fill: usize,
}

// Nothing of a line.
pub fn nothing_kept() -> CutLine
    ensures { result ≡ nothing_kept }
{
    CutLine {
        held: [0; SHOWN],
        fill: 0,
        more: 0,
    }
}

impl CutLine {
    // One byte more: a line feed begins the next line, any other is kept where there is room, and else counted.
    fn take(&mut self, b: u8)
        ensures { self.new ≡ kept_after self.old b }
    {
        if b == LINE_FEED {
            *self = nothing_kept();
        } else if self.fill < SHOWN {
            self.held[self.fill] = b;
            self.fill += 1;
        } else {
            self.more = lines::one_more(self.more);
        }
    }
}

// What is kept after some bytes.
pub fn keep(k: CutLine, bytes: &[u8]) -> CutLine
    ensures { result ≡ kept_over k bytes.now }
{
    let mut q = k;
    for b in bytes {
        q.take(*b);
    }
    q
}

// Whether a byte is shown as it is.
fn is_plain(b: u8) -> bool
    ensures { result ≡ is_plain b }
{
    b.is_ascii_graphic() && b != BACKSLASH
}

impl Pair {
    // One character more, where there is room.
    fn put(&mut self, b: u8)
        ensures { self.new ≡ put_of self.old b }
    {
        if self.fill < ROOM {
            self.text[self.fill] = b;
            self.fill += 1;
        }
    }

    // Characters as they are.
    fn put_all(&mut self, characters: &[u8])
        ensures { self.new ≡ put_all self.old characters.now }
    {
        for b in characters {
            self.put(*b);
        }
    }

    // The characters of a byte of a line.
    fn put_byte(&mut self, b: u8)
        ensures { self.new ≡ put_all self.old (shown_byte b) }
    {
        if is_plain(b) {
            self.put(b);
        } else {
            self.put_all(&[
                BACKSLASH,
                b'x',
                hex_text::char_of(b / 16),
                hex_text::char_of(b % 16),
            ]);
        }
    }

    // The characters of bytes of a line.
    fn put_bytes(&mut self, bytes: &[u8])
        ensures { self.new ≡ put_all self.old (shown_bytes bytes.now) }
    {
        for b in bytes {
            self.put_byte(*b);
        }
    }

    // The bytes that are kept of a line.
    fn put_kept(&mut self, k: CutLine)
        ensures { self.new ≡ put_all self.old (shown_bytes (held_in k)) }
    {
        self.put_bytes(&k.held[..k.fill.min(SHOWN)]);
    }

    // How many bytes more there are.
    fn put_more(&mut self, n: usize)
        ensures { self.new ≡ put_all self.old (shown_more n) }
    {
        if n != 0 {
            let mut digits = [0u8; 20];
            let k = io::decimal(n as u64, &mut digits);
            self.put(BACKSLASH);
            self.put(b'+');
            self.put_all(&digits[..k]);
        }
    }
}

// The pair of what is kept of a line, and its answer.
pub fn pair_line(k: CutLine, a: Answer) -> Pair
    ensures { result ≡ pair_made k a }
{
    let mut p = Pair {
        text: [0; ROOM],
        fill: 0,
    };
    p.put_kept(k);
    p.put_more(k.more);
    p.put(b' ');
    p.put_all(&answers::write_answer(a));
    p.put(LINE_FEED);
    p
}
