// Whether a text has the shape of a saved form, told byte by byte with a few counters and one line, so in fixed memory.
#![tactic(auto)]

ghost use Rattle.std.specs.Prelude.{◌≡◌, ◌&&◌, eqb, replicate};
ghost use Rattle.hex_text.specs.Lines.{bytes_of, over};
ghost use Rattle.words.specs.Words.{byte_at};
ghost use Rattle.saved.specs.Layout.{sort_number, size_of};
ghost use Rattle.saved.specs.Editions.{widths1, editions, is_known, edition_numbered};
ghost use Rattle.saved.specs.Written.{most_bytes};
ghost use Rattle.shapes.specs.Walk.{shape_push, shape_after, fresh_shape, due_of, edition_for, left_after, is_next, broken_at, next_line, line_ended, walked, is_shaped};

use lines::{LINE_FEED, ReaderOf};
use saved::Sort;
use words::line::first_bytes;
use words::word;

// The characters of the longest frame.
pub const MOST_CHARS: usize = hex_text::CHARS * saved::SERVER_BYTES;

// The frames that are still announced, and whether the first frame, which names the edition and announces the servers, was read.
// Kept: in an `Option<Left>`, none before that, there would be no edition, and `line_ended` hands one to `is_next` for any sort.
#[derive(Clone, Copy, Default)]
pub struct Left {
    pub begun: bool,
    pub edition: u8,
    pub servers: usize,
    pub entries: usize,
    pub notes: usize,
    pub reports: usize,
}

// How far the shape of a text is told: the frames that are left, the line that is being read, of which as much is kept as the longest frame has, its
// number, and whether the shape is broken there.
// Kept: a flag, since what was left and the line's number still tell what was due there.
#[derive(Clone, Copy)]
pub struct Shape {
    pub left: Left,
    pub reader: ReaderOf<MOST_CHARS>,
    pub number: usize,
    pub broken: bool,
}

// How many bytes a frame of the sort has in an edition.
fn size_of(edition: u8, k: Sort) -> usize
    ensures { result ≡ size_of (edition_numbered editions edition).widths k }
{
    match k {
        Sort::First => saved::first_bytes(edition),
        Sort::Server => saved::SERVER_BYTES,
        Sort::Entry => saved::ENTRY_BYTES,
        Sort::Note | Sort::Report => saved::TOLD_BYTES,
    }
}

// The edition of a frame with these bytes: a first frame names its own, the others' is the text's.
fn edition_for(k: Sort, edition: u8, b: [u8; saved::SERVER_BYTES]) -> u8
    ensures { result ≡ edition_for k edition b }
{
    match k {
        Sort::First => b[1],
        _ => edition,
    }
}

// Whether a frame with these bytes says that it is of the sort, and its edition is known.
fn says(k: Sort, edition: u8, b: [u8; saved::SERVER_BYTES]) -> bool
    ensures { result ≡ (eqb (byte_at b 0) (sort_number k) && is_known editions edition) }
{
    b[0] == saved::sort_number(k) && saved::is_known(edition)
}

// Whether the line is a frame of the sort in its edition.
fn is_next(k: Sort, edition: u8, line: &[u8]) -> bool
    ensures { result ≡ is_next editions k edition line.now }
{
    let b = first_bytes(line);
    let own = edition_for(k, edition, b);
    line.len() == hex_text::CHARS * size_of(own, k) && hex_text::all_hex(line) && says(k, own, b)
}

// What is left after a frame of the sort with these bytes.
fn left_after(k: Sort, b: [u8; saved::SERVER_BYTES], l: Left) -> Left
    ensures { result ≡ left_after widths1 k b l }
{
    match k {
        Sort::First => Left {
            begun: true,
            edition: b[1],
            servers: usize::from(b[2]),
            entries: 0,
            notes: 0,
            reports: 0,
        },
        Sort::Server => Left {
            servers: l.servers.saturating_sub(1),
            entries: usize::from(word(b[1], b[2])),
            notes: usize::from(b[3]),
            reports: usize::from(b[4]),
            ..l
        },
        Sort::Entry => Left {
            entries: l.entries.saturating_sub(1),
            ..l
        },
        Sort::Note => Left {
            notes: l.notes.saturating_sub(1),
            ..l
        },
        Sort::Report => Left {
            reports: l.reports.saturating_sub(1),
            ..l
        },
    }
}

// The sort of the frame that is due next; none at the end of the text.
#[tactic(auto, unfolding(crate::specs::Walk::due_of))]
fn due_of(l: Left) -> Option<Sort>
    ensures { result ≡ due_of l }
{
    if !l.begun {
        return Some(Sort::First);
    }
    if 0 < l.entries {
        return Some(Sort::Entry);
    }
    if 0 < l.notes {
        return Some(Sort::Note);
    }
    if 0 < l.reports {
        return Some(Sort::Report);
    }
    if 0 < l.servers {
        return Some(Sort::Server);
    }
    None
}

// The shape of a text of which nothing was read.
pub fn begin() -> Shape
    ensures { result ≡ fresh_shape }
{
    Shape {
        left: Left::default(),
        reader: lines::fresh_reader(),
        number: 1,
        broken: false,
    }
}

// The sort that is due next, none at the end; where the shape is broken, that of which its line should have been.
pub fn expected(s: Shape) -> Option<Sort>
    ensures { result ≡ due_of s.left }
{
    due_of(s.left)
}

fn broken_at(s: Shape) -> Shape
    ensures { result ≡ broken_at s }
{
    Shape { broken: true, ..s }
}

// A frame of the sort came with these bytes, and the next line begins.
fn next_line(k: Sort, b: [u8; saved::SERVER_BYTES], s: Shape) -> Shape
    ensures { result ≡ next_line widths1 k b s }
{
    Shape {
        left: left_after(k, b, s.left),
        reader: lines::fresh_reader(),
        number: lines::one_more(s.number),
        broken: s.broken,
    }
}

// A line feed came: the line is judged by what is due.
fn line_ended(s: Shape) -> Shape
    ensures { result ≡ line_ended s }
{
    let Some(k) = expected(s) else {
        return broken_at(s);
    };
    let n = s.reader.fill;
    if s.reader.over || MOST_CHARS < n {
        return broken_at(s);
    }
    let line = &s.reader.held[..n];
    if !is_next(k, s.left.edition, line) {
        return broken_at(s);
    }
    next_line(k, first_bytes(line), s)
}

// A character of the line.
fn with_character(s: Shape, b: u8) -> Shape
    ensures { result ≡ shape_push s b }
{
    Shape {
        reader: lines::pushed(s.reader, b),
        ..s
    }
}

// The shape after one byte more; once broken it stays as it is.
#[tactic(auto, unfolding(crate::specs::Walk::shape_after))]
fn after(s: Shape, b: u8) -> Shape
    ensures { result ≡ shape_after editions s b }
{
    if s.broken {
        s
    } else if b == LINE_FEED {
        line_ended(s)
    } else {
        with_character(s, b)
    }
}

// The shape after one piece more of the text.
pub fn walk(s: Shape, piece: &[u8]) -> Shape
    ensures { result ≡ walked s piece.now }
{
    piece.iter().fold(s, |q, b| after(q, *b))
}

// Whether the text that was read has the shape of a saved form: it isn't broken, no line is begun, and nothing is due.
#[tactic(auto, unfolding(crate::specs::Walk::is_shaped))]
pub fn is_shaped(s: Shape) -> bool
    ensures { result ≡ is_shaped s }
{
    !s.broken && lines::is_empty(s.reader) && expected(s).is_none()
}
