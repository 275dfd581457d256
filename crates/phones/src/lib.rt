// The phones' records as a text: a line of hexadecimal each, read in whatever pieces it arrives, in fixed memory.
#![tactic(auto, unfolding(words::specs::Words::framed, crate::specs::Records::record_in, crate::specs::Listed::with_record, crate::specs::Listed::list_after_read))]

ghost use Rattle.std.specs.Prelude.{◌≡◌};
ghost use Rattle.lines.specs.Readers.{line_held};
ghost use Rattle.phones.specs.Records.{record_in, read_record};
ghost use Rattle.phones.specs.Listed.{with_record, list_after_read, list_after_line, new_listing, listed_by, finished_list};

use clock::Time;
use histories::PhoneRecord;
use histories::kept::MOST_KEPT;
use lines::Reader;
use lines::walks::{self, ByLines, Walk};
use words::line::read_bytes;
use words::word;

// The bytes of a record, and its line's characters.
pub const RECORD_BYTES: usize = 12;

pub const RECORD_CHARS: usize = hex_text::CHARS * RECORD_BYTES;

// The records of a text as far as it was read, of which one too many is kept; the number of the line that is being read; and that of the
// first line that is no record, if one before was none.
// Kept: an array and how many of it there are, since memory is fixed, a record more can't fail, and a list goes by value (arrayvec's `ArrayVec` isn't Copy).
#[derive(Clone, Copy)]
pub struct Listed {
    pub records: [PhoneRecord; MOST_KEPT],
    pub count: usize,
    pub number: usize,
    pub bad: Option<usize>,
}

// A list, and the line that is being read.
pub type Listing = Walk<Listed>;

impl ByLines for Listed {
    ghost after = { list_after_line };

    fn line(self, held: Reader) -> Listed {
        after_line(self, record_held(held))
    }
}

fn record_in(b: [u8; RECORD_BYTES]) -> PhoneRecord
    ensures { result ≡ record_in b }
{
    PhoneRecord {
        session: word(b[0], b[1]),
        kind: b[2],
        key: b[3],
        value: word(b[4], b[5]),
        position: word(b[6], b[7]),
        time: Time {
            p: word(b[8], b[9]),
            l: word(b[10], b[11]),
        },
    }
}

// The record of a line without its line feed.
#[tactic(auto, using(words::proofs::Framed::framed_none, words::proofs::Framed::framed_some))]
pub fn read_record(line: &[u8]) -> Option<PhoneRecord>
    ensures { result ≡ read_record line.now }
{
    let b = read_bytes(line)?;
    Some(record_in(b))
}

// The record of the line that was read. A reader of step lines has room for it.
fn record_held(r: Reader) -> Option<PhoneRecord>
    ensures { result ≡ read_record (line_held r) }
{
    if r.over || r.fill != RECORD_CHARS {
        return None;
    }
    read_record(&r.held[..RECORD_CHARS])
}

// Before the first line.
pub fn begin() -> Listing
    ensures { result ≡ new_listing }
{
    walks::begin(Listed {
        records: [histories::NO_RECORD; MOST_KEPT],
        count: 0,
        number: 1,
        bad: None,
    })
}

// One record more, kept where there is room.
fn with_record(s: Listed, r: PhoneRecord) -> Listed
    ensures { result ≡ with_record s r }
{
    let mut q = s;
    q.number = lines::one_more(s.number);
    let at = s.count;
    if at < MOST_KEPT {
        q.records[at] = r;
        q.count = at + 1;
    }
    q
}

// The list after a line that reads so. After the first bad line no other counts.
fn after_line(s: Listed, read: Option<PhoneRecord>) -> Listed
    ensures { result ≡ list_after_read s read }
{
    if s.bad.is_some() {
        return s;
    }
    match read {
        Some(r) => with_record(s, r),
        None => Listed {
            bad: Some(s.number),
            ..s
        },
    }
}

// The list after one piece more of the text.
pub fn list(l: Listing, piece: &[u8]) -> Listing
    ensures { result ≡ listed_by l piece.now }
{
    walks::go_on(l, piece)
}

// The list at the end of the text, where a rest without a line feed counts if it isn't empty.
pub fn finish(l: Listing) -> Listed
    ensures { result ≡ finished_list l }
{
    walks::finish(l)
}
