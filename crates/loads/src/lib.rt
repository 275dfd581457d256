// Loading a saved form: its text is decoded frame by frame, and taken where it is what the decoded record saves to in the text's edition.
#![tactic(auto)]

ghost use Rattle.std.specs.Prelude.{◌≡◌, ◌&&◌, ◌+◌, ◌<◌};
ghost use Rattle.hex_text.specs.Lines.{bytes_of};
ghost use Rattle.words.specs.Words.{word_at};
ghost use Rattle.saved.specs.declared.Sort.TheVariants as S;
ghost use Rattle.saved.specs.Layout.{numbers_in, said_at};
ghost use Rattle.saved.specs.Editions.{widths1, editions, is_known, edition_numbered, has_form};
ghost use Rattle.saved.specs.Saved.{saved_as};
ghost use Rattle.saved.specs.Written.{most_bytes};
ghost use Rattle.loads.specs.Decoded.{head_said, source_said, server_said, entry_said, report_said, told_by, counting, beginning, telling, with_frame, roomy, fresh_draft, drafted_in, decoded_in};
ghost use Rattle.loads.specs.Loads.{same_text, load_of};

use clock::Time;
use cluster::{Cluster, Head, Server};
use lines::LINE_FEED;
use mail::Report;
use saved::Sort;
use server_log::Entry;
use steps::{Answer, Outcome, Refusal};

// The bytes of a frame in the room of the longest.
pub const BYTES: usize = saved::SERVER_BYTES;

// The role of a primary, and the greatest.
pub const PRIMARY: u8 = 1;

// A record that is being decoded, and how many of its servers were begun.
// Kept: the number beside the record, whose seven servers stand by value as document 01 has them.
#[derive(Clone, Copy)]
struct Draft {
    cluster: Cluster,
    begun: usize,
}

// The number whose bytes stand at place i and after it.
fn word_at(b: [u8; BYTES], i: usize) -> u16
    requires { i + 1 < most_bytes }
    ensures { result ≡ word_at b i }
{
    words::word(b[i], b[i + 1])
}

// What a server's frame says of the server itself.
pub fn head_in(b: [u8; BYTES]) -> Head
    ensures { result ≡ head_said (numbers_in widths1 S.Server b) }
{
    let p = word_at(b, 13);
    let l = word_at(b, 15);
    Head {
        term: word_at(b, 7),
        primary: b[6] == PRIMARY,
        commit: usize::from(word_at(b, 9)),
        wall: word_at(b, 11),
        time: Time { p, l },
    }
}

// The source that a server's frame tells.
fn source_in(b: [u8; BYTES]) -> Option<usize>
    ensures { result ≡ source_said (said_at widths1 S.Server b 3) }
{
    usize::from(b[5]).checked_sub(1)
}

// The server that a server frame begins.
fn server_in(b: [u8; BYTES]) -> Server
    ensures { result ≡ server_said (numbers_in widths1 S.Server b) }
{
    Server {
        head: head_in(b),
        log: server_log::EMPTY_LOG,
        mail: mail::with_source(mail::ZERO_MAIL, source_in(b)),
        rows: server_log::rows::ZERO_ROWS,
    }
}

// What an entry's frame says.
pub fn entry_in(b: [u8; BYTES]) -> Entry
    ensures { result ≡ entry_said (numbers_in widths1 S.Entry b) }
{
    let p = word_at(b, 6);
    let l = word_at(b, 8);
    Entry {
        term: word_at(b, 1),
        key: b[3],
        value: word_at(b, 4),
        time: Time { p, l },
    }
}

// What a note's or a report's frame says.
pub fn report_in(b: [u8; BYTES]) -> Report
    ensures { result ≡ report_said (numbers_in widths1 S.Note b) }
{
    Report {
        who: b[1],
        term: word_at(b, 2),
        last: word_at(b, 4),
        len: word_at(b, 6),
    }
}

// The server with what an entry's, a note's or a report's frame tells.
#[tactic(auto, unfolding(crate::specs::Decoded::told_by))]
fn told_by(s: Server, b: [u8; BYTES]) -> Server
    ensures { result ≡ told_by widths1 s b }
{
    match Sort::try_from(b[0]) {
        Ok(Sort::Entry) => Server {
            log: server_log::append(s.log, entry_in(b)),
            ..s
        },
        Ok(Sort::Note) => Server {
            mail: mail::noted(s.mail, report_in(b)),
            ..s
        },
        Ok(Sort::Report) => Server {
            mail: mail::received(s.mail, report_in(b)),
            ..s
        },
        _ => s,
    }
}

// The followers that a first frame tells: none where its edition has no field for them.
pub fn followers_in(edition: u8, b: [u8; BYTES]) -> u8
    ensures { result ≡ said_at (edition_numbered editions edition).widths S.First b 2 }
{
    if saved::limits_of(edition).followers {
        b[3]
    } else {
        0
    }
}

fn counting(d: Draft, n: usize, followers: u8) -> Draft
    ensures { result ≡ counting d n followers }
{
    let cluster = Cluster {
        count: n,
        followers,
        ..d.cluster
    };
    Draft { cluster, ..d }
}

// The next server is begun, where there is a place for it.
#[tactic(auto, unfolding(crate::specs::Decoded::beginning))]
fn beginning(d: Draft, s: Server) -> Draft
    ensures { result ≡ beginning d s }
{
    let n = d.begun;
    if cluster::MOST_SERVERS <= n {
        return d;
    }
    Draft {
        cluster: cluster::with_server(d.cluster, n, s),
        begun: n + 1,
    }
}

// The server that was begun last is told more.
#[tactic(auto, unfolding(crate::specs::Decoded::telling))]
fn telling(d: Draft, b: [u8; BYTES]) -> Draft
    ensures { result ≡ telling widths1 d b }
{
    let n = d.begun;
    if n < 1 || cluster::MOST_SERVERS < n {
        return d;
    }
    let s = told_by(d.cluster.servers[n - 1], b);
    Draft {
        cluster: cluster::with_server(d.cluster, n - 1, s),
        ..d
    }
}

fn with_frame(edition: u8, d: Draft, b: [u8; BYTES]) -> Draft
    ensures { result ≡ with_frame (edition_numbered editions edition).widths d b }
{
    match Sort::try_from(b[0]) {
        Ok(Sort::First) => counting(d, usize::from(b[2]), followers_in(edition, b)),
        Ok(Sort::Server) => beginning(d, server_in(b)),
        _ => telling(d, b),
    }
}

// The frame of a line, of any length.
fn with_line(edition: u8, d: Draft, line: &[u8]) -> Draft
    ensures { result ≡ with_frame (edition_numbered editions edition).widths d (roomy (bytes_of line.now)) }
{
    let mut b = [0u8; BYTES];
    hex_text::unhex(line, &mut b);
    with_frame(edition, d, b)
}

fn fresh_draft() -> Draft
    ensures { result ≡ fresh_draft }
{
    Draft {
        cluster: cluster::ZERO_CLUSTER,
        begun: 0,
    }
}

// What the frames of a text tell in an edition, with nothing checked; no frame tells of rows.
fn drafted(edition: u8, text: &[u8]) -> Cluster
    ensures { result ≡ drafted_in (edition_numbered editions edition).widths text.now }
{
    let mut d = fresh_draft();
    // Kept: lines by their places, since the edits `keeps_the_line_feed` and `drops_a_rest_without_line_feed` plant a wrong place; the parts that
    // `split` gives have none, and one more, an empty one after the last line feed.
    let mut start: usize = 0;
    for i in 0..text.len() {
        if text[i] == LINE_FEED {
            d = with_line(edition, d, &text[start..i]);
            start = i + 1;
        }
    }
    if start < text.len() {
        d = with_line(edition, d, &text[start..]);
    }
    d.cluster
}

// What a text decodes to in an edition, with nothing checked.
#[tactic(auto, unfolding(crate::specs::Decoded::decoded_in))]
pub fn decode(edition: u8, text: &[u8]) -> Cluster
    ensures { result ≡ decoded_in (edition_numbered editions edition).widths text.now }
{
    cluster::rowed_all(drafted(edition, text))
}

// Whether two texts are the same.
pub fn same_text(a: &[u8], b: &[u8]) -> bool
    ensures { result ≡ same_text a.now b.now }
{
    a == b
}

// Whether the edition has a form for a record, and the text is that form.
fn saves_to(edition: u8, d: Cluster, text: &[u8]) -> bool
    ensures { result ≡ (is_known editions edition && (has_form (edition_numbered editions edition) d && same_text (saved_as (edition_numbered editions edition) d) text.now)) }
{
    let mut out = [0u8; saved::LONGEST];
    match saved::save_as(edition, d, &mut out) {
        Ok(n) => same_text(&out[..n], text),
        Err(_) => false,
    }
}

// The record that the text is the saved form of in its own edition, or the record that was given and why it isn't loaded: the shape is asked for first.
pub fn load(c: Cluster, text: &[u8]) -> Outcome
    ensures { result ≡ load_of c text.now }
{
    let shape = shapes::walk(shapes::begin(), text);
    if !shapes::is_shaped(shape) {
        return steps::refuse_all(c, Refusal::NotAFrame);
    }
    let d = decode(shape.left.edition, text);
    if !saves_to(shape.left.edition, d, text) {
        return steps::refuse_all(c, Refusal::IllFormed);
    }
    Outcome {
        cluster: d,
        answer: Answer::Done,
    }
}
