// The trace of a text: a pair for each line that is wanted, and the form of the record where that has changed. One line's is made at a time, so in
// fixed memory; the loop that reads and writes is in `follow`.
#![tactic(auto)]

pub mod follow;

ghost use Rattle.std.specs.Prelude.{◌≡◌, false, ◌≤◌, length};
ghost use Rattle.frames.specs.Steps.{read_step};
ghost use Rattle.loads.specs.Loads.{same_text};
ghost use Rattle.saved.specs.Written.{longest};
ghost use Rattle.traces.specs.Writing.{held_in, text_in, pair_room};
ghost use Rattle.trails.specs.Traces.{first_frame_of, form_by, is_wanted, opening_of, change_of};
ghost use Rattle.trails.specs.Bytes.{first_line, form_room, most_line, Put, wanted_of, lined_of, lined_out};

use cluster::Cluster;
use lines::LINE_FEED;
use saved::Sort;
use steps::Step;
use traces::{CutLine, Pair};

// How long a first frame's line is.
const FIRST_LINE: usize = hex_text::CHARS * saved::FIRST_BYTES + 1;

const LONGEST: usize = saved::LONGEST;

// Room for all that a trace has for a line.
pub const MOST_LINE: usize = LONGEST + traces::ROOM + LONGEST;

// What is wanted of a trace: first frames instead of whole forms; and of the lines only those after so many, and before so many where there is an end.
#[derive(Clone, Copy)]
pub struct Wanted {
    pub brief: bool,
    pub before: usize,
    pub last: Option<usize>,
}

// The record after a line, and how many bytes were written.
#[derive(Clone, Copy)]
pub struct Lined {
    pub cluster: Cluster,
    pub wrote: usize,
}

// Whether a line is wanted, where so many have gone before it.
#[tactic(auto, unfolding(crate::specs::Traces::is_wanted))]
fn is_wanted(w: Wanted, n: usize) -> bool
    ensures { result ≡ is_wanted w n }
{
    w.before <= n && w.last.is_none_or(|last| n < last)
}

// The step of the line that is kept: it has more bytes than a frame where not all are.
fn read_kept(k: CutLine) -> Option<Step>
    ensures { result ≡ read_step (held_in k) }
{
    frames::read_step(&k.held[..k.fill.min(traces::SHOWN)])
}

// A text, written at the head of the buffer; how many characters it has.
fn put_text(text: &[u8], out: &mut [u8]) -> usize
    requires { length text.now ≤ length out.old }
    ensures { Put (length text.now) out.old out.new result text.now }
{
    let n = text.len();
    out[..n].copy_from_slice(text);
    n
}

// The line of a record's first frame.
fn put_first(c: Cluster, out: &mut [u8]) -> usize
    requires { first_line ≤ length out.old }
    ensures { Put first_line out.old out.new result (first_frame_of c) }
{
    let n = cluster::server_count(c.count);
    if n == 0 {
        return 0;
    }
    let frame = [
        saved::sort_number(Sort::First),
        saved::EDITION,
        n as u8,
        c.followers,
    ];
    let mut line = [LINE_FEED; FIRST_LINE];
    hex_text::enhex(&frame, &mut line);
    put_text(&line, out)
}

// A record's saved form, where it has one.
fn put_saved(c: Cluster, out: &mut [u8]) -> usize
    requires { longest ≤ length out.old }
    ensures { Put longest out.old out.new result (form_by false c) }
{
    let s = saved::save(c, &mut out[..LONGEST]);
    match s {
        Ok(n) => n,
        Err(_) => 0,
    }
}

// What is shown of a record, brief or not.
// Kept: a flag and no closure, since `form_by` of the trace's definition has it so, and a person orders it.
fn put_form(brief: bool, c: Cluster, out: &mut [u8]) -> usize
    requires { form_room brief ≤ length out.old }
    ensures { Put (form_room brief) out.old out.new result (form_by brief c) }
{
    if brief {
        put_first(c, out)
    } else {
        put_saved(c, out)
    }
}

// Whether two records have the same form, which has room in N characters.
fn same_in<const N: usize>(brief: bool, c: Cluster, d: Cluster) -> bool
    requires room { form_room brief ≤ N }
    requires few { N ≤ longest }
    ensures { result ≡ same_text (form_by brief c) (form_by brief d) }
{
    let mut a = [0; N];
    let mut b = [0; N];
    let n = put_form(brief, c, &mut a);
    let m = put_form(brief, d, &mut b);
    loads::same_text(&a[..n], &b[..m])
}

fn same_form(brief: bool, c: Cluster, d: Cluster) -> bool
    ensures { result ≡ same_text (form_by brief c) (form_by brief d) }
{
    if brief {
        same_in::<FIRST_LINE>(brief, c, d)
    } else {
        same_in::<LONGEST>(brief, c, d)
    }
}

// Before the first line that is wanted, the record as it is.
fn put_opening(w: Wanted, n: usize, c: Cluster, out: &mut [u8]) -> usize
    requires { longest ≤ length out.old }
    ensures { Put longest out.old out.new result (opening_of w n c) }
{
    if n != w.before {
        return 0;
    }
    put_form(w.brief, c, out)
}

fn put_pair(p: Pair, out: &mut [u8]) -> usize
    requires { pair_room ≤ length out.old }
    ensures { Put pair_room out.old out.new result (text_in p) }
{
    put_text(&p.text[..p.fill.min(traces::ROOM)], out)
}

// After a line the record, where its form is another.
fn put_change(brief: bool, c: Cluster, d: Cluster, out: &mut [u8]) -> usize
    requires { longest ≤ length out.old }
    ensures { Put longest out.old out.new result (change_of brief c d) }
{
    if same_form(brief, c, d) {
        return 0;
    }
    put_form(brief, d, out)
}

// All that a trace has for a line, which leads from one record to another and has that pair.
fn put_wanted(w: Wanted, n: usize, c: Cluster, d: Cluster, p: Pair, out: &mut [u8]) -> usize
    requires { most_line ≤ length out.old }
    ensures { Put most_line out.old out.new result (wanted_of w n c d (text_in p)) }
{
    if !is_wanted(w, n) {
        return 0;
    }
    let opened = put_opening(w, n, c, out);
    let paired = opened + put_pair(p, &mut out[opened..]);
    paired + put_change(w.brief, c, d, &mut out[paired..])
}

// The record after the line that is kept, and all that a trace has for it, in a buffer with room for the longest; in any other nothing is written.
pub fn put_line(w: Wanted, n: usize, c: Cluster, k: CutLine, out: &mut [u8]) -> Lined
    ensures result { result ≡ lined_of w n c k (length out.old) }
    ensures output { out.new ≡ lined_out w n c k out.old }
{
    let o = replay::respond_to(c, read_kept(k));
    let d = o.cluster;
    let wrote = if out.len() < MOST_LINE {
        0
    } else {
        put_wanted(w, n, c, d, traces::pair_line(k, o.answer), out)
    };
    Lined { cluster: d, wrote }
}
