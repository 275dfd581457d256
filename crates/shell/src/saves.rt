// A saved record, read from one descriptor and written to another. The launcher opens both.
ghost use Rattle.std.specs.Prelude.{◌≡◌, false, refl};
ghost use Rattle.shell.specs.Saving.{walked_on, WalksOn, is_whole, led_of, Loads};

use crate::{faults, say, tell};
use cluster::Cluster;
use lines::End;
use shapes::Shape;
use std::rt::Files;
use steps::Answer;
use streams::{Source, Streams, Taker};

// Where a record is loaded from, and saved to: what is open at descriptors 5 and 6.
pub(crate) const LOAD: &str = "/dev/fd/5";

const SAVE: &str = "/dev/fd/6";

// Room for the longest saved form, and for a byte more, by which a longer text is told.
const KEPT: usize = saved::LONGEST + 1;

// The rest of a text that is too long to be kept: the shape as far as it was read, and whether anything came of it.
// Kept: a flag, since there is a shape either way.
#[derive(Clone, Copy)]
pub struct Walked {
    pub shape: Shape,
    pub came: bool,
}

impl Taker for Walked {
    type State = Walked;

    ghost state = { λ w. w };

    ghost over = { walked_on };

    ghost writes = { false };

    fn take(&mut self, piece: &[u8]) -> bool {
        if !piece.is_empty() {
            self.shape = shapes::walk(self.shape, piece);
            self.came = true;
        }
        true
    }

    ghost over_nothing = { λ w. refl };
}

// The rest of a text whose beginning has this shape: it is read to its end and let go.
fn walk_on(source: &mut Source, s: Shape) -> (Walked, End)
    ensures { WalksOn s result }
{
    let mut w = Walked {
        shape: s,
        came: false,
    };
    let end = streams::drain(source, &mut w);
    (w, end)
}

// Whether a text was read to its end, and what was read on of it comes after as much as is kept.
#[tactic(auto, unfolding(crate::specs::Saving::is_whole))]
fn is_whole(w: Walked, end: End, n: usize) -> bool
    ensures { result ≡ is_whole w end n }
{
    lines::is_input(end) && (!w.came || saved::LONGEST < n)
}

// Says why a text is refused: its shape, or what of it no record has.
fn explain(streams: &Streams, text: &[u8], shape: Shape) {
    if !shapes::is_shaped(shape) {
        say::misshapen(streams, shape);
        return;
    }
    tell::ill_formed(streams, faults::first_fault(text));
}

// The record that a text loads, or why it loads none. One that is longer than any saved form is here as far as that, and its shape is told
// to its end.
fn loaded(streams: &Streams, text: &[u8], shape: Shape) -> Option<Cluster>
    ensures { result ≡ led_of text.now }
{
    if text.len() <= saved::LONGEST {
        let o = loads::load(cluster::zero_cluster(), text);
        if let Answer::Done = o.answer {
            return Some(o.cluster);
        }
    }
    explain(streams, text, shape);
    None
}

// The record that was saved. The text is kept as far as a saved form can be long; reading on tells whether that was all.
pub(crate) fn load(streams: &Streams, source: &mut Source) -> Option<Cluster>
    ensures { Loads result }
{
    let mut kept = [0; KEPT];
    let n = source.read_full(&mut kept);
    let (w, end) = walk_on(source, shapes::walk(shapes::begin(), &kept[..n]));
    if !is_whole(w, end, n) {
        say::cannot_load(streams);
        return None;
    }
    loaded(streams, &kept[..n], w.shape)
}

// Saves the record, or says why it can't be.
pub(crate) fn store<R: Files>(files: &R, streams: &Streams, c: Cluster) {
    let mut text = [0; saved::LONGEST];
    let Ok(n) = saved::save(c, &mut text) else {
        say::nothing_to_save(streams);
        return;
    };
    let wrote = match text.get(..n) {
        Some(form) => streams.went_well(streams::write_to(files, SAVE, form)),
        None => false,
    };
    if !wrote {
        say::cannot_save(streams);
    }
}
