// A run that is traced: lines from standard input to its end, and the trace to standard output, a line of it as soon as it is there.
ghost use Rattle.std.specs.Prelude.{◌≡◌, true, refl};
ghost use Rattle.trails.specs.Bytes.{trail_over};
ghost use Rattle.lines.specs.Turns.{all_read};
ghost use Rattle.trails.specs.Loop.{written_by, Ends, EndsAs, Follows};

use crate::{MOST_LINE, Wanted};
use cluster::Cluster;
use lines::{Broke, End, LINE_FEED};
use std::slice;
use streams::{Streams, Taker};
use traces::CutLine;

// Where a run is: its record, what is kept of a line, and how many lines have gone before it.
#[derive(Clone, Copy)]
pub struct Trail {
    pub cluster: Cluster,
    pub kept: CutLine,
    pub number: usize,
}

// A run that is traced: what is wanted of the trace, where the run is, and room for what a line of it shows.
#[derive(Drop)]
pub struct Tracing<'a> {
    pub streams: &'a Streams,
    pub wanted: Wanted,
    pub trail: Trail,
    pub out: [u8; MOST_LINE],
}

impl Taker for Tracing<'_> {
    type State = Trail;

    ghost state = { λ t. t.trail };

    ghost over = { trail_over };

    ghost writes = { true };

    // Of a trace that can't be written the rest is left out, and the record is the same.
    fn take(&mut self, piece: &[u8]) -> bool {
        let mut wrote = true;
        for b in piece {
            let line = self.trail.kept;
            self.trail.kept = traces::keep(line, slice::from_ref(b));
            if *b != LINE_FEED {
                continue;
            }
            let n = self.trail.number;
            let l = crate::put_line(self.wanted, n, self.trail.cluster, line, &mut self.out);
            self.trail.cluster = l.cluster;
            self.trail.number = lines::one_more(n);
            wrote = wrote && self.write(l.wrote);
        }
        wrote
    }

    ghost over_nothing = { λ t. refl };
}

impl Tracing<'_> {
    // Writes the first n bytes of the buffer, and says whether that went well.
    fn write(&self, n: usize) -> bool {
        self.streams.write_first(&self.out, n)
    }

    // The rest of the input: without a line feed it counts if it isn't empty. The last record, where all could be written.
    fn close(&mut self) -> Result<Cluster, Broke>
        ensures { Ends self.old.trail result }
    {
        let Trail {
            cluster,
            kept,
            number,
        } = self.trail;
        if kept.fill == 0 {
            return Ok(cluster);
        }
        let l = crate::put_line(self.wanted, number, cluster, kept, &mut self.out);
        written(self.write(l.wrote))?;
        Ok(l.cluster)
    }

    // The end of a run whose input ended so: only where that was read to its end there is a rest.
    fn end(&mut self, end: End) -> Result<Cluster, Broke>
        ensures { EndsAs end self.old.trail result }
    {
        end?;
        self.close()
    }
}

// How something that is written ends.
fn written(wrote: bool) -> End
    ensures { result ≡ written_by wrote all_read }
{
    if wrote {
        Ok(())
    } else {
        Err(Broke::CannotWrite)
    }
}

// All of standard input, traced from the record on: the last record, where all of it was read and written.
pub fn follow(streams: &Streams, w: Wanted, c: Cluster) -> Result<Cluster, Broke>
    ensures { Follows c result }
{
    let mut tracing = Tracing {
        streams,
        wanted: w,
        trail: Trail {
            cluster: c,
            kept: traces::nothing_kept(),
            number: 0,
        },
        out: [0; MOST_LINE],
    };
    let end = streams::drain(&mut streams.input(), &mut tracing);
    tracing.end(end)
}
