// A walk over a text, in whatever pieces it arrives: a state that goes by the text's lines, and the line that is being read.
#![tactic(auto, unfolding(crate::specs::Folds::at_end))]

ghost use Rattle.std.specs.Prelude.{◌≡◌, List, ℕ};
ghost use Rattle.lines.specs.Readers.{line_held};
ghost use Rattle.lines.specs.Walks.{walk_from, walked, walked_out};

use crate::{LINE_FEED, Reader};

// A state that goes by the lines of a text: what a line does to it, and the same done with the line that a reader holds.
pub trait ByLines: Copy {
    ghost after: { Self → List ℕ → Self };

    fn line(self, held: Reader) -> Self
        ensures { result ≡ after self (line_held held) };
}

// A state after the lines that have ended, and the line that is being read.
#[derive(Clone, Copy)]
pub struct Walk<S> {
    pub state: S,
    pub reader: Reader,
}

// Before the first line.
pub fn begin<S>(state: S) -> Walk<S>
    ensures { result ≡ walk_from state }
{
    Walk {
        state,
        reader: crate::fresh_reader(),
    }
}

// One piece more of the text. The state stays in a local, so that only a line copies it.
pub fn go_on<S: ByLines>(w: Walk<S>, piece: &[u8]) -> Walk<S>
    ensures { result ≡ walked S.after w piece.now }
{
    let mut state = w.state;
    let mut reader = w.reader;
    for &b in piece {
        if b == LINE_FEED {
            state = state.line(reader);
        }
        reader = crate::taken(reader, b);
    }
    Walk { state, reader }
}

// The end of the text, where a rest without a line feed is a line if it isn't empty.
pub fn finish<S: ByLines>(w: Walk<S>) -> S
    ensures { result ≡ walked_out S.after w }
{
    if crate::is_empty(w.reader) {
        return w.state;
    }
    w.state.line(w.reader)
}
