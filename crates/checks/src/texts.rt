// Both texts, each from its source to its end: the step lines from standard input, and then the phones' records from the descriptor that the
// launcher opens.
ghost use Rattle.std.specs.Prelude.{◌≡◌, false, refl};
ghost use Rattle.followed.specs.Follow.{run_after_line};
ghost use Rattle.phones.specs.Listed.{list_after_line};
ghost use Rattle.checks.specs.Reading.{text_taken, come_to_by, ReadsBoth};

use crate::passed::{self, Passed, Passing};
use followed::Run;
use lines::End;
use lines::walks::Walk;
use phones::Listed;
use streams::{Source, Taker};

// A text as far as it was read, and what is passed over of it.
#[derive(Clone, Copy)]
pub struct Text<S> {
    pub walk: Walk<S>,
    pub passing: Passing,
}

// What both texts come to, and of each what is passed over.
#[derive(Clone, Copy)]
pub struct Both {
    pub run: Run,
    pub list: Listed,
    pub passed: Passed,
    pub ends: Passed,
}

// The text that can't be read to its end, the first where neither can.
#[derive(Clone, Copy)]
pub enum Unread {
    Steps,
    Records,
}

// Kept: one `Taker` of each, since `follow_is` and `list_is` of the page of claims speak of `follow` and `list`, which are what runs.
impl Taker for Text<Run> {
    type State = Text<Run>;

    ghost state = { λ t. t };

    ghost over = { text_taken run_after_line };

    ghost writes = { false };

    fn take(&mut self, piece: &[u8]) -> bool {
        self.walk = followed::follow(self.walk, piece);
        self.passing = passed::pass(self.passing, piece);
        true
    }

    ghost over_nothing = { λ t. refl };
}

impl Taker for Text<Listed> {
    type State = Text<Listed>;

    ghost state = { λ t. t };

    ghost over = { text_taken list_after_line };

    ghost writes = { false };

    fn take(&mut self, piece: &[u8]) -> bool {
        self.walk = phones::list(self.walk, piece);
        self.passing = passed::pass(self.passing, piece);
        true
    }

    ghost over_nothing = { λ t. refl };
}

// What both come to as they ended: the first that was not read to its end, or all of both.
fn come_to(s: Text<Run>, r: Text<Listed>, first: End, second: End) -> Result<Both, Unread>
    ensures { result ≡ come_to_by s r first second }
{
    if !lines::is_input(first) {
        return Err(Unread::Steps);
    }
    if !lines::is_input(second) {
        return Err(Unread::Records);
    }
    Ok(Both {
        run: followed::finish(s.walk),
        list: phones::finish(r.walk),
        passed: passed::finish(s.passing),
        ends: passed::finish(r.passing),
    })
}

pub(crate) fn read(steps: &mut Source, records: &mut Source) -> Result<Both, Unread>
    ensures { ReadsBoth result }
{
    let mut s = Text {
        walk: followed::begin(),
        passing: passed::begin(),
    };
    let mut r = Text {
        walk: phones::begin(),
        passing: passed::begin(),
    };
    let first = streams::drain(steps, &mut s);
    let second = streams::drain(records, &mut r);
    come_to(s, r, first, second)
}
