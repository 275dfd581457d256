// Times by value: their order, the later of two, and the tick.
#![tactic(auto, unfolding(crate::specs::Times::is_before, crate::specs::Times::same_time, crate::specs::Times::later_of, crate::specs::Times::tick_of))]

ghost use Rattle.std.specs.Prelude.{◌≡◌};
ghost use Rattle.clock.specs.Times.{zero_time, is_before, same_time, later_of, tick_of};

use std::fmt::{self, Display};

#[derive(Clone, Copy, PartialEq, Eq, PartialOrd, Ord)]
pub struct Time {
    pub p: u16,
    pub l: u16,
}

impl Display for Time {
    // A person reads a time as (p,l).
    fn fmt<W: fmt::Write>(&self, f: &mut fmt::Formatter<W>) -> fmt::Result {
        write!(f, "({},{})", self.p, self.l)
    }
}

// Where terms, wall clocks, p and l end.
pub const LIMIT: u16 = 65535;

pub const ZERO_TIME: Time = Time { p: 0, l: 0 };

pub fn zero_time() -> Time
    ensures { result ≡ zero_time }
{
    ZERO_TIME
}

// Whether s comes before t.
pub fn is_before(s: Time, t: Time) -> bool
    ensures { result ≡ is_before s t }
{
    s < t
}

pub fn same_time(s: Time, t: Time) -> bool
    ensures { result ≡ same_time s t }
{
    s == t
}

// The later of both.
pub fn later(s: Time, t: Time) -> Time
    ensures { result ≡ later_of s t }
{
    s.max(t)
}

// The time after a tick at this wall clock, from the time t; none where l is at its limit and must grow.
pub fn tick(wall: u16, t: Time) -> Option<Time>
    ensures { result ≡ tick_of wall t }
{
    if t.p < wall {
        return Some(Time { p: wall, l: 0 });
    }
    let l = t.l.checked_add(1)?;
    Some(Time { l: l, ..t })
}
