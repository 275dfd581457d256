// What a server does by itself: kinds 2, 6, 8, 9, 14 and 16, a module each.
#![tactic(auto)]

pub mod appends;
pub mod restarts;
pub mod steps_down;
pub mod takes_report;
pub mod wall_clock;
pub mod writes;
pub mod writes_nothing;
