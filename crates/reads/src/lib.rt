// What only asks one server, and changes none: kinds 10, 11, 12 and 15, a module each, and all values at once.
#![tactic(auto)]

pub mod acknowledged;
pub mod lists;
pub mod local_read;
pub mod majority_read;
pub mod newest_read;
