// What a server takes from another: kinds 3, 4 and 5, a module each.
#![tactic(auto)]

pub mod hears;
pub mod pulls;
pub mod reports;
pub mod rolls_back;
