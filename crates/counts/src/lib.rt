// What counts servers: kind 7.
#![tactic(auto, unfolding(crate::specs::Advances::backs))]

pub mod advances;
