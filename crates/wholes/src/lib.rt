// What changes the whole cluster: kinds 0, 1 and 13, a module each.
#![tactic(auto, unfolding(crate::specs::Elects::not_behind, crate::specs::Elects::may_vote, crate::specs::Elects::all_may_vote, crate::specs::Elects::are_voters))]

pub mod clocks_agree;
pub mod elects;
pub mod starts;
