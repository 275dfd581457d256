// Kind 1: elect a by set.
ghost use Rattle.std.specs.Prelude.{◌≡◌};
ghost use Rattle.wholes.specs.Elects.{not_behind, may_vote, vote_ok, all_may_vote, are_voters, elects_of};

use cluster::{Cluster, Server};
use steps::{Answer, Outcome, Refusal};

// Whether s is not behind t.
pub fn not_behind(s: Server, t: Server) -> bool
    ensures { result ≡ not_behind s t }
{
    (server_log::last_term(t.log), server_log::length_of(t.log))
        <= (server_log::last_term(s.log), server_log::length_of(s.log))
}

// Whether t may be a member where s is elected.
pub fn may_vote(s: Server, t: Server) -> bool
    ensures { result ≡ may_vote s t }
{
    t.head.term <= s.head.term && not_behind(s, t)
}

// Whether server i of the set may vote for s; who isn't a member isn't asked.
pub fn vote_ok(s: Server, t: Server, set: u8, i: usize) -> bool
    ensures { result ≡ vote_ok s t set i }
{
    !cluster::sets::is_member(set, i) || may_vote(s, t)
}

// Whether every member of the set may vote for s.
pub fn all_may_vote(c: Cluster, s: Server, set: u8) -> bool
    ensures { result ≡ all_may_vote c s set }
{
    let size = cluster::server_count(c.count);
    c.servers
        .iter()
        .take(size)
        .enumerate()
        .all(|(i, t)| vote_ok(s, *t, set, i))
}

// Whether a and every member of the set are servers that vote.
pub fn are_voters(c: Cluster, a: usize, set: u8) -> bool
    ensures { result ≡ are_voters c a set }
{
    let size = cluster::server_count(c.count);
    a < size
        && cluster::sets::does_vote(c.followers, a)
        && cluster::sets::within(set, size)
        && cluster::sets::apart(set, c.followers)
}

pub fn elects(c: Cluster, a: usize, set: u8) -> Outcome
    ensures { result ≡ elects_of c a set }
{
    if !are_voters(c, a, set) {
        return steps::refuse_all(c, Refusal::OutOfRange);
    }
    let size = cluster::server_count(c.count);
    let voters = cluster::sets::voters(size, c.followers);
    if !cluster::sets::majority(set, voters) {
        return steps::refuse_all(c, Refusal::ConditionUnmet);
    }
    if !cluster::sets::is_member(set, a) {
        return steps::refuse_all(c, Refusal::ConditionUnmet);
    }
    let s = c.servers[a];
    if !all_may_vote(c, s, set) {
        return steps::refuse_all(c, Refusal::ConditionUnmet);
    }
    if clock::LIMIT <= s.head.term {
        return steps::refuse_all(c, Refusal::AtLimit);
    }
    let term = s.head.term + 1;
    Outcome {
        cluster: cluster::elect_all(c, a, set, term),
        answer: Answer::Elected(term),
    }
}
