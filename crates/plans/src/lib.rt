// How to get going again: the frames of a plan, made by trying its steps on the record.
#![tactic(auto)]

ghost use Rattle.std.specs.Prelude.{◌≡◌, Bool, ℕ, ◌-◌, ◌<◌, ◌≤◌};
ghost use Rattle.cluster.specs.Servers.{most_servers};
ghost use Rattle.plans.specs.Moves.{Move, turns, other, best};
ghost use Rattle.plans.specs.Plan.{others, may_lead, not_older, chosen, newest_server, all_voters, copies, hearing};
ghost use Rattle.plans.specs.Making.{no_frames, is_low, all_room, all_low, planned_of};
ghost use Rattle.plans.specs.Working.{AnswersAs, Tries, tried_of, work_of, begun_of, opened_of, closed_of};

use cluster::{Cluster, Head, sets};
use steps::{Answer, Frame, Refusal, Step};
use wholes::elects::not_behind;

// Four times seven servers.
pub const MOST_FRAMES: usize = 28;

const ZERO_FRAME: Frame = Frame {
    kind: 0,
    a: 0,
    b: 0,
    set: 0,
    key: 0,
    number: 0,
    term: 0,
    time: clock::ZERO_TIME,
};

// The frames, zero past their number, and done; or none, and the refusal.
// Kept: an array and how many of it there are, since memory is fixed and a plan goes by value (arrayvec's `ArrayVec` isn't Copy); and no Result, since `given_frames_are_done` and `a_refusal_has_no_frames` of claims speak of the answer and the frames of both.
#[derive(Clone, Copy)]
pub struct Planned {
    pub frames: [Frame; MOST_FRAMES],
    pub count: usize,
    pub answer: Answer,
}

// A plan while it is made, and the record that its steps lead to.
#[derive(Clone, Copy)]
pub struct Work {
    pub cluster: Cluster,
    pub plan: Planned,
}

// The server but a of the number k, ascending.
#[tactic(auto, unfolding(crate::specs::Moves::other))]
fn other_of(a: usize, k: usize) -> u8
    requires { k < most_servers }
    ensures { result ≡ other a k }
{
    if k < a { k as u8 } else { (k + 1) as u8 }
}

// Whether server i may lead before server k.
#[tactic(auto, unfolding(crate::specs::Plan::may_lead))]
fn may_lead(c: Cluster, i: usize, k: usize) -> bool
    requires { (i < most_servers) × (k < most_servers) }
    ensures { result ≡ may_lead c i k }
{
    !sets::does_vote(c.followers, k)
        || (sets::does_vote(c.followers, i) && not_behind(c.servers[i], c.servers[k]))
}

// Whether server i's term is not below server k's.
#[tactic(auto, unfolding(crate::specs::Plan::not_older))]
fn not_older(c: Cluster, i: usize, k: usize) -> bool
    requires { (i < most_servers) × (k < most_servers) }
    ensures { result ≡ not_older c i k }
{
    c.servers[k].head.term <= c.servers[i].head.term
}

// The lowest of so many servers that holds its own against each after it.
fn best_of<F: Fn(usize, usize) -> bool>(size: usize, holds_own: F) -> usize
    requires small { size ≤ most_servers }
    requires callable { (i : _) (k : _) → i < most_servers → k < most_servers → F.pre holds_own i k }
    ensures { (h : ℕ → ℕ → Bool) → AnswersAs (F.post holds_own) h → result ≡ best h (size - 1) }
{
    let mut a = 0;
    for i in 1..size {
        if !holds_own(a, i) {
            a = i;
        }
    }
    a
}

// The server with the greatest term, the lowest of them.
fn newest_server(c: Cluster) -> usize
    ensures { result ≡ newest_server c }
{
    best_of(cluster::server_count(c.count), |i, k| not_older(c, i, k))
}

// The voter that is to lead: the lowest of those with the greatest last term, then length.
fn chosen(c: Cluster) -> usize
    ensures { result ≡ chosen c }
{
    best_of(cluster::server_count(c.count), |i, k| may_lead(c, i, k))
}

// All voters, as a set.
fn all_voters(c: Cluster) -> u8
    ensures { result ≡ all_voters c }
{
    let mut set: u8 = 0;
    for i in (0..cluster::server_count(c.count)).rev() {
        set = set * 2 + u8::from(sets::does_vote(c.followers, i));
    }
    set
}

// No frames, and an answer.
fn no_frames(answer: Answer) -> Planned
    ensures { result ≡ no_frames answer }
{
    Planned {
        frames: [ZERO_FRAME; MOST_FRAMES],
        count: 0,
        answer,
    }
}

// The step, tried on the record.
fn tried(w: Work, s: Step) -> Work
    ensures { result ≡ tried_of w s }
{
    let p = w.plan;
    let told = p.answer;
    if steps::is_refused(told) {
        return w;
    }
    let n = p.count;
    if MOST_FRAMES <= n {
        return w;
    }
    let c = w.cluster;
    let o = rules::step(c, s);
    let answer = o.answer;
    if steps::is_refused(answer) {
        return Work {
            cluster: c,
            plan: no_frames(answer),
        };
    }
    let f = frames::frame_for(s);
    let mut q = p;
    q.frames[n] = f;
    q.count = n + 1;
    let d = o.cluster;
    Work {
        cluster: d,
        plan: q,
    }
}

// The pull of a from b, or the rollback where that is refused.
fn copied(w: Work, a: u8, b: u8) -> Work
    ensures { result ≡ tried_of w (copies a b w.cluster) }
{
    let c = w.cluster;
    let pull = Step::Pulls(a, b);
    let o = rules::step(c, pull);
    let answer = o.answer;
    if steps::is_refused(answer) {
        return tried(w, Step::RollsBack(a, b));
    }
    tried(w, pull)
}

// The moves of a line, one for each of m numbers.
fn each_turn<F: Fn(Work, usize) -> Work>(w: Work, m: usize, turn: F) -> Work
    requires few { m ≤ most_servers }
    requires callable { (v : _) (k : _) → k < most_servers → F.pre turn v k }
    ensures { (move : ℕ → Move) → Tries (F.post turn) move → result ≡ work_of w (turns move 0 m) }
{
    let mut v = w;
    for k in 0..m {
        v = turn(v, k);
    }
    v
}

// How many servers there are but one.
fn others_of(c: Cluster) -> usize
    ensures { result ≡ others c }
{
    cluster::server_count(c.count).saturating_sub(1)
}

// Whether the term, the wall clock and the numbers of the cluster time may grow.
#[tactic(auto, unfolding(crate::specs::Making::is_low))]
fn is_low(h: Head) -> bool
    ensures { result ≡ is_low h }
{
    h.term < clock::LIMIT
        && h.wall < clock::LIMIT
        && h.time.p < clock::LIMIT
        && h.time.l < clock::LIMIT
}

// Whether every counted log has room.
fn all_room(c: Cluster) -> bool
    ensures { result ≡ all_room c }
{
    let size = cluster::server_count(c.count);
    c.servers[..size]
        .iter()
        .all(|s| server_log::has_room(s.log))
}

// Whether every counted server has numbers that may grow.
fn all_low(c: Cluster) -> bool
    ensures { result ≡ all_low c }
{
    let size = cluster::server_count(c.count);
    c.servers[..size].iter().all(|s| is_low(s.head))
}

// The first line: a hears b, who has the greatest term, where its own is below that.
fn heard_first(c: Cluster, a: usize) -> Work
    requires { a < most_servers }
    ensures { result ≡ work_of (begun_of c) (hearing c a) }
{
    let b = newest_server(c);
    let w = Work {
        cluster: c,
        plan: no_frames(Answer::Done),
    };
    if not_older(c, a, b) {
        return w;
    }
    tried(w, Step::Hears(a as u8, b as u8))
}

// The first three lines.
fn opened(c: Cluster, a: usize, key: u8, value: u16) -> Work
    requires { a < most_servers }
    ensures { result ≡ opened_of c a key value }
{
    let v = heard_first(c, a);
    let w = tried(v, Step::Elect(a as u8, all_voters(c)));
    tried(w, Step::Writes(a as u8, key, value, clock::ZERO_TIME))
}

// The other four.
fn closed(w: Work, a: usize, m: usize) -> Work
    requires { (m ≤ most_servers) × (a < most_servers) }
    ensures { result ≡ closed_of w a m }
{
    let lead = a as u8;
    let v = each_turn(w, m, |v, k| copied(v, other_of(a, k), lead));
    let u = each_turn(v, m, |v, _| tried(v, Step::TakesReport(lead)));
    let t = tried(u, Step::Advances(lead));
    each_turn(t, m, |v, k| tried(v, Step::Hears(other_of(a, k), lead)))
}

// The plan's frames, or why there are none.
pub fn plan(c: Cluster, key: u8, value: u16) -> Planned
    ensures { result ≡ planned_of c key value }
{
    if !cluster::well_formed(c) {
        return no_frames(Answer::Refused(Refusal::IllFormed));
    }
    if server_log::HIGHEST_KEY < key {
        return no_frames(Answer::Refused(Refusal::OutOfRange));
    }
    if value < 1 {
        return no_frames(Answer::Refused(Refusal::OutOfRange));
    }
    if !all_room(c) {
        return no_frames(Answer::Refused(Refusal::LogFull));
    }
    if !all_low(c) {
        return no_frames(Answer::Refused(Refusal::AtLimit));
    }
    let a = chosen(c);
    let w = closed(opened(c, a, key, value), a, others_of(c));
    w.plan
}
