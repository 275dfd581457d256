// The step: a record and a step in, the next record and an answer out, for every record and every step.
#![tactic(auto)]

ghost use Rattle.std.specs.Prelude.{◌≡◌};
ghost use Rattle.rules.specs.Rules.{delivered, put_back, is_start, core_of, step_of};
ghost use Rattle.rules.specs.One.{untouched_of, one_of, single_of, pair_of};

use cluster::{Cluster, Server};
use counts::advances::advances;
use pairs::hears::hears;
use pairs::pulls::pulls;
use pairs::rolls_back::rolls_back;
use reads::acknowledged::acknowledged;
use reads::local_read::local_read;
use reads::majority_read::majority_read;
use reads::newest_read::newest_read;
use singles::restarts::restarts;
use singles::steps_down::steps_down;
use singles::takes_report::takes_report;
use singles::wall_clock::wall_clock;
use singles::writes::writes;
use singles::writes_nothing::writes_nothing;
use steps::{Answer, Outcome, Refusal, Sent, Step, Stepped};
use wholes::clocks_agree::clocks_agree;
use wholes::elects::elects;
use wholes::starts::starts;

// The server as it is, with nothing to tell.
pub fn untouched(s: Server) -> Stepped
    ensures { result ≡ untouched_of s }
{
    steps::answered(s, Answer::Done)
}

// The kinds that change one server: server s of so many, looking at t, takes the step. A step of the whole cluster leaves it as it is.
#[tactic(auto, unfolding(crate::specs::One::one_of))]
pub fn one(size: usize, s: Server, t: Server, step: Step) -> Stepped
    ensures { result ≡ one_of size s t step }
{
    match step {
        Step::StepDown(_) => steps_down(s),
        Step::Hears(_, _) => hears(s, t),
        Step::Pulls(a, b) => pulls(s, t, a, b),
        Step::RollsBack(a, b) => rolls_back(s, t, a, b),
        Step::Writes(_, key, value, client) => writes(s, key, value, client),
        Step::WallClock(_) => wall_clock(s),
        Step::Restarts(_) => restarts(s),
        Step::LocalRead(_, key, asked) => local_read(s, key, asked),
        Step::MajorityRead(_, key, asked) => majority_read(s, key, asked),
        Step::Acknowledged(_, k, n, term) => acknowledged(
            size,
            s,
            usize::from(k),
            usize::from(n),
            term,
        ),
        Step::WritesNothing(_) => writes_nothing(s),
        Step::NewestRead(_, key, n, term) => newest_read(s, key, usize::from(n), term),
        Step::TakesReport(_) => takes_report(s),
        Step::Start(_, _) => untouched(s),
        Step::Elect(_, _) => untouched(s),
        Step::Advances(_) => untouched(s),
        Step::ClocksAgree => untouched(s),
    }
}

// The record with what a step sends delivered.
#[tactic(auto, unfolding(crate::specs::Rules::delivered))]
pub fn deliver(c: Cluster, sends: Option<Sent>) -> Cluster
    ensures { result ≡ delivered c sends }
{
    let Some(Sent { to: b, report: r }) = sends else {
        return c;
    };
    if cluster::MOST_SERVERS <= b {
        return c;
    }
    let t = c.servers[b];
    let told = mail::received(t.mail, r);
    cluster::with_server(c, b, Server { mail: told, ..t })
}

// The record with server a as a step left it, and what it sends delivered.
pub fn put_back(c: Cluster, a: usize, o: Stepped) -> Outcome
    ensures { result ≡ put_back c a o }
{
    let d = cluster::with_server(c, a, o.server);
    Outcome {
        cluster: deliver(d, o.sends),
        answer: o.answer,
    }
}

// A step of server a alone.
// Kept: beside `replay::plan_alone`, which makes a plan where this steps the record; `plan_of` and `single_of` differ so.
#[tactic(auto, unfolding(crate::specs::One::single_of))]
pub fn single(c: Cluster, a: usize, step: Step) -> Outcome
    ensures { result ≡ single_of c a step }
{
    let size = cluster::server_count(c.count);
    if size <= a {
        return steps::refuse_all(c, Refusal::OutOfRange);
    }
    let s = c.servers[a];
    put_back(c, a, one(size, s, s, step))
}

// A step of server a that looks at server b.
#[tactic(auto, unfolding(crate::specs::One::pair_of))]
pub fn pair(c: Cluster, a: usize, b: usize, step: Step) -> Outcome
    ensures { result ≡ pair_of c a b step }
{
    let size = cluster::server_count(c.count);
    if size <= a || size <= b || a == b {
        return steps::refuse_all(c, Refusal::OutOfRange);
    }
    let s = c.servers[a];
    let t = c.servers[b];
    put_back(c, a, one(size, s, t, step))
}

// The step on a record that is not looked at. Here the servers' numbers of a step are widened.
#[tactic(auto, using(crate::proofs::Parts::placed_kinds), unfolding(crate::specs::Rules::core_of, crate::specs::Rules::row_of))]
pub fn core(c: Cluster, step: Step) -> Outcome
    ensures { result ≡ core_of c step }
{
    match step {
        Step::Start(n, followers) => starts(c, usize::from(n), followers),
        Step::Elect(a, set) => elects(c, usize::from(a), set),
        Step::StepDown(a) => single(c, usize::from(a), step),
        Step::Hears(a, b) => pair(c, usize::from(a), usize::from(b), step),
        Step::Pulls(a, b) => pair(c, usize::from(a), usize::from(b), step),
        Step::RollsBack(a, b) => pair(c, usize::from(a), usize::from(b), step),
        Step::Writes(a, _, _, _) => single(c, usize::from(a), step),
        Step::Advances(a) => advances(c, usize::from(a)),
        Step::WallClock(a) => single(c, usize::from(a), step),
        Step::Restarts(a) => single(c, usize::from(a), step),
        Step::LocalRead(a, _, _) => single(c, usize::from(a), step),
        Step::MajorityRead(a, _, _) => single(c, usize::from(a), step),
        Step::Acknowledged(a, _, _, _) => single(c, usize::from(a), step),
        Step::ClocksAgree => clocks_agree(c),
        Step::WritesNothing(a) => single(c, usize::from(a), step),
        Step::NewestRead(a, _, _, _) => single(c, usize::from(a), step),
        Step::TakesReport(a) => single(c, usize::from(a), step),
    }
}

pub fn is_start(step: Step) -> bool
    ensures { result ≡ is_start step }
{
    matches!(step, Step::Start(_, _))
}

// The step on any record at all.
#[tactic(auto, unfolding(crate::specs::Rules::step_of))]
pub fn step(c: Cluster, step: Step) -> Outcome
    ensures { result ≡ step_of c step }
{
    if is_start(step) {
        return core(c, step);
    }
    if !cluster::well_formed(c) {
        return steps::refuse_all(c, Refusal::IllFormed);
    }
    core(c, step)
}
