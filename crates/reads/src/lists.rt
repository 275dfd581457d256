// All sixteen values of a server at once, with their time: no walk, whatever the log's length.
ghost use Rattle.std.specs.Prelude.{◌≡◌};
ghost use Rattle.server_log.specs.Rows.{value_for};
ghost use Rattle.steps.specs.declared.Answer.TheVariants.{Value};
ghost use Rattle.steps.specs.Answers.{answering, refusing};
ghost use Rattle.steps.specs.Refusals.{decided};
ghost use Rattle.reads.specs.Lists.{whole_list, committed_list};
ghost use Rattle.reads.specs.LocalRead.{read_rules};

use clock::Time;
use cluster::Server;
use server_log::rows::Latest;
use steps::{Answer, Refusal, Stepped};

#[derive(Clone, Copy)]
pub struct Listed {
    pub latest: Latest,
    pub time: Time,
}

// Of the whole log: what kind 10 would answer for each key.
pub fn whole_list(s: Server) -> Listed
    ensures { result ≡ whole_list s }
{
    Listed {
        latest: s.rows.whole,
        time: server_log::applied_time(s.log),
    }
}

// Of the committed beginning: what kind 11 would answer for each key.
// Kept: beside `whole_list`, since each differs from the other in both fields and has a row of its own in docs/PROMISES.md.
pub fn committed_list(s: Server) -> Listed
    ensures { result ≡ committed_list s }
{
    Listed {
        latest: s.rows.committed,
        time: server_log::time_at(s.log, s.head.commit),
    }
}

// What a read of a key in such values answers: kinds 10 and 11, each in its own.
pub(crate) fn read_in(s: Server, listed: Listed, key: u8, asked: Time) -> Stepped
    ensures { result ≡ decided (refusing s) (answering s (Value (value_for listed.latest key) listed.time)) (read_rules key listed.time asked) }
{
    if server_log::HIGHEST_KEY < key {
        return steps::refuse(s, Refusal::OutOfRange);
    }
    if clock::is_before(listed.time, asked) {
        return steps::refuse(s, Refusal::NotYet);
    }
    let value = server_log::rows::value_for(listed.latest, key);
    steps::answered(s, Answer::Value(value, listed.time))
}
