// Servers side by side in one record, by value: the fixed records, one server replaced, all servers changed, and which records are well formed.
#![tactic(auto, unfolding(crate::specs::Servers::started_of, crate::specs::Servers::voted_of, crate::specs::Servers::clocked_of, crate::specs::Servers::rowed_of, crate::specs::WellFormed::numbers_ok, crate::specs::WellFormed::counted_ok, crate::specs::WellFormed::zero_ok, crate::specs::WellFormed::server_ok, crate::specs::WellFormed::size_ok, crate::specs::WellFormed::well_formed))]

ghost use Rattle.std.specs.Prelude.{◌≡◌, min};
ghost use Rattle.cluster.specs.Servers.{most_servers, fresh_server, zero_cluster, started_of, fresh_cluster, with_server, voted_of, elected_all, clocked_of, clocks_set, committed_to, rowed_of, rowed_all};
ghost use Rattle.cluster.specs.WellFormed.{numbers_ok, counted_ok, zero_ok, role_ok, server_ok, size_ok, well_formed};

use clock::Time;
use mail::Mail;
use server_log::Log;
use server_log::rows::{Latest, Rows};
use std::array;

pub mod sets;

// What a server keeps beside its log, apart from it so that a kind that touches no log is told of heads alone.
#[derive(Clone, Copy, PartialEq, Eq)]
pub struct Head {
    pub term: u16,
    pub primary: bool,
    pub commit: usize,
    pub wall: u16,
    pub time: Time,
}

// A step names what it changes, `Server { head: h, ..s }`.
#[derive(Clone, Copy, PartialEq, Eq)]
pub struct Server {
    pub head: Head,
    pub log: Log,
    pub mail: Mail,
    pub rows: Rows,
}

// How many servers there are, which of them are followers, and the servers.
#[derive(Clone, Copy, PartialEq, Eq)]
pub struct Cluster {
    pub count: usize,
    pub followers: u8,
    pub servers: [Server; MOST_SERVERS],
}

pub const FEWEST_SERVERS: usize = 2;

pub const MOST_SERVERS: usize = 7;

pub const FEWEST_VOTERS: usize = 2;

const ZERO_HEAD: Head = Head {
    term: 0,
    primary: false,
    commit: 0,
    wall: 0,
    time: clock::ZERO_TIME,
};

pub const ZERO_SERVER: Server = Server {
    head: ZERO_HEAD,
    log: server_log::EMPTY_LOG,
    mail: mail::ZERO_MAIL,
    rows: server_log::rows::ZERO_ROWS,
};

pub const FRESH_SERVER: Server = Server {
    head: Head {
        wall: 1,
        ..ZERO_HEAD
    },
    ..ZERO_SERVER
};

pub const ZERO_CLUSTER: Cluster = Cluster {
    count: 0,
    followers: 0,
    servers: [ZERO_SERVER; MOST_SERVERS],
};

pub fn fresh_server() -> Server
    ensures { result ≡ fresh_server }
{
    FRESH_SERVER
}

// The server count, cut at seven.
pub fn server_count(count: usize) -> usize
    ensures { result ≡ min count most_servers }
{
    count.min(MOST_SERVERS)
}

// The record before the first start.
pub fn zero_cluster() -> Cluster
    ensures { result ≡ zero_cluster }
{
    ZERO_CLUSTER
}

// Server i of a fresh cluster of n: fresh, or as it was past the count.
pub fn started(s: Server, i: usize, n: usize) -> Server
    ensures { result ≡ started_of n i s }
{
    if i < n { fresh_server() } else { s }
}

// The record with server i replaced; past the servers nothing is.
pub fn with_server(c: Cluster, i: usize, s: Server) -> Cluster
    ensures { result ≡ with_server c i s }
{
    let mut d = c;
    if i < MOST_SERVERS {
        d.servers[i] = s;
    }
    d
}

// Server i after an election of a by the set: a member has the new term, and only a is primary, with nothing told yet.
pub fn voted(s: Server, i: usize, a: usize, set: u8, term: u16) -> Server
    ensures { result ≡ voted_of a set term i s }
{
    if !sets::is_member(set, i) {
        return s;
    }
    Server {
        head: Head {
            term,
            primary: i == a,
            ..s.head
        },
        mail: if i == a {
            mail::emptied(s.mail)
        } else {
            s.mail
        },
        ..s
    }
}

// Server i with this wall clock, where it is one of the first count.
pub fn clocked(s: Server, i: usize, count: usize, wall: u16) -> Server
    ensures { result ≡ clocked_of count wall i s }
{
    if i < count {
        Server {
            head: Head { wall, ..s.head },
            ..s
        }
    } else {
        s
    }
}

// The row of the committed beginning at commit point n, in the log g: brought up from the one before.
pub fn committed_to(s: Server, g: Log, n: usize) -> Latest
    ensures { result ≡ committed_to s g n }
{
    server_log::rows::latest_over(s.rows.committed, g, s.head.commit, n)
}

// The server with its rows worked out afresh.
pub fn rowed(s: Server) -> Server
    ensures { result ≡ rowed_of s }
{
    Server {
        rows: server_log::rows::rows_of(s.log, s.head.commit),
        ..s
    }
}

// The fresh cluster of n servers with these followers.
pub fn fresh_cluster(n: usize, followers: u8) -> Cluster
    ensures { result ≡ fresh_cluster n followers }
{
    Cluster {
        count: n,
        followers,
        servers: array::from_fn(|i| started(ZERO_SERVER, i, n)),
    }
}

// The record after an election of a by the set into the term.
pub fn elect_all(c: Cluster, a: usize, set: u8, term: u16) -> Cluster
    ensures { result ≡ elected_all c a set term }
{
    Cluster {
        servers: array::from_fn(|i| voted(c.servers[i], i, a, set, term)),
        ..c
    }
}

// The record with every counted server's wall clock set.
pub fn set_clocks(c: Cluster, wall: u16) -> Cluster
    ensures { result ≡ clocks_set c wall }
{
    Cluster {
        servers: array::from_fn(|i| clocked(c.servers[i], i, c.count, wall)),
        ..c
    }
}

// The record with every server's rows worked out afresh.
pub fn rowed_all(c: Cluster) -> Cluster
    ensures { result ≡ rowed_all c }
{
    Cluster {
        servers: array::from_fn(|i| rowed(c.servers[i])),
        ..c
    }
}

// Whether a counted server's commit point, wall clock and role are in range.
pub fn numbers_ok(s: Server) -> bool
    ensures { result ≡ numbers_ok s }
{
    s.head.commit <= server_log::length_of(s.log)
        && 1 <= s.head.wall
        && (!s.head.primary || 1 <= s.head.term)
}

// Whether a counted server may stand in a well-formed record.
pub fn counted_ok(s: Server) -> bool
    ensures { result ≡ counted_ok s }
{
    server_log::log_ok(s.log, s.head.term)
        && !clock::is_before(s.head.time, server_log::applied_time(s.log))
        && numbers_ok(s)
}

// Whether a server is zero, secondary.
pub fn zero_ok(s: Server) -> bool
    ensures { result ≡ zero_ok s }
{
    server_log::is_empty_log(s.log) && s.head == ZERO_HEAD
}

// Whether server i, if it is primary, is no follower.
fn role_ok(s: Server, followers: u8, i: usize) -> bool
    ensures { result ≡ role_ok followers i s }
{
    !s.head.primary || sets::does_vote(followers, i)
}

// Whether server i may stand there where so many are counted and these are the followers.
pub fn server_ok(s: Server, n: usize, followers: u8, i: usize) -> bool
    ensures { result ≡ server_ok n followers i s }
{
    if !server_log::rows::rows_ok(s.rows, s.log, s.head.commit) {
        return false;
    }
    if i < n {
        counted_ok(s) && mail::mail_ok(s.mail, n, i) && role_ok(s, followers, i)
    } else {
        zero_ok(s) && mail::mail_ok(s.mail, 0, i)
    }
}

// Whether a cluster may have so many servers, these of them followers.
pub fn size_ok(n: usize, followers: u8) -> bool
    ensures { result ≡ size_ok n followers }
{
    FEWEST_SERVERS <= n
        && n <= MOST_SERVERS
        && sets::within(followers, n)
        && FEWEST_VOTERS <= sets::voters(n, followers)
}

// Whether a record is well formed; total on any record at all.
pub fn well_formed(c: Cluster) -> bool
    ensures { result ≡ well_formed c }
{
    size_ok(c.count, c.followers)
        && c.servers
            .iter()
            .enumerate()
            .all(|(i, s)| server_ok(*s, c.count, c.followers, i))
}
