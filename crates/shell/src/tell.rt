// Refusal 2 in words: the server, what stands there and what may. Numbers are decimal, limits are the constants and the edition's.
use crate::faults::{Fault, OfEntry, OfServer, OfTold};
use crate::say;
use cluster::{FEWEST_SERVERS, FEWEST_VOTERS, MOST_SERVERS};
use server_log::{HIGHEST_KEY, NO_KEY};
use std::fmt::{self, Display};
use steps::Refusal;
use streams::Streams;

// The line and the fault; no record is saved so that has none.
pub(crate) fn ill_formed(streams: &Streams, first: Option<(usize, Fault)>) {
    say::nothing_loaded(streams, Refusal::IllFormed);
    match first {
        Some((line, fault)) => streams.eprint(format_args!("line {line}: {fault}\n")),
        None => streams.eprint("no record is saved so\n"),
    }
}

impl Display for Fault {
    fn fmt<W: fmt::Write>(&self, f: &mut fmt::Formatter<W>) -> fmt::Result {
        match *self {
            Fault::Count(count) => write!(
                f,
                "the server count is {count}, and a cluster has {FEWEST_SERVERS} to {MOST_SERVERS} servers"
            ),
            Fault::NoSuchFollower { follower, count } => write!(
                f,
                "server {follower} is a follower, but there are {count} servers, numbered from 0"
            ),
            Fault::Voters(voters) => write!(
                f,
                "the servers that are no followers are {voters}, and at least {FEWEST_VOTERS} have to vote"
            ),
            Fault::Server { server, of } => write!(f, "server {server}: {of}"),
            Fault::Entry { server, entry, of } => {
                write!(f, "server {server}, entry {entry}: {of}")
            }
            Fault::Note { server, who, of } => {
                write!(f, "server {server}, note of server {who}: {of}")
            }
            Fault::Report {
                server,
                report,
                who,
                of,
            } => write!(f, "server {server}, report {report} of server {who}: {of}"),
        }
    }
}

impl Display for OfServer {
    fn fmt<W: fmt::Write>(&self, f: &mut fmt::Formatter<W>) -> fmt::Result {
        match *self {
            OfServer::Entries { entries, edition } => write!(
                f,
                "its log has {entries} entries, but edition {edition} has at most {}",
                saved::limits_of(edition).entries
            ),
            OfServer::Notes { notes, count } => {
                write!(f, "it has {notes} notes, and there are {count} servers")
            }
            OfServer::Reports(reports) => write!(
                f,
                "its queue has {reports} reports, and a queue has at most {}",
                mail::QUEUE_LIMIT
            ),
            OfServer::NoSuchSource { source, count } => write!(
                f,
                "its source is server {source}, and there are {count} servers"
            ),
            OfServer::OwnSource => {
                f.write_str("its source is itself, and should be another server or none")
            }
            OfServer::Role(role) => write!(
                f,
                "its role is {role}, and a role is 0 (secondary) or 1 (primary)"
            ),
            OfServer::Follower => {
                f.write_str("it is a follower and primary, and a follower never is")
            }
            OfServer::NoTerm => {
                f.write_str("it is primary in term 0, and a primary's term is at least 1")
            }
            OfServer::Commit { commit, entries } => write!(
                f,
                "its commit point is {commit}, and the entries in its log are {entries}"
            ),
            OfServer::NoWall => f.write_str("its wall clock is 0, and a wall clock is at least 1"),
        }
    }
}

impl Display for OfEntry {
    fn fmt<W: fmt::Write>(&self, f: &mut fmt::Formatter<W>) -> fmt::Result {
        match *self {
            OfEntry::NoTerm => f.write_str("its term is 0, and an entry's term is at least 1"),
            OfEntry::TermFalls { term, before } => {
                write!(f, "its term is {term}, below the one before, {before}")
            }
            OfEntry::TermAbove { term, most } => {
                write!(f, "its term is {term}, above its server's, {most}")
            }
            OfEntry::Key(key) => write!(
                f,
                "its key is {key}, and a key is 0 to {HIGHEST_KEY}, or {NO_KEY} where nothing is written"
            ),
            OfEntry::NoValue => {
                f.write_str("its value is 0, and an entry for a key has at least 1")
            }
            OfEntry::Unwritten(value) => {
                write!(f, "its value is {value}, and with key {NO_KEY} it is 0")
            }
            OfEntry::TimeStays { time, before } => {
                write!(f, "its time is {time}, not after the one before, {before}")
            }
            OfEntry::TimeAbove { time, most } => write!(
                f,
                "its time is {time}, after its server's cluster time, {most}"
            ),
        }
    }
}

impl Display for OfTold {
    fn fmt<W: fmt::Write>(&self, f: &mut fmt::Formatter<W>) -> fmt::Result {
        match *self {
            OfTold::NoSuchServer { count } => {
                write!(f, "there are {count} servers, numbered from 0")
            }
            OfTold::Follows(noted) => write!(
                f,
                "it stands after that of server {noted}, and each server's note stands once, in the order of their numbers"
            ),
            OfTold::Zero => f.write_str("it is zero, and a zero note isn't saved"),
            OfTold::NoLast => f.write_str("its last term is 0, and should be at least 1"),
            OfTold::LastAbove { last, term } => {
                write!(f, "its last term is {last}, above its term, {term}")
            }
            OfTold::NoLength => f.write_str("its length is 0, and should be at least 1"),
            OfTold::Length { length, edition } => write!(
                f,
                "its length is {length}, but edition {edition} has positions up to {}",
                saved::limits_of(edition).positions
            ),
        }
    }
}
