// The parts of the sentence that stand in several of its forms, and what is said on standard error where something can't be read.
use clock::Time;
use std::fmt::{self, Display, Write};
use streams::Streams;

// The value for a key at a time.
#[derive(Clone, Copy)]
pub(crate) struct Valued {
    pub key: u8,
    pub value: u16,
    pub time: Time,
}

impl Display for Valued {
    fn fmt<W: Write>(&self, f: &mut fmt::Formatter<W>) -> fmt::Result {
        write!(
            f,
            "value {} for key {} at time {}",
            self.value, self.key, self.time
        )
    }
}

pub(crate) fn cannot_read_steps(streams: &Streams) {
    streams.eprint("check: the step lines can't be read to their end\n");
}

pub(crate) fn cannot_read_phones(streams: &Streams) {
    streams.eprint("check: the phones' records can't be read to their end\n");
}
