// The streams that a program reads and writes, thin over the library's: an input is read to its end piece by piece, and a write tells whether all
// went well. A program that writes where nobody reads any more has nothing to say, and ends with the status that tells so.
#![tactic(auto)]

ghost use Rattle.std.specs.Prelude.{◌≡◌, ◌<◌, ◌≤◌, ◌↔◌, ℕ, List, [], length, take, Bool, true, false, Some, Err, IfSome, IsTrue, IsOk};
ghost use Rattle.io.specs.Counts.{IsPrefixLen};
ghost use Rattle.lines.specs.Turns.{most_piece, closed_by, TurnsBy, DrainsBy};

use lines::{Broke, End, PIECE};
use std::cell::Cell;
use std::fmt::Display;
use std::fs::{File, OpenOptions};
use std::io::{ErrorKind, Print, Read, Write};
use std::process::ExitCode;
use std::rt::{Files, Stderr, Stdin, Stdout};

// The status of a program that writes where nobody reads any more: a shell gives it to one that the signal of that ended.
const NOBODY_READS: u8 = 141;

// Standard input, standard output and standard error, and whether one that is written has nobody who reads it any more.
#[derive(Drop)]
pub struct Streams {
    input: Stdin,
    output: Stdout,
    error: Stderr,
    unread: Cell<bool>,
}

// What is read to its end: standard input, a file that was opened, or nothing where none could be.
#[derive(Drop)]
pub enum Source {
    Input(Stdin),
    Opened(File),
    Closed,
}

// What takes an input piece by piece: what a piece does to its state, whatever else it keeps, and whether it writes anything.
pub trait Taker {
    type State;

    ghost state: { Self → Self.State };

    ghost over: { Self.State → List ℕ → Self.State };

    ghost writes: { Bool };

    // One piece more; whether all that it comes to could be written.
    fn take(&mut self, piece: &[u8]) -> bool
        requires { length piece.now ≤ most_piece }
        ensures taken { state self.new ≡ over (state self.old) piece.now }
        ensures written { result ≡ false → writes ≡ true };

    ghost over_nothing: { (s : Self.State) → over s [] ≡ s };
}

// How an input ends with a turn that read something, by whether all that this comes to could be written.
fn closed(wrote: bool) -> Option<End>
    ensures { result ≡ closed_by wrote }
{
    if wrote {
        None
    } else {
        Some(Err(Broke::CannotWrite))
    }
}

// One turn with what a read answered, and how the input ends, where it does: a short piece is a piece like any other, and only none at all is the end.
pub fn turn<T: Taker>(taker: &mut T, buffer: &[u8; PIECE], got: Option<usize>) -> Option<End>
    ensures turns { TurnsBy T.over (T.state taker.old) buffer.now got (T.state taker.new) result }
    ensures written { result ≡ Some (Err Broke.CannotWrite) → T.writes ≡ true }
{
    match got {
        None => Some(Err(Broke::CannotRead)),
        Some(0) => Some(Ok(())),
        Some(n) => closed(taker.take(&buffer[..n.min(PIECE)])),
    }
}

// An input to its end. The count of turns only makes the loop end: nobody lives to see it run out.
pub fn drain<R: Read, T: Taker>(from: &mut R, taker: &mut T) -> End
    ensures drains { DrainsBy T.over (T.state taker.old) (T.state taker.new) result }
    ensures written { result ≡ Err Broke.CannotWrite → T.writes ≡ true }
{
    for _ in 0..u64::MAX {
        let mut buffer = [0; PIECE];
        let got = from.read(&mut buffer).ok();
        if let Some(end) = turn(taker, &buffer, got) {
            return end;
        }
    }
    Err(Broke::More)
}

// Reads until the buffer is full, the input ends or a read fails: how many bytes it put at the start of the buffer.
pub fn read_full<R: Read>(from: &mut R, buffer: &mut [u8]) -> usize
    ensures { IsPrefixLen result buffer.new }
{
    let mut done: usize = 0;
    // Kept: a `while`, since a read gives as many bytes as it likes.
    while done < buffer.len() {
        match from.read(&mut buffer[done..]) {
            Ok(n) if n > 0 => done += n,
            _ => return done,
        }
    }
    done
}

// What stands at a path to be read, as /dev/fd/7 does for what is open at descriptor 7.
pub fn open<R: Files<File = File>>(files: &R, path: &str) -> Source {
    match File::open(files, path) {
        Ok(file) => Source::Opened(file),
        Err(_) => Source::Closed,
    }
}

// Writes all of it to what stands at a path and can be written; whether that went well is for the streams to tell.
pub fn write_to<R: Files>(files: &R, path: &str, bytes: &[u8]) -> std::io::Result<()> {
    let mut how = OpenOptions::new();
    how.write(true);
    let mut file = how.open(files, path)?;
    file.write_all(bytes)
}

impl Read for Source {
    // A read of what is closed fails.
    fn read(&mut self, buffer: &mut [u8]) -> std::io::Result<usize> {
        match self {
            Source::Input(input) => input.read(buffer),
            Source::Opened(file) => file.read(buffer),
            Source::Closed => Err(ErrorKind::NotFound.into()),
        }
    }
}

impl Source {
    // Reads until the buffer is full, the input ends or a read fails: how many bytes it put at the start of the buffer.
    pub fn read_full(&mut self, buffer: &mut [u8]) -> usize
        ensures { IsPrefixLen result buffer.new }
    {
        read_full(self, buffer)
    }
}

impl Streams {
    pub fn new(input: Stdin, output: Stdout, error: Stderr) -> Streams {
        Streams {
            input,
            output,
            error,
            unread: Cell::new(false),
        }
    }

    // Standard input, for what reads any source.
    pub fn input(&self) -> Source {
        Source::Input(self.input)
    }

    // What a read of standard input answered.
    pub fn read(&self, buffer: &mut [u8]) -> std::io::Result<usize> {
        let mut from = self.input;
        from.read(buffer)
    }

    // All of standard input; none where that fills the buffer, since it may have been cut.
    pub fn read_all<'a>(&self, text: &'a mut [u8]) -> Option<&'a [u8]>
        ensures { IfSome result (λ t. length t.now < length text.old) }
    {
        let n = self.input().read_full(text);
        if n < text.len() {
            Some(&text[..n])
        } else {
            None
        }
    }

    // Whether what was written went well.
    pub fn went_well(&self, wrote: std::io::Result<()>) -> bool
        ensures { IsTrue result ↔ IsOk wrote }
    {
        match wrote {
            Ok(()) => true,
            Err(e) => {
                if e.kind() == ErrorKind::BrokenPipe {
                    self.unread.set(true);
                }
                false
            }
        }
    }

    // Writes all of it to standard output; whether that went well.
    pub fn write(&self, bytes: &[u8]) -> bool {
        self.went_well(self.output.write_all(bytes))
    }

    // The first n bytes of a buffer alone, none where it has fewer; whether they were there and that went well.
    pub fn write_first(&self, buffer: &[u8], n: usize) -> bool {
        buffer.get(..n).is_some_and(|bytes| self.write(bytes))
    }

    // Writes what is displayed to standard output, in one go where it is short; whether that went well.
    pub fn print<D: Display + Drop>(&self, words: D) -> bool {
        self.went_well(self.output.print(words))
    }

    // Says what is displayed on standard error, in one go where it is short, unless nobody reads.
    pub fn eprint<D: Display + Drop>(&self, words: D) {
        if !self.unread.get() {
            self.went_well(self.error.print(words));
        }
    }

    // How the program ends.
    pub fn status(&self) -> ExitCode {
        if self.unread.get() {
            ExitCode::from(NOBODY_READS)
        } else {
            ExitCode::SUCCESS
        }
    }
}
