ghost use Rattle.std.specs.Prelude.{◌≡◌, ◌≤◌, IsErrOf};
ghost use Rattle.base_types.specs.Faults.{Rose};
ghost use Rattle.program_edge.specs.Sinks.{KeepsUnlessFailed};

use crate::sink::{Sink, SinkErr};
use std::io::{self, ErrorKind, Write};
use std::marker::Model;

/// So many bytes are gathered before they are written.
const CAPACITY: usize = 65_536;

/// An output is given up after so many writes of one piece.
const MOST_WRITES: u64 = 4_294_967_296;

/// Standard output, of whose bytes it tells nothing. Contracts see how often a call has failed.
///
/// Pieces are gathered in a buffer of its own and written where it is full, and at `finish`. It takes no memory and
/// never answers NoMemory.
#[derive(Drop)]
pub struct OutSink<'a, R> {
    rt: &'a R,
    buffer: [u8; CAPACITY],
    held: usize,
    faults: u64,
}

impl<'a, R> Model for OutSink<'a, R> {
    ghost use Rattle.std.specs.Prelude.{ℕ, ◌≤◌};

    ghost Value = { ℕ };

    ghost view = { λ s. s.faults };

    ghost invariant = { λ s. s.held ≤ 65536 };
}

/// Whether all of the bytes were written.
fn write_all<R: Print>(rt: &R, bytes: &[u8]) -> bool {
    let mut writer = io::writer(rt);
    let mut rest = bytes;
    for _ in 0..MOST_WRITES {
        if rest.is_empty() {
            return true;
        }
        match writer.write(rest) {
            Ok(0) => return false,
            Ok(count) => rest = &rest[count..],
            Err(error) => {
                if error.kind() != ErrorKind::Interrupted {
                    return false;
                }
            }
        }
    }
    false
}

impl<'a, R> OutSink<'a, R> {
    /// The standard output of this runtime, with nothing gathered.
    pub fn make(rt: &'a R) -> OutSink<'a, R>
        ensures { result ≡ 0 }
    {
        OutSink {
            rt,
            buffer: [0; CAPACITY],
            held: 0,
            faults: 0,
        }
    }
}

impl<'a, R: Print> OutSink<'a, R> {
    fn written(&mut self, done: bool) -> Result<(), SinkErr>
        ensures never_falls { self.old ≤ self.new }
        ensures failed { IsErrOf result SinkErr.Failed → Rose self.old self.new }
        ensures memory { IsErrOf result SinkErr.NoMemory → ⊥ }
        ensures kept { KeepsUnlessFailed self.old self.new result }
    {
        if done {
            return Ok(());
        }
        self.faults = self.faults.saturating_add(1);
        Err(SinkErr::Failed)
    }

    /// Writes what is gathered. After the last `put` it is called once; without it the end of the output is lost.
    pub fn finish(&mut self) -> Result<(), SinkErr>
        ensures never_falls { self.old ≤ self.new }
        ensures failed { IsErrOf result SinkErr.Failed → Rose self.old self.new }
        ensures memory { IsErrOf result SinkErr.NoMemory → ⊥ }
        ensures kept { KeepsUnlessFailed self.old self.new result }
    {
        let done = write_all(self.rt, &self.buffer[..self.held]);
        self.held = 0;
        self.written(done)
    }
}

impl<'a, R: Print> Sink for OutSink<'a, R> {
    ghost use Rattle.std.specs.Prelude.{None};

    ghost written = { λ _. None };

    ghost faults = { λ s. s };

    fn put(&mut self, piece: &[u8]) -> Result<(), SinkErr>
        ensures never_falls { self.old ≤ self.new }
        ensures failed { IsErrOf result SinkErr.Failed → Rose self.old self.new }
        ensures memory { IsErrOf result SinkErr.NoMemory → ⊥ }
        ensures kept { KeepsUnlessFailed self.old self.new result }
    {
        if piece.len() > CAPACITY - self.held {
            self.finish()?;
        }
        // The buffer is empty here, and too small for the piece.
        if piece.len() > CAPACITY - self.held {
            let done = write_all(self.rt, piece);
            return self.written(done);
        }
        let end = self.held + piece.len();
        self.buffer[self.held..end].copy_from_slice(piece);
        self.held = end;
        Ok(())
    }
}
