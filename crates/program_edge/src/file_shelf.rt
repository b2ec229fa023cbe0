ghost use Rattle.std.specs.Prelude.{◌≡◌};

use crate::shelf::{Shelf, ShelfErr};
use std::fs;
use std::io::{self, ErrorKind, Read};
use std::marker::Model;
use std::rt::Files;

/// A file is given up after so many reads.
const MOST_READS: u64 = 4_294_967_296;

/// The system's files, of whose bytes it tells nothing. Contracts see how often a call has failed.
#[derive(Drop)]
pub struct FileShelf<'a, R> {
    rt: &'a R,
    faults: u64,
}

impl<'a, R> Model for FileShelf<'a, R> {
    ghost use Rattle.std.specs.Prelude.{ℕ};

    ghost Value = { ℕ };

    ghost view = { λ s. s.faults };
}

impl<'a, R> FileShelf<'a, R> {
    /// The files of this runtime. It takes no memory.
    pub fn make(rt: &'a R) -> FileShelf<'a, R>
        ensures { result ≡ 0 }
    {
        FileShelf { rt, faults: 0 }
    }
}

fn fault_of(error: &io::Error) -> ShelfErr {
    match error.kind() {
        ErrorKind::NotFound => ShelfErr::NotThere,
        ErrorKind::OutOfMemory => ShelfErr::NoMemory,
        _ => ShelfErr::Failed,
    }
}

fn read_all<F: Read>(file: &mut F, into: &mut Vec<u8>) -> Result<(), ShelfErr> {
    let mut buffer = [0u8; 65_536];
    for _ in 0..MOST_READS {
        match file.read(&mut buffer) {
            Ok(0) => return Ok(()),
            Ok(count) => {
                if into.extend_from_slice(&buffer[..count]).is_err() {
                    return Err(ShelfErr::NoMemory);
                }
            }
            Err(error) => {
                if error.kind() != ErrorKind::Interrupted {
                    return Err(fault_of(&error));
                }
            }
        }
    }
    Err(ShelfErr::Failed)
}

fn read_file<R: Files>(rt: &R, name: &str, into: &mut Vec<u8>) -> Result<(), ShelfErr> {
    match fs::open(rt, name) {
        Ok(mut file) => read_all(&mut file, into),
        Err(error) => Err(fault_of(&error)),
    }
}

impl<'a, R: Files> Shelf for FileShelf<'a, R> {
    ghost use Rattle.std.specs.Prelude.{None};

    ghost holds = { λ _. None };

    ghost faults = { λ s. s };

    fn fetch(&mut self, name: &str, into: &mut Vec<u8>) -> Result<(), ShelfErr> {
        into.clear();
        match read_file(self.rt, name, into) {
            Ok(()) => Ok(()),
            Err(ShelfErr::Failed) => {
                into.clear();
                self.faults = self.faults.saturating_add(1);
                Err(ShelfErr::Failed)
            }
            Err(error) => {
                into.clear();
                Err(error)
            }
        }
    }
}
