use program_edge::{
    Clock, FileShelf, FixedClock, HostClock, MemoryShelf, MemorySink, OutSink, Shelf, ShelfErr,
    Sink, SinkErr,
};
use std::alloc::Global;
use std::fs;
use std::test::Fail;

/// The files of a shelf, two of them of one name.
const FILES: &[(&str, &[u8])] = &[("t.csv", b"one"), ("u.csv", b""), ("t.csv", b"two")];

/// Of three puts the one that fails, counted from 1, and what is left of the pieces a, b and c.
const PUTS: &[(u64, &[u8])] = &[(1, b"bc"), (2, b"ac"), (3, b"ab"), (4, b"abc")];

/// The lengths of pieces, which go round the buffer of the output in each way.
const PIECES: &[usize] = &[1, 65_535, 2, 0, 65_536, 70_000];

fn files_of(alloc: Global) -> Result<Vec<(String, Vec<u8>)>, Fail> {
    let mut files = Vec::new(alloc);
    for file in FILES {
        let name = String::from_str(alloc, file.0)?;
        files.push((name, Vec::from_slice(alloc, file.1)?))?;
    }
    Ok(files)
}

/// Whether a fetch of t.csv into a list that holds something fails and leaves nothing, or else leaves the first file of the name.
fn fetches_so(shelf: &mut MemoryShelf, into: &mut Vec<u8>, fails: bool) -> bool {
    let answer = shelf.fetch("t.csv", into);
    if fails {
        answer == Err(ShelfErr::Failed) && into.is_empty()
    } else {
        answer == Ok(()) && into.as_slice() == b"one".as_slice()
    }
}

/// Whether of three fetches the one of this number alone fails.
fn fails_alone(alloc: Global, failing: u64) -> Result<bool, Fail> {
    let mut shelf = MemoryShelf::make(files_of(alloc)?, vec![in alloc; failing]?);
    let mut into = Vec::from_slice(alloc, b"old")?;
    let mut all = true;
    for call in 1..4u64 {
        all = fetches_so(&mut shelf, &mut into, call == failing) && all;
    }
    Ok(all)
}

#[test]
fn each_fetch_fails_alone_and_leaves_nothing(rt: HostRuntime) -> Result<(), Fail> {
    for failing in 1..4u64 {
        assert!(rt; fails_alone(rt.alloc(), failing)?, "fetch {failing}");
    }
    Ok(())
}

/// Whether a name that is not held is not there, and an empty file is.
fn finds_held_names_alone(alloc: Global) -> Result<bool, Fail> {
    let mut shelf = MemoryShelf::make(files_of(alloc)?, Vec::new(alloc));
    let mut into = Vec::from_slice(alloc, b"old")?;
    let absent = shelf.fetch("t.cs", &mut into) == Err(ShelfErr::NotThere) && into.is_empty();
    Ok(absent && shelf.fetch("u.csv", &mut into) == Ok(()) && into.is_empty())
}

#[test]
fn a_file_that_is_not_held_is_not_there(rt: HostRuntime) -> Result<(), Fail> {
    assert!(rt; finds_held_names_alone(rt.alloc())?);
    Ok(())
}

/// Whether a put answers so.
fn puts_so(sink: &mut MemorySink, piece: &[u8], fails: bool) -> bool {
    let answer = sink.put(piece);
    if fails {
        answer == Err(SinkErr::Failed)
    } else {
        answer == Ok(())
    }
}

/// Whether of the puts of a, b and c the one of this number alone fails, and this is written.
fn writes_the_others(alloc: Global, failing: u64, left: &[u8]) -> Result<bool, Fail> {
    let mut sink = MemorySink::make(vec![in alloc; failing]?);
    let a = puts_so(&mut sink, b"a", failing == 1);
    let b = puts_so(&mut sink, b"b", failing == 2);
    let c = puts_so(&mut sink, b"c", failing == 3);
    Ok(a && b && c && sink.bytes() == left)
}

#[test]
fn each_put_fails_alone_and_writes_nothing(rt: HostRuntime) -> Result<(), Fail> {
    for (place, row) in PUTS.iter().enumerate() {
        assert!(rt; writes_the_others(rt.alloc(), row.0, row.1)?, "row {place}");
    }
    Ok(())
}

#[test]
fn a_fixed_clock_stands_still(rt: HostRuntime) {
    let mut clock = FixedClock::make(-5);
    assert!(rt; clock.now() == -5 && clock.now() == -5);
}

/// Whether a shelf answers so and then leaves nothing.
fn refuses<S: Shelf>(shelf: &mut S, into: &mut Vec<u8>, name: &str, why: ShelfErr) -> bool {
    shelf.fetch(name, into) == Err(why) && into.is_empty()
}

/// Whether a file of the system is fetched whole, is not there once it is removed, and a folder is a failure.
fn fetches_of_the_system(rt: &HostRuntime, written: &[u8]) -> Result<bool, Fail> {
    let name = "program_edge_shelf.tmp";
    let mut shelf = FileShelf::make(rt);
    let mut into = Vec::from_slice(rt.alloc(), b"old")?;
    fs::write(rt, name, written)?;
    let whole = shelf.fetch(name, &mut into) == Ok(()) && into.as_slice() == written;
    fs::remove_file(rt, name)?;
    Ok(
        whole
            && refuses(&mut shelf, &mut into, name, ShelfErr::NotThere)
            && refuses(&mut shelf, &mut into, "/", ShelfErr::Failed),
    )
}

#[test]
fn a_file_of_the_system_is_fetched_whole(rt: HostRuntime) -> Result<(), Fail> {
    let written = vec![in rt.alloc(); 7u8; 200_000]?;
    assert!(rt; fetches_of_the_system(&rt, &written)?);
    Ok(())
}

/// Whether standard output takes all pieces, and writes what is left at the end.
fn takes_all_pieces(rt: &HostRuntime) -> Result<bool, Fail> {
    let mut sink = OutSink::make(rt);
    let mut all = true;
    for length in PIECES {
        let piece = vec![in rt.alloc(); b'.'; *length]?;
        all = sink.put(&piece) == Ok(()) && all;
    }
    Ok(all && sink.put(b"\n") == Ok(()) && sink.finish() == Ok(()))
}

#[test]
fn standard_output_takes_pieces_of_any_length(rt: HostRuntime) -> Result<(), Fail> {
    assert!(rt; takes_all_pieces(&rt)?);
    Ok(())
}

#[test]
fn the_clock_of_the_system_is_past_2020(rt: HostRuntime) {
    let mut clock = HostClock::make(&rt);
    assert!(rt; clock.now() > 1_577_836_800_000_000_000);
}
