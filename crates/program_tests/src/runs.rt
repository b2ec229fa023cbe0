use bucket_core::{Gate, GatePoint, OpenGate, Step};
use bucket_shared::Shared;
use program_edge::{FixedClock, MemoryShelf, MemorySink};
use program_run::run;
use std::alloc::Global;
use std::sync::{Mutex, Wait};
use std::test::Fail;
use std::thread::{Threads, yield_now};

/// A run of the words over the script `day.arc` and FILES, and how it must end.
#[derive(Clone, Copy)]
struct Row {
    words: &'static [&'static str],
    script: &'static str,
    /// The fetch and the put that fail, counted from 1; 0 is none.
    fetch: u64,
    put: u64,
    status: u8,
    output: &'static str,
}

const FILES: &[(&str, &str)] = &[
    (
        "t.csv",
        "time,price,size\n1,100,5\n2,101,7\n2,102,1\n4,99,3\n9,105,2\n",
    ),
    ("a9.csv", "time,price,size\n9,106,1\n"),
];

const PLAIN: &[&str] = &["run", "day.arc"];

/// A write and a read of one client.
const ALONE: &str = "load t t.csv int,int\nfirst\nwrite S t at=50\nread S\n";

/// Two clients that append to one symbol.
const MEETING: &str =
    "load t t.csv int,int\nload a9 a9.csv int,int\nfirst\nwrite S t\nclient a\nappend S a9\nclient b\nappend S a9\n";

/// A client that reads what another one buries and drops.
const READING: &str =
    "load t t.csv int,int\nfirst\nwrite S t\nclient a\nread S\nclient b\nwrite S t prune\nreclaim S\n";

/// Runs in which a call of the shelf or of the output fails.
const FAILURES: &[Row] = &[
    Row {
        words: PLAIN,
        script: ALONE,
        fetch: 1,
        put: 0,
        status: 4,
        output: "arctic: cannot read day.arc\n",
    },
    Row {
        words: PLAIN,
        script: ALONE,
        fetch: 2,
        put: 0,
        status: 4,
        output: "arctic: cannot read t.csv\n",
    },
    Row {
        words: PLAIN,
        script: ALONE,
        fetch: 0,
        put: 1,
        status: 5,
        output: "",
    },
    Row {
        words: PLAIN,
        script: ALONE,
        fetch: 0,
        put: 2,
        status: 5,
        output: "first.1 @4 ok v0\n",
    },
];

/// Runs in which a looks first when b stands before its commit, and b commits when a has done so.
const MEETINGS: &[Row] = &[
    Row {
        words: &["run", "day.arc", "--tries", "1"],
        script: MEETING,
        fetch: 0,
        put: 0,
        status: 1,
        output: "first.1 @4 ok v0\na.1 @11 ok v1\nb.1 @11 err 6 Moved now=11\nend @14\n",
    },
    Row {
        words: &["run", "day.arc", "--tries", "2"],
        script: MEETING,
        fetch: 0,
        put: 0,
        status: 0,
        output: "first.1 @4 ok v0\na.1 @11 ok v1\nb.1 @18 ok v2\nend @18\n",
    },
];

/// Runs in which a is held behind its get of this number, counted from 1, until both drops of b are done.
const READS: &[(u64, Row)] = &[
    (
        1,
        Row {
            words: PLAIN,
            script: READING,
            fetch: 0,
            put: 0,
            status: 1,
            output: "first.1 @4 ok v0\na.1 @10 err 5 VersionGone version=0\nb.1 @8 ok v1\nb.2 @8 ok freed data=1 index=1 staged=0\nend @10\n",
        },
    ),
    (
        4,
        Row {
            words: PLAIN,
            script: READING,
            fetch: 0,
            put: 0,
            status: 0,
            output: "first.1 @4 ok v0\na.1 @4 ok v0 rows=5\ntime,price,size\n1,100,5\n2,101,7\n2,102,1\n4,99,3\n9,105,2\nb.1 @8 ok v1\nb.2 @8 ok freed data=1 index=1 staged=0\nend @10\n",
        },
    ),
];

fn words_of(alloc: Global, words: &[&str]) -> Result<Vec<String>, Fail> {
    let mut made = Vec::new(alloc);
    for word in words {
        made.push(String::from_str(alloc, word)?)?;
    }
    Ok(made)
}

fn add_file(
    alloc: Global,
    files: &mut Vec<(String, Vec<u8>)>,
    name: &str,
    text: &str,
) -> Result<(), Fail> {
    let name = String::from_str(alloc, name)?;
    let bytes = Vec::from_slice(alloc, text.as_bytes())?;
    files.push((name, bytes))?;
    Ok(())
}

/// The script and FILES.
fn files_of(alloc: Global, script: &str) -> Result<Vec<(String, Vec<u8>)>, Fail> {
    let mut files = Vec::new(alloc);
    add_file(alloc, &mut files, "day.arc", script)?;
    for file in FILES {
        add_file(alloc, &mut files, file.0, file.1)?;
    }
    Ok(files)
}

fn shelf_of(alloc: Global, row: &Row) -> Result<MemoryShelf, Fail> {
    let files = files_of(alloc, row.script)?;
    Ok(MemoryShelf::make(files, vec![in alloc; row.fetch]?))
}

/// The status of a run at the moment 7 over a new store. No other function here calls `run`, whose contract is long.
fn status_of<R: Threads + Wait + Sync, G: Gate>(
    rt: &R,
    words: &[String],
    shelf: &mut MemoryShelf,
    out: &mut MemorySink,
    gate: &G,
    alloc: Global,
) -> Result<u8, Fail> {
    let mut clock = FixedClock::make(7);
    let pass = Shared::make(alloc, 1 << 40, 1)?;
    let ran = run(rt, alloc, words, shelf, out, &mut clock, gate, pass);
    Ok(ran.status)
}

/// Whether a run whose clients pass this gate ends as it must.
fn ends_so<R: Threads + Wait + Sync, G: Gate>(
    rt: &R,
    alloc: Global,
    row: &Row,
    gate: &G,
) -> Result<bool, Fail> {
    let words = words_of(alloc, row.words)?;
    let mut shelf = shelf_of(alloc, row)?;
    let mut out = MemorySink::make(vec![in alloc; row.put]?);
    let status = status_of(rt, &words, &mut shelf, &mut out, gate, alloc)?;
    Ok(status == row.status && out.bytes() == row.output.as_bytes())
}

#[test]
fn a_call_that_fails_ends_the_run(rt: HostRuntime) -> Result<(), Fail> {
    for (place, row) in FAILURES.iter().enumerate() {
        assert!(rt; ends_so(&rt, rt.alloc(), row, &OpenGate)?, "row {place}");
    }
    Ok(())
}

/// Which points clients have come to.
#[derive(Drop)]
struct Come {
    first: bool,
    second: bool,
}

/// A gate that holds a client at a point until another one has come to a point of its own, and then the other one at that point
/// until the client has come to a second point. It gives up after a million turns.
#[derive(Drop)]
struct Crossing {
    held: GatePoint,
    other: GatePoint,
    done: GatePoint,
    come: Mutex<Come>,
}

impl Crossing {
    /// Holds client 2 before its first get, and client 3 before its commit.
    fn make() -> Crossing {
        Crossing {
            held: GatePoint::before(2, Step::Get),
            other: GatePoint::before(3, Step::Refer),
            done: GatePoint::behind(2, Step::Refer),
            come: Mutex::new(Come {
                first: false,
                second: false,
            }),
        }
    }

    fn note<R: Wait>(&self, rt: &R, at: GatePoint) {
        let mut come = self.come.lock(rt);
        if at == self.other {
            come.first = true;
        }
        if at == self.done {
            come.second = true;
        }
    }

    fn may_go_on<R: Wait>(&self, rt: &R, at: GatePoint) -> bool {
        let come = self.come.lock(rt);
        (at != self.held || come.first) && (at != self.other || come.second)
    }
}

impl Gate for Crossing {
    fn pass_by<R: Wait>(&self, rt: &R, at: GatePoint) {
        self.note(rt, at);
        for _ in 0..1_000_000u32 {
            if self.may_go_on(rt, at) {
                return;
            }
            yield_now();
        }
    }
}

#[test]
fn clients_that_meet_at_one_symbol_run_beside_each_other(rt: HostRuntime) -> Result<(), Fail> {
    for (place, row) in MEETINGS.iter().enumerate() {
        assert!(rt;
            ends_so(&rt, rt.alloc(), row, &Crossing::make())?,
            "row {place}"
        );
    }
    Ok(())
}

/// How often clients have come to two points.
#[derive(Drop)]
struct Counts {
    held: u64,
    done: u64,
}

/// A gate that holds a client where it comes to a point for the given time, counted from 1, until another one has come to a point
/// of its own twice, and the other one at its first step until the client is held. It gives up after a million turns.
#[derive(Drop)]
struct Holding {
    held: GatePoint,
    time: u64,
    begins: GatePoint,
    done: GatePoint,
    counts: Mutex<Counts>,
}

impl Holding {
    /// Holds client 2 behind a get, until client 3 has dropped two keys.
    fn make(time: u64) -> Holding {
        Holding {
            held: GatePoint::behind(2, Step::Get),
            time,
            begins: GatePoint::before(3, Step::Get),
            done: GatePoint::behind(3, Step::Drop),
            counts: Mutex::new(Counts { held: 0, done: 0 }),
        }
    }

    fn note<R: Wait>(&self, rt: &R, at: GatePoint) {
        let mut counts = self.counts.lock(rt);
        if at == self.held {
            counts.held = counts.held.saturating_add(1);
        }
        if at == self.done {
            counts.done = counts.done.saturating_add(1);
        }
    }

    fn may_go_on<R: Wait>(&self, rt: &R, at: GatePoint) -> bool {
        let counts = self.counts.lock(rt);
        (at != self.held || counts.held < self.time || counts.done >= 2)
            && (at != self.begins || counts.held >= self.time)
    }
}

impl Gate for Holding {
    fn pass_by<R: Wait>(&self, rt: &R, at: GatePoint) {
        self.note(rt, at);
        for _ in 0..1_000_000u32 {
            if self.may_go_on(rt, at) {
                return;
            }
            yield_now();
        }
    }
}

#[test]
fn a_read_gives_a_whole_frame_or_tells_that_it_is_gone(rt: HostRuntime) -> Result<(), Fail> {
    for (place, row) in READS.iter().enumerate() {
        assert!(rt;
            ends_so(&rt, rt.alloc(), &row.1, &Holding::make(row.0))?,
            "row {place}"
        );
    }
    Ok(())
}
