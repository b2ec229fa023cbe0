use frame_core::Column;
use script_lang::{
    AsOf, ColType, Command, CsvFault, RawFrame, Script, ScriptFault, read_frame, read_script,
};
use std::alloc::Global;
use std::test::Fail;

const INT: ColType = ColType::Int;

fn ints(raw: &RawFrame, place: usize) -> Option<&[i64]> {
    match raw.columns.items().get(place)? {
        Column::Ints(column) => Some(column.items()),
        _ => None,
    }
}

// Whether these are the stamps and the numbers of each column, of which there are at most two.
fn has(raw: &RawFrame, stamps: &[i64], first: &[i64], second: Option<&[i64]>) -> bool {
    raw.stamps.items() == stamps
        && ints(raw, 0) == Some(first)
        && ints(raw, 1) == second
        && ints(raw, 2).is_none()
}

fn is_named(raw: &RawFrame, place: usize, name: &str) -> bool {
    match raw.names.items().get(place) {
        Some(found) => found.text() == name,
        None => false,
    }
}

fn is_worked(raw: &RawFrame) -> bool {
    has(
        raw,
        &[1, 2, 2, 4, 9],
        &[100, 101, 102, 99, 105],
        Some(&[5, 7, 1, 3, 2]),
    ) && is_named(raw, 0, "price")
        && is_named(raw, 1, "size")
        && raw.names.len() == 2
}

// What a file gives.
enum Columns {
    Worked,
    // The stamps and the numbers of its one column.
    One(&'static [i64], &'static [i64]),
    Nothing,
}

fn is_given(raw: &RawFrame, what: &Columns) -> bool {
    match what {
        Columns::Worked => is_worked(raw),
        Columns::One(stamps, numbers) => has(raw, stamps, numbers, None),
        Columns::Nothing => false,
    }
}

fn gives(alloc: Global, types: &[ColType], file: &str, what: &Columns) -> bool {
    match &read_frame(alloc, types, file.as_bytes()) {
        Ok(raw) => is_given(raw, what),
        Err(CsvFault::BadCsv) => matches!(what, Columns::Nothing),
        Err(_) => false,
    }
}

// The types of its columns, a file, and what it gives. Numbers have a sign, leading zeros and up to 18 digits, and a header may stand alone.
const FILES: &[(&[ColType], &str, Columns)] = &[
    (
        &[INT, INT],
        "time,price,size\n1,100,5\n2,101,7\n2,102,1\n4,99,3\n9,105,2\n",
        Columns::Worked,
    ),
    (
        &[INT],
        "time,price\n-0,-999999999999999999\n-3,000000000000000012\n",
        Columns::One(&[0, -3], &[-999_999_999_999_999_999, 12]),
    ),
    (&[INT], "time,price\n", Columns::One(&[], &[])),
    (&[ColType::Flag], "time,up\n", Columns::Nothing),
    (&[INT], "", Columns::Nothing),
    (&[INT], "time,price", Columns::Nothing),
    (&[INT], "time,price\n1,2", Columns::Nothing),
    (&[INT], "time,price\n1\n", Columns::Nothing),
    (&[INT], "time,price\n1,2,3\n", Columns::Nothing),
    (&[INT], "time\n1,2\n", Columns::Nothing),
    (&[INT], "time,price,size\n1,2\n", Columns::Nothing),
    (&[INT], "time,true\n1,2\n", Columns::Nothing),
    (&[INT], "time,9a\n1,2\n", Columns::Nothing),
    (&[INT], "1time,price\n1,2\n", Columns::Nothing),
    (&[INT], "time,p q\n1,2\n", Columns::Nothing),
    (&[INT], "time,price\r\n1,2\r\n", Columns::Nothing),
    (&[INT], "time,price\n\n", Columns::Nothing),
    (&[INT], "time,price\n1,\n", Columns::Nothing),
    (&[INT], "time,price\n1,-\n", Columns::Nothing),
    (&[INT], "time,price\n1,+2\n", Columns::Nothing),
    (&[INT], "time,price\n1, 2\n", Columns::Nothing),
    (&[INT], "time,price\n1,2.5\n", Columns::Nothing),
    (
        &[INT],
        "time,price\n1,1234567890123456789\n",
        Columns::Nothing,
    ),
    (&[INT], "time,price\n1,2\n\n", Columns::Nothing),
];

#[test]
fn files_give_their_columns_or_are_bad(rt: HostRuntime) {
    for (types, file, what) in FILES {
        assert!(rt; gives(rt.alloc(), types, file, what), "{file}");
    }
}

fn is_write(command: &Command) -> bool {
    match command {
        Command::Write {
            symbol,
            frame: 0,
            at: None,
            prune: false,
        } => symbol.name().text() == "S",
        _ => false,
    }
}

fn is_plain_read(command: &Command) -> bool {
    match command {
        Command::Read {
            symbol,
            as_of: AsOf::Back(1),
            range,
            columns: None,
            clauses,
        } => {
            symbol.name().text() == "X"
                && range.from().is_none()
                && range.to().is_none()
                && clauses.is_empty()
        }
        _ => false,
    }
}

fn is_load(script: &Script) -> bool {
    match script.loads.items() {
        [load] => {
            load.name.text() == "t"
                && load.file.text() == "t.csv"
                && load.types.items() == [INT, INT].as_slice()
        }
        _ => false,
    }
}

fn is_worked_script(script: &Script) -> bool {
    match script.first.items() {
        [write, _, read] => is_load(script) && is_write(write) && is_plain_read(read),
        _ => false,
    }
}

fn writes_the_second(script: &Script) -> bool {
    matches!(script.first.items(), [Command::Write { frame: 1, .. }])
}

fn has_two_clients(script: &Script) -> bool {
    match script.clients.items() {
        [one, two] => {
            one.name.text() == "a"
                && matches!(
                    one.commands.items(),
                    [Command::Read { .. }, Command::Keys { .. }]
                )
                && two.name.text() == "b-2"
                && two.commands.is_empty()
        }
        _ => false,
    }
}

fn has_parts(script: &Script) -> bool {
    script.first.len() == 1
        && has_two_clients(script)
        && matches!(script.last.items(), [Command::Versions { .. }])
}

fn is_append(command: &Command) -> bool {
    match command {
        Command::Append {
            frame,
            at,
            prune,
            ..
        } => *frame == 1 && *at == Some(-5) && *prune,
        _ => false,
    }
}

fn is_upsert(command: &Command) -> bool {
    match command {
        Command::Update {
            range: Some(range),
            upsert,
            at,
            prune,
            ..
        } => {
            range.from() == Some(-3) && range.to() == Some(10) && *upsert && at.is_none() && !*prune
        }
        _ => false,
    }
}

fn is_delete(command: &Command) -> bool {
    match command {
        Command::Delete {
            versions: Some(versions),
            ..
        } => versions.items() == [4, 0].as_slice(),
        _ => false,
    }
}

fn is_read(command: &Command) -> bool {
    match command {
        Command::Read {
            as_of: AsOf::Moment(55),
            range,
            columns: Some(columns),
            ..
        } => {
            range.from().is_none()
                && range.to() == Some(9)
                && columns.len() == 2
                && columns.at(1).text() == "size"
        }
        _ => false,
    }
}

fn is_read_back(command: &Command) -> bool {
    matches!(
        command,
        Command::Read {
            as_of: AsOf::Back(2),
            ..
        }
    )
}

fn are_the_options(script: &Script) -> bool {
    match script.first.items() {
        [append, update, delete, read, back] => {
            is_append(append)
                && is_upsert(update)
                && is_delete(delete)
                && is_read(read)
                && is_read_back(back)
        }
        _ => false,
    }
}

// What a script is to have.
enum Wanted {
    Worked,
    // A write of the second of its loads.
    Second,
    Parts,
    Options,
    // What it may have, as it is one.
    Anything,
    Nothing,
}

fn is_so(script: &Script, what: &Wanted) -> bool {
    match what {
        Wanted::Worked => is_worked_script(script),
        Wanted::Second => writes_the_second(script),
        Wanted::Parts => has_parts(script),
        Wanted::Options => are_the_options(script),
        Wanted::Anything => true,
        Wanted::Nothing => false,
    }
}

fn is_read_as(alloc: Global, text: &[u8], what: &Wanted) -> bool {
    match &read_script(alloc, text) {
        Ok(script) => is_so(script, what),
        Err(ScriptFault::BadScript) => matches!(what, Wanted::Nothing),
        Err(_) => false,
    }
}

// A script, and what it has. Each part may be left out.
const SCRIPTS: &[(&str, Wanted)] = &[
    (
        "load t t.csv int,int\nfirst\nwrite S t\nread S\nread X\n",
        Wanted::Worked,
    ),
    (
        "load a a.csv int\nload b b.csv int\nfirst\nwrite S b\n",
        Wanted::Second,
    ),
    (
        "load t t.csv int\nfirst\nwrite S t\nclient a\nread S\nkeys S\nclient b-2\nlast\nversions S\n",
        Wanted::Parts,
    ),
    (
        "load s s.csv int\nload t t.csv int\nfirst\n\
        append S t prune at=-5\n\
        update S s upsert range=-3..10\n\
        delete S version=4,0\n\
        read S columns=price,size range=..9 as_of=time:55\n\
        read S as_of=-2\n",
        Wanted::Options,
    ),
    ("", Wanted::Anything),
    ("load t t.csv int\n", Wanted::Anything),
    ("client a\nread S\n", Wanted::Anything),
    ("first\nlast\nread S\n", Wanted::Anything),
    ("first", Wanted::Nothing),
    ("first\r\n", Wanted::Nothing),
    ("first\n\n", Wanted::Nothing),
    (" first\n", Wanted::Nothing),
    ("first \n", Wanted::Nothing),
    ("first now\n", Wanted::Nothing),
    ("first\nfirst\n", Wanted::Nothing),
    ("read S\n", Wanted::Nothing),
    ("load t t.csv int\nwrite S t\n", Wanted::Nothing),
    ("first\nload t t.csv int\n", Wanted::Nothing),
    (
        "load t t.csv int\nload t u.csv int\nfirst\n",
        Wanted::Nothing,
    ),
    ("load true t.csv int\nfirst\n", Wanted::Nothing),
    ("load 1t t.csv int\nfirst\n", Wanted::Nothing),
    ("load t a/b.csv int\nfirst\n", Wanted::Nothing),
    ("load t t.csv\nfirst\n", Wanted::Nothing),
    ("load t t.csv int int\nfirst\n", Wanted::Nothing),
    ("load t t.csv text\nfirst\n", Wanted::Nothing),
    ("load t t.csv int,\nfirst\n", Wanted::Nothing),
    ("load t t.csv -\nfirst\n", Wanted::Nothing),
    ("load  t t.csv int\nfirst\n", Wanted::Nothing),
    ("load t t.csv int\nfirst\nwrite  S t\n", Wanted::Nothing),
    ("load t t.csv int\nfirst\nwrite S u\n", Wanted::Nothing),
    ("first\nread a-b\n", Wanted::Nothing),
    (
        "first\nread aaaaaaaaaaaaaaaaaaaaaaaaaaaaaaaaa\n",
        Wanted::Nothing,
    ),
    ("first\nwrote S t\n", Wanted::Nothing),
    ("first\n# read S\n", Wanted::Nothing),
    ("client a\nfirst\n", Wanted::Nothing),
    ("client a\nload t t.csv int\n", Wanted::Nothing),
    ("last\nclient a\n", Wanted::Nothing),
    ("last\nlast\n", Wanted::Nothing),
    ("client\n", Wanted::Nothing),
    ("client a b\n", Wanted::Nothing),
    ("client a.b\n", Wanted::Nothing),
    ("client last\n", Wanted::Nothing),
    (
        "client aaaaaaaaaaaaaaaaaaaaaaaaaaaaaaaaa\n",
        Wanted::Nothing,
    ),
    ("client a\nclient b\nclient a\n", Wanted::Nothing),
];

#[test]
fn scripts_have_their_parts_or_are_bad(rt: HostRuntime) {
    for (text, what) in SCRIPTS {
        assert!(rt; is_read_as(rt.alloc(), text.as_bytes(), what), "{text}");
    }
}

// A script of this command behind the loads of `s` and `t`.
fn script_of_command(alloc: Global, line: &str) -> Result<Vec<u8>, Fail> {
    let mut text = Vec::new(alloc);
    text.extend_from_slice(b"load s s.csv int\nload t t.csv int\nfirst\n")?;
    text.extend_from_slice(line.as_bytes())?;
    text.push(b'\n')?;
    Ok(text)
}

fn is_command(alloc: Global, line: &str, what: &Wanted) -> Result<bool, Fail> {
    let text = script_of_command(alloc, line)?;
    Ok(is_read_as(alloc, &text, what))
}

// A command, and whether it makes a script: its options stand in any order.
const COMMANDS: &[(&str, Wanted)] = &[
    ("write S t at=50", Wanted::Anything),
    ("write S t at=60 prune", Wanted::Anything),
    ("write S t prune at=-0", Wanted::Anything),
    ("append S t", Wanted::Anything),
    ("append S t prune at=-9223372036854775808", Wanted::Anything),
    ("append S t at=0009223372036854775807", Wanted::Anything),
    ("update S t", Wanted::Anything),
    ("update S t range=2..10", Wanted::Anything),
    ("update X t upsert", Wanted::Anything),
    ("update S t prune at=7 upsert range=..-3", Wanted::Anything),
    ("update S t range=5..", Wanted::Anything),
    ("delete_range S range=2..4", Wanted::Anything),
    ("delete_range S range=4..4 prune at=1", Wanted::Anything),
    ("delete S", Wanted::Anything),
    ("delete S version=0", Wanted::Anything),
    ("delete S version=1,000000000000000002,1", Wanted::Anything),
    ("prune S", Wanted::Anything),
    ("reclaim S", Wanted::Anything),
    ("versions S", Wanted::Anything),
    ("keys S", Wanted::Anything),
    ("read S as_of=7", Wanted::Anything),
    ("read S as_of=0", Wanted::Anything),
    ("read S as_of=-2", Wanted::Anything),
    ("read S as_of=time:-49", Wanted::Anything),
    ("read S range=9..9 columns=price", Wanted::Anything),
    (
        "read S columns=price,size,_x9 as_of=-1 range=..-7",
        Wanted::Anything,
    ),
    ("write S t at=5 at=5", Wanted::Nothing),
    ("write S t prune prune", Wanted::Nothing),
    ("write S t prune=", Wanted::Nothing),
    ("write S t at", Wanted::Nothing),
    ("write S t at=", Wanted::Nothing),
    ("write S t at=-", Wanted::Nothing),
    ("write S t at=+5", Wanted::Nothing),
    ("write S t at=9223372036854775808", Wanted::Nothing),
    ("write S t at=-9223372036854775809", Wanted::Nothing),
    ("write S t at=2024-01-02", Wanted::Nothing),
    ("write S t upsert", Wanted::Nothing),
    ("write S t  prune", Wanted::Nothing),
    ("append S u", Wanted::Nothing),
    ("append S", Wanted::Nothing),
    ("append t S", Wanted::Nothing),
    ("update S t range=5..3", Wanted::Nothing),
    ("update S t range=..", Wanted::Nothing),
    ("update S t range=5", Wanted::Nothing),
    ("update S t range=1..2 range=1..2", Wanted::Nothing),
    ("update S t columns=price", Wanted::Nothing),
    ("delete_range S", Wanted::Nothing),
    ("delete_range S prune range=2..4", Wanted::Nothing),
    ("delete_range S range=1...4", Wanted::Nothing),
    ("delete S version=", Wanted::Nothing),
    ("delete S version=-1", Wanted::Nothing),
    ("delete S version=1,,2", Wanted::Nothing),
    ("delete S version=1234567890123456789", Wanted::Nothing),
    ("delete S version=1 version=2", Wanted::Nothing),
    ("prune", Wanted::Nothing),
    ("prune S S", Wanted::Nothing),
    ("keys S at=5", Wanted::Nothing),
    ("read S as_of=-0", Wanted::Nothing),
    ("read S as_of=snap:k", Wanted::Nothing),
    ("read S as_of=time:", Wanted::Nothing),
    ("read S columns=", Wanted::Nothing),
    ("read S columns=price,true", Wanted::Nothing),
    ("read S columns=`price`", Wanted::Nothing),
    ("read S prune", Wanted::Nothing),
    ("read S |> date_range 1..2", Wanted::Nothing),
    ("stage S t", Wanted::Nothing),
    ("symbols", Wanted::Nothing),
];

#[test]
fn commands_take_their_options_or_are_bad(rt: HostRuntime) -> Result<(), Fail> {
    for (line, what) in COMMANDS {
        assert!(rt; is_command(rt.alloc(), line, what)?, "{line}");
    }
    Ok(())
}

fn script_of(alloc: Global, types: usize, reads: usize) -> Result<Vec<u8>, Fail> {
    let mut text = Vec::new(alloc);
    text.extend_from_slice(b"load t t.csv int")?;
    for _ in 1..types {
        text.extend_from_slice(b",int")?;
    }
    text.extend_from_slice(b"\nfirst\n")?;
    for _ in 0..reads {
        text.extend_from_slice(b"read aaaaaaaaaaaaaaaaaaaaaaaaaaaaaaaa\n")?;
    }
    Ok(text)
}

fn clients_up_to(alloc: Global, last: u8) -> Result<Vec<u8>, Fail> {
    let mut text = Vec::new(alloc);
    for letter in b'a'..=last {
        text.extend_from_slice(b"client ")?;
        text.push(letter)?;
        text.push(b'\n')?;
    }
    Ok(text)
}

enum Size {
    // A load of so many types, and so many commands.
    Lines(usize, usize),
    // Clients from `a` up to this letter.
    Clients(u8),
}

fn script_of_size(alloc: Global, size: &Size) -> Result<Vec<u8>, Fail> {
    match size {
        Size::Lines(types, reads) => script_of(alloc, *types, *reads),
        Size::Clients(last) => clients_up_to(alloc, *last),
    }
}

fn is_within(alloc: Global, size: &Size, what: &Wanted) -> Result<bool, Fail> {
    let text = script_of_size(alloc, size)?;
    Ok(is_read_as(alloc, &text, what))
}

const SIZES: &[(&str, Size, Wanted)] = &[
    (
        "127 types and 1,000 lines",
        Size::Lines(127, 998),
        Wanted::Anything,
    ),
    ("128 types", Size::Lines(128, 0), Wanted::Nothing),
    ("1,001 lines", Size::Lines(1, 999), Wanted::Nothing),
    ("16 clients", Size::Clients(b'p'), Wanted::Anything),
    ("17 clients", Size::Clients(b'q'), Wanted::Nothing),
];

#[test]
fn a_script_has_at_most_1000_lines_127_types_a_load_and_16_clients(
    rt: HostRuntime,
) -> Result<(), Fail> {
    for (name, size, what) in SIZES {
        assert!(rt; is_within(rt.alloc(), size, what)?, "{name}");
    }
    Ok(())
}
