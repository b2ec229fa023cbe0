ghost use Rattle.std.specs.Prelude.{◌≡◌, [], ◌∷◌, true, codes, IfOk};

use crate::columns::{
    Cells, Sheet, cell_of, frame_of, has_int, has_stamps, has_text, names_of, raw_of, raw_sheet,
    texts_of,
};
use frame_core::{
    CellRef, ColName, ColType, Column, Extent, Frame, FrameMaker, Items, Keep, NameFault, Range,
    RawFrame, Refusal, Schema,
};
use std::alloc::Global;
use std::test::Fail;

// The whole numbers 5, -1, 7, and the texts x, none, yz.
const COLUMNS: &[Cells] = &[Cells::Ints(&[5, -1, 7]), Cells::Texts(&["x", "", "yz"])];

const SAMPLE: Sheet = Sheet {
    stamps: &[1, 2, 2],
    names: &["a", "s"],
    columns: COLUMNS,
};

// Why the columns are no frame; none where they are one.
fn refusal_of(alloc: Global, raw: &RawFrame) -> Option<Refusal> {
    Frame::make(alloc, raw).err()
}

fn is_refused(alloc: Global, sheet: &Sheet, why: Refusal) -> Result<bool, Fail> {
    let raw = raw_sheet(alloc, sheet)?;
    Ok(refusal_of(alloc, &raw) == Some(why))
}

const REPEATED_NAME: Sheet = Sheet {
    stamps: &[1, 2, 2],
    names: &["a", "a"],
    columns: COLUMNS,
};

const FALLING_STAMP: Sheet = Sheet {
    stamps: &[2, 1, 3],
    names: &["a", "s"],
    columns: COLUMNS,
};

fn too_large(what: Extent, limit: u64) -> Refusal {
    Refusal::TooLarge { what, limit }
}

fn long_text(alloc: Global, length: u64) -> Result<String, Fail> {
    let mut long = String::new(alloc);
    for _ in 0..length {
        long.push('x')?;
    }
    Ok(long)
}

// A column of one text of 65,536 bytes.
fn long_column(alloc: Global) -> Result<Items<Column>, Fail> {
    let long = long_text(alloc, 65_536)?;
    let mut columns = Items::new(alloc);
    columns.push(texts_of(alloc, &[long.as_str()])?)?;
    Ok(columns)
}

// Whether a row with a text of 65,536 bytes is too large.
fn is_too_long(alloc: Global) -> Result<bool, Fail> {
    let raw = raw_of(alloc, &[1], &["a"], long_column(alloc)?)?;
    Ok(refusal_of(alloc, &raw) == Some(too_large(Extent::OneText, 65_535)))
}

fn zeros(alloc: Global, count: u64) -> Result<Items<i64>, Fail> {
    let mut stamps = Items::new(alloc);
    for _ in 0..count {
        stamps.push(0)?;
    }
    Ok(stamps)
}

// 1,600,001 rows under five names, and no columns.
fn many_rows(alloc: Global) -> Result<RawFrame, Fail> {
    let zeros = zeros(alloc, 1_600_001)?;
    let names = ["a", "b", "c", "d", "e"];
    raw_of(alloc, zeros.items(), &names, Items::new(alloc))
}

// Whether they are too many cells.
fn are_too_many(alloc: Global) -> Result<bool, Fail> {
    let raw = many_rows(alloc)?;
    Ok(refusal_of(alloc, &raw) == Some(too_large(Extent::Cells, 8_000_000)))
}

fn is_no_name(alloc: Global) -> bool {
    matches!(ColName::make(alloc, ""), Err(NameFault::Length))
}

// The stamp of a row, where the frame has it.
fn stamp_of(frame: &Frame, row: u64) -> Option<i64> {
    if row < frame.rows() {
        Some(frame.stamp(row))
    } else {
        None
    }
}

// The type of a column and its number of cells, where the frame has it.
fn column_of(frame: &Frame, column: u64) -> Option<(ColType, usize)> {
    if column < frame.schema().len() as u64 {
        let column = frame.column(column);
        Some((column.kind(), column.len()))
    } else {
        None
    }
}

// The number of rows and of columns.
fn size_of(frame: &Frame) -> (u64, usize) {
    (frame.rows(), frame.schema().len())
}

fn is_sample(frame: &Frame) -> bool {
    size_of(frame) == (3, 2)
        && has_stamps(frame, &[1, 2, 2])
        && stamp_of(frame, 1) == Some(2)
        && has_int(frame, 1, 0, -1)
        && has_text(frame, 2, 1, "yz")
        && matches!(column_of(frame, 1), Some((ColType::Text, 3)))
}

fn lends_its_cells(alloc: Global) -> Result<bool, Fail> {
    let frame = frame_of(alloc, &SAMPLE)?;
    Ok(is_sample(&frame))
}

// How many rows of the frame lie below a range, and how many not above it.
fn counts_of(frame: &Frame, range: Range) -> Option<(u64, u64)> {
    if frame.schema().timed() {
        Some(frame.rows_between(range))
    } else {
        None
    }
}

// The same of a copy of the sample; none where the ends are no range.
fn counts_in_a_copy(
    alloc: Global,
    from: Option<i64>,
    to: Option<i64>,
) -> Result<Option<(u64, u64)>, Fail> {
    let copy = frame_of(alloc, &SAMPLE)?.copy(alloc)?;
    match Range::make(from, to) {
        Some(range) => Ok(counts_of(&copy, range)),
        None => Ok(None),
    }
}

// Whether one row lies below 2, and all three from there.
fn are_counted(alloc: Global) -> Result<bool, Fail> {
    let counts = counts_in_a_copy(alloc, Some(2), None)?;
    Ok(counts == Some((1, 3)) && Range::make(Some(3), Some(2)).is_none())
}

// The rows from one place up to before another, where the frame has them.
fn slice_of(alloc: Global, frame: &Frame, from: u64, to: u64) -> Result<Option<Frame>, Fail> {
    if from <= to {
        if to <= frame.rows() {
            return Ok(Some(frame.slice(alloc, from, to)?));
        }
    }
    Ok(None)
}

// The rows of the sample from one place up to before another.
fn sample_slice(alloc: Global, from: u64, to: u64) -> Result<Option<Frame>, Fail> {
    let frame = frame_of(alloc, &SAMPLE)?;
    slice_of(alloc, &frame, from, to)
}

fn are_the_last_two(part: &Option<Frame>) -> bool {
    match part {
        Some(part) => has_stamps(part, &[2, 2]) && has_text(part, 1, 1, "yz"),
        None => false,
    }
}

fn last_two_are_cut(alloc: Global) -> Result<bool, Fail> {
    let part = sample_slice(alloc, 1, 3)?;
    Ok(are_the_last_two(&part))
}

// The asked columns of the sample.
fn asked(alloc: Global, names: &[&str]) -> Result<Result<Frame, Refusal>, Fail> {
    let frame = frame_of(alloc, &SAMPLE)?;
    let names = names_of(alloc, names)?;
    Ok(frame.select(alloc, names.items()))
}

fn are_both(picked: &Frame) -> bool {
    size_of(picked) == (3, 2) && has_int(picked, 0, 1, 5)
}

fn are_selected(alloc: Global) -> Result<bool, Fail> {
    let picked = asked(alloc, &["s", "a"])?;
    Ok(matches!(&picked, Ok(picked) if are_both(picked)))
}

// Whether the asked name at this place is refused, counted from 1.
fn is_refused_at(alloc: Global, names: &[&str], place: u64) -> Result<bool, Fail> {
    let why = asked(alloc, names)?.err();
    Ok(
        why == Some(Refusal::NoSuchColumn {
            clause: 0,
            position: place,
        }),
    )
}

// The second frame behind the first, where its stamps do not lie below.
fn joined(alloc: Global, first: &Frame, more: &Frame) -> Result<Option<Frame>, Fail> {
    if let (Some(last), Some(start)) = (first.last_stamp(), more.first_stamp()) {
        if last <= start {
            if first.schema().timed() && more.schema().timed() {
                return Ok(Some(first.concat(alloc, more)?));
            }
        }
    }
    Ok(None)
}

fn is_the_last(end: &Frame) -> bool {
    end.first_stamp() == Some(2) && end.last_stamp() == Some(2)
}

fn has_it_again(both: &Frame) -> bool {
    has_stamps(both, &[1, 2, 2, 2]) && has_text(both, 3, 1, "yz")
}

// The sample and these rows behind it.
fn sample_and(alloc: Global, more: &Frame) -> Result<Option<Frame>, Fail> {
    let frame = frame_of(alloc, &SAMPLE)?;
    joined(alloc, &frame, more)
}

// Whether the row goes behind the sample.
fn goes_behind(alloc: Global, end: &Frame) -> Result<bool, Fail> {
    match sample_and(alloc, end)? {
        Some(both) => Ok(has_it_again(&both)),
        None => Ok(false),
    }
}

// Whether the last row of the sample is cut from it, and goes behind it.
fn last_row_goes_behind(alloc: Global) -> Result<bool, Fail> {
    match sample_slice(alloc, 2, 3)? {
        Some(end) => Ok(is_the_last(&end) && goes_behind(alloc, &end)?),
        None => Ok(false),
    }
}

// A maker of frames of one column of flags, without rows.
fn maker_of_flags(alloc: Global) -> Result<FrameMaker, Fail>
    ensures { IfOk result (λ maker. maker ≡ record { schema = record { timed = true; columns = (codes "a", ColType.Flag) ∷ [] }; rows = []; begun = [] }) }
{
    let mut schema = Schema::empty(alloc, true);
    let name = ColName::make(alloc, "a")?;
    schema.push(name, ColType::Flag)?;
    Ok(FrameMaker::make(alloc, &schema)?)
}

// A frame of one flag, at stamp 4.
fn one_flag(alloc: Global) -> Result<Frame, Fail> {
    let mut maker = maker_of_flags(alloc)?;
    maker.cell(CellRef::Flag(true))?;
    maker.end_row(4)?;
    Ok(maker.done())
}

fn is_one_flag(frame: &Frame) -> bool {
    size_of(frame) == (1, 1)
        && stamp_of(frame, 0) == Some(4)
        && matches!(cell_of(frame, 0, 0), Some(CellRef::Flag(true)))
}

fn is_made(alloc: Global) -> Result<bool, Fail> {
    let frame = one_flag(alloc)?;
    Ok(is_one_flag(&frame))
}

// The frame without stamps, rows and columns.
fn no_columns(alloc: Global) -> Frame {
    Frame::from_columns(
        Schema::empty(alloc, false),
        Items::new(alloc),
        Items::new(alloc),
    )
}

fn is_empty(alloc: Global) -> bool {
    let frame = no_columns(alloc);
    size_of(&frame) == (0, 0) && !frame.schema().timed()
}

// The text at a place of a column, where there is one.
fn text_at(column: &Column, place: usize) -> Option<&str> {
    if place < column.len() {
        if let CellRef::Text(text) = column.cell(place) {
            return Some(text);
        }
    }
    None
}

// These texts behind the cells of the column, where it has texts.
fn append(alloc: Global, column: &mut Column, texts: &[&str]) -> Result<(), Fail> {
    let more = texts_of(alloc, texts)?;
    if column.kind() == more.kind() {
        column.append(&more)?;
    }
    Ok(())
}

// The texts x and none, and behind them yz, put into a column with room for three.
fn put_together(alloc: Global) -> Result<Column, Fail> {
    let mut column = Column::with_capacity(alloc, ColType::Text, 3)?;
    append(alloc, &mut column, &["x", ""])?;
    append(alloc, &mut column, &["yz"])?;
    Ok(column)
}

fn has_three_texts(column: &Column) -> bool {
    column.len() == 3 && text_at(column, 1) == Some("") && text_at(column, 2) == Some("yz")
}

fn are_put_together(alloc: Global) -> Result<bool, Fail> {
    let column = put_together(alloc)?;
    Ok(has_three_texts(&column))
}

enum Case {
    // A frame that is none, and why.
    Refused(&'static Sheet, Refusal),
    LongText,
    ManyCells,
    EmptyName,
    Lent,
    Counted,
    Cut,
    Selected,
    // Names of which one is not there or is asked twice, and its place among them.
    NoColumn(&'static [&'static str], u64),
    Joined,
    Made,
    NoColumns,
    Appended,
}

// The cases of what makes a frame.
fn is_made_or_not(alloc: Global, case: &Case) -> Result<bool, Fail> {
    match case {
        Case::Refused(sheet, why) => is_refused(alloc, sheet, *why),
        Case::LongText => is_too_long(alloc),
        Case::ManyCells => are_too_many(alloc),
        Case::EmptyName => Ok(is_no_name(alloc)),
        Case::Made => is_made(alloc),
        Case::NoColumns => Ok(is_empty(alloc)),
        _ => Ok(false),
    }
}

fn holds(alloc: Global, case: &Case) -> Result<bool, Fail> {
    match case {
        Case::Lent => lends_its_cells(alloc),
        Case::Counted => are_counted(alloc),
        Case::Cut => last_two_are_cut(alloc),
        Case::Selected => are_selected(alloc),
        Case::NoColumn(names, place) => is_refused_at(alloc, names, *place),
        Case::Joined => last_row_goes_behind(alloc),
        Case::Appended => are_put_together(alloc),
        _ => is_made_or_not(alloc, case),
    }
}

const CASES: &[(&str, Case)] = &[
    (
        "a repeated name is refused at its column",
        Case::Refused(&REPEATED_NAME, Refusal::SchemaDiffers { column: 2 }),
    ),
    (
        "a falling stamp is refused at its row",
        Case::Refused(&FALLING_STAMP, Refusal::Unsorted { row: 2 }),
    ),
    ("a text of 65,536 bytes is too large", Case::LongText),
    ("more than 8,000,000 cells are too large", Case::ManyCells),
    ("an empty name is refused", Case::EmptyName),
    ("cells are lent by row and column", Case::Lent),
    ("rows are counted by a range", Case::Counted),
    ("rows are cut from one place up to another", Case::Cut),
    ("columns are selected in the order asked", Case::Selected),
    (
        "a name asked twice is refused at its second place",
        Case::NoColumn(&["a", "a"], 2),
    ),
    ("an absent name is refused", Case::NoColumn(&["q"], 1)),
    ("one frame goes behind another", Case::Joined),
    ("a maker gives the rows that were ended", Case::Made),
    ("a frame of no columns has no rows", Case::NoColumns),
    ("cells go behind those of a column", Case::Appended),
];

#[test]
fn frames_and_columns(rt: HostRuntime) -> Result<(), Fail> {
    for (name, case) in CASES {
        assert!(rt; holds(rt.alloc(), case)?, "{name}");
    }
    Ok(())
}
