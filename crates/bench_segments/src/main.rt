//! Encodes, views or copies the segment of a made frame, or cuts the frame and joins it, so many times, for bench/segments to
//! time it.
#![tactic(auto)]

ghost use Rattle.std.specs.Prelude.{IfOk};
ghost use Rattle.frame_core.specs.Limits.{IsStorable};

use anyhow::Context;
use frame_core::{ColName, ColType, Column, Frame, Items, Keep, NoMemory, RawFrame, TextList};
use segment_bytes::{ColumnView, encode, view};
use segment_cut::{Cutting, join, tiles_of};
use std::alloc::Global;
use std::env;

/// A column of so many whole numbers.
fn numbers(alloc: Global, rows: u64) -> Result<Column, NoMemory> {
    let mut numbers = Items::with_capacity(alloc, rows as usize)?;
    for row in 0..rows {
        numbers.push((row % 1_000) as i64)?;
    }
    Ok(Column::Ints(numbers))
}

/// A column of so many texts of one byte.
fn texts(alloc: Global, rows: u64) -> Result<Column, NoMemory> {
    let mut texts = TextList::new(alloc);
    texts.reserve(rows as usize, rows as usize)?;
    for _ in 0..rows {
        texts.push("x")?;
    }
    Ok(Column::Texts(texts))
}

/// The stamps of so many rows.
fn stamps_of(alloc: Global, rows: u64) -> Result<Items<i64>, NoMemory> {
    let mut stamps = Items::new(alloc);
    for row in 0..rows {
        stamps.push((row % (1 << 40)) as i64)?;
    }
    Ok(stamps)
}

/// The name of the column at a place.
fn name_of(alloc: Global, column: u64) -> Result<ColName, NoMemory> {
    let name = format!(in alloc; "c{column}")?;
    match ColName::make(alloc, &name) {
        Ok(name) => Ok(name),
        Err(_) => Err(NoMemory),
    }
}

/// The names of so many columns.
fn names_of(alloc: Global, columns: u64) -> Result<Items<ColName>, NoMemory> {
    let mut names = Items::new(alloc);
    for column in 0..columns {
        names.push(name_of(alloc, column)?)?;
    }
    Ok(names)
}

/// A column of so many texts, or of so many whole numbers.
fn cells_of(alloc: Global, of_texts: bool, rows: u64) -> Result<Column, NoMemory> {
    if of_texts {
        texts(alloc, rows)
    } else {
        numbers(alloc, rows)
    }
}

/// So many columns of so many rows, of texts or of whole numbers.
fn columns_of(
    alloc: Global,
    of_texts: bool,
    rows: u64,
    columns: u64,
) -> Result<Items<Column>, NoMemory> {
    let mut made = Items::new(alloc);
    for _ in 0..columns {
        made.push(cells_of(alloc, of_texts, rows)?)?;
    }
    Ok(made)
}

/// The parts of a frame of so many rows and columns, of texts or of whole numbers.
fn parts(alloc: Global, of_texts: bool, rows: u64, columns: u64) -> Result<RawFrame, NoMemory> {
    let stamps = stamps_of(alloc, rows)?;
    let names = names_of(alloc, columns)?;
    let columns = columns_of(alloc, of_texts, rows, columns)?;
    Ok(RawFrame {
        stamps,
        names,
        columns,
    })
}

/// A frame of so many rows and columns, of texts or of whole numbers.
fn made(alloc: Global, of_texts: bool, rows: u64, columns: u64) -> Result<Frame, NoMemory>
    ensures { IfOk result IsStorable }
{
    let raw = parts(alloc, of_texts, rows, columns)?;
    match Frame::make(alloc, &raw) {
        Ok(frame) => Ok(frame),
        Err(_) => Err(NoMemory),
    }
}

/// The sum of the numbers of a column, or of the lengths of its texts.
fn sum(column: &ColumnView<'_>) -> i64 {
    let mut sum: i64 = 0;
    match column.kind() {
        ColType::Int => {
            for row in 0..column.len() {
                sum = sum.wrapping_add(column.int(row));
            }
        }
        ColType::Text => {
            for row in 0..column.len() {
                sum = sum.wrapping_add(column.text(row).len() as i64);
            }
        }
        _ => {}
    }
    sum
}

/// The sum of the first column of a segment.
fn sum_of_first(bytes: &[u8]) -> i64 {
    match view(bytes) {
        Ok(seen) if 1 <= seen.cols() => sum(&seen.column(0)),
        _ => 0,
    }
}

/// The frame of the largest tiles, which are cut from a frame and joined again.
fn cut_and_joined(alloc: Global, frame: &Frame) -> Result<Frame, NoMemory> {
    let schema = frame.schema();
    let tiles = tiles_of(alloc, frame, Cutting::largest())?;
    join(alloc, schema, tiles.items())
}

/// The number of bytes that are encoded.
fn encoded_bytes(alloc: Global, frame: &Frame) -> Result<i64, NoMemory>
    requires { IsStorable frame.now }
{
    Ok(encode(alloc, frame)?.len() as i64)
}

/// The number of rows that are copied.
fn copied_rows(alloc: Global, frame: &Frame) -> Result<i64, NoMemory>
    requires { IsStorable frame.now }
{
    Ok(frame.copy(alloc)?.rows() as i64)
}

/// The number of rows that are cut and joined.
fn joined_rows(alloc: Global, frame: &Frame) -> Result<i64, NoMemory> {
    Ok(cut_and_joined(alloc, frame)?.rows().min(1 << 40) as i64)
}

/// The number of bytes that are copied.
fn copied_bytes(alloc: Global, bytes: &[u8]) -> Result<i64, NoMemory> {
    Ok(Vec::from_slice(alloc, bytes)?.len() as i64)
}

/// How much is done at once: bytes that are encoded or copied, rows that are copied or cut and joined, or the sum of a view.
fn step(alloc: Global, what: &str, frame: &Frame, bytes: &[u8]) -> Result<i64, NoMemory>
    requires { IsStorable frame.now }
{
    match what {
        "encode" => encoded_bytes(alloc, frame),
        "view" => Ok(sum_of_first(bytes)),
        "columns" => copied_rows(alloc, frame),
        "cut" => joined_rows(alloc, frame),
        _ => copied_bytes(alloc, bytes),
    }
}

/// The sum of so many steps.
fn steps(
    alloc: Global,
    what: &str,
    frame: &Frame,
    bytes: &[u8],
    times: u64,
) -> Result<i64, NoMemory>
    requires { IsStorable frame.now }
{
    let mut check: i64 = 0;
    for _ in 0..times {
        check = check.wrapping_add(step(alloc, what, frame, bytes)?);
    }
    Ok(check)
}

/// Makes a frame and its segment, and does so many steps. The length of the segment, and the sum of the steps.
fn measured(
    alloc: Global,
    what: &str,
    of_texts: bool,
    size: (u64, u64),
    times: u64,
) -> Result<(usize, i64), NoMemory> {
    let frame = made(alloc, of_texts, size.0, size.1)?;
    let bytes = encode(alloc, &frame)?;
    let check = steps(alloc, what, &frame, &bytes, times)?;
    Ok((bytes.len(), check))
}

/// A word of the command line.
fn word(words: &[String], place: usize) -> anyhow::Result<&str> {
    let found = words.get(place).context(
        "words: encode|view|copy|columns|cut int|text ROWS COLUMNS TIMES",
    )?;
    Ok(found.as_str())
}

/// A number of the command line.
fn number(words: &[String], place: usize) -> anyhow::Result<u64> {
    Ok(word(words, place)?.parse()?)
}

/// The rows, the columns and the times of the command line.
fn sizes(words: &[String]) -> anyhow::Result<(u64, u64, u64)> {
    let rows = number(words, 2)?;
    let columns = number(words, 3)?;
    let times = number(words, 4)?;
    Ok((rows, columns, times))
}

/// What the words ask for is done: the length of the segment, and the sum of the steps.
fn done(alloc: Global, words: &[String]) -> anyhow::Result<(usize, i64)> {
    let what = word(words, 0)?;
    let of_texts = word(words, 1)? == "text";
    let (rows, columns, times) = sizes(words)?;
    measured(alloc, what, of_texts, (rows, columns), times)
        .ok()
        .context("the frame is too large, or memory ran out")
}

/// The words of the command line behind the program's name.
fn words_of(rt: &HostRuntime) -> anyhow::Result<Vec<String>> {
    let mut words = Vec::new(rt.alloc());
    for word in env::args(rt)?.skip(1) {
        words.push(word)?;
    }
    Ok(words)
}

fn main(rt: HostRuntime) -> anyhow::Result<()> {
    let words = words_of(&rt)?;
    let (length, check) = done(rt.alloc(), &words)?;
    println!(rt; "{length} bytes, check {check}")?;
    Ok(())
}
