use crate::columns::{Cells, Sheet, frame_of, has_flag, has_int, has_stamps, has_text};
use frame_core::{Frame, Items, Part};
use segment_cut::{Cutting, Grid, NoMemory, join, tiles_of};
use std::alloc::Global;
use std::test::Fail;

const SAMPLE: Sheet = Sheet {
    stamps: &[1, 2, 3, 4, 5],
    names: &["a", "b", "c"],
    columns: &[
        Cells::Ints(&[10, 20, 30, 40, 50]),
        Cells::Flags(&[true, false, true, false, true]),
        Cells::Texts(&["v", "", "xy", "", "z"]),
    ],
};

// The frame of its tiles, which are taken in the other order.
fn rejoined(alloc: Global, frame: &Frame, cutting: Cutting) -> Result<Frame, NoMemory> {
    let _rows = (frame.rows(), cutting.rows());
    let mut tiles = tiles_of(alloc, frame, cutting)?.into_vec();
    tiles.reverse();
    join(alloc, frame.schema(), &tiles)
}

// Tiles of two rows by one column.
fn two_by_one() -> Cutting {
    Cutting::make(2, 1).unwrap_or(Cutting::largest())
}

// The first row of a part and how many it has, and then its first column and how many.
fn numbers_of(part: Part) -> (u64, u64, u64, u64) {
    (part.first_row, part.rows, part.first_col, part.cols)
}

// Whether there are nine tiles, and the last has the last cell.
fn are_nine(tiles: &[(Part, Frame)]) -> bool {
    match tiles.last() {
        Some((part, tile)) => {
            tiles.len() == 9
                && numbers_of(*part) == (4, 1, 2, 1)
                && has_stamps(tile, &[5])
                && has_text(tile, 0, 0, "z")
        }
        None => false,
    }
}

// Whether the sample has nine tiles.
fn has_nine_tiles(alloc: Global) -> Result<bool, Fail> {
    let frame = frame_of(alloc, &SAMPLE)?;
    let tiles = tiles_of(alloc, &frame, two_by_one())?;
    Ok(are_nine(tiles.items()))
}

fn is_sample(frame: &Frame) -> bool {
    frame.schema().timed()
        && frame.schema().len() == 3
        && has_stamps(frame, &[1, 2, 3, 4, 5])
        && has_int(frame, 3, 0, 40)
        && has_flag(frame, 1, 1, false)
        && has_text(frame, 2, 2, "xy")
}

// Whether the tiles of the sample in the other order join to it.
fn joins_again(alloc: Global) -> Result<bool, Fail> {
    let frame = frame_of(alloc, &SAMPLE)?;
    let again = rejoined(alloc, &frame, two_by_one())?;
    Ok(is_sample(&again))
}

// How many blocks and slices so many rows and columns have, two rows by one column, and the numbers of the last part.
type Blocks = (u64, u64, Option<(u64, u64, u64, u64)>);

fn blocks_of(rows: u64, cols: u64) -> Blocks {
    let grid = Grid::make(rows, cols, two_by_one());
    let (blocks, slices) = (grid.row_blocks(), grid.col_blocks());
    if blocks > 0 && slices > 0 {
        let last = grid.part(blocks - 1, slices - 1);
        (blocks, slices, Some(numbers_of(last)))
    } else {
        (blocks, slices, None)
    }
}

fn is_cutting(rows: u32, cols: u32) -> bool {
    Cutting::make(rows, cols).is_some()
}

fn is_the_largest(cutting: Cutting) -> bool {
    cutting.rows() == 100_000 && cutting.cols() == 127
}

enum Case {
    NineTiles,
    JoinedAgain,
    // Rows and columns, and their blocks.
    Blocks(u64, u64, Blocks),
    // Rows and columns of a tile, and whether they lie within the limits.
    Cutting(u32, u32, bool),
    Largest,
}

fn holds(alloc: Global, case: &Case) -> Result<bool, Fail> {
    match case {
        Case::NineTiles => has_nine_tiles(alloc),
        Case::JoinedAgain => joins_again(alloc),
        Case::Blocks(rows, cols, blocks) => Ok(blocks_of(*rows, *cols) == *blocks),
        Case::Cutting(rows, cols, good) => Ok(is_cutting(*rows, *cols) == *good),
        Case::Largest => Ok(is_the_largest(Cutting::largest())),
    }
}

const CASES: &[(&str, Case)] = &[
    (
        "five rows of three columns two by one are nine tiles",
        Case::NineTiles,
    ),
    (
        "tiles in the other order join to the frame",
        Case::JoinedAgain,
    ),
    ("no rows have no tile", Case::Blocks(0, 3, (0, 3, None))),
    (
        "no columns have one slice of none",
        Case::Blocks(3, 0, (2, 1, Some((2, 1, 0, 0)))),
    ),
    ("a tile of no rows is no tile", Case::Cutting(0, 1, false)),
    (
        "a tile of no columns is no tile",
        Case::Cutting(1, 0, false),
    ),
    (
        "100,001 rows are too many for a tile",
        Case::Cutting(100_001, 1, false),
    ),
    (
        "128 columns are too many for a tile",
        Case::Cutting(1, 128, false),
    ),
    ("a tile may have one cell", Case::Cutting(1, 1, true)),
    (
        "a tile may have 100,000 rows of 127 columns",
        Case::Cutting(100_000, 127, true),
    ),
    ("the largest cutting is at both limits", Case::Largest),
];

#[test]
fn frames_in_tiles(rt: HostRuntime) -> Result<(), Fail> {
    for (name, case) in CASES {
        assert!(rt; holds(rt.alloc(), case)?, "{name}");
    }
    Ok(())
}
