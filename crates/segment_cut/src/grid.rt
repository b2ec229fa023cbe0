ghost use Rattle.std.specs.Prelude.{◌≡◌, ◌<◌};
ghost use Rattle.segment_cut.specs.Grids.{Grid as Division, row_blocks, col_blocks, part_at};

use crate::cutting::Cutting;
use frame_core::Part;
use std::marker::Model;

/// How so many rows and columns are cut into parts: blocks of rows, and in each block slices of columns.
#[derive(Clone, Copy)]
pub struct Grid {
    rows: u64,
    cols: u64,
    full_rows: u32,
    full_cols: u32,
}

impl Model for Grid {
    ghost use Rattle.segment_cut.specs.Cuttings.{IsCutting};
    ghost use Rattle.segment_cut.specs.Grids.{Grid as Division};

    ghost Value = { Division };

    ghost view = { λ g. record { rows = g.rows; cols = g.cols; cutting = record { rows = g.full_rows; cols = g.full_cols } } };

    ghost invariant = { λ g. IsCutting (record { rows = g.full_rows; cols = g.full_cols }) };

    ghost inverse = { λ d. record { rows = d.rows; cols = d.cols; full_rows = d.cutting.rows; full_cols = d.cutting.cols } };
}

impl Grid {
    /// The grid of so many rows and columns under a cutting.
    pub fn make(rows: u64, cols: u64, cutting: Cutting) -> Grid
        ensures { result ≡ record { rows = rows; cols = cols; cutting = cutting } }
    {
        Grid {
            rows,
            cols,
            full_rows: cutting.rows(),
            full_cols: cutting.cols(),
        }
    }

    /// How many blocks of rows there are: none where there are no rows.
    pub fn row_blocks(&self) -> u64
        ensures { result ≡ row_blocks self.now }
    {
        self.rows.div_ceil(self.full_rows as u64)
    }

    /// How many slices of columns each block has: one even where there are no columns.
    pub fn col_blocks(&self) -> u64
        ensures { result ≡ col_blocks self.now }
    {
        self.cols.div_ceil(self.full_cols as u64).max(1)
    }

    /// The part of a block and a slice, both counted from 0. All blocks are full but the last, and so all slices.
    pub fn part(&self, block: u64, slice: u64) -> Part
        requires block { block < row_blocks self.now }
        requires slice { slice < col_blocks self.now }
        ensures { result ≡ part_at self.now block slice }
    {
        let (rows, cols) = (self.rows, self.cols);
        let full_rows = self.full_rows as u64;
        let full_cols = self.full_cols as u64;
        let first_row = block * full_rows;
        let first_col = slice * full_cols;
        Part {
            first_row,
            rows: full_rows.min(rows - first_row),
            first_col,
            cols: full_cols.min(cols - first_col),
        }
    }
}
