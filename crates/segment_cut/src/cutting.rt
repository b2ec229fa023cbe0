ghost use Rattle.std.specs.Prelude.{◌≡◌, ◌↔◌, IfSome, IsSome};
ghost use Rattle.segment_cut.specs.Cuttings.{IsCutting};

use std::marker::Model;

/// How many rows and columns a full tile has: 1 to 100,000 rows, and 1 to 127 columns.
#[derive(Clone, Copy)]
pub struct Cutting {
    rows: u32,
    cols: u32,
}

impl Model for Cutting {
    ghost use Rattle.segment_cut.specs.Cuttings.{Cutting as Sizes, IsCutting};

    ghost Value = { Sizes };

    ghost view = { λ c. record { rows = c.rows; cols = c.cols } };

    ghost invariant = { λ c. IsCutting (record { rows = c.rows; cols = c.cols }) };

    ghost inverse = { λ s. record { rows = s.rows; cols = s.cols } };
}

impl Cutting {
    /// The cutting of these numbers; None exactly where one of them lies outside the limits.
    pub fn make(rows: u32, cols: u32) -> Option<Cutting>
        ensures cutting { IfSome result (λ made. made ≡ record { rows = rows; cols = cols }) }
        ensures some { IsSome result ↔ IsCutting (record { rows = rows; cols = cols }) }
    {
        if rows < 1 || rows > 100_000 || cols < 1 || cols > 127 {
            return None;
        }
        Some(Cutting { rows, cols })
    }

    /// The largest tiles: 100,000 rows and 127 columns.
    pub fn largest() -> Cutting
        ensures { result ≡ record { rows = 100000; cols = 127 } }
    {
        Cutting {
            rows: 100_000,
            cols: 127,
        }
    }

    /// How many rows a full tile has.
    pub fn rows(&self) -> u32
        ensures rows { result ≡ self.now.rows }
        ensures limits { IsCutting self.now }
    {
        self.rows
    }

    /// How many columns a full tile has.
    pub fn cols(&self) -> u32
        ensures cols { result ≡ self.now.cols }
        ensures limits { IsCutting self.now }
    {
        self.cols
    }
}
