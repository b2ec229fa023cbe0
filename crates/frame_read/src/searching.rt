//! Where the rows of a range begin and end in a tile, searched by halves where the tile's bytes lie.

ghost use Rattle.std.specs.Prelude.{◌≡◌, ◌≤◌, ◌+◌, length, drop, count_by, not, int_lt, false};
ghost use Rattle.std.specs.Option.{option_map_or};
ghost use Rattle.frame_core.specs.Frames.{stamps_of};
ghost use Rattle.frame_read.specs.Gathers.{passes};

use crate::tile_view::TileView;
use frame_core::Range;

/// Where the rows in a range begin, or where they end.
#[derive(Clone, Copy)]
pub(crate) enum Edge {
    Begin,
    End,
}

/// The row behind the last one, from the first row on, that lies before this edge of the range.
pub(crate) fn edge_row(view: &TileView<'_>, first: u64, range: Range, edge: Edge) -> u64
    requires { first ≤ length view.now.rows }
    ensures least { first ≤ result }
    ensures most { result ≤ length view.now.rows }
    ensures count { result ≡ first + count_by (passes edge range) (drop first (stamps_of view.now.rows)) }
{
    let mut low = first;
    let mut high = view.rows();
    while low < high {
        let middle = low + (high - low) / 2;
        if is_before(view.stamp(middle), range, edge) {
            low = middle + 1;
        } else {
            high = middle;
        }
    }
    low
}

/// Whether a stamp lies before this edge of the range.
fn is_before(stamp: i64, range: Range, edge: Edge) -> bool
    ensures { result ≡ passes edge range stamp }
{
    match edge {
        Edge::Begin => is_below(stamp, range.from()),
        Edge::End => is_up_to(stamp, range.to()),
    }
}

/// Whether a stamp lies below the first that is asked.
fn is_below(stamp: i64, from: Option<i64>) -> bool
    ensures { result ≡ option_map_or (λ first. int_lt stamp first) from false }
{
    match from {
        Some(first) => stamp < first,
        None => false,
    }
}

/// Whether a stamp does not lie above the last that is asked.
fn is_up_to(stamp: i64, to: Option<i64>) -> bool
    ensures { result ≡ not (option_map_or (λ last. int_lt last stamp) to false) }
{
    match to {
        Some(last) => stamp <= last,
        None => true,
    }
}
