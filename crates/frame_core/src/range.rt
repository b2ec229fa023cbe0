ghost use Rattle.std.specs.Prelude.{◌≡◌, ◌↔◌, IfSome, IsSome};
ghost use Rattle.frame_core.specs.Ranges.{InOrder, IsRange};

use std::marker::Model;

/// The first and the last stamp that are asked, both included; an end that is left out is open. The ends stand in order.
#[derive(Clone, Copy)]
pub struct Range {
    from: Option<i64>,
    to: Option<i64>,
}

impl Model for Range {
    ghost use Rattle.frame_core.specs.Ranges.{Range as Ends, IsRange};

    ghost Value = { Ends };

    ghost view = { λ r. record { from = r.from; to = r.to } };

    ghost invariant = { λ r. IsRange (record { from = r.from; to = r.to }) };

    ghost inverse = { λ e. record { from = e.from; to = e.to } };
}

impl Range {
    /// The range of these ends; None where the first lies above the last.
    pub fn make(from: Option<i64>, to: Option<i64>) -> Option<Range>
        ensures range { IfSome result (λ r. r ≡ record { from = from; to = to }) }
        ensures some { IsSome result ↔ InOrder from to }
    {
        match (from, to) {
            (Some(first), Some(last)) if first > last => None,
            _ => Some(Range { from, to }),
        }
    }

    /// The first stamp that is asked.
    pub fn from(&self) -> Option<i64>
        ensures end { result ≡ self.now.from }
        ensures range { IsRange self.now }
    {
        self.from
    }

    /// The last stamp that is asked.
    pub fn to(&self) -> Option<i64>
        ensures end { result ≡ self.now.to }
        ensures range { IsRange self.now }
    {
        self.to
    }
}
