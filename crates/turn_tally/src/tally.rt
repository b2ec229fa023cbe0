// The value in the cell.
ghost use Rattle.std.specs.Prelude.{◌≡◌, ◌+◌, ◌^◌, ◌≤◌, ◌⊎◌, IfSome, IfNone, length, sum_by};

use crate::mark::Mark;
use turn_cell::Storied;

/// The sum of all amounts, how many there are, and the greatest number that was given out.
#[derive(Drop)]
pub struct Tally {
    pub total: u64,
    pub count: u64,
    pub given: u32,
}

impl Storied for Tally {
    type Entry = Mark;

    ghost stands = { λ t log. (t.total ≡ sum_by (λ e. e.amount) log) × (t.count ≡ length log) };

    ghost author = { λ e. e.by };

    ghost row_of = { λ e. e.row };

    ghost greatest = { λ t. t.given };
}

impl Tally {
    /// The tally with one amount more, or none where it does not fit.
    pub(crate) fn plus(&self, amount: u64) -> Option<Tally>
        ensures some { IfSome result (λ t. (t.total ≡ self.now.total + amount) × (t.count ≡ self.now.count + 1) × (t.given ≡ self.now.given) × (t.count ≤ 2 ^ 62)) }
        ensures none { IfNone result ((2 ^ 64 ≤ self.now.total + amount) ⊎ (2 ^ 62 ≤ self.now.count)) }
    {
        if self.count >= 1 << 62 {
            return None;
        }
        let total = self.total.checked_add(amount)?;
        Some(Tally {
            total,
            count: self.count + 1,
            given: self.given,
        })
    }
}
