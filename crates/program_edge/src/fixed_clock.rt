ghost use Rattle.std.specs.Prelude.{◌≡◌};

use crate::clock::Clock;

/// A clock that stands still.
#[derive(Clone, Copy)]
pub struct FixedClock {
    reading: i64,
}

impl FixedClock {
    /// A clock that answers this moment, in nanoseconds since 1970.
    pub fn make(reading: i64) -> FixedClock
        ensures { result.reading ≡ reading }
    {
        FixedClock { reading }
    }
}

impl Clock for FixedClock {
    ghost use Rattle.std.specs.Prelude.{Some};

    ghost reading = { λ c. Some c.reading };

    fn now(&mut self) -> i64
        ensures reading { result ≡ self.old.reading }
        ensures same { self.new ≡ self.old }
    {
        self.reading
    }
}
