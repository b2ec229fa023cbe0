ghost use Rattle.std.specs.Prelude.{ℤ, Option};
ghost use Rattle.program_edge.specs.Clocks.{IsReading};

/// What tells the moment.
pub trait Clock {
    /// What the next `now` answers, where the clock tells it.
    ghost reading: { Self → Option ℤ };

    /// The moment, in nanoseconds since 1970.
    fn now(&mut self) -> i64
        ensures { IsReading (reading self.old) result };
}
