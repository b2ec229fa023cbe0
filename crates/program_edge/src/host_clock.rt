use crate::clock::Clock;
use std::rt;
use std::time::{SystemTime, UNIX_EPOCH};

/// The system's clock, whose reading it does not tell. It answers 0 where the system's clock fails.
#[derive(Drop)]
pub struct HostClock<'a, R> {
    rt: &'a R,
}

impl<'a, R> HostClock<'a, R> {
    /// The clock of this runtime. It takes no memory.
    pub fn make(rt: &'a R) -> HostClock<'a, R> {
        HostClock { rt }
    }
}

fn system_nanos<R: rt::Clock>(rt: &R) -> Option<i64> {
    let time = SystemTime::now(rt).ok()?;
    let since_1970 = time.duration_since(UNIX_EPOCH).ok()?;
    i64::try_from(since_1970.as_nanos()).ok()
}

impl<'a, R: rt::Clock> Clock for HostClock<'a, R> {
    ghost use Rattle.std.specs.Prelude.{None};

    ghost reading = { λ _. None };

    fn now(&mut self) -> i64 {
        system_nanos(self.rt).unwrap_or(0)
    }
}
