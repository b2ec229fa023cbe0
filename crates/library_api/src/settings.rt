ghost use Rattle.std.specs.Prelude.{◌≡◌, unwrap_or};

use frame_write::Options;
use segment_cut::Cutting;

/// How a client's commands are carried out.
#[derive(Clone, Copy)]
pub struct Settings {
    /// How large the tiles of a written frame are.
    pub cutting: Cutting,
    /// How often a commit is tried: 1 to 1,000 times.
    pub tries: u32,
    /// How many threads the clauses of a read may use: 1 to 64.
    pub workers: u32,
    /// The stamp of a version whose command gives none, in nanoseconds since 1970.
    pub moment: i64,
}

impl Settings {
    /// How a frame is written by a command that asks for this stamp.
    pub(crate) fn options(&self, at: Option<i64>, prune: bool) -> Options
        ensures { result ≡ record { cutting = self.now.cutting; tries = self.now.tries; at = unwrap_or at self.now.moment; prune = prune } }
    {
        Options {
            cutting: self.cutting,
            tries: self.tries,
            at: at.unwrap_or(self.moment),
            prune,
        }
    }
}
