ghost use Rattle.std.specs.Prelude.{◌≡◌};

use segment_cut::Cutting;

/// How a frame is written.
#[derive(Clone, Copy)]
pub struct Options {
    /// How large the tiles are.
    pub cutting: Cutting,
    /// How often the commit is tried: 1 to 1,000 times.
    pub tries: u32,
    /// The stamp of the new version, in nanoseconds since 1970.
    pub at: i64,
    /// Whether every version that was live before is buried.
    pub prune: bool,
}

impl Options {
    /// The stamp of the new version.
    pub(crate) fn stamp(&self) -> i64
        ensures { result ≡ self.now.at }
    {
        self.at
    }
}

/// A commit that stands.
#[derive(Clone, Copy)]
pub struct Committed {
    /// The number of the new version.
    pub version: u64,
    /// The place of the commit's event.
    pub place: u64,
}
