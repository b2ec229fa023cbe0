use crate::clause::Clause;
use base_types::Items;
use frame_core::{ColName, Range};
use key_kind::{SnapName, Symbol};

/// Which version a read takes.
#[derive(Drop)]
pub enum AsOf {
    /// So many live versions back, the latest being 1.
    Back(u64),
    /// The live version of this number.
    Number(u64),
    /// The version that the snapshot holds, buried or not.
    Snapshot(SnapName),
    /// The live version of the greatest number whose stamp is at most this moment, in nanoseconds since 1970.
    Moment(i64),
}

/// A symbol that a snapshot is to hold, and which version of it; None is the latest.
#[derive(Drop)]
pub struct Pick {
    pub symbol: Symbol,
    pub version: Option<u64>,
}

/// What a client may ask. Frames are named by their number among the session's frames, from 0. Where `at` is left out,
/// the moment of the session is the version's stamp. With `prune` a commit buries what was live before it.
#[derive(Drop)]
pub enum Command {
    /// A new version of this frame.
    Write {
        symbol: Symbol,
        frame: u64,
        at: Option<i64>,
        prune: bool,
    },
    /// A new version: the latest one's rows and then the frame's.
    Append {
        symbol: Symbol,
        frame: u64,
        at: Option<i64>,
        prune: bool,
    },
    /// A new version: the frame's rows in place of the latest one's in the range, or else from the frame's first stamp to its last.
    Update {
        symbol: Symbol,
        frame: u64,
        range: Option<Range>,
        /// Whether the symbol may be without a live version.
        upsert: bool,
        at: Option<i64>,
        prune: bool,
    },
    /// A new version: the latest one's rows outside the range.
    DeleteRange {
        symbol: Symbol,
        range: Range,
        at: Option<i64>,
        prune: bool,
    },
    /// The frame is staged as a piece.
    Stage {
        symbol: Symbol,
        frame: u64,
    },
    /// A new version of the staged pieces, which are consumed.
    Finalize {
        symbol: Symbol,
        /// Behind the latest version's rows, and not in their place.
        append: bool,
        /// All rows ordered by stamp, so that pieces may overlap.
        sorted: bool,
        at: Option<i64>,
        prune: bool,
    },
    /// The staged pieces are consumed.
    Discard {
        symbol: Symbol,
    },
    /// These versions are buried; None takes every live one.
    Delete {
        symbol: Symbol,
        versions: Option<Items<u64>>,
    },
    /// Every live version but the latest is buried.
    Prune {
        symbol: Symbol,
    },
    /// Tiles, indexes and pieces that nothing needs are dropped.
    Reclaim {
        symbol: Symbol,
    },
    /// The versions ever linked.
    Versions {
        symbol: Symbol,
    },
    /// How many keys are stored, of each kind.
    Keys {
        symbol: Symbol,
    },
    /// Versions of these symbols are held under a name; an empty list takes all symbols.
    Snapshot {
        snap: SnapName,
        picks: Items<Pick>,
    },
    /// The name stands no more, and its versions are released.
    DeleteSnapshot {
        snap: SnapName,
    },
    /// The symbols that have a reference.
    Symbols,
    /// The names that stand.
    Snapshots,
    /// The rows of one version in a range, of these the asked columns or all, and what the clauses give of them.
    Read {
        symbol: Symbol,
        as_of: AsOf,
        range: Range,
        columns: Option<Items<ColName>>,
        clauses: Items<Clause>,
    },
}
