use base_types::Items;
use frame_core::{Frame, Refusal};
use key_kind::{SnapName, Symbol};

/// A symbol that a snapshot holds: its version, and the place of the hold.
#[derive(Drop)]
pub struct HeldAt {
    pub symbol: Symbol,
    pub version: u64,
    pub place: u64,
}

/// A version: its number, its stamp in nanoseconds since 1970, whether it is live, and how many holds it has.
#[derive(Clone, Copy, PartialEq, Eq)]
pub struct VersionRow {
    pub version: u64,
    pub stamp: i64,
    pub live: bool,
    pub holds: u64,
}

/// A symbol, its latest live version, and the place at which it was that.
#[derive(Drop)]
pub struct SymbolRow {
    pub symbol: Symbol,
    pub newest: Option<u64>,
    pub place: u64,
}

/// What a command answers.
#[derive(Drop)]
pub enum Outcome {
    /// A new version.
    Committed {
        version: u64,
    },
    /// A piece is staged.
    Staged,
    /// A new version of so many pieces.
    Finalized {
        version: u64,
        pieces: u64,
    },
    /// So many pieces are consumed.
    Discarded {
        pieces: u64,
    },
    /// So many versions are buried.
    Deleted {
        versions: u64,
    },
    /// So many versions are buried.
    Pruned {
        versions: u64,
    },
    /// So many keys are dropped, of each kind.
    Freed {
        tiles: u64,
        indexes: u64,
        staged: u64,
    },
    /// The name stands over these versions.
    Kept {
        held: Items<HeldAt>,
    },
    /// The name stands no more.
    Unkept,
    /// The rows and columns that were asked of a version.
    Whole {
        version: u64,
        frame: Frame,
    },
    /// Every version ever linked, in ascending order.
    Versions {
        rows: Items<VersionRow>,
    },
    /// Every symbol that has a reference, in ascending order.
    Symbols {
        rows: Items<SymbolRow>,
    },
    /// The names that stand, in ascending order.
    Snapshots {
        names: Items<SnapName>,
    },
    /// How many keys of the symbol are stored, of each kind.
    Keys {
        tiles: u64,
        indexes: u64,
        versions: u64,
        refs: u64,
        staged: u64,
    },
    /// The command is refused.
    Refused {
        why: Refusal,
    },
}
