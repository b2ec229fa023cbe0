ghost use Rattle.std.specs.Prelude.{◌≡◌};
ghost use Rattle.frame_core.specs.declared.refusal.Refusal.TheVariants.{NoMemory};

use base_types::NoMemory;
use std::alloc::{AllocError, AllocFailed};

/// Which version was asked.
#[derive(Clone, Copy, Debug, PartialEq, Eq)]
pub enum Asked {
    /// The version of this number.
    Number(u64),
    /// So many live versions back, the latest being 1.
    Back(u64),
    /// The live version of the greatest number whose stamp is at most this moment.
    Moment(i64),
}

/// What of a frame is too large.
#[derive(Clone, Copy, Debug, PartialEq, Eq)]
pub enum Extent {
    Rows,
    Columns,
    Cells,
    OneText,
    TextBytes,
}

/// Why a call is refused. Rows, columns, clauses, groups and pieces are counted from 1.
#[derive(Clone, Copy, Debug, PartialEq, Eq)]
pub enum Refusal {
    NoMemory,
    /// A call of the store failed.
    StoreFault,
    NoSuchSymbol,
    NoSuchVersion { asked: Asked },
    /// The version was buried, and one of its keys was dropped.
    VersionGone { version: u64 },
    /// Each try met a commit of another client, the last at this place.
    Moved { now: u64 },
    /// The stamp of this row lies below the one before.
    Unsorted { row: u64 },
    SchemaDiffers { column: u64 },
    /// The first stamp lies below the last stored one.
    AppendBefore { last: i64, first: i64 },
    OutsideRange { row: u64 },
    EmptyUpdate,
    NoSuchColumn { clause: u64, position: u64 },
    TypeMismatch { clause: u64 },
    Overflow { clause: u64, row: u64 },
    GroupOverflow { clause: u64, group: u64 },
    NotTimeIndexed { clause: u64 },
    SnapshotExists,
    NoSuchSnapshot,
    NoStaged,
    StagedOverlap { piece: u64 },
    /// The store has so many events that it takes no more.
    Spent { count: u64 },
    TooLarge { what: Extent, limit: u64 },
}

/// A refusal of a call over a bucket, with the place at which it holds.
#[derive(Clone, Copy, Debug, PartialEq, Eq)]
pub struct Refused {
    pub place: u64,
    pub why: Refusal,
}

impl From<NoMemory> for Refusal {
    ghost from_gives = { λ _ refusal. refusal ≡ NoMemory };

    fn from(_error: NoMemory) -> Refusal {
        Refusal::NoMemory
    }
}

impl From<AllocError> for Refusal {
    ghost from_gives = { λ _ refusal. refusal ≡ NoMemory };

    fn from(_error: AllocError) -> Refusal {
        Refusal::NoMemory
    }
}

impl<T: Drop> From<AllocFailed<T>> for Refusal {
    ghost from_gives = { λ _ refusal. refusal ≡ NoMemory };

    fn from(_error: AllocFailed<T>) -> Refusal {
        Refusal::NoMemory
    }
}
