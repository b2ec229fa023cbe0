ghost use Rattle.std.specs.Prelude.{◌≡◌};
ghost use Rattle.std.specs.Arc.{arc_value};

use crate::body::SharedBody;
use base_types::Items;
use frame_core::{Frame, Range};
use key_kind::{Holder, Key, SnapName, Symbol};
use std::marker::Model;
use std::sync::Arc;

/// The name of a staged piece: the client that staged it and the serial of its key.
#[derive(Clone, Copy)]
pub struct PieceName {
    pub client: u32,
    pub serial: u64,
}

/// What one commit changes of its symbol. Moments are in nanoseconds since 1970.
#[derive(Drop)]
pub enum Change {
    /// A new version of this frame.
    Wrote { frame: Frame, at: i64 },
    /// A new version: the base's rows and then these.
    Appended { frame: Frame, at: i64 },
    /// A new version: the base's rows outside the range, and these in it.
    Updated { frame: Frame, range: Range, at: i64 },
    /// These versions are buried.
    Removed { versions: Items<u64> },
    /// The holder holds this version.
    Held { holder: Holder, version: u64 },
    /// The holder's hold ends.
    Released { holder: Holder },
    /// These staged pieces are consumed.
    Discarded { pieces: Items<PieceName> },
    /// The symbol is what it was; one element tells all of it anew.
    Restated,
}

/// The changes of one commit, which an event shares with its caller. Contracts see the list.
#[derive(Drop)]
pub struct SharedChanges {
    shared: Arc<Items<Change>>,
}

impl Model for SharedChanges {
    ghost use Rattle.std.specs.Prelude.{List};
    ghost use Rattle.std.specs.Arc.{arc_value};
    ghost use Rattle.bucket_core.specs.declared.event.Change.{Change};

    ghost Value = { List Change };

    ghost view = { λ c. arc_value c.shared };
}

impl SharedChanges {
    /// Shares these changes, and takes no memory.
    pub fn make(shared: Arc<Items<Change>>) -> SharedChanges
        ensures { result ≡ arc_value shared }
    {
        SharedChanges { shared }
    }

    /// The changes, lent, in their order.
    pub fn items(&self) -> &[Change]
        ensures { result.now ≡ self.now }
    {
        self.shared.items()
    }
}

/// One event of a store. Each sets one key: to a body, or to nothing.
#[derive(Drop)]
pub enum Event {
    /// An object is put under a key of its own.
    Put {
        client: u32,
        key: Key,
        body: SharedBody,
    },
    /// The symbol's reference, which was `was`, is set to an element of its chain.
    Refer {
        client: u32,
        symbol: Symbol,
        was: Option<Key>,
        entry: Key,
        changes: SharedChanges,
    },
    /// The snapshot's name stands from now on.
    Name {
        client: u32,
        snap: SnapName,
        body: SharedBody,
    },
    /// The snapshot's name stands no more.
    Unname {
        client: u32,
        snap: SnapName,
    },
    /// The object of a key is dropped.
    Drop {
        client: u32,
        key: Key,
    },
}
