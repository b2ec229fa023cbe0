ghost use Rattle.std.specs.Prelude.{◌≡◌, refl, Some, IfOk};
ghost use Rattle.std.specs.Cmp.{partial_equiv_from_equiv};
ghost use Rattle.key_kind.specs.Keys.{IsKey, kind_code, is_put, has_version, has_stamps, same_key, key_cmp, reference_key, snapshot_key};
ghost use Rattle.key_kind.specs.KeyText.{kind_of};
ghost use Rattle.key_kind.specs.KeyOrder.{same_key_equiv, key_cmp_po, key_cmp_total, same_key_ties};

use crate::name::{Name, SnapName, Symbol};
use base_types::{Keep, NoMemory};
use std::alloc::Global;
use std::cmp::Ordering;

/// What an object of the store is. The kinds stand in the order of their keys.
#[derive(Clone, Copy)]
pub enum KeyKind {
    /// A tile: a segment of some rows and columns of a version.
    TableData,
    /// The index of a version: where its tiles lie.
    TableIndex,
    /// An element of a symbol's chain of versions.
    Version,
    /// A symbol's reference to the newest element of its chain, the only key that is overwritten.
    VersionRef,
    /// A snapshot: versions of symbols under a name.
    Snapshot,
    /// Rows that are staged and not yet a part of a version.
    Staged,
}

impl KeyKind {
    /// The number of the kind in a key's bytes, which also orders the kinds.
    pub fn code(self) -> u8
        ensures { result ≡ kind_code self }
    {
        match self {
            KeyKind::TableData => 1,
            KeyKind::TableIndex => 2,
            KeyKind::Version => 3,
            KeyKind::VersionRef => 4,
            KeyKind::Snapshot => 5,
            KeyKind::Staged => 6,
        }
    }

    /// The kind of a number.
    pub(crate) fn of_code(code: u8) -> Option<KeyKind>
        ensures { result ≡ kind_of code }
    {
        match code {
            1 => Some(KeyKind::TableData),
            2 => Some(KeyKind::TableIndex),
            3 => Some(KeyKind::Version),
            4 => Some(KeyKind::VersionRef),
            5 => Some(KeyKind::Snapshot),
            6 => Some(KeyKind::Staged),
            _ => None,
        }
    }

    /// Whether a client puts such a key, under its number and its next serial.
    pub fn is_put(self) -> bool
        ensures { result ≡ is_put self }
    {
        !matches!(self, KeyKind::VersionRef | KeyKind::Snapshot)
    }

    /// Whether such a key has the number of a version.
    pub fn has_version(self) -> bool
        ensures { result ≡ has_version self }
    {
        matches!(self, KeyKind::TableData | KeyKind::TableIndex)
    }

    /// Whether such a key has a first and a last stamp.
    pub fn has_stamps(self) -> bool
        ensures { result ≡ has_stamps self }
    {
        matches!(
            self,
            KeyKind::TableData | KeyKind::TableIndex | KeyKind::Staged
        )
    }
}

/// The key of an object. Keys are ordered by their fields in the order written.
#[derive(Drop)]
pub struct Key {
    pub kind: KeyKind,
    /// The symbol's name, or the snapshot's.
    pub name: Name,
    /// The client that put the object; 0 for a reference and a snapshot.
    pub client: u32,
    /// How many objects this client had put before; 0 for a reference and a snapshot.
    pub serial: u64,
    /// The version that a tile or an index was made for, and else 0.
    pub version: u64,
    /// The first stamp of a tile, an index or a staged piece, and else 0.
    pub first: i64,
    /// The last stamp of a tile, an index or a staged piece, and else 0.
    pub last: i64,
}

impl Key {
    /// The key of a symbol's reference, with a copy of the name. All its numbers are 0.
    pub fn reference(alloc: Global, symbol: &Symbol) -> Result<Key, NoMemory>
        ensures key { IfOk result (λ key. key ≡ reference_key symbol.now) }
        ensures is_key { IsKey (reference_key symbol.now) }
    {
        Ok(Key {
            kind: KeyKind::VersionRef,
            name: symbol.name().copy(alloc)?,
            client: 0,
            serial: 0,
            version: 0,
            first: 0,
            last: 0,
        })
    }

    /// The key of a snapshot, with a copy of the name. All its numbers are 0.
    pub fn snapshot(alloc: Global, snap: &SnapName) -> Result<Key, NoMemory>
        ensures key { IfOk result (λ key. key ≡ snapshot_key snap.now) }
        ensures is_key { IsKey (snapshot_key snap.now) }
    {
        Ok(Key {
            kind: KeyKind::Snapshot,
            name: snap.name().copy(alloc)?,
            client: 0,
            serial: 0,
            version: 0,
            first: 0,
            last: 0,
        })
    }

    /// Whether the other is the same key.
    pub fn same(&self, other: &Key) -> bool
        ensures { result ≡ same_key self.now other.now }
    {
        self.kind.code() == other.kind.code()
            && self.name == other.name
            && self.client == other.client
            && self.serial == other.serial
            && self.version == other.version
            && self.first == other.first
            && self.last == other.last
    }
}

impl Keep for Key {
    fn copy(&self, alloc: Global) -> Result<Key, NoMemory> {
        Ok(Key {
            kind: self.kind,
            name: self.name.copy(alloc)?,
            client: self.client,
            serial: self.serial,
            version: self.version,
            first: self.first,
            last: self.last,
        })
    }
}

impl PartialEq for Key {
    ghost eq = { same_key };

    ghost laws = { partial_equiv_from_equiv same_key_equiv };

    fn eq(&self, other: &Key) -> bool {
        self.same(other)
    }
}

impl Eq for Key {
    ghost laws = { same_key_equiv };
}

impl PartialOrd for Key {
    ghost partial_cmp = { λ x y. Some (key_cmp x y) };

    ghost laws = { key_cmp_po };

    fn partial_cmp(&self, other: &Key) -> Option<Ordering> {
        Some(self.cmp(other))
    }
}

impl Ord for Key {
    ghost cmp = { key_cmp };

    ghost total = { key_cmp_total };

    ghost matches_partial_cmp = { λ x y. refl };

    ghost matches_eq = { same_key_ties };

    fn cmp(&self, other: &Key) -> Ordering {
        let ours = (
            self.kind.code(),
            &self.name,
            self.client,
            self.serial,
            self.version,
            self.first,
            self.last,
        );
        let theirs = (
            other.kind.code(),
            &other.name,
            other.client,
            other.serial,
            other.version,
            other.first,
            other.last,
        );
        ours.cmp(&theirs)
    }
}

/// Who holds a version: a snapshot command, by its client and that client's next serial as it began.
#[derive(Clone, Copy, PartialEq, Eq)]
pub struct Holder {
    pub client: u32,
    pub serial: u64,
}

impl Keep for Holder {
    fn copy(&self, _alloc: Global) -> Result<Holder, NoMemory> {
        Ok(*self)
    }
}
