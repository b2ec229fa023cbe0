ghost use Rattle.std.specs.Prelude.{◌≡◌, ℕ, true, [], if◌then◌else◌, OnOk, option_copied};
ghost use Rattle.std.specs.Map.{lookup};
ghost use Rattle.std.specs.BTreeMap.{is_at};
ghost use Rattle.std.specs.Cmp.Lexicographic.{slice_cmp};
ghost use Rattle.std.specs.Ordering.{nat_cmp};
ghost use Rattle.key_kind.specs.Names.{Name as NameBytes, same_name};
ghost use Rattle.bucket_core.specs.Heads.{head_in, has_room};

use base_types::{Keep, NoMemory};
use key_kind::{Key, Name};
use std::alloc::Global;
use std::collections::BTreeMap;
use std::marker::Model;

/// A symbol's newest Refer: the entry that it set, and its place. Of a symbol without one there is no entry, and the place is 0.
#[derive(Drop)]
pub(crate) struct Head {
    pub(crate) entry: Option<Key>,
    pub(crate) since: u64,
}

/// The heads of symbols. Contracts see the list of symbols and heads.
#[derive(Drop)]
pub(crate) struct Heads {
    heads: BTreeMap<Name, Head>,
}

impl Model for Heads {
    ghost use Rattle.std.specs.Prelude.{List};
    ghost use Rattle.key_kind.specs.Names.{Name as NameBytes};
    ghost use Rattle.bucket_core.specs.declared.head.Head.{Head};

    ghost Value = { List (NameBytes × Head) };

    ghost view = { λ h. h.heads.entries };
}

impl Heads {
    /// No heads.
    pub(crate) fn new(alloc: Global) -> Heads
        ensures { result ≡ [] }
    {
        Heads {
            heads: BTreeMap::new(alloc),
        }
    }

    /// The head of a symbol, if it has an entry.
    pub(crate) fn find(&self, symbol: &Name) -> Option<&Head>
        ensures { option_copied result ≡ lookup (is_at (slice_cmp nat_cmp symbol.now)) self.now }
    {
        self.heads.get(symbol)
    }

    /// Sees to it that the symbol has an entry, so that its head can be set without memory.
    pub(crate) fn make_room(&mut self, alloc: Global, symbol: &Name) -> Result<(), NoMemory>
        ensures same { (other : NameBytes) → head_in self.new other ≡ head_in self.old other }
        ensures room { OnOk result (has_room self.new symbol.now ≡ true) }
    {
        if self.heads.contains_key(symbol) {
            return Ok(());
        }
        let symbol = symbol.copy(alloc)?;
        let head = Head {
            entry: None,
            since: 0,
        };
        match self.heads.insert(symbol, head) {
            Ok(_) => Ok(()),
            Err(_) => Err(NoMemory),
        }
    }

    /// Sets the head of a symbol that has an entry.
    pub(crate) fn set(&mut self, symbol: Name, head: Head)
        requires room { has_room self.old symbol ≡ true }
        ensures { (other : NameBytes) → head_in self.new other ≡ (if same_name symbol other then head else head_in self.old other) }
    {
        let _ = self.heads.insert(symbol, head);
    }
}
