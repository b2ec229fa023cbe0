// The change that a refer makes.
ghost use Rattle.std.specs.Prelude.{◌≡◌, IfOk, option_copied};
ghost use Rattle.std.specs.Arc.{arc_value};
ghost use Rattle.key_kind.specs.Keys.{reference_key};
ghost use Rattle.key_kind.specs.KeyText.{key_text};

use crate::change::{Change, test_room};
use crate::row::row_of;
use base_types::{Keep, NoMemory};
use bucket_core::{Body, Changes, Contents, StoreErr};
use key_kind::{Key, Name, Symbol};
use std::alloc::Global;
use std::sync::Arc;

/// A symbol's reference, which is `was`, is set to an entry. What it needs is made ready before the turn: the symbol's name and key,
/// the entry, and its spelling.
#[derive(Drop)]
pub(crate) struct SetReference<'a> {
    alloc: Global,
    symbol: &'a Symbol,
    was: Option<&'a Key>,
    changes: &'a Changes,
    name: Name,
    key: Key,
    entry: Key,
    mark: Arc<Body>,
    ghost name_is: { name ≡ symbol.now },
    ghost key_is: { key ≡ reference_key symbol.now },
    ghost mark_is: { arc_value mark ≡ key_text entry },
}

impl<'a> SetReference<'a> {
    /// Makes ready what a refer of this symbol to this entry needs. `mark` is the spelling of the entry.
    pub(crate) fn make(
        alloc: Global,
        symbol: &'a Symbol,
        was: Option<&'a Key>,
        entry: &Key,
        mark: Arc<Body>,
        changes: &'a Changes,
    ) -> Result<SetReference<'a>, NoMemory>
        requires mark { arc_value mark ≡ key_text entry.now }
        ensures symbol { IfOk result (λ made. made.symbol.now ≡ symbol.now) }
        ensures was { IfOk result (λ made. option_copied made.was ≡ option_copied was.entry) }
        ensures changes { IfOk result (λ made. made.changes.now ≡ changes.now) }
        ensures entry { IfOk result (λ made. made.entry ≡ entry.now) }
    {
        Ok(SetReference {
            alloc,
            symbol,
            was,
            changes,
            name: symbol.name().copy(alloc)?,
            key: Key::reference(alloc, symbol)?,
            entry: entry.copy(alloc)?,
            mark,
        })
    }
}

impl Change for SetReference<'_> {
    ghost use Rattle.std.specs.Prelude.{refl, ◌≡◌, option_copied};
    ghost use Rattle.bucket_core.specs.History.{reference};
    ghost use Rattle.bucket_core.specs.Calls.{RefusesRefer, refer_event};
    ghost use Rattle.bucket_shared.specs.Changes.{OrNoMemory};

    ghost event = { λ c client. refer_event client c.symbol.now (option_copied c.was) c.entry c.changes.now };

    ghost tested = { λ c h. reference h c.symbol.now ≡ option_copied c.was };

    ghost refuses = { λ c limit. OrNoMemory (RefusesRefer limit c.symbol.now (option_copied c.was)) };

    ghost by = { λ c client. refl };

    fn row(&self) -> Option<u32> {
        Some(row_of(self.symbol.name()))
    }

    fn make(self, contents: &mut Contents, limit: u64) -> Result<(), StoreErr> {
        if let Some(now) = contents.moved_at(self.symbol, self.was) {
            return Err(StoreErr::Moved { now });
        }
        test_room(contents, limit)?;
        let SetReference {
            alloc,
            name,
            key,
            entry,
            mark,
            ..
        } = self;
        match contents.refer(alloc, name, key, entry, mark) {
            Ok(()) => Ok(()),
            Err(NoMemory) => Err(StoreErr::NoMemory),
        }
    }
}
