// The change that a name makes.
ghost use Rattle.std.specs.Prelude.{◌≡◌};
ghost use Rattle.key_kind.specs.Keys.{snapshot_key};

use crate::change::{Change, test_room};
use base_types::NoMemory;
use bucket_core::{Body, Contents, StoreErr};
use key_kind::{Key, SnapName};
use std::sync::Arc;

/// A snapshot's name, which is free, is set to a body. `key` is the key of the snapshot.
#[derive(Drop)]
pub(crate) struct SetName<'a> {
    pub(crate) snap: &'a SnapName,
    pub(crate) key: Key,
    pub(crate) body: Arc<Body>,
    ghost key_is: { key ≡ snapshot_key snap.now },
}

impl Change for SetName<'_> {
    ghost use Rattle.std.specs.Prelude.{refl, ◌≡◌, false, is_some};
    ghost use Rattle.std.specs.Arc.{arc_value};
    ghost use Rattle.key_kind.specs.Keys.{snapshot_key};
    ghost use Rattle.bucket_core.specs.History.{stored};
    ghost use Rattle.bucket_core.specs.Calls.{RefusesName, name_event};
    ghost use Rattle.bucket_shared.specs.Changes.{OrNoMemory};

    ghost event = { λ c client. name_event client c.snap.now (arc_value c.body) };

    ghost tested = { λ c h. is_some (stored h (snapshot_key c.snap.now)) ≡ false };

    ghost refuses = { λ c limit. OrNoMemory (RefusesName limit c.snap.now) };

    ghost by = { λ c client. refl };

    fn row(&self) -> Option<u32> {
        None
    }

    fn make(self, contents: &mut Contents, limit: u64) -> Result<(), StoreErr> {
        let SetName { key, body, .. } = self;
        if contents.set_at(&key).is_some() {
            return Err(StoreErr::Taken {
                place: contents.len(),
            });
        }
        test_room(contents, limit)?;
        match contents.set(key, body) {
            Ok(()) => Ok(()),
            Err(NoMemory) => Err(StoreErr::NoMemory),
        }
    }
}
