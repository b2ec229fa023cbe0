// The change that an unname makes.
ghost use Rattle.std.specs.Prelude.{◌≡◌};
ghost use Rattle.key_kind.specs.Keys.{snapshot_key};

use crate::change::{Change, test_room};
use bucket_core::{Contents, StoreErr};
use key_kind::{Key, SnapName};

/// A snapshot's name, which was set at the place `since`, is taken away. `key` is the key of the snapshot. It takes no memory.
#[derive(Drop)]
pub(crate) struct ClearName<'a> {
    pub(crate) snap: &'a SnapName,
    pub(crate) key: &'a Key,
    pub(crate) since: u64,
    ghost key_is: { key.now ≡ snapshot_key snap.now },
}

impl Change for ClearName<'_> {
    ghost use Rattle.std.specs.Prelude.{refl};
    ghost use Rattle.bucket_core.specs.Calls.{RefusesUnname, StandsSince, unname_event};

    ghost event = { λ c client. unname_event client c.snap.now };

    ghost tested = { λ c h. StandsSince h c.snap.now c.since };

    ghost refuses = { λ c limit. RefusesUnname limit c.snap.now c.since };

    ghost by = { λ c client. refl };

    fn row(&self) -> Option<u32> {
        None
    }

    fn make(self, contents: &mut Contents, limit: u64) -> Result<(), StoreErr> {
        if let Some(place) = contents.missing_at(self.snap, self.key, self.since) {
            return Err(StoreErr::Missing { place });
        }
        test_room(contents, limit)?;
        contents.drop_key(self.key);
        Ok(())
    }
}
