// The change that a drop makes.
ghost use Rattle.std.specs.Prelude.{◌≡◌};
ghost use Rattle.bucket_shared.specs.Changes.{dropped_of};

use crate::change::{Change, test_room};
use bucket_core::{Contents, Dropped, StoreErr};
use key_kind::Key;

/// The object of a key is dropped. It takes no memory.
#[derive(Drop)]
pub(crate) struct DropObject<'a> {
    pub(crate) key: &'a Key,
}

impl Change for DropObject<'_> {
    ghost use Rattle.std.specs.Prelude.{refl, ◌≡◌, true, is_some};
    ghost use Rattle.bucket_core.specs.History.{stored};
    ghost use Rattle.bucket_core.specs.Calls.{drop_event};
    ghost use Rattle.bucket_shared.specs.Changes.{RefusesDrop};

    ghost event = { λ c client. drop_event client c.key.now };

    ghost tested = { λ c h. is_some (stored h c.key.now) ≡ true };

    ghost refuses = { λ c limit. RefusesDrop limit c.key.now };

    ghost by = { λ c client. refl };

    fn row(&self) -> Option<u32> {
        None
    }

    fn make(self, contents: &mut Contents, limit: u64) -> Result<(), StoreErr> {
        if contents.set_at(self.key).is_none() {
            return Err(StoreErr::Missing {
                place: contents.len(),
            });
        }
        test_room(contents, limit)?;
        contents.drop_key(self.key);
        Ok(())
    }
}

/// What a drop answers: that nothing stands under a key is no refusal.
pub(crate) fn answer_of(made: Result<u64, StoreErr>) -> Result<Dropped, StoreErr>
    ensures { result ≡ dropped_of made }
{
    match made {
        Ok(place) => Ok(Dropped::Gone { place }),
        Err(StoreErr::Missing { place }) => Ok(Dropped::Absent { place }),
        Err(why) => Err(why),
    }
}
