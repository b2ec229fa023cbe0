// The change that a put makes.
use crate::change::{Change, test_room};
use base_types::NoMemory;
use bucket_core::{Body, Contents, StoreErr};
use key_kind::Key;
use std::sync::Arc;

/// A body is put under a key.
#[derive(Drop)]
pub(crate) struct Put {
    pub(crate) key: Key,
    pub(crate) body: Arc<Body>,
}

impl Change for Put {
    ghost use Rattle.std.specs.Prelude.{refl, ⊤};
    ghost use Rattle.std.specs.Arc.{arc_value};
    ghost use Rattle.bucket_core.specs.Calls.{RefusesPut, put_event};
    ghost use Rattle.bucket_shared.specs.Changes.{OrNoMemory};

    ghost event = { λ c client. put_event client c.key (arc_value c.body) };

    ghost tested = { λ c h. ⊤ };

    ghost refuses = { λ c limit. OrNoMemory (RefusesPut limit) };

    ghost by = { λ c client. refl };

    fn row(&self) -> Option<u32> {
        None
    }

    fn make(self, contents: &mut Contents, limit: u64) -> Result<(), StoreErr> {
        let Put { key, body } = self;
        test_room(contents, limit)?;
        match contents.set(key, body) {
            Ok(()) => Ok(()),
            Err(NoMemory) => Err(StoreErr::NoMemory),
        }
    }
}
