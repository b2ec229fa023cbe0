// The events of the history, and their names.
ghost use Rattle.bucket_core.specs.declared.event.Event.{Event};
ghost use Rattle.bucket_core.specs.Calls.{unname_event};
ghost use Rattle.std.specs.Prelude.{[]};

use crate::store::Store;
use std::marker::{Brand, PhantomData};
use turn_cell::EntryName;

/// An event that a call picks, for contracts alone.
pub(crate) trait EventName {
    ghost event: { Event };
}

impl EventName for Brand {
    ghost event = { unname_event 0 [] };
}

/// That event as the name of an entry.
pub(crate) struct Named<K> {
    name: PhantomData<K>,
}

impl<K: EventName> EntryName<Store> for Named<K> {
    ghost entry = { K.event };
}
