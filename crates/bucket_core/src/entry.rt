use base_types::Body;
use std::sync::Arc;

/// What stands under a key: the body, and the place of the event that set it.
#[derive(Drop)]
pub(crate) struct Entry {
    pub(crate) body: Arc<Body>,
    pub(crate) since: u64,
}
