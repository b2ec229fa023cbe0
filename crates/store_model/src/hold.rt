use key_kind::Holder;

/// An unreleased hold of a version.
#[derive(Clone, Copy)]
pub struct HoldRow {
    pub holder: Holder,
    pub version: u64,
}
