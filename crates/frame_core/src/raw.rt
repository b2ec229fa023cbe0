use crate::column::Column;
use crate::name::ColName;
use base_types::Items;

/// The parts of a frame, not tested: they may be of different lengths, and the stamps may fall.
#[derive(Drop)]
pub struct RawFrame {
    pub stamps: Items<i64>,
    pub names: Items<ColName>,
    pub columns: Items<Column>,
}
