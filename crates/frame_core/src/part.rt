/// The rows and columns of one tile of a frame, counted from 0.
#[derive(Clone, Copy)]
pub struct Part {
    pub first_row: u64,
    pub rows: u64,
    pub first_col: u64,
    pub cols: u64,
}
