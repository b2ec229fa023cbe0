use frame_core::{Frame, Range};

/// What a command asks of the newest live version of its symbol.
#[derive(Clone, Copy)]
pub(crate) enum Wish<'a> {
    /// The frame's rows behind the version's; where there is none, the frame.
    Append(&'a Frame),
    /// The frame's rows, which lie in the range, in place of the version's; where there is none, the frame, if it is an upsert.
    Replace {
        frame: &'a Frame,
        range: Range,
        upsert: bool,
    },
    /// No rows in place of the version's in the range.
    Clear(Range),
}
