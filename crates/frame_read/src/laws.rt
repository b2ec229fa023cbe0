ghost use Rattle.frame_read.specs.Wholes.{FetchedIsFrame};

/// In every lawful history fetched tiles have each row of the version's frame that is in the range, and of these each cell that is
/// asked; each tile holds its part of the frame, and the schema is that of the asked columns. This does nothing: it states a law.
pub fn fetched_tiles_have_what_is_asked()
    ensures { FetchedIsFrame }
{}
