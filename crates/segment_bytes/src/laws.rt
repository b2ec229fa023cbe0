ghost use Rattle.std.specs.Prelude.{◌≡◌, Ok};
ghost use Rattle.frame_core.specs.Frames.{Frame};
ghost use Rattle.frame_core.specs.Limits.{IsStorable};
ghost use Rattle.segment_bytes.specs.Segments.{segment_text, segment_of};

/// Each frame within the limits has one spelling, which is read as this frame; and what is read as a frame is its
/// spelling. This does nothing: it states a law.
pub fn one_spelling(bytes: &[u8])
    ensures read { (f : Frame) → IsStorable f → segment_of (segment_text f) ≡ Ok f }
    ensures spelled { (f : Frame) → segment_of bytes.now ≡ Ok f → bytes.now ≡ segment_text f }
    ensures storable { (f : Frame) → segment_of bytes.now ≡ Ok f → IsStorable f }
{
    let _ = bytes;
}
