use crate::asks::{Answer, Ask, Rows, Told};
use crate::meanwhile::{Case, meet};
use bucket_core::{GatePoint, Step};
use frame_core::Refusal;
use std::test::Fail;

// Client 1 has written five rows, and writes them again, prunes and reclaims behind a get of client 2's read.
const READ: Case = Case {
    rows: 5,
    before: &[Ask::Write(Rows::Five)],
    meanwhile: &[Ask::Replace(Rows::Five), Ask::Reclaim],
    twice: false,
    ask: Ask::Read,
    after: Ask::Keys,
};

// The number of the get, counted from 1, and what is read: behind the reference the version is gone, at the place of the last drop, and
// behind the tile the whole old frame is there.
const READS: &[(u64, Answer)] = &[
    (1, (10, Told::Refused(Refusal::VersionGone { version: 0 }))),
    (4, (4, Told::Whole(0, 5))),
];

#[test]
fn a_read_of_a_reclaimed_version_is_told_that_it_is_gone_or_has_the_whole_old_frame(
    rt: HostRuntime,
) -> Result<(), Fail> {
    for (get, answer) in READS {
        let at = Some(GatePoint::behind(2, Step::Get));
        let met = meet(&rt, rt.alloc(), &READ, at, *get)?;
        assert!(rt; met.answer == *answer, "behind get {get}");
    }
    Ok(())
}
