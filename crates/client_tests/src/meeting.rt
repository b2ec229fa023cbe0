use crate::asks::{Answer, Ask, Rows, Told};
use crate::meanwhile::{Case, meet};
use bucket_core::{GatePoint, Step};
use frame_core::Refusal;
use std::test::Fail;

// Both write five rows, and client 1 does so again just before client 2, in one try or two, first sets the reference. What client 2 is
// answered, and how many events it has seen then: four of each write, and where it was met three drops of its keys.
const MEETINGS: &[(bool, Answer, u64)] = &[
    (false, (11, Told::Refused(Refusal::Moved { now: 11 })), 14),
    (true, (18, Told::Committed(2)), 18),
];

fn meeting(twice: bool) -> Case {
    Case {
        rows: 5,
        before: &[Ask::Write(Rows::Five)],
        meanwhile: &[Ask::Write(Rows::Five)],
        twice,
        ask: Ask::Write(Rows::Five),
        after: Ask::Keys,
    }
}

#[test]
fn a_commit_that_was_met_drops_its_keys_and_is_moved_or_tried_again(
    rt: HostRuntime,
) -> Result<(), Fail> {
    for (twice, answer, seen) in MEETINGS {
        let at = Some(GatePoint::before(2, Step::Refer));
        let met = meet(&rt, rt.alloc(), &meeting(*twice), at, 1)?;
        assert!(rt;
            met.answer == *answer && met.seen == *seen,
            "tried twice: {twice}"
        );
    }
    Ok(())
}
