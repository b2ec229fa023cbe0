//! Another client writes, buries and reclaims in each gap of a call: before its first step, between any two, and behind its last.

use crate::asks::{Answer, Ask, Rows, Told};
use crate::meanwhile::{Case, Met, meet};
use frame_core::Refusal;
use std::alloc::Global;
use std::sync::Wait;
use std::test::Fail;

// Client 1 writes two rows, buries what was live before, and reclaims it.
const REPLACES: &[Ask] = &[Ask::Replace(Rows::Two), Ask::Reclaim];

// Client 1 has written five rows in two tiles (five events), and replaces them (seven events).
const READ: Case = Case {
    rows: 3,
    before: &[Ask::Write(Rows::Five)],
    meanwhile: REPLACES,
    twice: false,
    ask: Ask::Read,
    after: Ask::Keys,
};

// The first and the last point at which client 1 acts, what client 2 is answered, what it is answered at last, and whether client 1
// acted: behind its last step there is no point.
type Gap = (u64, u64, Answer, Told, bool);

const GONE: Told = Told::Refused(Refusal::VersionGone { version: 0 });

// Five gets: of the reference, the element, the index and two tiles.
const READ_GAPS: &[Gap] = &[
    (1, 1, (12, Told::Whole(1, 2)), Told::Keys(1, 1), true),
    (2, 9, (12, GONE), Told::Keys(1, 1), true),
    (10, 10, (5, Told::Whole(0, 5)), Told::Keys(1, 1), true),
    (11, 11, (5, Told::Whole(0, 5)), Told::Keys(2, 1), false),
];

fn is_so(met: Met, gap: &Gap) -> bool {
    let (_, _, answer, after, acted) = gap;
    met.answer == *answer && met.after.1 == *after && met.acted == *acted
}

// Whether it comes so at each point of a gap.
fn are_so<R: Wait>(rt: &R, alloc: Global, case: &Case, gap: &Gap) -> Result<bool, Fail> {
    let mut good = true;
    for point in gap.0..=gap.1 {
        let met = meet(rt, alloc, case, None, point)?;
        good = good && is_so(met, gap);
    }
    Ok(good)
}

#[test]
fn a_read_has_a_whole_version_or_is_told_that_it_is_gone(rt: HostRuntime) -> Result<(), Fail> {
    for gap in READ_GAPS {
        assert!(rt;
            are_so(&rt, rt.alloc(), &READ, gap)?,
            "from point {}",
            gap.0
        );
    }
    Ok(())
}

const APPEND: Case = Case {
    rows: 3,
    before: &[Ask::Write(Rows::Five)],
    meanwhile: REPLACES,
    twice: true,
    ask: Ask::Append(Rows::One),
    after: Ask::Read,
};

// Three gets, of the reference, the element and the index; three puts, of the tile, the index and the element; and the refer. A try
// whose refer is met drops its three keys.
const APPEND_GAPS: &[Gap] = &[
    (1, 5, (16, Told::Committed(2)), Told::Whole(2, 3), true),
    (6, 13, (22, Told::Committed(2)), Told::Whole(2, 3), true),
    (14, 14, (9, Told::Committed(1)), Told::Whole(2, 2), true),
    (15, 15, (9, Told::Committed(1)), Told::Whole(1, 6), false),
];

#[test]
fn an_append_is_made_on_what_is_there_at_its_commit(rt: HostRuntime) -> Result<(), Fail> {
    for gap in APPEND_GAPS {
        assert!(rt;
            are_so(&rt, rt.alloc(), &APPEND, gap)?,
            "from point {}",
            gap.0
        );
    }
    Ok(())
}

// Client 1 has written five rows in two tiles twice and buried the first (ten events).
const RECLAIM: Case = Case {
    rows: 3,
    before: &[Ask::Write(Rows::Five), Ask::Replace(Rows::Five)],
    meanwhile: REPLACES,
    twice: true,
    ask: Ask::Reclaim,
    after: Ask::Keys,
};

// Five gets, of the reference, two elements, the index of the live version and that of the buried one; and three drops, of two tiles
// and an index.
const RECLAIM_GAPS: &[Gap] = &[
    (1, 7, (20, Told::Freed(0, 0, 0)), Told::Keys(1, 1), true),
    (8, 11, (10, Told::Freed(0, 0, 0)), Told::Keys(1, 1), true),
    (12, 13, (10, Told::Freed(1, 0, 0)), Told::Keys(1, 1), true),
    (14, 15, (10, Told::Freed(2, 0, 0)), Told::Keys(1, 1), true),
    (16, 16, (10, Told::Freed(2, 1, 0)), Told::Keys(1, 1), true),
    (17, 17, (10, Told::Freed(2, 1, 0)), Told::Keys(2, 1), false),
];

#[test]
fn a_reclaim_counts_its_own_drops_and_leaves_no_dead_key(rt: HostRuntime) -> Result<(), Fail> {
    for gap in RECLAIM_GAPS {
        assert!(rt;
            are_so(&rt, rt.alloc(), &RECLAIM, gap)?,
            "from point {}",
            gap.0
        );
    }
    Ok(())
}
