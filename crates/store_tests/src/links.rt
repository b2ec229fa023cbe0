ghost use Rattle.std.specs.Prelude.{◌≡◌, [], ◌∷◌, IfOk};

use crate::stores::{FIVE, rows, store, symbol, tiles};
use base_types::{Items, Keep};
use bucket_core::{Bucket, Change};
use frame_core::{Frame, Refused};
use frame_write::{Committed, LinkPlan, Options, Piece, link_on};
use std::alloc::Global;
use std::sync::Wait;
use std::test::Fail;
use version_chain::{StoreLaw, walk_tip};

// The plan that writes the frame as one new piece.
fn whole(alloc: Global, frame: Frame, options: &Options) -> Result<LinkPlan, Fail>
    ensures schema { IfOk result (λ plan. plan.schema ≡ frame.schema) }
    ensures pieces { IfOk result (λ plan. plan.pieces ≡ Piece.Fresh frame ∷ []) }
    ensures change { IfOk result (λ plan. plan.change ≡ Change.Wrote frame options.now.at) }
{
    let mut pieces = Items::new(alloc);
    pieces.push(Piece::Fresh(frame.copy(alloc)?))?;
    Ok(LinkPlan {
        schema: frame.schema().copy(alloc)?,
        pieces,
        change: Change::Wrote {
            frame,
            at: options.at,
        },
    })
}

// What one try to link five rows of these columns, as one new piece, answers on the tip that a walk gives.
fn linked<R: Wait, B: Bucket<StoreLaw>>(
    rt: &R,
    alloc: Global,
    bucket: &mut B,
    columns: &[&str],
    options: &Options,
) -> Result<Result<Committed, Refused>, Fail> {
    let frame = rows(alloc, columns, FIVE)?;
    let symbol = symbol(alloc)?;
    let plan = whole(alloc, frame, options)?;
    let tip = walk_tip(rt, alloc, bucket, &symbol, options.prune)?;
    Ok(link_on(rt, alloc, bucket, &symbol, &tip, &plan, options))
}

// The columns of each new version in turn, its number, and the place of its commit: with tiles of two rows and one column, each has three
// tiles a column, an index, an element and a refer.
const LINKS: &[(&[&str], u64, u64)] = &[(&["a"], 0, 6), (&["a", "b"], 1, 15)];

// Whether each is linked so, and how many events there are then.
fn are_linked<R: Wait>(rt: &R, alloc: Global) -> Result<(bool, usize), Fail> {
    let mut bucket = store(alloc, 1_000)?;
    let options = Options {
        cutting: tiles(2, 1),
        tries: 1,
        at: 50,
        prune: true,
    };
    let mut good = true;
    for (columns, version, place) in LINKS {
        let answer = linked(rt, alloc, &mut bucket, columns, &options)?;
        good = good && is_commit(&answer, *version, *place);
    }
    Ok((good, bucket.events().len()))
}

fn is_commit(answer: &Result<Committed, Refused>, version: u64, place: u64) -> bool {
    match answer {
        Ok(done) => done.version == version && done.place == place,
        Err(_) => false,
    }
}

#[test]
fn new_pieces_are_linked_as_the_next_version(rt: HostRuntime) -> Result<(), Fail> {
    assert!(rt; are_linked(&rt, rt.alloc())? == (true, 15));
    Ok(())
}
