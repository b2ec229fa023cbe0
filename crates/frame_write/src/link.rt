ghost use Rattle.bucket_core.specs.History.{puts_by, history_at};
ghost use Rattle.bucket_core.specs.Calls.{IsSteady};
ghost use Rattle.store_model.specs.Library.{state_of};
ghost use Rattle.frame_write.specs.Links.{IsLinkable, IsLinkMade};
ghost use Rattle.frame_write.specs.Tries.{DidTry};
ghost use Rattle.version_chain.specs.Traces.{GoesOn};

use crate::commit::commit;
use crate::options::{Committed, Options};
use crate::pieces::LinkPlan;
use crate::plan::plan_link;
use bucket_core::Bucket;
use frame_core::{Refusal, Refused};
use key_kind::Symbol;
use std::alloc::Global;
use std::sync::Wait;
use version_chain::{ChainTip, StoreLaw};

/// Tries once to make a new version of the symbol on a tip that a walk gave. It may wait for the store.
///
/// All that is put is built before the first put: each fresh piece is cut by the options' cutting into row blocks and slices of
/// its own, and the slots of shared ones are copied. The tiles are put in the order of the index, then the index and an element,
/// and then the reference is set. Where another client's commit came between, the keys are dropped in the order of their puts,
/// and the refusal is Moved, with the place of that commit. After a failure of the store no further call is made.
pub fn link_on<R: Wait, B: Bucket<StoreLaw>>(
    rt: &R,
    alloc: Global,
    bucket: &mut B,
    symbol: &Symbol,
    tip: &ChainTip,
    plan: &LinkPlan,
    options: &Options,
) -> Result<Committed, Refused>
    requires linkable { IsLinkable (B.number bucket.old) (B.seen bucket.old) symbol.now tip.now options.now plan.now }
    ensures steady { IsSteady B.number B.limit B.faults B.sole bucket.old bucket.new }
    ensures grown { GoesOn (B.number bucket.old) (B.sole bucket.old) (B.seen bucket.old) (B.seen bucket.new) }
    ensures did { DidTry (B.number bucket.old) (B.sole bucket.old) symbol.now (IsLinkMade (B.number bucket.old) (puts_by (B.number bucket.old) (B.seen bucket.old)) symbol.now (state_of (history_at (B.seen bucket.old) tip.now.place) symbol.now) plan.now options.now) (B.limit bucket.old) (B.faults bucket.old) (B.faults bucket.new) tip.now.place (B.seen bucket.old) (B.seen bucket.new) result }
{
    let Ok(made) = plan_link(
        alloc,
        bucket.client(),
        bucket.serial(),
        symbol,
        tip,
        plan,
        options,
    ) else {
        return Err(Refused {
            place: bucket.place(),
            why: Refusal::NoMemory,
        });
    };
    commit(rt, alloc, bucket, symbol, made)
}
