ghost use Rattle.std.specs.Prelude.{◌≡◌, ℕ, length};
ghost use Rattle.std.specs.Arc.{arc_value};
ghost use Rattle.index_tree.specs.declared.index.Index.{Index};
ghost use Rattle.key_kind.specs.KeyText.{key_text};
ghost use Rattle.bucket_core.specs.Calls.{IsSteady, MayTryRefer, DidChange, RefusesRefer, refer_event};
ghost use Rattle.store_model.specs.Law.{IsClaimed};
ghost use Rattle.store_model.specs.Library.{state_of};
ghost use Rattle.store_model.specs.OwnPuts.{AreOwnPuts};
ghost use Rattle.frame_write.specs.Plans.{ArePutsFrom, IsPlanned, IsMadeBy, puts_seen};
ghost use Rattle.frame_write.specs.PutCalls.{DidUndo};
ghost use Rattle.frame_write.specs.Tries.{DidTry};

use crate::drops::drop_all;
use crate::options::Committed;
use crate::plan::Plan;
use crate::puts::{Prepared, put_all};
use bucket_core::{Body, Bucket, Changes, StoreErr};
use frame_core::{Refusal, Refused};
use key_kind::{Key, Symbol};
use std::alloc::Global;
use std::sync::{Arc, Wait};
use version_chain::{StoreLaw, refused_by};

/// Puts what is planned, and then sets the symbol's reference. Where another's commit came between, the keys are dropped again.
pub(crate) fn commit<R: Wait, B: Bucket<StoreLaw>>(
    rt: &R,
    alloc: Global,
    bucket: &mut B,
    symbol: &Symbol,
    plan: Plan,
) -> Result<Committed, Refused>
    requires planned { (index : Index) × IsPlanned (B.number bucket.old) (B.seen bucket.old) symbol.now index plan }
    ensures steady { IsSteady B.number B.limit B.faults B.sole bucket.old bucket.new }
    ensures did { (index : Index) (p : IsPlanned (B.number bucket.old) (B.seen bucket.old) symbol.now index plan) → DidTry (B.number bucket.old) (B.sole bucket.old) symbol.now (IsMadeBy symbol.now (state_of p.before symbol.now) index plan) (B.limit bucket.old) (B.faults bucket.old) (B.faults bucket.new) (length p.before) (B.seen bucket.old) (B.seen bucket.new) result }
{
    put_all(rt, alloc, bucket, plan.puts.items())?;
    let Plan {
        puts,
        was,
        entry,
        mark,
        changes,
        version,
    } = plan;
    let place = bucket.place();
    let err = match refer(rt, bucket, symbol, was, entry, mark, changes) {
        Ok(place) => return Ok(Committed { version, place }),
        Err(err) => err,
    };
    let StoreErr::Moved { now } = err else {
        return Err(refused_by(place, err));
    };
    Err(undo(rt, bucket, puts.items(), now))
}

/// Sets the symbol's reference to an element that stands on `was`.
fn refer<R: Wait, B: Bucket<StoreLaw>>(
    rt: &R,
    bucket: &mut B,
    symbol: &Symbol,
    was: Option<Key>,
    entry: Key,
    mark: Arc<Body>,
    changes: Arc<Changes>,
) -> Result<u64, StoreErr>
    requires may { MayTryRefer IsClaimed (B.seen bucket.old) (B.number bucket.old) symbol.now was entry (arc_value changes) }
    requires mark { arc_value mark ≡ key_text entry }
    ensures steady { IsSteady B.number B.limit B.faults B.sole bucket.old bucket.new }
    ensures did { DidChange IsClaimed (B.number bucket.old) (B.sole bucket.old) (B.limit bucket.old) (B.faults bucket.old) (B.faults bucket.new) (B.seen bucket.old) (B.seen bucket.new) (refer_event (B.number bucket.old) symbol.now was entry (arc_value changes)) (RefusesRefer (B.limit bucket.old) symbol.now was) result }
{
    bucket.refer(rt, symbol, was.as_ref(), &entry, mark, changes)
}

/// Drops the keys of a try that was met by the commit of this place, and answers how the try ended.
fn undo<R: Wait, B: Bucket<StoreLaw>>(
    rt: &R,
    bucket: &mut B,
    puts: &[Prepared],
    now: u64,
) -> Refused
    requires own { AreOwnPuts (B.seen bucket.old) (B.number bucket.old) (puts_seen puts.now) }
    requires apart { (serial : ℕ) × ArePutsFrom (B.number bucket.old) serial (puts_seen puts.now) }
    ensures steady { IsSteady B.number B.limit B.faults B.sole bucket.old bucket.new }
    ensures did { DidUndo (B.number bucket.old) (B.sole bucket.old) (B.limit bucket.old) (B.faults bucket.old) (B.faults bucket.new) (B.seen bucket.old) (B.seen bucket.new) (puts_seen puts.now) now result }
{
    match drop_all(rt, bucket, puts) {
        Ok(()) => Refused {
            place: now,
            why: Refusal::Moved { now },
        },
        Err(refused) => refused,
    }
}
