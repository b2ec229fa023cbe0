ghost use Rattle.std.specs.Prelude.{ℕ};
ghost use Rattle.bucket_core.specs.Calls.{IsSteady};
ghost use Rattle.reply_model.specs.Tries.{drop_of};
ghost use Rattle.store_model.specs.OwnPuts.{IsOwnPut, AreOwnPuts};
ghost use Rattle.version_chain.specs.StoreCalls.{DidCall};
ghost use Rattle.frame_write.specs.PutCalls.{DidDrops};
ghost use Rattle.frame_write.specs.Plans.{ArePutsFrom, put_seen, puts_seen};

use crate::puts::Prepared;
use bucket_core::Bucket;
use frame_core::Refused;
use std::sync::Wait;
use version_chain::{StoreLaw, refused_by};

/// Drops the key of a put that nothing links.
fn drop_one<R: Wait, B: Bucket<StoreLaw>>(
    rt: &R,
    bucket: &mut B,
    put: &Prepared,
) -> Result<(), Refused>
    requires own { IsOwnPut (B.seen bucket.old) (B.number bucket.old) (put_seen put.now).0 (put_seen put.now).1 }
    ensures steady { IsSteady B.number B.limit B.faults B.sole bucket.old bucket.new }
    ensures did { DidCall (B.number bucket.old) (B.sole bucket.old) (B.limit bucket.old) (B.faults bucket.old) (B.faults bucket.new) (B.seen bucket.old) (B.seen bucket.new) (drop_of (B.number bucket.old) (put_seen put.now)) result }
{
    let place = bucket.place();
    match bucket.drop_key(rt, &put.key) {
        Ok(_) => Ok(()),
        Err(err) => Err(refused_by(place, err)),
    }
}

/// Drops the keys of these puts, which nothing links, one after another.
pub(crate) fn drop_all<R: Wait, B: Bucket<StoreLaw>>(
    rt: &R,
    bucket: &mut B,
    puts: &[Prepared],
) -> Result<(), Refused>
    requires own { AreOwnPuts (B.seen bucket.old) (B.number bucket.old) (puts_seen puts.now) }
    requires apart { (serial : ℕ) × ArePutsFrom (B.number bucket.old) serial (puts_seen puts.now) }
    ensures steady { IsSteady B.number B.limit B.faults B.sole bucket.old bucket.new }
    ensures did { DidDrops (B.number bucket.old) (B.sole bucket.old) (B.limit bucket.old) (B.faults bucket.old) (B.faults bucket.new) (B.seen bucket.old) (B.seen bucket.new) (puts_seen puts.now) result }
{
    for put in puts {
        drop_one(rt, bucket, put)?;
    }
    Ok(())
}
