ghost use Rattle.std.specs.Prelude.{◌≡◌, IfOk};
ghost use Rattle.std.specs.Arc.{arc_value};
ghost use Rattle.bucket_core.specs.History.{puts_by};
ghost use Rattle.bucket_core.specs.Calls.{IsSteady};
ghost use Rattle.reply_model.specs.Tries.{put_of};
ghost use Rattle.frame_write.specs.Plans.{IsPutAt, ArePutsFrom, put_seen, puts_seen};
ghost use Rattle.version_chain.specs.StoreCalls.{DidCall};
ghost use Rattle.frame_write.specs.PutCalls.{DidPuts};

use base_types::{Keep, NoMemory};
use bucket_core::{Body, Bucket};
use frame_core::{Refusal, Refused};
use key_kind::Key;
use std::alloc::Global;
use std::sync::{Arc, Wait};
use version_chain::{StoreLaw, refused_by};

/// A key, and the body that is to stand under it.
#[derive(Drop)]
pub(crate) struct Prepared {
    pub(crate) key: Key,
    pub(crate) body: Arc<Body>,
}

impl Prepared {
    /// The key in memory of its own, and the body shared.
    fn parts(&self, alloc: Global) -> Result<(Key, Arc<Body>), NoMemory>
        ensures key { IfOk result (λ parts. parts.0 ≡ self.now.key) }
        ensures body { IfOk result (λ parts. arc_value parts.1 ≡ arc_value self.now.body) }
    {
        Ok((self.key.copy(alloc)?, Arc::try_clone(&self.body)?))
    }
}

/// Puts one body under its key.
fn put_one<R: Wait, B: Bucket<StoreLaw>>(
    rt: &R,
    alloc: Global,
    bucket: &mut B,
    put: &Prepared,
) -> Result<(), Refused>
    requires put { IsPutAt (B.number bucket.old) (puts_by (B.number bucket.old) (B.seen bucket.old)) (put_seen put.now) }
    ensures steady { IsSteady B.number B.limit B.faults B.sole bucket.old bucket.new }
    ensures did { DidCall (B.number bucket.old) (B.sole bucket.old) (B.limit bucket.old) (B.faults bucket.old) (B.faults bucket.new) (B.seen bucket.old) (B.seen bucket.new) (put_of (B.number bucket.old) (put_seen put.now)) result }
{
    let place = bucket.place();
    let Ok((key, body)) = put.parts(alloc) else {
        return Err(Refused {
            place,
            why: Refusal::NoMemory,
        });
    };
    match bucket.put(rt, key, body) {
        Ok(_) => Ok(()),
        Err(err) => Err(refused_by(place, err)),
    }
}

/// Puts these, one after another. Where one is refused, the ones before it stand.
pub(crate) fn put_all<R: Wait, B: Bucket<StoreLaw>>(
    rt: &R,
    alloc: Global,
    bucket: &mut B,
    puts: &[Prepared],
) -> Result<(), Refused>
    requires puts { ArePutsFrom (B.number bucket.old) (puts_by (B.number bucket.old) (B.seen bucket.old)) (puts_seen puts.now) }
    ensures steady { IsSteady B.number B.limit B.faults B.sole bucket.old bucket.new }
    ensures did { DidPuts (B.number bucket.old) (B.sole bucket.old) (B.limit bucket.old) (B.faults bucket.old) (B.faults bucket.new) (B.seen bucket.old) (B.seen bucket.new) (puts_seen puts.now) result }
{
    for put in puts {
        put_one(rt, alloc, bucket, put)?;
    }
    Ok(())
}
