ghost use Rattle.std.specs.Prelude.{◌≡◌, [], IfOk};
ghost use Rattle.std.specs.Arc.{arc_value};
ghost use Rattle.key_kind.specs.Keys.{IsKey};
ghost use Rattle.key_kind.specs.KeyText.{key_text};

use base_types::{Items, Keep};
use bucket_core::{
    Body, Bucket, Changes, Counting, Flaky, Found, Gate, GatePoint, Gated, Law, OpenGate,
    PlainBucket, Step, StoreErr, When,
};
use key_kind::{Key, KeyKind, SnapName, Symbol};
use std::alloc::Global;
use std::sync::{Arc, Mutex, Wait};
use std::test::Fail;

// No entry of a symbol is referred twice.
struct OnceLaw;

impl Law for OnceLaw {
    ghost use Rattle.bucket_core.specs.OnceLaw.{once_claimed, once_claims_stay, once_tests_tell, once_moves_on};

    ghost claimed = { once_claimed };

    ghost claims_stay = { once_claims_stay };

    ghost tests_tell = { once_tests_tell };

    ghost moves_on = { once_moves_on };
}

fn body_of(alloc: Global, bytes: &[u8]) -> Result<Arc<Body>, Fail> {
    let bytes = Vec::from_slice(alloc, bytes)?;
    Ok(Arc::new(alloc, Body::make(bytes))?)
}

// The key of an element of the chain of S, which client 1 put with this serial.
fn element(alloc: Global, serial: u64) -> Result<Key, Fail>
    ensures { IfOk result IsKey }
{
    let name = Symbol::make(alloc, "S")?.name().copy(alloc)?;
    Ok(Key {
        kind: KeyKind::Version,
        name,
        client: 1,
        serial,
        version: 0,
        first: 0,
        last: 0,
    })
}

// The key of such an element and its spelling.
fn marked(alloc: Global, serial: u64) -> Result<(Key, Arc<Body>), Fail>
    ensures { IfOk result (λ both. (IsKey both.0) × (arc_value both.1 ≡ key_text both.0)) }
{
    let key = element(alloc, serial)?;
    let mark = Arc::new(alloc, Body::make(key.bytes(alloc)?))?;
    Ok((key, mark))
}

// What a change answers: the place of its event, or why it was not made.
type Told = Result<u64, StoreErr>;

// What the second of two refers answers, each of which takes the symbol for one without a reference.
fn refer_both<R: Wait>(
    rt: &R,
    bucket: &mut PlainBucket<OnceLaw>,
    symbol: &Symbol,
    first: (&Key, Arc<Body>, Arc<Changes>),
    second: (&Key, Arc<Body>, Arc<Changes>),
) -> Told
    requires empty { ⟦<PlainBucket<OnceLaw> as Bucket<OnceLaw>>⟧.seen bucket.old ≡ [] }
    requires keys { (IsKey first.0.now) × (IsKey second.0.now) }
    requires mark { arc_value first.1 ≡ key_text first.0.now }
    requires other { arc_value second.1 ≡ key_text second.0.now }
{
    let (key, mark, changes) = first;
    match bucket.refer(rt, symbol, None, key, mark, changes) {
        Ok(_) => {
            let (key, mark, changes) = second;
            bucket.refer(rt, symbol, None, key, mark, changes)
        }
        Err(why) => Err(why),
    }
}

// The same of S.
fn refer_twice<R: Wait>(
    rt: &R,
    alloc: Global,
    bucket: &mut PlainBucket<OnceLaw>,
) -> Result<Told, Fail>
    requires empty { ⟦<PlainBucket<OnceLaw> as Bucket<OnceLaw>>⟧.seen bucket.old ≡ [] }
{
    let symbol = Symbol::make(alloc, "S")?;
    let changes: Arc<Changes> = Arc::new(alloc, Items::new(alloc))?;
    let again = Arc::try_clone(&changes)?;
    let (first, mark) = marked(alloc, 0)?;
    let (second, other) = marked(alloc, 1)?;
    let first = (&first, mark, changes);
    Ok(refer_both(rt, bucket, &symbol, first, (&second, other, again)))
}

// The same in a new store.
fn refer_twice_anew<R: Wait>(rt: &R, alloc: Global) -> Result<Told, Fail> {
    let mut bucket = PlainBucket::make(alloc, 1, 1)?;
    refer_twice(rt, alloc, &mut bucket)
}

#[test]
fn a_refer_that_lost_tells_the_place_of_the_one_that_won(rt: HostRuntime) -> Result<(), Fail> {
    let told = refer_twice_anew(&rt, rt.alloc())?;
    assert!(rt; told == Err(StoreErr::Moved { now: 1 }));
    Ok(())
}

fn plain(alloc: Global, limit: u64) -> Result<PlainBucket<OnceLaw>, Fail> {
    Ok(PlainBucket::make(alloc, 1, limit)?)
}

// A call, of the element of S with serial 0 or of the snapshot k.
#[derive(Clone, Copy)]
enum Call {
    // This body is put.
    Put(&'static [u8]),
    // The snapshot is named, and its name taken away, which is to stand since this place.
    Name,
    Unname(u64),
    // The place of the event that set this body; 0 where none stands, and a fault where another does.
    Get(&'static [u8]),
}

fn put<R: Wait, B: Bucket<OnceLaw>>(
    rt: &R,
    alloc: Global,
    bucket: &mut B,
    bytes: &[u8],
) -> Result<Told, Fail> {
    let key = element(alloc, 0)?;
    let body = body_of(alloc, bytes)?;
    Ok(bucket.put(rt, key, body))
}

fn name<R: Wait, B: Bucket<OnceLaw>>(rt: &R, alloc: Global, bucket: &mut B) -> Result<Told, Fail> {
    let snap = SnapName::make(alloc, "k")?;
    let body = body_of(alloc, b"rows")?;
    Ok(bucket.name(rt, &snap, body))
}

fn unname<R: Wait, B: Bucket<OnceLaw>>(
    rt: &R,
    alloc: Global,
    bucket: &mut B,
    since: u64,
) -> Result<Told, Fail> {
    let snap = SnapName::make(alloc, "k")?;
    Ok(bucket.unname(rt, &snap, since))
}

fn get<R: Wait, B: Bucket<OnceLaw>>(
    rt: &R,
    alloc: Global,
    bucket: &mut B,
    bytes: &[u8],
) -> Result<Told, Fail> {
    let key = element(alloc, 0)?;
    match bucket.get(rt, &key) {
        Ok(found) => Ok(since(&found, bytes)),
        Err(why) => Ok(Err(why)),
    }
}

fn since(found: &Found, bytes: &[u8]) -> Told {
    match &found.body {
        Some(body) if body.bytes() == bytes => Ok(found.since),
        Some(_) => Err(StoreErr::Fault),
        None => Ok(0),
    }
}

fn called<R: Wait, B: Bucket<OnceLaw>>(
    rt: &R,
    alloc: Global,
    bucket: &mut B,
    call: Call,
) -> Result<Told, Fail> {
    match call {
        Call::Put(bytes) => put(rt, alloc, bucket, bytes),
        Call::Name => name(rt, alloc, bucket),
        Call::Unname(since) => unname(rt, alloc, bucket, since),
        Call::Get(bytes) => get(rt, alloc, bucket, bytes),
    }
}

// Whether each of these calls in turn answers so.
fn answer_so<R: Wait, B: Bucket<OnceLaw>>(
    rt: &R,
    alloc: Global,
    bucket: &mut B,
    calls: &[(Call, Told)],
) -> Result<bool, Fail> {
    let mut good = true;
    for (call, told) in calls {
        if called(rt, alloc, bucket, *call)? != *told {
            good = false;
        }
    }
    Ok(good)
}

// A store of two events that is full.
const PUTS: &[(Call, Told)] = &[
    (Call::Put(b"old"), Ok(1)),
    (Call::Put(b"new"), Ok(2)),
    (Call::Get(b"new"), Ok(2)),
    (Call::Put(b"past"), Err(StoreErr::Spent { count: 2 })),
];

// Whether calls in a store of so many events answer so, and how many events there are then.
fn plain_answers<R: Wait>(
    rt: &R,
    alloc: Global,
    limit: u64,
    calls: &[(Call, Told)],
) -> Result<(bool, usize), Fail> {
    let mut bucket = plain(alloc, limit)?;
    let good = answer_so(rt, alloc, &mut bucket, calls)?;
    Ok((good, bucket.events().len()))
}

#[test]
fn a_get_answers_the_body_put_last_and_its_place(rt: HostRuntime) -> Result<(), Fail> {
    assert!(rt; plain_answers(&rt, rt.alloc(), 2, PUTS)? == (true, 2));
    Ok(())
}

const NAMES: &[(Call, Told)] = &[
    (Call::Name, Ok(1)),
    (Call::Name, Err(StoreErr::Taken { place: 1 })),
    (Call::Unname(2), Err(StoreErr::Missing { place: 0 })),
    (Call::Unname(1), Ok(2)),
    (Call::Unname(1), Err(StoreErr::Missing { place: 2 })),
];

#[test]
fn a_name_is_taken_away_as_it_was_set(rt: HostRuntime) -> Result<(), Fail> {
    assert!(rt; plain_answers(&rt, rt.alloc(), 9, NAMES)? == (true, 2));
    Ok(())
}

// The first call fails after its effect, and the third before it.
const FAILS: &[(u64, When)] = &[(1, When::After), (3, When::Before)];

const PUTS_THAT_FAIL: &[(Call, Told)] = &[
    (Call::Put(b"a"), Err(StoreErr::Fault)),
    (Call::Get(b"a"), Ok(1)),
    (Call::Put(b"b"), Err(StoreErr::Fault)),
];

// A store with these failures.
fn flaky(alloc: Global) -> Result<Flaky<PlainBucket<OnceLaw>>, Fail> {
    let fails = Items::from_slice(alloc, FAILS)?;
    Ok(Flaky::make(plain(alloc, 9)?, fails))
}

// Whether puts in it answer so, and how many events there are then.
fn flaky_answers<R: Wait>(rt: &R, alloc: Global) -> Result<(bool, usize), Fail> {
    let mut bucket = flaky(alloc)?;
    let good = answer_so(rt, alloc, &mut bucket, PUTS_THAT_FAIL)?;
    Ok((good, bucket.into_inner().events().len()))
}

#[test]
fn a_put_that_fails_after_stands_and_one_that_fails_before_does_not(
    rt: HostRuntime,
) -> Result<(), Fail> {
    assert!(rt; flaky_answers(&rt, rt.alloc())? == (true, 1));
    Ok(())
}

const GETS: &[(Call, Told)] = &[(Call::Get(b"a"), Ok(0)), (Call::Get(b"a"), Ok(0))];

// Whether they answer so, and how many elements and tiles were got.
fn counted_gets<R: Wait>(rt: &R, alloc: Global) -> Result<(bool, u64, u64), Fail> {
    let mut bucket = Counting::make(plain(alloc, 9)?);
    let good = answer_so(rt, alloc, &mut bucket, GETS)?;
    Ok((
        good,
        bucket.gets(KeyKind::Version),
        bucket.gets(KeyKind::TableData),
    ))
}

#[test]
fn gets_are_counted_by_kind(rt: HostRuntime) -> Result<(), Fail> {
    assert!(rt; counted_gets(&rt, rt.alloc())? == (true, 2, 0));
    Ok(())
}

// A gate that counts how often it was passed before a put, and how often behind one.
#[derive(Drop)]
struct PutsPassed {
    before: Mutex<u64>,
    behind: Mutex<u64>,
}

impl Gate for PutsPassed {
    fn pass_by<R: Wait>(&self, rt: &R, at: GatePoint) {
        if at.step == Step::Put {
            let passed = if at.after { &self.behind } else { &self.before };
            let mut count = passed.lock(rt);
            *count = count.saturating_add(1);
        }
    }
}

const PUTS_AT_A_GATE: &[(Call, Told)] = &[
    (Call::Put(b"a"), Ok(1)),
    (Call::Put(b"b"), Ok(2)),
    (Call::Get(b"b"), Ok(2)),
];

// Whether puts at a gate are made, and how many events there are then.
fn puts_at<R: Wait>(rt: &R, alloc: Global, gate: &PutsPassed) -> Result<(bool, usize), Fail> {
    let mut bucket = Gated::make(plain(alloc, 9)?, gate);
    let good = answer_so(rt, alloc, &mut bucket, PUTS_AT_A_GATE)?;
    Ok((good, bucket.into_inner().events().len()))
}

// Whether they are made, how many events there are then, and how often the gate was passed before them and behind.
fn puts_and_passes<R: Wait>(rt: &R, alloc: Global) -> Result<(bool, usize, u64, u64), Fail> {
    let gate = PutsPassed {
        before: Mutex::new(0),
        behind: Mutex::new(0),
    };
    let (good, events) = puts_at(rt, alloc, &gate)?;
    let before = *gate.before.lock(rt);
    let behind = *gate.behind.lock(rt);
    Ok((good, events, before, behind))
}

#[test]
fn a_gate_is_passed_before_and_behind_each_put(rt: HostRuntime) -> Result<(), Fail> {
    assert!(rt; puts_and_passes(&rt, rt.alloc())? == (true, 2, 2, 2));
    Ok(())
}

// What the first refer of S answers.
fn refer_first<R: Wait, B: Bucket<OnceLaw>>(
    rt: &R,
    alloc: Global,
    bucket: &mut B,
) -> Result<Told, Fail>
    requires empty { B.seen bucket.old ≡ [] }
{
    let symbol = Symbol::make(alloc, "S")?;
    let changes: Arc<Changes> = Arc::new(alloc, Items::new(alloc))?;
    let (key, mark) = marked(alloc, 0)?;
    Ok(bucket.refer(rt, &symbol, None, &key, mark, changes))
}

// Behind a refer.
const CHANGES: &[(Call, Told)] = &[
    (Call::Put(b"a"), Ok(2)),
    (Call::Name, Ok(3)),
    (Call::Unname(3), Ok(4)),
];

// The client of a bucket, its next serial, the number of events, how many keys are stored, and whether the symbol S has surely no
// reference.
fn looks<R: Wait, B: Bucket<OnceLaw>>(
    rt: &R,
    alloc: Global,
    bucket: &mut B,
) -> Result<(u32, u64, u64, usize, bool), Fail> {
    let symbol = Symbol::make(alloc, "S")?;
    let keys = bucket.list(rt, None, None)?.keys.len();
    let unchanged = bucket.unchanged(&symbol, 0);
    Ok((
        bucket.client(),
        bucket.serial(),
        bucket.place(),
        keys,
        unchanged,
    ))
}

// Whether a bucket that has seen nothing looks so, a refer, a put, a name and an unname have the places 1 to 4 in another one, and it
// looks so then.
fn is_one_below<R: Wait, B: Bucket<OnceLaw>>(
    rt: &R,
    alloc: Global,
    fresh: &mut B,
    bucket: &mut B,
) -> Result<bool, Fail>
    requires empty { B.seen bucket.old ≡ [] }
{
    let before = looks(rt, alloc, fresh)?;
    let refer = refer_first(rt, alloc, bucket)?;
    let good = answer_so(rt, alloc, bucket, CHANGES)?;
    let after = looks(rt, alloc, bucket)?;
    Ok(before == (1, 0, 0, 0, true) && refer == Ok(1) && good && after == (1, 1, 4, 2, false))
}

// Whether a counting bucket is so, and how many events there are then.
fn counting_is_one_below<R: Wait>(rt: &R, alloc: Global) -> Result<(bool, usize), Fail> {
    let mut fresh = Counting::make(plain(alloc, 9)?);
    let mut bucket = Counting::make(PlainBucket::make(alloc, 1, 9)?);
    let good = is_one_below(rt, alloc, &mut fresh, &mut bucket)?;
    Ok((good, bucket.into_inner().events().len()))
}

#[test]
fn each_call_of_a_counting_bucket_is_one_below(rt: HostRuntime) -> Result<(), Fail> {
    assert!(rt; counting_is_one_below(&rt, rt.alloc())? == (true, 4));
    Ok(())
}

// Whether a flaky bucket without a failure is so.
fn flaky_is_one_below<R: Wait>(rt: &R, alloc: Global) -> Result<bool, Fail> {
    let mut fresh = Flaky::make(plain(alloc, 9)?, Items::new(alloc));
    let mut bucket = Flaky::make(PlainBucket::make(alloc, 1, 9)?, Items::new(alloc));
    is_one_below(rt, alloc, &mut fresh, &mut bucket)
}

#[test]
fn each_call_of_a_flaky_bucket_without_a_failure_is_one_below(rt: HostRuntime) -> Result<(), Fail> {
    assert!(rt; flaky_is_one_below(&rt, rt.alloc())?);
    Ok(())
}

// Whether a bucket behind an open gate is so.
fn gated_is_one_below<R: Wait>(rt: &R, alloc: Global) -> Result<bool, Fail> {
    let mut fresh = Gated::make(plain(alloc, 9)?, &OpenGate);
    let mut bucket = Gated::make(PlainBucket::make(alloc, 1, 9)?, &OpenGate);
    is_one_below(rt, alloc, &mut fresh, &mut bucket)
}

#[test]
fn each_call_of_a_gated_bucket_is_one_below(rt: HostRuntime) -> Result<(), Fail> {
    assert!(rt; gated_is_one_below(&rt, rt.alloc())?);
    Ok(())
}
