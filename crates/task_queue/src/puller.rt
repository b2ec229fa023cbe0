// The pullers of a queue.
ghost use Rattle.std.specs.Prelude.{◌≡◌, ◌≤◌, ◌+◌, []};
ghost use Rattle.std.specs.Vec.{vec_capacity};
ghost use Rattle.crossbeam_queue.specs.Passes.{view};

use crate::hand::Hand;
use crossbeam_queue::Pass;

/// One thread's way to a queue of numbers. It has no bytes. Contracts see the numbers that it has pulled.
#[derive(Drop)]
pub struct Puller {
    pub(crate) pass: Pass<u64, Hand>,
    ghost rests: { pass.me.1 ≡ [] },
    ghost share: { (view pass).shares ≡ 1 },
}

/// Pullers of one queue. A contract sees the list of those that are inside.
#[derive(Drop)]
pub struct Pullers {
    pub(crate) pullers: Vec<Puller>,
    pub(crate) rest: Pass<u64, Hand>,
    pub(crate) made: u32,
    ghost room: { made ≤ vec_capacity pullers },
    ghost idle: { rest.me.1 ≡ [] },
    ghost none: { (view rest).taken ≡ [] },
    ghost shares: { (view rest).shares + made ≡ 64 },
}

/// All pullers of one queue in one. Contracts see the numbers that they have pulled.
#[derive(Drop)]
pub struct LastPuller {
    pub(crate) pass: Pass<u64, Hand>,
    ghost idle: { pass.me.1 ≡ [] },
    ghost shares: { (view pass).shares ≡ 64 },
}
