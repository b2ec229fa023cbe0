// The calls of the queue.
ghost use Rattle.std.specs.Prelude.{◌≡◌, ◌≤◌, ◌+◌, ◌<◌, ◌++◌, ◌∷◌, [], ℕ, List, All, Contains, length, map, replicate, IfOk, IfSome, IfNone};
ghost use Rattle.std.specs.List.{flat_map};
ghost use Rattle.std.specs.List.Sorted.{IsPermutation};
ghost use Rattle.crossbeam_queue.specs.Passes.{view, IsPassOf, ruled_capacity};
ghost use Rattle.task_queue.specs.Hands.{hand, numbers};
ghost use Rattle.task_queue.specs.Tasks.{taken, gathered, inside, IsOf, IsLastOf, AreAllOf};

use crate::hand::{Hand, Left, Numbers, Pulled, Queued, Shares};
use crate::puller::{LastPuller, Puller, Pullers};
use crate::queue::TaskQueue;
use base_types::NoMemory;
use crossbeam_queue::Pass;
use std::alloc::Global;
use std::sync::Wait;

// Queues the numbers from 1.
fn fill<R: Wait>(rt: &R, queue: &Numbers, pass: &mut Pass<u64, Hand>, tasks: u64)
    requires pass { IsPassOf queue.now pass.old }
    requires view { view pass.old ≡ hand 64 [] [] }
    requires room { tasks ≤ ruled_capacity queue.now }
    ensures pass { IsPassOf queue.now pass.new }
    ensures view { view pass.new ≡ hand 64 (numbers tasks) [] }
{
    for number in 0..tasks {
        let Ok(()) = queue.push_as::<Queued, R>(rt, pass, number + 1) else {
            unreachable!();
        };
    }
}

impl TaskQueue {
    /// The numbers 1 to `tasks`, queued in order, and so many pullers.
    pub fn make<R: Wait>(
        rt: &R,
        alloc: Global,
        tasks: u64,
        pullers: u32,
    ) -> Result<(TaskQueue, Pullers), NoMemory>
        requires tasks { 1 ≤ tasks }
        requires pullers { (1 ≤ pullers) × (pullers ≤ 64) }
        ensures queue { IfOk result (λ made. made.0.tasks ≡ tasks) }
        ensures all { IfOk result (λ made. AreAllOf made.0 made.1) }
        ensures none { IfOk result (λ made. map taken (inside made.1) ≡ replicate pullers []) }
        ensures room { IfOk result (λ made. made.1.made ≡ pullers) }
    {
        let (queue, mut rest) = Numbers::ruled(alloc, tasks as usize)?;
        let mut all = Vec::with_capacity(alloc, pullers as usize)?;
        fill(rt, &queue, &mut rest, tasks);
        for _ in 0..pullers {
            let pass = queue.another::<Shares>(&mut rest);
            let Ok(()) = all.push(Puller { pass }) else {
                unreachable!();
            };
        }
        let pullers = Pullers {
            pullers: all,
            rest,
            made: pullers,
        };
        Ok((TaskQueue { queue, tasks }, pullers))
    }

    /// Pulls a number. None where it found the queue empty, which is tested and no clause: what others have pulled has no name in
    /// the contract of one puller. `pull_left` tells it of all.
    pub fn pull<R: Wait>(&self, rt: &R, puller: &mut Puller) -> Option<u64>
        requires puller { IsOf self.now puller.old }
        ensures puller { IsOf self.now puller.new }
        ensures some { IfSome result (λ number. (taken puller.new ≡ taken puller.old ++ number ∷ []) × (1 ≤ number) × (number ≤ self.now.tasks)) }
        ensures none { IfNone result (taken puller.new ≡ taken puller.old) }
    {
        self.queue.pop_as::<Pulled, R>(rt, &mut puller.pass)
    }

    /// All pullers of the queue in one, which has what they have pulled.
    pub fn gather(&self, pullers: Pullers) -> LastPuller
        requires pullers { AreAllOf self.now pullers }
        ensures puller { IsLastOf self.now result }
        ensures gathered { gathered result ≡ flat_map taken (inside pullers) }
    {
        let Pullers {
            pullers,
            mut rest,
            ..
        } = pullers;
        for puller in pullers {
            let Puller { pass } = puller;
            self.queue.absorb::<Shares>(&mut rest, pass);
        }
        LastPuller { pass: rest }
    }

    /// Pulls a number, where no other puller is left. None: all numbers have been pulled.
    pub fn pull_left<R: Wait>(&self, rt: &R, last: &mut LastPuller) -> Option<u64>
        requires puller { IsLastOf self.now last.old }
        ensures puller { IsLastOf self.now last.new }
        ensures some { IfSome result (λ number. (gathered last.new ≡ gathered last.old ++ number ∷ []) × (1 ≤ number) × (number ≤ self.now.tasks)) }
        ensures none { IfNone result (gathered last.new ≡ gathered last.old) }
        ensures all { IfNone result (IsPermutation (numbers self.now.tasks) (gathered last.old)) }
    {
        self.queue.pop_as::<Left, R>(rt, &mut last.pass)
    }

    /// How many numbers are still queued.
    pub fn end<R: Wait>(self, rt: &R, pullers: Pullers) -> u64
        requires pullers { AreAllOf self pullers }
        ensures { (left : List ℕ) × (length left ≡ result) × IsPermutation (numbers self.tasks) (flat_map taken (inside pullers) ++ left) }
    {
        let mut last = self.gather(pullers);
        self.queue.len_as::<Left, R>(rt, &mut last.pass) as u64
    }
}
