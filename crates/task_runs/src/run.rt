// A run of all tasks.
ghost use Rattle.std.specs.Prelude.{◌≡◌, ◌≤◌, map, IfOk};
ghost use Rattle.task_queue.specs.Hands.{numbers};

use crate::order::in_order;
use crate::pulling::pull_rest;
use crate::threads::run_pullers;
use crate::turns::in_turn;
use crate::work::Work;
use base_types::NoMemory;
use std::alloc::Global;
use std::sync::Wait;
use std::thread::Threads;
use task_queue::TaskQueue;

// As many pullers as there are workers, and not more than tasks.
fn pullers_for(tasks: u64, workers: u32) -> u32
    ensures tasks { result ≤ tasks }
    ensures workers { result ≤ workers }
{
    if tasks < workers as u64 {
        tasks as u32
    } else {
        workers
    }
}

// The pullers pull from a queue, and then the caller what they have left.
fn through_queue<R: Threads + Wait + Sync, T: Send + Drop, S: Send + Drop, W: Work<T, S> + Sync>(
    rt: &R,
    alloc: Global,
    work: &W,
    tasks: u64,
    pullers: u32,
) -> Result<Vec<T>, NoMemory>
    requires tasks { (1 ≤ tasks) × (tasks ≡ W.tasks work.now) }
    requires pullers { (1 ≤ pullers) × (pullers ≤ 64) }
    ensures { IfOk result (λ all. all.items ≡ map (W.gives work.now) (numbers tasks)) }
{
    let (queue, mut pullers) = TaskQueue::make(rt, alloc, tasks, pullers)?;
    let Some(puller) = pullers.take_out() else {
        unreachable!();
    };
    let (pullers, results) = run_pullers(rt, alloc, work, &queue, pullers, puller);
    let mut results = results?;
    let mut last = queue.gather(pullers);
    pull_rest(rt, alloc, work, &queue, &mut last, &mut results)?;
    in_order(alloc, tasks, results)
}

/// Carries out all tasks, and answers what they give, in the order of the tasks.
///
/// The caller pulls, and beside it so many workers less one in threads of their own. With one worker, or one task, there is no thread
/// and no queue. Where a worker finds no memory, all workers have returned before this call answers so.
pub fn run_tasks<R: Threads + Wait + Sync, T: Send + Drop, S: Send + Drop, W: Work<T, S> + Sync>(
    rt: &R,
    alloc: Global,
    work: &W,
    tasks: u64,
    workers: u32,
) -> Result<Vec<T>, NoMemory>
    requires tasks { tasks ≡ W.tasks work.now }
    requires workers { (1 ≤ workers) × (workers ≤ 64) }
    ensures { IfOk result (λ all. all.items ≡ map (W.gives work.now) (numbers tasks)) }
{
    let pullers = pullers_for(tasks, workers);
    if pullers <= 1 {
        return in_turn(rt, alloc, work, tasks);
    }
    through_queue(rt, alloc, work, tasks, pullers)
}
