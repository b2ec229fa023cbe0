// One thread pulls tasks and carries them out.
ghost use Rattle.std.specs.Prelude.{◌≡◌, [], OnOk, IfOk};
ghost use Rattle.std.specs.List.Sorted.{IsPermutation};
ghost use Rattle.task_queue.specs.Hands.{numbers};
ghost use Rattle.task_queue.specs.Tasks.{taken, gathered, IsOf, IsLastOf};
ghost use Rattle.task_runs.specs.Results.{results_of};

use crate::given::Given;
use crate::work::Work;
use base_types::NoMemory;
use std::alloc::Global;
use std::sync::Wait;
use task_queue::{LastPuller, Puller, TaskQueue};

// Pulls tasks until there is none, and adds what they give.
fn pull_all<R: Wait, T: Drop, S: Drop, W: Work<T, S>>(
    rt: &R,
    alloc: Global,
    work: &W,
    queue: &TaskQueue,
    puller: &mut Puller,
    results: &mut Vec<Given<T>>,
) -> Result<(), NoMemory>
    requires tasks { queue.now.tasks ≡ W.tasks work.now }
    requires puller { IsOf queue.now puller.old }
    requires results { results.old.items ≡ results_of (W.gives work.now) (taken puller.old) }
    ensures puller { IsOf queue.now puller.new }
    ensures results { OnOk result (results.new.items ≡ results_of (W.gives work.now) (taken puller.new)) }
{
    let mut scratch = work.scratch(alloc)?;
    for _ in rt.forever() {
        let Some(task) = queue.pull(rt, puller) else {
            return Ok(());
        };
        let value = work.carry_out(rt, alloc, &mut scratch, task)?;
        results.push(Given { task, value })?;
    }
    unreachable!()
}

/// What one puller gets.
pub(crate) fn pull_first<R: Wait, T: Drop, S: Drop, W: Work<T, S>>(
    rt: &R,
    alloc: Global,
    work: &W,
    queue: &TaskQueue,
    mut puller: Puller,
) -> (Puller, Result<Vec<Given<T>>, NoMemory>)
    requires tasks { queue.now.tasks ≡ W.tasks work.now }
    requires puller { IsOf queue.now puller }
    requires first { taken puller ≡ [] }
    ensures puller { IsOf queue.now result.0 }
    ensures results { IfOk result.1 (λ results. results.items ≡ results_of (W.gives work.now) (taken result.0)) }
{
    let mut results = Vec::new(alloc);
    let Ok(()) = pull_all(rt, alloc, work, queue, &mut puller, &mut results) else {
        return (puller, Err(NoMemory));
    };
    (puller, Ok(results))
}

/// Pulls what the workers have left, if anything, and adds what it gives. All tasks are carried out then.
pub(crate) fn pull_rest<R: Wait, T: Drop, S: Drop, W: Work<T, S>>(
    rt: &R,
    alloc: Global,
    work: &W,
    queue: &TaskQueue,
    last: &mut LastPuller,
    results: &mut Vec<Given<T>>,
) -> Result<(), NoMemory>
    requires tasks { queue.now.tasks ≡ W.tasks work.now }
    requires puller { IsLastOf queue.now last.old }
    requires results { results.old.items ≡ results_of (W.gives work.now) (gathered last.old) }
    ensures results { OnOk result (results.new.items ≡ results_of (W.gives work.now) (gathered last.new)) }
    ensures all { OnOk result (IsPermutation (numbers queue.now.tasks) (gathered last.new)) }
{
    for _ in rt.forever() {
        let Some(task) = queue.pull_left(rt, last) else {
            return Ok(());
        };
        let mut scratch = work.scratch(alloc)?;
        let value = work.carry_out(rt, alloc, &mut scratch, task)?;
        results.push(Given { task, value })?;
    }
    unreachable!()
}
