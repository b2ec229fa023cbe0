// One thread carries out all tasks.
ghost use Rattle.std.specs.Prelude.{◌≡◌, map, IfOk};
ghost use Rattle.task_queue.specs.Hands.{numbers};

use crate::work::Work;
use base_types::NoMemory;
use std::alloc::Global;
use std::sync::Wait;

/// Carries out the tasks one after the other, without a queue.
pub(crate) fn in_turn<R: Wait, T: Drop, S: Drop, W: Work<T, S>>(
    rt: &R,
    alloc: Global,
    work: &W,
    tasks: u64,
) -> Result<Vec<T>, NoMemory>
    requires tasks { tasks ≡ W.tasks work.now }
    ensures { IfOk result (λ all. all.items ≡ map (W.gives work.now) (numbers tasks)) }
{
    let mut scratch = work.scratch(alloc)?;
    let mut all = Vec::with_capacity(alloc, tasks as usize)?;
    for done in 0..tasks {
        let given = work.carry_out(rt, alloc, &mut scratch, done + 1)?;
        all.push(given)?;
    }
    Ok(all)
}
