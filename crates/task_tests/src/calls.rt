use base_types::NoMemory;
use std::alloc::Global;
use std::sync::Wait;
use std::test::Fail;
use task_queue::TaskQueue;

// Two pullers of five tasks pull one number each, and are put in again.
fn two_pulled<R: Wait>(rt: &R, alloc: Global) -> Result<bool, NoMemory> {
    let (queue, mut pullers) = TaskQueue::make(rt, alloc, 5, 2)?;
    let Some(mut last) = pullers.take_out() else {
        return Ok(false);
    };
    let Some(mut first) = pullers.take_out() else {
        return Ok(false);
    };
    let none = pullers.take_out().is_none();
    let one = queue.pull(rt, &mut first) == Some(1);
    let two = queue.pull(rt, &mut last) == Some(2);
    pullers.put_in(first);
    pullers.put_in(last);
    Ok(none && one && two && queue.end(rt, pullers) == 3)
}

// One puller of three tasks pulls a number, and what is left is pulled once all pullers are gathered.
fn pulled_at_last<R: Wait>(rt: &R, alloc: Global) -> Result<bool, NoMemory> {
    let (queue, mut pullers) = TaskQueue::make(rt, alloc, 3, 1)?;
    let Some(mut puller) = pullers.take_out() else {
        return Ok(false);
    };
    let one = queue.pull(rt, &mut puller) == Some(1);
    pullers.put_in(puller);
    let mut last = queue.gather(pullers);
    let two = queue.pull_left(rt, &mut last) == Some(2);
    let three = queue.pull_left(rt, &mut last) == Some(3);
    Ok(one && two && three && queue.pull_left(rt, &mut last).is_none())
}

#[test]
fn numbers_that_nobody_pulled_are_left(rt: HostRuntime) -> Result<(), Fail> {
    assert!(rt; two_pulled(&rt, rt.alloc())?);
    Ok(())
}

#[test]
fn what_is_left_is_pulled_once_all_are_gathered(rt: HostRuntime) -> Result<(), Fail> {
    assert!(rt; pulled_at_last(&rt, rt.alloc())?);
    Ok(())
}
