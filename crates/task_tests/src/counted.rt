ghost use Rattle.std.specs.Prelude.{◌≡◌, ◌≤◌};

use base_types::NoMemory;
use std::alloc::Global;
use std::sync::Wait;
use std::sync::atomic::{AtomicU64, Ordering};
use std::test::Fail;
use std::thread::Threads;
use task_runs::{Work, run_tasks};

// So many tasks, each of which gives its number. Buffers and tasks are counted, and one task finds no memory.
#[derive(Drop)]
struct Counted {
    tasks: u64,
    lacking: u64,
    buffers: AtomicU64,
    begun: AtomicU64,
    ended: AtomicU64,
}

impl Work<u64, Vec<u64>> for Counted {
    ghost tasks = { λ work. work.tasks };

    ghost gives = { λ _ task. task };

    fn scratch(&self, alloc: Global) -> Result<Vec<u64>, NoMemory> {
        self.buffers.fetch_add(1, Ordering::SeqCst);
        Ok(Vec::new(alloc))
    }

    fn carry_out<R: Wait>(
        &self,
        _rt: &R,
        _alloc: Global,
        scratch: &mut Vec<u64>,
        task: u64,
    ) -> Result<u64, NoMemory> {
        self.begun.fetch_add(1, Ordering::SeqCst);
        scratch.push(task)?;
        self.ended.fetch_add(1, Ordering::SeqCst);
        if task == self.lacking {
            return Err(NoMemory);
        }
        Ok(task)
    }
}

fn work_of(tasks: u64, lacking: u64) -> Counted
    ensures { result.tasks ≡ tasks }
{
    Counted {
        tasks,
        lacking,
        buffers: AtomicU64::new(0),
        begun: AtomicU64::new(0),
        ended: AtomicU64::new(0),
    }
}

// Whether these are the numbers from 1 to a last one.
fn are_numbers(all: &[u64], last: u64) -> bool {
    let mut number = 0u64;
    for given in all {
        number = number.wrapping_add(1);
        if *given != number {
            return false;
        }
    }
    number == last
}

// Whether a run of so many tasks gives their numbers in order, and makes a buffer for each puller.
fn is_exact<R: Threads + Wait + Sync>(
    rt: &R,
    alloc: Global,
    tasks: u64,
    workers: u32,
) -> Result<bool, NoMemory>
    requires { (1 ≤ workers) × (workers ≤ 64) }
{
    let work = work_of(tasks, 0);
    let all = run_tasks(rt, alloc, &work, tasks, workers)?;
    let pullers = tasks.min(workers as u64).max(1);
    Ok(are_numbers(all.as_slice(), tasks) && work.buffers.load(Ordering::SeqCst) == pullers)
}

// Whether a run of five tasks, the third of which finds no memory, answers so after all tasks that were begun.
fn ends_whole<R: Threads + Wait + Sync>(rt: &R, alloc: Global, workers: u32) -> bool
    requires { (1 ≤ workers) × (workers ≤ 64) }
{
    let work = work_of(5, 3);
    let lacks = run_tasks(rt, alloc, &work, 5, workers).is_err();
    lacks && work.begun.load(Ordering::SeqCst) == work.ended.load(Ordering::SeqCst)
}

#[test]
fn each_number_of_workers_gives_the_same_results(rt: HostRuntime) -> Result<(), Fail> {
    for workers in 1..65u32 {
        assert!(rt;
            is_exact(&rt, rt.alloc(), 100, workers)?,
            "{workers} workers"
        );
    }
    Ok(())
}

#[test]
fn there_are_no_more_pullers_than_tasks(rt: HostRuntime) -> Result<(), Fail> {
    for tasks in 0..4u64 {
        assert!(rt; is_exact(&rt, rt.alloc(), tasks, 64)?, "{tasks} tasks");
    }
    Ok(())
}

#[test]
fn a_task_without_memory_ends_the_run(rt: HostRuntime) -> Result<(), Fail> {
    for workers in 1..9u32 {
        assert!(rt; ends_whole(&rt, rt.alloc(), workers), "{workers} workers");
    }
    Ok(())
}
