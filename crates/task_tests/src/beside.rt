use base_types::NoMemory;
use std::alloc::Global;
use std::sync::Wait;
use std::sync::atomic::{AtomicBool, Ordering};
use std::test::Fail;
use std::thread::yield_now;
use task_runs::{Work, run_tasks};

// Tasks that give their numbers. The first waits, for so many turns at most, until the second has come.
#[derive(Drop)]
struct Beside {
    come: AtomicBool,
    met: AtomicBool,
}

impl Work<u64, u64> for Beside {
    ghost tasks = { λ _. 5 };

    ghost gives = { λ _ task. task };

    fn scratch(&self, _alloc: Global) -> Result<u64, NoMemory> {
        Ok(0)
    }

    fn carry_out<R: Wait>(
        &self,
        _rt: &R,
        _alloc: Global,
        _scratch: &mut u64,
        task: u64,
    ) -> Result<u64, NoMemory> {
        if task == 2 {
            self.come.store(true, Ordering::SeqCst);
        }
        if task == 1 {
            for _ in 0..1_000_000u32 {
                if self.come.load(Ordering::SeqCst) {
                    self.met.store(true, Ordering::SeqCst);
                    break;
                }
                yield_now();
            }
        }
        Ok(task)
    }
}

fn unmet() -> Beside {
    Beside {
        come: AtomicBool::new(false),
        met: AtomicBool::new(false),
    }
}

#[test]
fn the_second_task_runs_beside_the_first(rt: HostRuntime) -> Result<(), Fail> {
    let work = unmet();
    let all = run_tasks(&rt, rt.alloc(), &work, 5, 2)?;
    assert!(rt; all.as_slice() == [1, 2, 3, 4, 5].as_slice());
    assert!(rt; work.met.load(Ordering::SeqCst));
    Ok(())
}

#[test]
fn one_worker_carries_out_the_tasks_in_turn(rt: HostRuntime) -> Result<(), Fail> {
    let work = unmet();
    let all = run_tasks(&rt, rt.alloc(), &work, 5, 1)?;
    assert!(rt; all.as_slice() == [1, 2, 3, 4, 5].as_slice());
    assert!(rt; !work.met.load(Ordering::SeqCst));
    Ok(())
}
