// Threads pull beside one another.
ghost use Rattle.std.specs.Prelude.{◌≡◌, ◌≤◌, ◌<◌, ◌+◌, ◌++◌, [], List, All, length, IfOk};
ghost use Rattle.std.specs.Thread.{IsSync, IsSend};
ghost use Rattle.task_queue.specs.Tasks.{taken, inside, home, IsOf};
ghost use Rattle.task_runs.specs.Pulling.{all_taken, IsFresh, AreFresh, CameBack};
ghost use Rattle.task_runs.specs.Results.{results_of};

use crate::given::Given;
use crate::pulling::pull_first;
use crate::work::Work;
use base_types::NoMemory;
use std::alloc::Global;
use std::sync::Wait;
use std::thread::{Threads, join};
use task_queue::{Puller, Pullers, TaskQueue};

// The results of some pullers, and behind them those of one more.
fn both<T: Drop>(
    first: Result<Vec<Given<T>>, NoMemory>,
    second: Result<Vec<Given<T>>, NoMemory>,
) -> Result<Vec<Given<T>>, NoMemory>
    ensures { (xs ys : List (Given T)) → IfOk first (λ v. v.items ≡ xs) → IfOk second (λ v. v.items ≡ ys) → IfOk result (λ v. v.items ≡ xs ++ ys) }
{
    let mut all = first?;
    let mut more = second?;
    all.append(&mut more)?;
    Ok(all)
}

/// Each puller pulls in a thread of its own, this one in the caller's. All have returned when this does.
pub(crate) fn run_pullers<
    R: Threads + Wait + Sync,
    T: Send + Drop,
    S: Send + Drop,
    W: Work<T, S> + Sync,
>(
    rt: &R,
    alloc: Global,
    work: &W,
    queue: &TaskQueue,
    mut pullers: Pullers,
    puller: Puller,
) -> (Pullers, Result<Vec<Given<T>>, NoMemory>)
    requires tasks { queue.now.tasks ≡ W.tasks work.now }
    requires puller { IsOf queue.now puller }
    requires pullers { All (IsOf queue.now) (inside pullers) }
    requires first { (taken puller ≡ []) × All (λ other. taken other ≡ []) (inside pullers) }
    requires room { length (inside pullers) < pullers.made }
    ensures pullers { All (IsOf queue.now) (inside result.0) }
    ensures count { length (inside result.0) ≡ length (inside pullers) + 1 }
    ensures made { result.0.made ≡ pullers.made }
    ensures home { home result.0 ≡ home pullers }
    ensures results { IfOk result.1 (λ results. results.items ≡ results_of (W.gives work.now) (all_taken result.0)) }
{
    let Some(other) = pullers.take_out() else {
        let (puller, results) = pull_first(rt, alloc, work, queue, puller);
        pullers.put_in(puller);
        return (pullers, results);
    };
    let ((mut pullers, theirs), (puller, mine)) = join(
        rt,
        move || -> (Pullers, Result<Vec<Given<T>>, NoMemory>)
            requires { IsSync R.row × IsSync W.row × IsSend T.row × IsSend S.row × (queue.now.tasks ≡ W.tasks work.now) × AreFresh queue.now other pullers }
            ensures { CameBack queue.entry.now pullers result.0 × IfOk result.1 (λ v. v.items ≡ results_of (W.gives work.entry.now) (all_taken result.0)) }
        { run_pullers(rt, alloc, work, queue, pullers, other) },
        move || -> (Puller, Result<Vec<Given<T>>, NoMemory>)
            requires { (queue.now.tasks ≡ W.tasks work.now) × IsFresh queue.now puller }
            ensures { IsOf queue.entry.now result.0 × IfOk result.1 (λ v. v.items ≡ results_of (W.gives work.entry.now) (taken result.0)) }
        { pull_first(rt, alloc, work, queue, puller) },
    );
    pullers.put_in(puller);
    (pullers, both(theirs, mine))
}
