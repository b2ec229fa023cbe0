// What is carried out in tasks.
ghost use Rattle.std.specs.Prelude.{◌≡◌, ◌≤◌, ℕ, IfOk};

use base_types::NoMemory;
use std::alloc::Global;
use std::sync::Wait;

/// Work that is cut into tasks, numbered from 1, each of which gives a `T`. An `S` is a worker's own buffer, which it keeps from task to
/// task; what a task gives does not rest on it.
pub trait Work<T, S> {
    /// How many tasks there are.
    ghost tasks: { Self → ℕ };

    /// What the task with this number gives.
    ghost gives: { Self → ℕ → T };

    /// Makes the buffer of one worker.
    fn scratch(&self, alloc: Global) -> Result<S, NoMemory>;

    /// Carries out one task. It may wait.
    fn carry_out<R: Wait>(
        &self,
        rt: &R,
        alloc: Global,
        scratch: &mut S,
        task: u64,
    ) -> Result<T, NoMemory>
        requires task { (1 ≤ task) × (task ≤ tasks self.now) }
        ensures { IfOk result (λ given. given ≡ gives self.now task) };
}
