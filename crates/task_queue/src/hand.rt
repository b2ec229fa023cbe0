// What a pass of the queue knows of the numbers, and the rule that its steps keep.
use crossbeam_queue::RuledArrayQueue;
use crossbeam_queue::protocol::{Join, Lesson, Outcome, Protocol, Split};
use std::collections::LinkedList;

/// The numbers that were queued, those that the pass has taken, and its shares, of 64, in the right to know what is left. It exists
/// for contracts alone: no value of it is made.
pub struct Hand {
    pub shares: u64,
    pub queued: LinkedList<u64>,
    pub taken: LinkedList<u64>,
}

/// Each number stands once in the queue or in what one pass has taken.
pub struct EachOnce;

impl Protocol<u64, Hand> for EachOnce {
    ghost use Rattle.std.specs.Prelude.{[]};
    ghost use Rattle.task_queue.specs.Hands.{hand, AreDealt};

    ghost holds = { AreDealt };

    ghost first = { hand 64 [] [] };
}

/// A queue of numbers under this rule.
pub(crate) type Numbers = RuledArrayQueue<u64, Hand, EachOnce>;

/// A number is queued.
pub(crate) struct Queued;

impl Outcome<u64, Hand> for Queued {
    ghost use Rattle.std.specs.Prelude.{◌≡◌, ◌++◌, ◌∷◌, []};
    ghost use Rattle.task_queue.specs.Hands.{hand};

    ghost then = { λ v x w. w ≡ hand v.shares (v.queued ++ x ∷ []) v.taken };
}

impl Lesson<u64, Hand> for Queued {
    ghost use Rattle.std.specs.Prelude.{◌++◌};
    ghost use Rattle.std.specs.List.Sorted.{IsPermutation};

    ghost fact = { λ v items. IsPermutation v.queued (v.taken ++ items) };
}

/// A number is taken.
pub(crate) struct Pulled;

impl Outcome<u64, Hand> for Pulled {
    ghost use Rattle.std.specs.Prelude.{◌≡◌, ◌++◌, ◌∷◌, [], Contains};
    ghost use Rattle.task_queue.specs.Hands.{hand};

    ghost then = { λ v x w. (w ≡ hand v.shares v.queued (v.taken ++ x ∷ [])) × Contains v.queued x };
}

// Where none is left, this pass and others have taken all.
impl Lesson<u64, Hand> for Pulled {
    ghost use Rattle.std.specs.Prelude.{ℕ, List, ◌++◌};
    ghost use Rattle.std.specs.List.Sorted.{IsPermutation};

    ghost fact = { λ v items. (others : List ℕ) × IsPermutation v.queued ((v.taken ++ others) ++ items) };
}

/// A number is taken by a pass with all shares.
pub(crate) struct Left;

impl Outcome<u64, Hand> for Left {
    ghost use Rattle.std.specs.Prelude.{◌≡◌, ◌++◌, ◌∷◌, [], Contains};
    ghost use Rattle.task_queue.specs.Hands.{hand};

    ghost then = { λ v x w. (w ≡ hand v.shares v.queued (v.taken ++ x ∷ [])) × Contains v.queued x };
}

// What is not in the queue was taken by this pass.
impl Lesson<u64, Hand> for Left {
    ghost use Rattle.std.specs.Prelude.{◌++◌};
    ghost use Rattle.std.specs.List.Sorted.{IsPermutation};

    ghost fact = { λ v items. IsPermutation v.queued (v.taken ++ items) };
}

/// One share is given to a new pass, or the shares of two passes come together.
pub(crate) struct Shares;

impl Split<Hand> for Shares {
    ghost use Rattle.std.specs.Prelude.{◌-◌, []};
    ghost use Rattle.task_queue.specs.Hands.{hand};

    ghost left = { λ v. hand (v.shares - 1) v.queued v.taken };

    ghost right = { λ v. hand 1 v.queued [] };
}

impl Join<Hand> for Shares {
    ghost use Rattle.std.specs.Prelude.{◌+◌, ◌++◌, []};
    ghost use Rattle.task_queue.specs.Hands.{hand};

    ghost both = { λ v w. hand (v.shares + w.shares) w.queued (v.taken ++ w.taken) };

    ghost spent = { hand 0 [] [] };
}
