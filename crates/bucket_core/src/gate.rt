ghost use Rattle.std.specs.Prelude.{◌≡◌, true, false};

use std::sync::Wait;

/// A step at which a client passes its gate: a call of a bucket, or a task of a read.
#[derive(Clone, Copy, PartialEq, Eq)]
pub enum Step {
    Get,
    List,
    Put,
    Refer,
    Name,
    Unname,
    Drop,
    Task,
}

/// Where a client passes its gate.
#[derive(Clone, Copy, PartialEq, Eq)]
pub struct GatePoint {
    /// The client's number, or that of the task, counted from 1.
    pub who: u32,
    pub step: Step,
    /// Whether the step was taken, or is to be taken.
    pub after: bool,
}

impl GatePoint {
    /// Before a step of this client or task.
    pub fn before(who: u32, step: Step) -> GatePoint
        ensures { result ≡ record { who = who; step = step; after = false } }
    {
        GatePoint {
            who,
            step,
            after: false,
        }
    }

    /// Behind a step of this client or task.
    pub fn behind(who: u32, step: Step) -> GatePoint
        ensures { result ≡ record { who = who; step = step; after = true } }
    {
        GatePoint {
            who,
            step,
            after: true,
        }
    }
}

/// A gate that clients pass before and after each step, and that may hold them there, so that a test can order what clients do
/// side by side.
pub trait Gate: Sync {
    /// Comes back once the client may go on. It may wait for other clients.
    fn pass_by<R: Wait>(&self, rt: &R, at: GatePoint);
}

/// The gate that holds nobody.
#[derive(Clone, Copy)]
pub struct OpenGate;

impl Gate for OpenGate {
    fn pass_by<R: Wait>(&self, _rt: &R, _at: GatePoint) {}
}
