//! One store for many clients: passes over one shared history.
#![tactic(auto)]

mod calls;
mod change;
mod changing;
mod dropping;
mod event_name;
mod kept;
mod looking;
mod naming;
mod pass;
mod putting;
mod referring;
mod row;
mod seated;
mod shared;
mod sharing;
mod splitting;
mod store;
mod turn;
mod unnaming;

pub use kept::{Kept, PassName};
pub use pass::Pass;
pub use shared::Shared;
pub use splitting::SplitFault;
