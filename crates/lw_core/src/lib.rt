//! One table of atomic words for PostgreSQL's lightweight locks (lwlock.c): each call makes at
//! most one atomic step, and each step keeps the table's rule.
#![tactic(auto)]

mod closed;
pub mod laws;
mod rule;
mod seat;
mod step;
mod table;
mod turn;
mod view;
mod words;

pub use closed::LwClosed;
pub use rule::Guarded;
pub use seat::{LwSeat, WaitList};
pub use step::{Call, GuardOp, LwSeen, LwStep};
pub use table::LwTable;
pub use view::{Frame, Hold, Made, Size, View, Waiter, Waiters, Want};
