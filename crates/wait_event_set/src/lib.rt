//! Sets of up to four events that a backend waits for together (PostgreSQL's `WaitEventSet`).
#![tactic(auto)]

mod set;
#[cfg(test)]
mod tests;
mod wait;

pub use set::{AddFault, Event, EventSet, Member};
pub use wait::Occurred;
