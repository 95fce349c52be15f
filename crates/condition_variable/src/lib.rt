//! Condition variables (PostgreSQL's `condition_variable.c`): backends that sleep until another
//! signals, each on the list of the condition that is its target.
#![tactic(auto)]

mod list;
mod prepare;
mod rousing;
mod sleeping;
mod taking;
#[cfg(test)]
mod tests;
mod waking;

pub use prepare::{cancel_sleep, prepare_to_sleep};
pub use rousing::broadcast;
pub use sleeping::{Slept, sleep};
pub use taking::take_spot;
pub use waking::signal;
