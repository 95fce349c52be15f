//! A latch for each backend, which anybody sets and its own backend resets and waits for
//! (PostgreSQL's `latch.c`), and a shutdown that ends the waits of all.
#![tactic(auto)]

mod set;
#[cfg(test)]
mod tests;
mod wait;

pub use set::{latch_is_set, read_shutdown, reset_latch, set_latch, shut_down};
pub use wait::{Woke, wait_in_sleep, wait_latch, wait_latch_only};
