//! Scripts on the machine of locks: lightweight locks with their lists and semaphores.
#![tactic(auto)]

mod calls;
mod header;
pub mod laws;
mod lists;
mod locks;
mod places;
mod spots;
mod steps;
mod texts;
mod words;

pub use header::lock_header;
pub use locks::Locks;
