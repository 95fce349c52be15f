//! Scripts on the machine of waits: latches, the shutdown word, conditions and barriers.
#![tactic(auto)]

mod calls;
mod header;
mod homes;
pub mod laws;
mod lists;
mod places;
mod spots;
mod steps;
mod texts;
mod waits;
mod words;

pub use header::wait_header;
pub use waits::{Opening, Waits};
