//! Scripts on the machine of signals.
#![tactic(auto)]

mod calls;
mod header;
pub mod laws;
mod places;
mod signals;
mod steps;
mod texts;

pub use header::signal_header;
pub use signals::Signals;
