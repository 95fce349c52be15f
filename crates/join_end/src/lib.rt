//! The end of a parallel join: from what its workers return to the pairs in order.
#![tactic(auto)]

mod answer;
mod last;
pub mod laws;
mod order;
#[cfg(test)]
mod tests;
mod worker;

pub use answer::{JoinFault, finish};
pub use last::look_last;
pub use order::put_in_order;
pub use worker::{Said, take_in, work};
