//! Scripts that name the steps of backends one by one, replayed on the machines of locks, waits and
//! signals.
#![tactic(auto)]

mod script;

pub use script::replay;
pub use script_play::ScriptFault;

#[cfg(test)]
mod tests;
