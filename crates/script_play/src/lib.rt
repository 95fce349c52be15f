//! Scripts that name the steps of backends one by one: their lines, and what a line does on any
//! machine.
#![tactic(auto)]

mod lines;
mod machine;
mod play;
mod texts;

pub use lines::{Cut, Line, Lines, cut_word, is_word};
pub use machine::Machine;
pub use play::{Play, ScriptFault};
pub use texts::{push, push_number};
