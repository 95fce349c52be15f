//! One table of atomic words under latches, condition variables and barriers: a latch and a wake
//! byte for each backend, the shutdown word, spin words, and the words of a client with a law of
//! its own.
#![tactic(auto)]

mod closed;
pub mod laws;
mod opening;
mod party;
mod rule;
mod seat;
mod step;
mod table;
mod view;

pub use closed::WaitClosed;
pub use party::{ClientOp, NoParty, Party};
pub use seat::WaitSeat;
pub use step::{Call, Spot, Until, WaitSeen, WaitStep};
pub use table::WaitTable;
pub use view::{Frame, Inherited, Job, Kept, Made, PartyView, Record, Size, WaitView};
