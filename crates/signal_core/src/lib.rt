//! One table of atomic words under signals: the header, and for each backend a process word, a
//! generation, a mask of kinds and a pending word.
#![tactic(auto)]

pub mod laws;
mod rule;
mod seat;
mod step;
mod table;
mod view;
mod words;

pub use rule::Kinds;
pub use seat::SigSeat;
pub use step::{Call, SigSeen, SigStep};
pub use table::SigTable;
pub use view::{About, Emission, Frame, Inherited, Made, Nothing, SigView, Slot};
