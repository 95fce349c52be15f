//! The parts of a program which other calls on a lock and its list share.

pub use crate::attempt::is_free_for;
pub use crate::queue::{dequeue, list_is_home, queue, take_list};
pub use crate::sleep::{give_back, sleep};
pub use crate::wake::{is_locker, let_go, mark, tell};
