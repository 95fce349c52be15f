//! A seat at a table of locks.
ghost use Rattle.std.specs.Prelude.{◌≡◌, ◌↔◌, [], Some, None, IsTrue, replicate};
ghost use Rattle.std.specs.Borrow.{sem};
ghost use Rattle.lw_core.specs.Machine.{mode_in, HoldsNothing};
ghost use Rattle.lw_core.specs.Lending.{LendsList};
ghost use Rattle.lw_core.specs.Sending.{modes_then};
ghost use Rattle.lw_core.specs.Seats.{IsSeated, seat_view};

use crate::step::LwStep;
use crate::view::{View, Waiter, Waiters};
use arrayvec::ArrayVec;
use atomic_table::Seat;
use crossbeam_utils::Backoff;
use proc_table::{LockNo, Mode, ProcNo};
use std::marker::Model;

/// A lock's list in hand, the first to be woken at its head.
#[derive(Drop)]
pub struct WaitList {
    pub items: ArrayVec<Waiter, 64>,
}

/// A backend's seat. To a contract it is its table, its place among the views, its view, and the
/// list that it has in hand.
#[derive(Drop)]
pub struct LwSeat {
    pub(crate) seat: Seat<Waiters, View>,
    pub(crate) number: ProcNo,
    pub(crate) modes: [Option<Mode>; 200],
    pub(crate) list: WaitList,
    pub(crate) pokes: u32,
    // How long it has been looking at its semaphore.
    pub(crate) backoff: Backoff,
}

impl Model for LwSeat {
    ghost use Rattle.lw_core.specs.Seats.{SeatView, IsSeated, seat_view};

    ghost Value = { SeatView };

    ghost view = { λ s. seat_view s.seat s.list.items.items };

    ghost invariant = { λ s. IsSeated s.seat s.number s.modes s.pokes };
}

impl LwSeat {
    pub(crate) fn new(seat: Seat<Waiters, View>, number: ProcNo) -> LwSeat
        requires { IsSeated seat number (replicate 200 None) 0 }
        ensures { result ≡ seat_view seat [] }
    {
        LwSeat {
            seat,
            number,
            modes: [None; 200],
            list: WaitList {
                items: ArrayVec::new(),
            },
            pokes: 0,
            backoff: Backoff::new(),
        }
    }

    /// The backend's number.
    pub fn proc(&self) -> ProcNo
        ensures { self.now.view.own ≡ Some result }
    {
        self.number
    }

    /// The mode in which the seat holds the lock; None exactly where it doesn't hold it.
    #[inline(always)]
    pub fn mode_of(&self, lock: LockNo) -> Option<Mode>
        ensures { result ≡ mode_in lock self.now.view }
    {
        self.modes[lock.number() as usize]
    }

    /// How often the seat poked somebody.
    pub fn pokes(&self) -> u32
        ensures { result ≡ self.now.view.pokes }
    {
        self.pokes
    }

    /// The list that the seat has in hand, as it was found and as the seat changed it since.
    pub fn list(&mut self) -> &mut WaitList
        ensures* lends { sem 𝓛 (LendsList self.entry result) }
        ensures value { result.now.items.items ≡ self.old.list }
    {
        &mut self.list
    }

    /// Whether the seat holds no lock, as `join` and `close` require.
    pub fn holds_nothing(&self) -> bool
        ensures { IsTrue result ↔ HoldsNothing self.now.view }
    {
        for mode in &self.modes {
            if mode.is_some() {
                return false;
            }
        }
        true
    }
}

/// Keeps the mode of the lock that a step granted or let go.
#[inline(always)]
pub(crate) fn keep_mode(modes: &mut [Option<Mode>; 200], step: &LwStep, found: u64)
    ensures { modes.new ≡ modes_then step.now found modes.old }
{
    match *step {
        LwStep::Grant(lock, mode, from) => {
            if found == from {
                modes[lock.number() as usize] = Some(mode);
            }
        }
        LwStep::Sub(lock, _, _) => modes[lock.number() as usize] = None,
        _ => {}
    }
}
