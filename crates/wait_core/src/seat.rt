//! A seat at a table.
ghost use Rattle.std.specs.Prelude.{◌≡◌, [], None, Some};
ghost use Rattle.std.specs.Borrow.{sem, Lends};
ghost use Rattle.wait_core.specs.Lending.{with_list, with_record};
ghost use Rattle.wait_core.specs.Seats.{IsSeated, seat_view};
ghost use Rattle.wait_core.specs.contracts.seat.WaitList as list_row;
ghost use Rattle.wait_core.specs.contracts.view.Record as record_row;
ghost use Rattle.wait_core.specs.contracts.seat.WaitSeat.{the_row};

use crate::party::Party;
use crate::view::{Kept, Record, WaitView};
use arrayvec::ArrayVec;
use atomic_table::Seat;
use crossbeam_utils::Backoff;
use proc_table::{CvNo, ProcNo};
use std::marker::Model;

/// A condition's list in hand, the first to be woken at its head.
#[derive(Drop)]
pub struct WaitList {
    pub items: ArrayVec<u32, 64>,
}

/// A backend's seat. To a contract it is its table, its place among the views, what it knows, and
/// what it has in hand.
#[derive(Drop)]
pub struct WaitSeat<P: Party> {
    pub(crate) seat: Seat<Kept, WaitView<P::View>>,
    pub(crate) number: ProcNo,
    pub(crate) target: Option<CvNo>,
    pub(crate) list: WaitList,
    pub(crate) found: Record,
    // How long it has been looking at its wake byte.
    pub(crate) backoff: Backoff,
}

impl<P: Party> Model for WaitSeat<P> {
    ghost use Rattle.wait_core.specs.Seats.{SeatView, IsSeated, seat_view};

    ghost Value = { SeatView P.View };

    ghost view = { λ s. seat_view s.seat s.list.items.items s.found };

    ghost invariant = { λ s. IsSeated s.seat s.number s.target };
}

impl<P: Party> WaitSeat<P> {
    pub(crate) fn new(seat: Seat<Kept, WaitView<P::View>>, number: ProcNo) -> WaitSeat<P>
        requires { IsSeated seat number None }
        ensures { result ≡ seat_view seat [] (record { phase = 0; participants = 0; arrived = 0; elected = 0 }) }
    {
        WaitSeat {
            seat,
            number,
            target: None,
            list: WaitList {
                items: ArrayVec::new(),
            },
            found: Record {
                phase: 0,
                participants: 0,
                arrived: 0,
                elected: 0,
            },
            backoff: Backoff::new(),
        }
    }

    /// The seat's own number.
    pub fn proc(&self) -> ProcNo
        ensures { self.now.view.own ≡ Some result }
    {
        self.number
    }

    /// The condition that it sleeps on, or prepared to; None exactly where there is none.
    pub fn target(&self) -> Option<CvNo>
        ensures { result ≡ self.now.view.target }
    {
        self.target
    }

    /// The list that the seat has in hand, as it was found and as the seat changed it since.
    pub fn list(&mut self) -> &mut WaitList
        ensures* lends { sem 𝓛 (Lends (the_row P.row P.Step.row P.View.row P.Party) list_row.the_row self.entry result (with_list self.old)) }
        ensures value { result.now.items.items ≡ self.old.list }
    {
        &mut self.list
    }

    /// The barrier's record that the seat has in hand, as it was found and as the seat changed it
    /// since.
    pub fn record_mut(&mut self) -> &mut Record
        ensures* lends { sem 𝓛 (Lends (the_row P.row P.Step.row P.View.row P.Party) record_row.the_row self.entry result (with_record self.old)) }
        ensures value { result.now ≡ self.old.record }
    {
        &mut self.found
    }
}
