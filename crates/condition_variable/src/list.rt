//! A condition's list in hand, and what a call makes of it.
ghost use Rattle.std.specs.Prelude.{◌≡◌, ◌<◌, List, [], ◌∷◌, ◌++◌, false, not, cond, length};
ghost use Rattle.wait_core.specs.declared.view.Made.{Made};
ghost use Rattle.wait_core.specs.Lists.{AllBelow, is_empty, is_listed, rest_of, without};
ghost use Rattle.wait_core.specs.Machine.{number_of};
ghost use Rattle.latch.specs.Reads.{went};
ghost use Rattle.condition_variable.specs.Visits.{MayWakeNow, Wakes, after_wake, head_of, with_items};
ghost use Rattle.condition_variable.specs.Calls.{other, relisted};

use arrayvec::ArrayVec;
use latch::set_latch;
use proc_table::ProcNo;
use wait_core::{Party, WaitSeat, WaitTable};

fn has(list: &[u32], proc: u32) -> bool
    ensures { result ≡ is_listed proc list.now }
{
    for item in list {
        if *item == proc {
            return true;
        }
    }
    false
}

fn take_off(list: &mut ArrayVec<u32, 64>, proc: u32)
    ensures { list.new.items ≡ without proc list.old.items }
{
    let mut rest = ArrayVec::new();
    for item in list.as_slice() {
        if *item != proc {
            rest.push(*item);
        }
    }
    *list = rest;
}

fn own_number<P: Party>(seat: &WaitSeat<P>) -> u32
    ensures { result ≡ number_of seat.now.view.own }
{
    seat.proc().number()
}

// Takes this backend off the list in hand. Whether it was off it already.
pub(crate) fn leave<P: Party>(seat: &mut WaitSeat<P>) -> bool
    ensures seat { seat.new ≡ with_items seat.old (without (number_of seat.old.view.own) seat.old.list) }
    ensures off { result ≡ not (is_listed (number_of seat.old.view.own) seat.old.list) }
{
    let own = own_number(seat);
    let list = seat.list();
    let listed = has(list.items.as_slice(), own);
    take_off(&mut list.items, own);
    !listed
}

// Puts this backend at the end of the list in hand.
pub(crate) fn join<P: Party>(seat: &mut WaitSeat<P>)
    requires room { length seat.old.list < 64 }
    ensures { seat.new ≡ with_items seat.old (seat.old.list ++ number_of seat.old.view.own ∷ []) }
{
    let own = own_number(seat);
    seat.list().items.push(own);
}

// The same where it isn't on the list. Whether it wasn't.
pub(crate) fn rejoin<P: Party>(seat: &mut WaitSeat<P>) -> bool
    requires room { is_listed (number_of seat.old.view.own) seat.old.list ≡ false → length seat.old.list < 64 }
    ensures seat { seat.new ≡ with_items seat.old (relisted (number_of seat.old.view.own) seat.old.list) }
    ensures off { result ≡ not (is_listed (number_of seat.old.view.own) seat.old.list) }
{
    let own = own_number(seat);
    let list = seat.list();
    if has(list.items.as_slice(), own) {
        return false;
    }
    list.items.push(own);
    true
}

// Puts this backend behind whoever is on the list in hand. Whether anybody is.
pub(crate) fn join_others<P: Party>(seat: &mut WaitSeat<P>) -> bool
    requires room { length seat.old.list < 64 }
    ensures seat { seat.new ≡ with_items seat.old (cond (is_empty seat.old.list) [] (seat.old.list ++ number_of seat.old.view.own ∷ [])) }
    ensures others { result ≡ not (is_empty seat.old.list) }
{
    let own = own_number(seat);
    let list = seat.list();
    if list.items.is_empty() {
        return false;
    }
    list.items.push(own);
    true
}

// Whether this backend is on the list in hand.
pub(crate) fn is_on<P: Party>(seat: &mut WaitSeat<P>) -> bool
    ensures seat { seat.new ≡ seat.old }
    ensures listed { result ≡ is_listed (number_of seat.old.view.own) seat.old.list }
{
    let own = own_number(seat);
    has(seat.list().items.as_slice(), own)
}

// Takes the first off the list in hand.
pub(crate) fn pop<P: Party>(seat: &mut WaitSeat<P>) -> Option<ProcNo>
    requires below { AllBelow 64 seat.old.list }
    ensures seat { seat.new ≡ with_items seat.old (rest_of seat.old.list) }
    ensures head { result ≡ head_of seat.old.list }
{
    let list = seat.list();
    if list.items.is_empty() {
        return None;
    }
    ProcNo::new(list.items.remove(0))
}

// The popped backend, unless it is this one.
pub(crate) fn other_than_own<P: Party>(seat: &WaitSeat<P>, popped: Option<ProcNo>) -> Option<ProcNo>
    ensures { result ≡ other (number_of seat.now.view.own) popped }
{
    let own = own_number(seat);
    match popped {
        Some(proc) if proc.number() != own => Some(proc),
        _ => None,
    }
}

// Sets the latch of whom the seat popped, if anybody. Who it was.
pub(crate) fn wake<P: Party>(
    table: &WaitTable<P>,
    seat: &mut WaitSeat<P>,
    woken: Option<ProcNo>,
) -> Option<ProcNo>
    requires table { seat.old.table_id ≡ table.now.table_id }
    requires place { MayWakeNow table.now.procs woken seat.old.view.place }
    ensures table { (seat.new.table_id ≡ seat.old.table_id) × (seat.new.id ≡ seat.old.id) }
    ensures woken { (more : List Made) × (seat.new.view ≡ went seat.old.view (after_wake woken seat.old.view.place) more) × Wakes woken more }
    ensures who { result ≡ woken }
{
    match woken {
        None => None,
        Some(proc) => {
            set_latch(table, seat, proc);
            Some(proc)
        }
    }
}
