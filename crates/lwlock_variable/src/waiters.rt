//! Whom an update of a lock's variable wakes.
ghost use Rattle.std.specs.Prelude.{◌≡◌};
ghost use Rattle.lw_core.specs.WaitLists.{lockers_from, until_free_from};

use arrayvec::ArrayVec;
use lw_core::Waiter;
use lwlock::steps::is_locker;

// Takes those off a list who wait until the lock is free. They stand at its head.
pub(crate) fn take_until_free(list: &mut ArrayVec<Waiter, 64>) -> ArrayVec<Waiter, 64>
    ensures taken { result.items ≡ until_free_from list.old.items }
    ensures kept { list.new.items ≡ lockers_from list.old.items }
{
    let mut taken = ArrayVec::new();
    let mut kept = ArrayVec::new();
    let mut behind = false;
    for waiter in list.as_slice() {
        behind = behind || is_locker(waiter.want);
        if behind {
            kept.push(*waiter);
        } else {
            taken.push(*waiter);
        }
    }
    *list = kept;
    taken
}
