//! How a backend joins a list of waiters, leaves one, and is taken off one.
ghost use Rattle.std.specs.Prelude.{◌≡◌, ◌≤◌, take, drop, length, IfOk};
ghost use Rattle.lw_core.specs.WaitLists.{joined_by, without, taken_from, kept_from, until_free_from, lockers_from, has_locker};

use lw_core::{Waiter, Want};
use std::alloc::{AllocError, Global};

/// The list that a waiter has joined: at the head where it waits until the lock is free, else at the
/// tail.
pub(crate) fn joined(
    alloc: Global,
    waiter: Waiter,
    list: &[Waiter],
) -> Result<Vec<Waiter>, AllocError>
    ensures list { IfOk result (λ v. v.items ≡ joined_by waiter list.now) }
{
    let mut queue = Vec::new(alloc);
    if let Want::UntilFree = waiter.want {
        queue.push(waiter)?;
        queue.extend_from_slice(list)?;
    } else {
        queue.extend_from_slice(list)?;
        queue.push(waiter)?;
    }
    Ok(queue)
}

/// The list without a backend.
pub(crate) fn without(alloc: Global, own: u32, list: &[Waiter]) -> Result<Vec<Waiter>, AllocError>
    ensures list { IfOk result (λ v. v.items ≡ without own list.now) }
{
    let mut others = Vec::new(alloc);
    'waiters: for waiter in list {
        if waiter.proc != own {
            others.push(*waiter)?;
        }
    }
    Ok(others)
}

/// Those whom a wake takes.
pub(crate) fn taken_from(alloc: Global, list: &[Waiter]) -> Result<Vec<Waiter>, AllocError>
    ensures list { IfOk result (λ v. v.items ≡ taken_from list.now) }
{
    let mut taken = Vec::new(alloc);
    let mut took_shared = false;
    'walk: for waiter in list {
        match waiter.want {
            Want::Exclusive => {
                if !took_shared {
                    taken.push(*waiter)?;
                    return Ok(taken);
                }
            }
            Want::Shared => {
                taken.push(*waiter)?;
                took_shared = true;
            }
            Want::UntilFree => taken.push(*waiter)?,
        }
    }
    Ok(taken)
}

/// Those whom it leaves.
pub(crate) fn kept_from(alloc: Global, list: &[Waiter]) -> Result<Vec<Waiter>, AllocError>
    ensures list { IfOk result (λ v. v.items ≡ kept_from list.now) }
{
    let mut kept = Vec::new(alloc);
    let mut took_shared = false;
    'walk: for at in 0..list.len() {
        let waiter = list[at];
        match waiter.want {
            Want::Exclusive => {
                if !took_shared {
                    kept.extend_from_slice(&list[at + 1..])?;
                    return Ok(kept);
                }
                kept.push(waiter)?;
            }
            Want::Shared => took_shared = true,
            Want::UntilFree => {}
        }
    }
    Ok(kept)
}

// How many at the head wait until the lock is free.
fn heads(list: &[Waiter]) -> usize
    ensures taken { until_free_from list.now ≡ take result list.now }
    ensures left { lockers_from list.now ≡ drop result list.now }
    ensures within { result ≤ length list.now }
{
    'heads: for at in 0..list.len() {
        let waiter = list[at];
        if !matches!(waiter.want, Want::UntilFree) {
            return at;
        }
    }
    list.len()
}

/// Those at the head who wait until the lock is free.
pub(crate) fn until_free_from(alloc: Global, list: &[Waiter]) -> Result<Vec<Waiter>, AllocError>
    ensures list { IfOk result (λ v. v.items ≡ until_free_from list.now) }
{
    list[..heads(list)].to_vec(alloc)
}

/// Those behind them.
pub(crate) fn lockers_from(alloc: Global, list: &[Waiter]) -> Result<Vec<Waiter>, AllocError>
    ensures list { IfOk result (λ v. v.items ≡ lockers_from list.now) }
{
    list[heads(list)..].to_vec(alloc)
}

/// Whether one of these wants the lock.
pub(crate) fn has_locker(list: &[Waiter]) -> bool
    ensures { result ≡ has_locker list.now }
{
    heads(list) < list.len()
}
