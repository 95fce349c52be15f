//! Two backends put ten thousand items, and two take them.
ghost use Rattle.bounded_buffer.specs.Backends.{IsFirst, IsIdle};

use super::*;
use std::alloc::AllocError;
use std::test::Fail;
use std::thread;

// How many items a worker puts or takes.
const ITEMS: u64 = 5000;

// What a worker does.
#[derive(Clone, Copy)]
enum Role {
    // Puts the items from this one on.
    Producer(u64),
    Consumer,
}

#[derive(Drop)]
struct Worker<'t> {
    buffer: &'t Buffer,
    backend: Backend,
    role: Role,
    ghost idle: { IsIdle buffer.now backend },
}

fn put_all<R: Wait>(rt: &R, buffer: &Buffer, mut backend: Backend, first: u64)
    requires { IsIdle buffer.now backend }
{
    for item in 0..ITEMS {
        buffer.put(rt, &mut backend, u64::wrapping_add(first, item));
    }
}

fn take_all<R: Wait>(
    rt: &R,
    alloc: Global,
    buffer: &Buffer,
    mut backend: Backend,
) -> Result<Vec<Taken>, AllocError>
    requires { IsIdle buffer.now backend }
{
    let mut items = Vec::new(alloc);
    for _ in 0..ITEMS {
        items.push(buffer.take(rt, &mut backend))?;
    }
    Ok(items)
}

// What the worker took.
fn work<R: Wait>(rt: &R, alloc: Global, worker: Worker<'_>) -> Result<Vec<Taken>, AllocError> {
    let Worker {
        buffer,
        backend,
        role,
    } = worker;
    match role {
        Role::Producer(first) => {
            put_all(rt, buffer, backend, first);
            Ok(Vec::new(alloc))
        }
        Role::Consumer => take_all(rt, alloc, buffer, backend),
    }
}

// Enters the items at their numbers.
fn enter(order: &mut [u64], items: &[Taken]) {
    for taken in items {
        if let Some(place) = order.get_mut(taken.number as usize) {
            *place = taken.item;
        }
    }
}

// Whether the items of the producer that began with this one stand there once each, in order.
fn has_in_order(order: &[u64], first: u64) -> bool {
    let mut next = first;
    for item in order {
        if first <= *item && *item - first < ITEMS {
            if *item != next {
                return false;
            }
            next = u64::wrapping_add(next, 1);
        }
    }
    next == u64::wrapping_add(first, ITEMS)
}

// Two who put and two who take.
fn workers(alloc: Global, buffer: &Buffer, mut first: Backend) -> Result<Vec<Worker<'_>>, Fail>
    requires { IsIdle buffer.now first × IsFirst first }
{
    let mut workers = Vec::new(alloc);
    for role in [Role::Producer(0), Role::Producer(ITEMS), Role::Consumer] {
        let backend = buffer.backend(&mut first)?;
        workers.push(Worker {
            buffer,
            backend,
            role,
        })?;
    }
    workers.push(Worker {
        buffer,
        backend: first,
        role: Role::Consumer,
    })?;
    Ok(workers)
}

#[test]
fn each_item_is_taken_once_in_order(rt: HostRuntime) -> Result<(), Fail> {
    let alloc = rt.alloc();
    let (buffer, first) = Buffer::new(alloc, 4)?;
    let workers = workers(alloc, &buffer, first)?;
    let results = thread::map_vec(&rt, workers, &|worker| work(&rt, alloc, worker))?;
    let mut order = Vec::new(alloc);
    order.resize(10_000, u64::MAX)?;
    for result in results {
        enter(order.as_mut_slice(), result?.as_slice());
    }
    assert!(rt; has_in_order(order.as_slice(), 0));
    assert!(rt; has_in_order(order.as_slice(), ITEMS));
    Ok(())
}
