//! Takes a free lock and lets go of it a million times, so that what this costs can be measured.
#![tactic(auto)]

ghost use Rattle.std.specs.Prelude.{◌≡◌, ◌<◌, [], None};
ghost use Rattle.lw_core.specs.Machine.{mode_in};

use lw_core::{Guarded, LwSeat, LwTable};
use lwlock::{acquire, release};
use proc_table::{LockNo, Mode};
use std::process::ExitCode;
use std::sync::Wait;

const ROUNDS: u64 = 1_000_000;

// No word is guarded.
struct AnyWords;

impl Guarded for AnyWords {
    ghost lawful = { λ _ _. Unit {0} };

    ghost zeros = { λ _. tt };
}

fn run_rounds<R: Wait>(rt: &R, table: &LwTable<AnyWords>, seat: &mut LwSeat, lock: LockNo)
    requires table { (seat.old.table_id ≡ table.now.table_id) × (lock < table.now.locks) }
    requires idle { (seat.old.view.place ≡ []) × (mode_in lock seat.old.view ≡ None) }
{
    for _round in 0..ROUNDS {
        acquire(rt, table, seat, lock, Mode::Exclusive);
        release(rt, table, seat, lock);
    }
}

fn main(rt: HostRuntime) -> ExitCode {
    let Some(lock) = LockNo::new(0) else {
        return ExitCode::FAILURE;
    };
    let Ok((table, mut seat)) = LwTable::<AnyWords>::new(rt.alloc(), 1, 1) else {
        return ExitCode::FAILURE;
    };
    run_rounds(&rt, &table, &mut seat, lock);
    ExitCode::SUCCESS
}
