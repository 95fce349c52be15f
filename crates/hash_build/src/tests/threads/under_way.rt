//! A worker comes in each phase of a growth, in which another stands: both help it to its end, and go on to the
//! end of the build.
ghost use Rattle.std.specs.Prelude.{◌≡◌, ◌<◌};
ghost use Rattle.join_party.specs.Workers.{IsAt};
ghost use Rattle.hash_build.specs.Builds.{Begins};
ghost use Rattle.hash_build.specs.Growths.{AreElecting, IsGrowing};

use super::*;
use crate::chunks::{hash_inner_chunk, hash_inner_rows, hash_outer};
use crate::growths::{
    GrowthPhases, attach_both, begin, go_through, last_of, leave_growths, pass, pass_reallocate,
    take_part,
};
use join_party::claim;
use row_model::Side;
use shared_tuples::Growth;

// Phases of the build.
const HASH_INNER: u64 = 2;

const HASH_OUTER: u64 = 3;

// Phases of a growth, the last two of a growth of batches.
const ELECT: u64 = 0;

const REALLOCATE: u64 = 1;

const REINSERT: u64 = 2;

const DECIDE: u64 = 3;

const FINISH: u64 = 4;

// Attaches to the build, comes to where inner rows are hashed, and attaches to both growths.
fn come_in<'r, R: Abort + Wait>(
    rt: &R,
    tables: &JoinTables<'r>,
    seats: &mut JoinSeats<'r>,
) -> GrowthPhases
    requires table { IsAt tables.now seats.old }
    requires begins { Begins seats.old }
    ensures growing { IsGrowing tables.now seats.new result }
{
    let found = attach(rt, &tables.waits, &mut seats.wait, the_build());
    assert!(rt; found <= HASH_INNER);
    for phase in found..HASH_INNER {
        go_on(rt, tables, seats, phase);
    }
    attach_both(rt, tables, seats)
}

// Hashes inner rows, chunk by chunk, until a growth is wanted, and answers which.
fn hash_until_wanted<'r, R: Abort + Wait, L: Ledger>(
    rt: &R,
    blank: Blank,
    tables: &JoinTables<'r>,
    seats: &mut JoinSeats<'r>,
    phases: GrowthPhases,
) -> Growth
    requires name { blank.name ≡ L.name }
    requires parts { blank.parts ≡ L.parts }
    requires some { 0 < blank.parts }
    requires growing { IsGrowing tables.now seats.old phases }
    requires elect { AreElecting phases }
    ensures growing { IsGrowing tables.now seats.new phases }
{
    let mut steps = Steps::<L>::new(blank);
    for _ in rt.forever() {
        let Some(chunk) = claim(tables, seats, Side::Inner) else {
            panic!(rt; "no growth is wanted")
        };
        if let Some(growth) = hash_inner_chunk(rt, tables, seats, chunk, &mut steps) {
            return growth;
        }
    }
    unreachable!()
}

// Goes from ELECT to a phase of a growth.
fn go_to<'r, R: Abort + Wait>(
    rt: &R,
    tables: &JoinTables<'r>,
    seats: &mut JoinSeats<'r>,
    growth: Growth,
    phases: GrowthPhases,
    phase: u64,
) -> GrowthPhases
    requires growing { IsGrowing tables.now seats.old phases }
    requires elect { AreElecting phases }
    ensures growing { IsGrowing tables.now seats.new result }
{
    if phase == ELECT {
        return phases;
    }
    assert!(rt; phases.at(growth) < last_of(growth));
    let mut at = begin(rt, tables, seats, growth, phases);
    for _ in REALLOCATE..phase {
        assert!(rt; at.named(growth) != ELECT);
        at = pass(rt, tables, seats, growth, at);
    }
    at
}

// Comes in first, hashes inner rows until this growth is wanted, and goes to a phase of it.
fn stand_in<'r, R: Abort + Wait>(
    rt: &R,
    tables: &JoinTables<'r>,
    seats: &mut JoinSeats<'r>,
    growth: Growth,
    phase: u64,
) -> GrowthPhases
    requires table { IsAt tables.now seats.old }
    requires begins { Begins seats.old }
    ensures growing { IsGrowing tables.now seats.new result }
{
    let phases = come_in(rt, tables, seats);
    assert!(rt; phases.named(Growth::Batches) == ELECT);
    assert!(rt; phases.named(Growth::Buckets) == ELECT);
    let wanted = hash_until_wanted::<R, Brand>(rt, Blank::new(1), tables, seats, phases);
    assert!(rt; wanted == growth);
    go_to(rt, tables, seats, growth, phases, phase)
}

// Helps the growth that it is in, and then takes part in the one that it has yet to begin.
fn help<'r, R: Wait>(
    rt: &R,
    tables: &JoinTables<'r>,
    seats: &mut JoinSeats<'r>,
    phases: GrowthPhases,
    wanted: Option<Growth>,
) -> GrowthPhases
    requires growing { IsGrowing tables.now seats.old phases }
    ensures growing { IsGrowing tables.now seats.new result }
    ensures elect { AreElecting result }
{
    let phases = pass_reallocate(rt, tables, seats, phases);
    let phases = go_through(rt, tables, seats, Growth::Batches, phases);
    let phases = go_through(rt, tables, seats, Growth::Buckets, phases);
    match wanted {
        Some(growth) => take_part(rt, tables, seats, growth, phases),
        None => phases,
    }
}

// Hashes what is left of the inner rows, and outer rows, and goes on to the end of the build.
fn finish<'r, R: Wait, L: Ledger>(
    rt: &R,
    blank: Blank,
    tables: &JoinTables<'r>,
    seats: &mut JoinSeats<'r>,
    phases: GrowthPhases,
) -> Built
    requires name { blank.name ≡ L.name }
    requires parts { blank.parts ≡ L.parts }
    requires some { 0 < blank.parts }
    requires growing { IsGrowing tables.now seats.old phases }
    requires elect { AreElecting phases }
{
    let mut steps = Steps::<L>::new(blank);
    let phases = hash_inner_rows(rt, tables, seats, phases, 0, &OpenGate, &mut steps);
    leave_growths(rt, tables, seats, phases);
    go_on(rt, tables, seats, HASH_INNER);
    hash_outer(rt, tables, seats, 0, &OpenGate, &mut steps);
    let elected = go_on(rt, tables, seats, HASH_OUTER);
    let sizes = read_sizes(tables, seats);
    Built::Ready {
        buckets: sizes.buckets,
        batches: sizes.batches,
        elected,
    }
}

// Goes on from the phases in which it stands.
fn build_on<'r, R: Wait>(
    rt: &R,
    tables: &JoinTables<'r>,
    mut seats: JoinSeats<'r>,
    phases: GrowthPhases,
    wanted: Option<Growth>,
) -> Option<Built>
    requires growing { IsGrowing tables.now seats phases }
{
    let phases = help(rt, tables, &mut seats, phases, wanted);
    let built = finish::<R, Brand>(rt, Blank::new(1), tables, &mut seats, phases);
    mem::forget(seats);
    Some(built)
}

// Both go on, each in a thread of its own: the first from where it stood, the second from where it found itself.
fn build_both<'r, R: Threads + Wait + Sync>(
    rt: &R,
    tables: &JoinTables<'r>,
    first: JoinSeats<'r>,
    stood: GrowthPhases,
    wanted: Option<Growth>,
    second: JoinSeats<'r>,
    found: GrowthPhases,
) -> Option<Built>
    requires first { IsGrowing tables.now first stood }
    requires second { IsGrowing tables.now second found }
{
    let (one, other) = join(
        rt,
        move || -> Option<Built> { build_on(rt, tables, first, stood, wanted) },
        move || -> Option<Built> { build_on(rt, tables, second, found, None) },
    );
    both(one, other)
}

// One worker stands in a phase of a growth, and the other comes in there. What both answer, and whether each row
// is placed.
fn build_from<R: Abort + Threads + Wait + Sync>(
    rt: &R,
    alloc: Global,
    inner: &Rows,
    outer: &Rows,
    plan: Plan,
    growth: Growth,
    phase: u64,
) -> (Built, bool) {
    let (tables, mut leader) = open(rt, alloc, inner, outer, plan);
    let Ok(mut first) = tables.worker(&mut leader) else {
        panic!(rt; "no number")
    };
    let Ok(mut second) = tables.worker(&mut leader) else {
        panic!(rt; "no number")
    };
    let stood = stand_in(rt, &tables, &mut first, growth, phase);
    let found = come_in(rt, &tables, &mut second);
    assert!(rt; found == stood);
    assert!(rt; found.at(growth) == phase);
    let wanted = if phase == ELECT { Some(growth) } else { None };
    let built = build_both(rt, &tables, first, stood, wanted, second, found).unwrap_or(Built::Late);
    let placed = each_row_is_placed(rt, alloc, &tables, leader, built);
    mem::forget(tables);
    (built, placed)
}

#[test]
fn a_worker_may_come_in_each_phase_of_a_growth(rt: HostRuntime) -> Result<(), Fail> {
    // The keys, the buckets and the budget of tables that grow once, and their sizes then.
    let batches_grow = (Keys::Equal(1000), (1, 2), (1, 8));
    let buckets_grow = (Keys::Different(1000), (512, 65_536), (1024, 1));
    let cases = [
        (Growth::Batches, ELECT, batches_grow),
        (Growth::Batches, REALLOCATE, batches_grow),
        (Growth::Batches, REINSERT, batches_grow),
        (Growth::Batches, DECIDE, batches_grow),
        (Growth::Batches, FINISH, batches_grow),
        (Growth::Buckets, ELECT, buckets_grow),
        (Growth::Buckets, REALLOCATE, buckets_grow),
        (Growth::Buckets, REINSERT, buckets_grow),
    ];
    for (growth, phase, (keys, (buckets, mem), (buckets_then, batches))) in cases {
        let inner = rows_of(rt.alloc(), keys)?;
        let outer = rows_of(rt.alloc(), keys)?;
        let plan = Plan {
            workers: 4,
            buckets,
            mem,
        };
        let (built, placed) = build_from(&rt, rt.alloc(), &inner, &outer, plan, growth, phase);
        let elected = true;
        assert_eq!(rt;
            built,
            Built::Ready {
                buckets: buckets_then,
                batches,
                elected
            }
        );
        assert!(rt; placed);
    }
    Ok(())
}
