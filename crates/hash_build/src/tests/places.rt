//! Where each row is found by plain loads of all heads and next words, and where it is to be.
ghost use Rattle.std.specs.Prelude.{◌≡◌, ◌≤◌, ◌<◌, []};
ghost use Rattle.std.specs.Int.{IsPowerOfTwo};

use super::*;
use join_party::{HashParty, HashStep, Look, Word};
use row_model::{Route, Side};
use wait_core::{WaitSeat, WaitTable};

// Where a row is: in no list, in the list of this head with this hash word, or in lists more than once.
#[derive(Clone, Copy, PartialEq, Eq)]
pub(super) enum Place {
    Nowhere,
    In { head: u32, hash: u64 },
    Twice,
}

fn head_count(party: &HashParty<'_>) -> u32 {
    2 * party.chains + 192
}

fn row_count(party: &HashParty<'_>) -> u32 {
    party.inner.len() + party.outer.len()
}

// The first row of a list plus 1, or 0.
fn load_head<'r, R: Abort>(
    rt: &R,
    waits: &WaitTable<HashParty<'r>>,
    seat: &mut WaitSeat<HashParty<'r>>,
    head: u32,
) -> u64
    requires table { seat.old.table_id ≡ waits.now.table_id }
    requires idle { seat.old.view.place ≡ [] }
    ensures table { seat.new.table_id ≡ waits.now.table_id }
    ensures idle { seat.new.view.place ≡ [] }
{
    let chains = waits.party().chains;
    assert!(rt; head < 2 * chains + 192);
    waits
        .client(seat, HashStep::Load(Look::Plain(Word::Head(head))))
        .old
}

// The row after a row, plus 1, or 0.
fn load_next<'r, R: Abort>(
    rt: &R,
    waits: &WaitTable<HashParty<'r>>,
    seat: &mut WaitSeat<HashParty<'r>>,
    row: u32,
) -> u64
    requires table { seat.old.table_id ≡ waits.now.table_id }
    requires idle { seat.old.view.place ≡ [] }
    ensures table { seat.new.table_id ≡ waits.now.table_id }
    ensures idle { seat.new.view.place ≡ [] }
{
    let party = waits.party();
    assert!(rt; row < party.inner.len() + party.outer.len());
    waits
        .client(seat, HashStep::Load(Look::Plain(Word::Next(row))))
        .old
}

fn load_hash<'r, R: Abort>(
    rt: &R,
    waits: &WaitTable<HashParty<'r>>,
    seat: &mut WaitSeat<HashParty<'r>>,
    row: u32,
) -> u64
    requires table { seat.old.table_id ≡ waits.now.table_id }
    requires idle { seat.old.view.place ≡ [] }
    ensures table { seat.new.table_id ≡ waits.now.table_id }
    ensures idle { seat.new.view.place ≡ [] }
{
    let party = waits.party();
    assert!(rt; row < party.inner.len() + party.outer.len());
    waits
        .client(seat, HashStep::Load(Look::Plain(Word::Hash(row))))
        .old
}

fn note(places: &mut [Place], row: u32, head: u32, hash: u64) {
    if let Some(place) = places.get_mut(row as usize) {
        *place = match *place {
            Place::Nowhere => Place::In { head, hash },
            _ => Place::Twice,
        };
    }
}

// Notes the rows of the list at a head.
fn walk<'r, R: Abort>(
    rt: &R,
    waits: &WaitTable<HashParty<'r>>,
    seat: &mut WaitSeat<HashParty<'r>>,
    head: u32,
    places: &mut [Place],
)
    requires table { seat.old.table_id ≡ waits.now.table_id }
    requires idle { seat.old.view.place ≡ [] }
    ensures table { seat.new.table_id ≡ waits.now.table_id }
    ensures idle { seat.new.view.place ≡ [] }
{
    let mut word = load_head(rt, waits, seat, head);
    for _ in 0..600_000u32 {
        if word == 0 {
            return;
        }
        let Ok(row) = u32::try_from(word - 1) else {
            panic!(rt; "a word that names no row")
        };
        let hash = load_hash(rt, waits, seat, row);
        note(places, row, head, hash);
        word = load_next(rt, waits, seat, row);
    }
    panic!(rt; "a list without an end")
}

fn walk_all<'r, R: Abort>(
    rt: &R,
    waits: &WaitTable<HashParty<'r>>,
    seat: &mut WaitSeat<HashParty<'r>>,
    places: &mut [Place],
)
    requires table { seat.old.table_id ≡ waits.now.table_id }
    requires idle { seat.old.view.place ≡ [] }
{
    for head in 0..head_count(waits.party()) {
        walk(rt, waits, seat, head, places);
    }
}

// The half of the heads that holds the rows.
fn load_half<'r>(waits: &WaitTable<HashParty<'r>>, seat: &mut WaitSeat<HashParty<'r>>) -> u32
    requires table { seat.old.table_id ≡ waits.now.table_id }
    requires idle { seat.old.view.place ≡ [] }
    ensures table { seat.new.table_id ≡ waits.now.table_id }
    ensures idle { seat.new.view.place ≡ [] }
    ensures half { result ≤ 1 }
{
    let word = waits
        .client(seat, HashStep::Load(Look::Plain(Word::Sizes)))
        .old;
    (word % 2) as u32
}

// The half of the heads that holds the rows, and where each row is found.
pub(super) fn find_places<'r, R: Abort>(
    rt: &R,
    alloc: Global,
    waits: &WaitTable<HashParty<'r>>,
    seats: JoinSeats<'r>,
) -> (u32, Vec<Place>)
    requires table { seats.wait.table_id ≡ waits.now.table_id }
    requires idle { seats.wait.view.place ≡ [] }
    ensures half { result.0 ≤ 1 }
{
    let JoinSeats {
        lock,
        mut wait,
        signal,
    } = seats;
    let mut places = Vec::new(alloc);
    let ample = places
        .resize(row_count(waits.party()) as usize, Place::Nowhere)
        .is_ok();
    let half = load_half(waits, &mut wait);
    walk_all(rt, waits, &mut wait, places.as_mut_slice());
    mem::forget(lock);
    mem::forget(wait);
    mem::forget(signal);
    assert!(rt; ample);
    (half, places)
}

// Where a row of this hash is to be, in this half of the heads.
fn place_of(
    party: &HashParty<'_>,
    half: u32,
    side: Side,
    hash: Option<u32>,
    buckets: u32,
    batches: u32,
) -> Place
    requires half { half ≤ 1 }
    requires buckets { IsPowerOfTwo buckets × (buckets ≤ 262144) }
    requires batches { IsPowerOfTwo batches × (batches ≤ 64) }
{
    let Some(hash) = hash else {
        return Place::Nowhere;
    };
    let Route { bucket, batch } = Route::of(hash, buckets, batches);
    let stores = 2 * party.chains;
    let first = if half == 0 { 0 } else { party.chains };
    let head = match side {
        Side::Inner if batch == 0 => u32::wrapping_add(first, bucket),
        Side::Inner => u32::wrapping_add(stores + half * 64, batch),
        Side::Outer => u32::wrapping_add(stores + 128, batch),
    };
    Place::In {
        head,
        hash: u64::from(hash),
    }
}

// Where the rows of a side are to be.
fn expect_side<R: Abort, L: Ledger>(
    rt: &R,
    party: &HashParty<'_>,
    rows: &Rows,
    side: Side,
    half: u32,
    sizes: (u32, u32),
    places: &mut Vec<Place>,
    steps: &mut Steps<L>,
)
    requires half { half ≤ 1 }
    requires buckets { IsPowerOfTwo sizes.0 × (sizes.0 ≤ 262144) }
    requires batches { IsPowerOfTwo sizes.1 × (sizes.1 ≤ 64) }
{
    let (buckets, batches) = sizes;
    for row in 0..rows.len() {
        let hash = rows.hash_of(row, steps);
        let place = place_of(party, half, side, hash, buckets, batches);
        assert!(rt; places.push(place).is_ok());
    }
}

// Where each row is to be.
pub(super) fn expect_places<R: Abort, L: Ledger>(
    rt: &R,
    blank: Blank,
    alloc: Global,
    party: &HashParty<'_>,
    half: u32,
    buckets: u32,
    batches: u32,
) -> Vec<Place>
    requires half { half ≤ 1 }
    requires name { blank.name ≡ L.name }
    requires parts { blank.parts ≡ L.parts }
    requires some { 0 < blank.parts }
{
    assert!(rt; buckets <= 262_144 && batches <= 64);
    let sizes = (buckets.next_power_of_two(), batches.next_power_of_two());
    assert!(rt; sizes == (buckets, batches));
    let mut steps = Steps::<L>::new(blank);
    let mut places = Vec::new(alloc);
    expect_side(
        rt,
        party,
        party.inner,
        Side::Inner,
        half,
        sizes,
        &mut places,
        &mut steps,
    );
    expect_side(
        rt,
        party,
        party.outer,
        Side::Outer,
        half,
        sizes,
        &mut places,
        &mut steps,
    );
    places
}
