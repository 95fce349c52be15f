//! Which head a chain or a store has, by the sizes in force.
ghost use Rattle.std.specs.Prelude.{◌≡◌, ◌+◌, ◌*◌, ◌<◌, ◌≤◌, []};
ghost use Rattle.wait_core.specs.Seating.{party_of};
ghost use Rattle.join_law.specs.Layout.{heads};
ghost use Rattle.join_law.specs.Phases.{WithSizes};
ghost use Rattle.join_law.specs.Routes.{chain_at};
ghost use Rattle.join_party.specs.Joins.{join};
ghost use Rattle.shared_tuples.specs.Growing.{MayTakeOld};
ghost use Rattle.shared_tuples.specs.Lists.{IsOld, IsStore, MayTakeFrom, chain_head, store_head};
ghost use Rattle.shared_tuples.specs.Tuples.{IsRoute, KnowsSizes, MayTakeOut};

use crate::StoreNo;
use crate::sizes::{Growth, Sizes, read_sizes};
use join_party::{HashParty, Source};
use row_model::{Route, Side};
use wait_core::{WaitSeat, WaitTable};

// Where a chain stands among the heads, of which each half has so many chains.
fn chain_place(chains: u32, sizes: Sizes, route: Route) -> u32
    requires half { sizes.half ≤ 1 }
    requires index { (chains ≤ 524288) × (route.batch * sizes.buckets + route.bucket < chains) }
    ensures place { result ≡ sizes.half * chains + (route.batch * sizes.buckets + route.bucket) }
    ensures below { result < 2 * chains }
{
    let index = route.batch * sizes.buckets + route.bucket;
    if sizes.half == 0 {
        index
    } else {
        chains + index
    }
}

// The head of a route's chain.
pub(crate) fn chain_head<'r>(
    waits: &WaitTable<HashParty<'r>>,
    seat: &mut WaitSeat<HashParty<'r>>,
    route: Route,
) -> u32
    requires table { seat.old.table_id ≡ waits.now.table_id }
    requires idle { seat.old.view.place ≡ [] }
    requires known { KnowsSizes (party_of seat.old.view) }
    requires route { WithSizes (party_of seat.old.view) (λ z. IsRoute z route) }
    ensures table { (seat.new.table_id ≡ seat.old.table_id) × (seat.new.id ≡ seat.old.id) }
    ensures view { seat.new.view ≡ seat.old.view }
    ensures inside { result < heads (join waits.now.party) }
    ensures head { WithSizes (party_of seat.old.view) (λ z. result ≡ chain_head (join waits.now.party) z route) }
{
    let chains = waits.party().chains;
    let sizes = read_sizes(waits, seat);
    chain_place(chains, sizes, route)
}

/// The head of the chain to which a hash leads.
pub fn chain_of<'r>(
    waits: &WaitTable<HashParty<'r>>,
    seat: &mut WaitSeat<HashParty<'r>>,
    hash: u32,
) -> u32
    requires table { seat.old.table_id ≡ waits.now.table_id }
    requires idle { seat.old.view.place ≡ [] }
    requires known { KnowsSizes (party_of seat.old.view) }
    ensures table { (seat.new.table_id ≡ seat.old.table_id) × (seat.new.id ≡ seat.old.id) }
    ensures view { seat.new.view ≡ seat.old.view }
    ensures inside { result < heads (join waits.now.party) }
    ensures head { WithSizes (party_of seat.old.view) (λ z. result ≡ chain_at (join waits.now.party) z hash) }
{
    let chains = waits.party().chains;
    let sizes = read_sizes(waits, seat);
    let route = Route::of(hash, sizes.buckets, sizes.batches);
    chain_place(chains, sizes, route)
}

// A head of the half that a growth leaves, by its turn among those that may hold rows: the chains of batch 0,
// then the stores of the other batches.
pub(crate) fn old_source<'r>(
    waits: &WaitTable<HashParty<'r>>,
    seat: &mut WaitSeat<HashParty<'r>>,
    growth: Growth,
    turn: u32,
) -> Source
    requires table { seat.old.table_id ≡ waits.now.table_id }
    requires idle { seat.old.view.place ≡ [] }
    requires turn { MayTakeOld (join waits.now.party) (party_of seat.old.view) growth turn }
    ensures table { (seat.new.table_id ≡ seat.old.table_id) × (seat.new.id ≡ seat.old.id) }
    ensures view { seat.new.view ≡ seat.old.view }
    ensures may { MayTakeFrom (join waits.now.party) (party_of seat.old.view) result }
    ensures old { IsOld result growth turn }
{
    let party = waits.party();
    let old = read_sizes(waits, seat).before(growth, party.first_batches);
    let head = if turn < old.buckets {
        let route = Route {
            bucket: turn,
            batch: 0,
        };
        chain_place(party.chains, old, route)
    } else {
        2 * party.chains + (old.half * 64 + (turn - old.buckets + 1))
    };
    Source::Old {
        bar: growth.bar(),
        turn,
        head,
    }
}

// The head of the store of a side and a batch.
pub(crate) fn store_head<'r>(
    waits: &WaitTable<HashParty<'r>>,
    seat: &mut WaitSeat<HashParty<'r>>,
    store: StoreNo,
) -> u32
    requires table { seat.old.table_id ≡ waits.now.table_id }
    requires idle { seat.old.view.place ≡ [] }
    requires known { KnowsSizes (party_of seat.old.view) }
    requires few { store.batch < 64 }
    ensures table { (seat.new.table_id ≡ seat.old.table_id) × (seat.new.id ≡ seat.old.id) }
    ensures view { seat.new.view ≡ seat.old.view }
    ensures inside { result < heads (join waits.now.party) }
    ensures head { WithSizes (party_of seat.old.view) (λ z. result ≡ store_head (join waits.now.party) z store.side store.batch) }
{
    let chains = 2 * waits.party().chains;
    match store.side {
        Side::Inner => chains + (read_sizes(waits, seat).half * 64 + store.batch),
        Side::Outer => chains + (128 + store.batch),
    }
}

// The store of a side and a batch, as rows are taken from it.
pub(crate) fn source_of<'r>(
    waits: &WaitTable<HashParty<'r>>,
    seat: &mut WaitSeat<HashParty<'r>>,
    store: StoreNo,
) -> Source
    requires table { seat.old.table_id ≡ waits.now.table_id }
    requires idle { seat.old.view.place ≡ [] }
    requires store { MayTakeOut (party_of seat.old.view) store.side store.batch }
    ensures table { (seat.new.table_id ≡ seat.old.table_id) × (seat.new.id ≡ seat.old.id) }
    ensures view { seat.new.view ≡ seat.old.view }
    ensures may { MayTakeFrom (join waits.now.party) (party_of seat.old.view) result }
    ensures store { IsStore result store.side store.batch }
{
    match store.side {
        Side::Inner => Source::Inner {
            half: read_sizes(waits, seat).half,
            batch: store.batch,
        },
        Side::Outer => Source::Outer { batch: store.batch },
    }
}
