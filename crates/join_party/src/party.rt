//! The join as the client of its barriers: which word each step is on, and what it does to it.
ghost use Rattle.std.specs.Prelude.{◌≡◌, ◌≤◌, ◌<◌, ℕ, ◌+◌, ◌*◌, length, min};

use join_law::{HashStep, HashView, Look, Source, Word};
use row_model::{Rows, Side};
use wait_core::{ClientOp, Party};

/// A join of two tables.
#[derive(Drop)]
pub struct HashParty<'r> {
    pub inner: &'r Rows,
    pub outer: &'r Rows,
    /// How many chains there is room for in a half.
    pub chains: u32,
    /// How many buckets it begins with, in one batch.
    pub buckets: u32,
    /// How many batches the first growth of batches brings.
    pub first_batches: u32,
    ghost few: { (length inner.now.rows + length outer.now.rows ≤ 1073741824) × (chains ≤ 524288) },
    ghost sizes: { buckets ≤ 262144 },
}

// Where the heads begin.
const HEADS: u64 = 176;

// A place, as far as 32 bits go.
#[inline(always)]
fn clamp(place: u64) -> u32
    ensures { result ≡ min place 4294967295 }
{
    if place < 4_294_967_295 {
        place as u32
    } else {
        4_294_967_295
    }
}

impl<'r> HashParty<'r> {
    ghost use Rattle.join_law.specs.Layout.{heads, rows, place, word_count, size_word, first_sizes};
    ghost use Rattle.join_law.specs.Machine.{spot, source_head, looked_at};
    ghost use Rattle.join_party.specs.Joins.{join};

    // How many heads, rows and words there are.
    fn heads(&self) -> u64
        ensures { result ≡ heads (join self.now) }
    {
        2 * u64::from(self.chains) + 192
    }

    fn rows(&self) -> u64
        ensures { result ≡ rows (join self.now) }
    {
        u64::from(self.inner.len()) + u64::from(self.outer.len())
    }

    fn word_total(&self) -> u32
        ensures { result ≡ word_count (join self.now) }
    {
        let total = HEADS + self.heads() + self.rows() + self.rows();
        total as u32
    }

    // The word of the opening sizes, in half 0.
    fn first_word(&self) -> u64
        ensures { result ≡ size_word (first_sizes (join self.now)) }
    {
        u64::from(self.buckets) * 256 + 2
    }

    // Where a word stands. Each of the first five has a line of a cache to itself.
    #[inline(always)]
    fn place(&self, word: Word) -> u64
        ensures { result ≡ place (join self.now) word }
    {
        match word {
            Word::Sizes => 7,
            Word::InnerCursor => 15,
            Word::OuterCursor => 23,
            Word::Distributor => 31,
            Word::Results => 39,
            Word::BatchSize(at) => 48 + u64::from(at),
            Word::Head(head) => HEADS + u64::from(head),
            Word::Next(row) => HEADS + self.heads() + u64::from(row),
            Word::Hash(row) => HEADS + self.heads() + self.rows() + u64::from(row),
        }
    }

    #[inline(always)]
    fn spot(&self, word: Word) -> u32
        ensures { result ≡ spot (join self.now) word }
    {
        clamp(self.place(word))
    }

    /// The head that a source names.
    #[inline(always)]
    pub fn source_head(&self, source: Source) -> u64
        ensures { result ≡ source_head (join self.now) source }
    {
        let chains = 2 * u64::from(self.chains);
        match source {
            Source::Inner { half, batch } => chains + (u64::from(half) * 64 + u64::from(batch)),
            Source::Outer { batch } => chains + (128 + u64::from(batch)),
            Source::Old {
                bar: _,
                turn: _,
                head,
            } => u64::from(head),
        }
    }

    // Where the word of a load stands.
    #[inline(always)]
    fn look_place(&self, look: Look) -> u64
        ensures { result ≡ place (join self.now) (looked_at (join self.now) look) }
    {
        match look {
            Look::Plain(word) => self.place(word),
            Look::Sizes | Look::Late => self.place(Word::Sizes),
            Look::Cursor(Side::Inner) => self.place(Word::InnerCursor),
            Look::Cursor(Side::Outer) => self.place(Word::OuterCursor),
            Look::TakeHead(source) => HEADS + self.source_head(source),
            Look::WalkHead { row: _, head } => self.place(Word::Head(head)),
            Look::TakeNext { row } | Look::Aside { row } | Look::GiveUp { row } => self.place(
                Word::Next(row),
            ),
            Look::WalkNext { inner } => self.place(Word::Next(inner)),
            Look::Done { batch } => HEADS + (2 * u64::from(self.chains) + (128 + u64::from(batch))),
        }
    }

    #[inline(always)]
    fn look_spot(&self, look: Look) -> u32
        ensures { result ≡ spot (join self.now) (looked_at (join self.now) look) }
    {
        clamp(self.look_place(look))
    }
}

impl<'r> Party for HashParty<'r> {
    type Step = HashStep;

    type View = HashView;

    ghost use Rattle.std.specs.Prelude.{⊤};
    ghost use Rattle.join_law.specs.Layout.{word_count, opens};
    ghost use Rattle.join_law.specs.Views.{first_view, both_views, spent_view};
    ghost use Rattle.join_law.specs.Machine.{step_op, May, after};
    ghost use Rattle.join_law.specs.Quiet.{Quiet, Passes, Enters, Stays};
    ghost use Rattle.join_law.specs.Stands.{Stands};
    ghost use Rattle.join_party.specs.Joins.{join};
    ghost use Rattle.join_law.proofs.Laws as laws;

    ghost word_count = { λ p. word_count (join p) };

    ghost opens = { λ p. opens (join p) };

    ghost does = { λ p. step_op (join p) };

    ghost first = { λ _. first_view };

    ghost both = { both_views };

    ghost spent = { spent_view };

    ghost may = { λ p. May (join p) };

    ghost after = { λ p. after (join p) };

    ghost means = { λ p. record { holds = Stands (join p); quiet = Quiet (join p); passes = Passes; enters = Enters; stays = Stays } };

    ghost step_inside = { λ p. laws.step_inside (join p) };

    ghost step_keeps = { λ p. laws.step_keeps (join p) };

    ghost draw_keeps = { λ p words views phases proc h d. laws.draw_keeps (join p) words views phases proc h };

    ghost join_keeps = { λ p. laws.join_keeps (join p) };

    ghost enter_keeps = { λ p words views phases id v w bar h s enters. laws.enter_keeps (join p) words views phases h id v w bar s enters };

    ghost notice_keeps = { λ p words views phases id v w bar ph h s quiet. laws.notice_keeps (join p) words views phases h id v w bar ph s };

    ghost elect_keeps = { λ p words views phases id v bar ph h s. laws.elect_keeps (join p) words views phases h id v bar ph s };

    ghost pass_keeps = { λ p words views phases bar id v h s passes. laws.pass_keeps (join p) words views phases h bar id v s passes };

    ghost leave_keeps = { λ p words views phases id v w bar ph h s quiet. laws.leave_keeps (join p) words views phases h id v w bar ph s quiet };

    fn words(&self) -> u32 {
        self.word_total()
    }

    fn opening(&self, at: u32) -> u64 {
        if at == 7 { self.first_word() } else { 0 }
    }

    #[inline(always)]
    fn op(&self, step: HashStep) -> ClientOp {
        match step {
            HashStep::Load(look) => ClientOp::Load {
                at: self.look_spot(look),
            },
            HashStep::Claim(Side::Inner) => ClientOp::Add {
                at: self.spot(Word::InnerCursor),
                by: 64,
            },
            HashStep::Claim(Side::Outer) => ClientOp::Add {
                at: self.spot(Word::OuterCursor),
                by: 64,
            },
            HashStep::StoreHash { row, hash } => ClientOp::Store {
                at: self.spot(Word::Hash(row)),
                value: u64::from(hash),
            },
            HashStep::StoreNext { row, next } => ClientOp::Store {
                at: self.spot(Word::Next(row)),
                value: next,
            },
            HashStep::Push { row, head, found } => ClientOp::Change {
                at: self.spot(Word::Head(head)),
                from: found,
                to: u64::from(row) + 1,
            },
            HashStep::Take { row, head, next } => ClientOp::Change {
                at: self.spot(Word::Head(head)),
                from: u64::from(row) + 1,
                to: next,
            },
            HashStep::AddBatchSize { at, by } => ClientOp::Add {
                at: self.spot(Word::BatchSize(at)),
                by,
            },
            HashStep::ClearBatchSize { at } => ClientOp::Store {
                at: self.spot(Word::BatchSize(at)),
                value: 0,
            },
            HashStep::StoreSizes { bar: _, word } => ClientOp::Store {
                at: self.spot(Word::Sizes),
                value: word,
            },
            HashStep::Draw => ClientOp::Add {
                at: self.spot(Word::Distributor),
                by: 1,
            },
            HashStep::AddResults { row: _, pairs } => ClientOp::Add {
                at: self.spot(Word::Results),
                by: pairs,
            },
        }
    }
}
