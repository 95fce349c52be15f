//! A client of two words: each seat adds 1 to the first and then 1 to the second.
#![tactic(auto)]

ghost use Rattle.std.specs.Prelude.{◌≡◌, ℕ};
ghost use Rattle.two_words.specs.declared.Turn.{Turn};
ghost use Rattle.two_words.specs.declared.Progress.{Progress};

mod runs;
#[cfg(test)]
mod tests;

pub use runs::{half_turn, take_turn, two_turns};
use wait_core::{ClientOp, Party};

/// What a seat has done. A seat that took in others has done what they did. No value of it is made.
pub struct Progress {
    /// The turns that are still to be taken.
    pub left: u64,
    /// The turns in between: the first word has them, and the second does not.
    pub between: u64,
    pub done: u64,
}

#[derive(Clone, Copy)]
pub enum Turn {
    First,
    Second,
}

#[derive(Drop)]
pub struct TwoWords;

impl Party for TwoWords {
    type Step = Turn;

    type View = Progress;

    ghost use Rattle.std.specs.Prelude.{⊤};
    ghost use Rattle.two_words.specs.Balance.{turn_op, progress, added, may_turn, turned, Balanced};
    ghost use Rattle.two_words.specs.Laws.{turn_inside, turn_keeps, draw_keeps_balance, join_keeps_balance, same_balance};

    ghost word_count = { λ _. 2 };

    ghost opens = { λ _ _. 0 };

    ghost does = { λ _. turn_op };

    ghost first = { λ _. progress 1 0 0 };

    ghost both = { added };

    ghost spent = { progress 0 0 0 };

    ghost may = { λ _ v t. may_turn v.client t };

    ghost after = { λ _ v t n. turned v.client t };

    // It takes no part in barriers: nobody attaches, and no phase passes. Its law doesn't see who is attached.
    ghost means = { λ _. record { holds = λ words views phases. Balanced words views; quiet = λ _ _ _. ⊤; passes = λ _ _. ⊥; enters = λ _ _. ⊥; stays = λ _ _. ⊥ } };

    ghost step_inside = { λ p v t h. turn_inside t };

    ghost step_keeps = { λ p words views phases id v t. turn_keeps words views phases id v t };

    ghost draw_keeps = { λ p words views phases proc b d. draw_keeps_balance words views proc b };

    ghost join_keeps = { λ p words views phases id other v w. join_keeps_balance words views phases id other v w };

    ghost enter_keeps = { λ p words views phases id v w bar b s enters. absurd enters };

    ghost notice_keeps = { λ p words views phases id v w bar ph b s quiet. same_balance words views id v w b s.at s.after.client };

    ghost elect_keeps = { λ p words views phases id v bar ph b s. same_balance words views id v _ b s.at (λ i. v.client) };

    ghost pass_keeps = { λ p words views phases bar id v b s passes. absurd passes };

    ghost leave_keeps = { λ p words views phases id v w bar ph b s quiet. same_balance words views id v w b s.at s.after.client };

    fn words(&self) -> u32 {
        2
    }

    fn opening(&self, _at: u32) -> u64 {
        0
    }

    fn op(&self, step: Turn) -> ClientOp {
        match step {
            Turn::First => ClientOp::Add { at: 0, by: 1 },
            Turn::Second => ClientOp::Add { at: 1, by: 1 },
        }
    }
}
