//! A client of one barrier: in phase 0 each seat that is attached adds 1 to both of two words, one
//! after the other, and past that phase they are equal.
#![tactic(auto)]

ghost use Rattle.std.specs.Prelude.{◌≡◌, ℕ};
ghost use Rattle.equal_words.specs.declared.Move.{Move};
ghost use Rattle.equal_words.specs.declared.Progress.{Progress};

mod runs;
#[cfg(test)]
mod tests;

pub use runs::{Reading, add_both, arrive_and_read, read_both, take_part, the_barrier};
use wait_core::{ClientOp, Party};

/// What a seat has done. No value of it is made.
pub enum Progress {
    /// It has added to neither word.
    Fresh,
    /// To the first, and not yet to the second.
    Between,
    /// To both.
    Done,
    /// Past phase 0 it has read this in a word.
    Read(u64),
}

#[derive(Clone, Copy)]
pub enum Move {
    AddFirst,
    AddSecond,
    LookFirst,
    LookSecond,
}

#[derive(Drop)]
pub struct EqualWords;

impl Party for EqualWords {
    type Step = Move;

    type View = Progress;

    ghost use Rattle.equal_words.specs.declared.Progress.TheVariants.{Fresh, Done};
    ghost use Rattle.equal_words.specs.Turns.{move_op, MayMove, moved, meanings};
    ghost use Rattle.equal_words.specs.Laws.{move_inside, move_keeps, draw_keeps_law, join_keeps_law, enter_keeps_law, notice_keeps_law, elect_keeps_law, pass_keeps_law, leave_keeps_law};

    ghost word_count = { λ _. 2 };

    ghost opens = { λ _ _. 0 };

    ghost does = { λ _. move_op };

    ghost first = { λ _. Fresh };

    ghost both = { λ mine others. mine };

    // Who was joined into another has nothing left to add.
    ghost spent = { Done };

    ghost may = { λ _. MayMove };

    ghost after = { λ _ v m n. moved m n };

    ghost means = { λ _. meanings };

    ghost step_inside = { λ p v m may. move_inside m };

    ghost step_keeps = { λ p. move_keeps };

    ghost draw_keeps = { λ p words views phases proc b s. draw_keeps_law words views phases proc b };

    ghost join_keeps = { λ p. join_keeps_law };

    ghost enter_keeps = { λ p words views phases id v w bar b s enters. enter_keeps_law words views phases id v w bar b s };

    ghost notice_keeps = { λ p words views phases id v w bar ph b s quiet. notice_keeps_law words views phases id v w bar ph b s };

    ghost elect_keeps = { λ p. elect_keeps_law };

    ghost pass_keeps = { λ p. pass_keeps_law };

    ghost leave_keeps = { λ p. leave_keeps_law (λ _ _. ⊥) };

    fn words(&self) -> u32 {
        2
    }

    fn opening(&self, _at: u32) -> u64 {
        0
    }

    fn op(&self, step: Move) -> ClientOp {
        match step {
            Move::AddFirst => ClientOp::Add { at: 0, by: 1 },
            Move::AddSecond => ClientOp::Add { at: 1, by: 1 },
            Move::LookFirst => ClientOp::Load { at: 0 },
            Move::LookSecond => ClientOp::Load { at: 1 },
        }
    }
}
