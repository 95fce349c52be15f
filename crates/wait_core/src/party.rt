//! The client of a table: its words, its steps and its law.
ghost use Rattle.std.specs.Prelude.{◌≡◌, ℕ, suc, ◌<◌, List, ◌∷◌, [], ◌++◌, Some, slice_set, slice_index};
ghost use Rattle.wait_core.specs.declared.view.PartyView.{PartyView};
ghost use Rattle.wait_core.specs.declared.party.ClientOp.{ClientOp};
ghost use Rattle.wait_core.specs.Ops.{op_at, op_gives, op_writes};
ghost use Rattle.wait_core.specs.Meanings.{Meanings};
ghost use Rattle.wait_core.specs.Parties.{now, with_client, newcomer, joined, left_over, elected, IsStep, IsDraw, IsJoin, IsEnter, IsNotice, IsElection, IsPass, IsLeave};

/// One operation on one of the client's words.
#[derive(Debug, Clone, Copy, PartialEq, Eq)]
pub enum ClientOp {
    Load { at: u32 },
    Store { at: u32, value: u64 },
    Add { at: u32, by: u64 },
    Or { at: u32, bits: u64 },
    Change { at: u32, from: u64, to: u64 },
}

impl ClientOp {
    pub(crate) fn at(self) -> u32
        ensures { result ≡ op_at self }
    {
        match self {
            ClientOp::Load { at }
            | ClientOp::Store { at, value: _ }
            | ClientOp::Add { at, by: _ }
            | ClientOp::Or { at, bits: _ }
            | ClientOp::Change { at, from: _, to: _ } => at,
        }
    }

    // Whether it writes the word, where the word before it is `found`.
    pub(crate) fn writes(self, found: u64) -> bool
        ensures { result ≡ op_writes self found }
    {
        match self {
            ClientOp::Load { at: _ } => false,
            ClientOp::Change { at: _, from, to: _ } => found == from,
            _ => true,
        }
    }
}

/// The user of a table's barriers. Its steps change its own words alone, and its law `holds`
/// in each state. A value of type `View` stands in contracts alone.
pub trait Party: Sync {
    type Step: Copy;

    type View;

    ghost word_count: { Self → ℕ };

    ghost opens: { Self → ℕ → ℕ };

    ghost does: { Self → Self.Step → ClientOp };

    // The client view that seat 0 and each seat drawn have.
    ghost first: { Self → Self.View };

    // The client view of a seat after a join, from the two before it.
    ghost both: { Self.View → Self.View → Self.View };

    // The client view of a seat that was joined into another.
    ghost spent: { Self.View };

    // The view may make the step.
    ghost may: { Self → PartyView Self.View → Self.Step → Type 0 };

    // The client view after a step and the word that it found.
    ghost after: { Self → PartyView Self.View → Self.Step → ℕ → Self.View };

    // Its law, and what its barriers ask of it.
    ghost means: { Self → Meanings Self.View };

    /// How many words it has.
    fn words(&self) -> u32
        ensures { result ≡ word_count self.now };

    /// The opening value of each.
    fn opening(&self, at: u32) -> u64
        requires { at < word_count self.now }
        ensures { result ≡ opens self.now at };

    /// The operation that a step makes.
    fn op(&self, step: Self::Step) -> ClientOp
        ensures { result ≡ does self.now step };

    // An allowed step names a word of the client's, and keeps its law.
    ghost step_inside: { (p : Self) (v : PartyView Self.View) (step : Self.Step) → may p v step → op_at (does p step) < word_count p };

    ghost step_keeps: { (p : Self) (words : List ℕ) (views : List (PartyView Self.View)) (phases : List ℕ) (id : ℕ) (v : PartyView Self.View) (step : Self.Step) → (means p).holds words views phases → IsStep views phases id v → may p v step → let n = slice_index words (op_at (does p step)) in (means p).holds (slice_set words (op_at (does p step)) (op_gives (does p step) n)) (slice_set views id (with_client v (after p v step n))) phases };

    // A seat that is drawn keeps it, and one that is joined into another.
    ghost draw_keeps: { (p : Self) (words : List ℕ) (views : List (PartyView Self.View)) (phases : List ℕ) (proc : ℕ) → (means p).holds words views phases → IsDraw views phases proc → (means p).holds words (views ++ newcomer (first p) (Some proc) ∷ []) phases };

    ghost join_keeps: { (p : Self) (words : List ℕ) (views : List (PartyView Self.View)) (phases : List ℕ) (id other : ℕ) (v w : PartyView Self.View) → (means p).holds words views phases → IsJoin views phases id v other w → (means p).holds words (slice_set (slice_set views id (joined both v w)) other (left_over spent)) phases };

    // A seat that attaches keeps it, one that finds that its phase has passed, and one that gains an election.
    ghost enter_keeps: { (p : Self) (words : List ℕ) (views : List (PartyView Self.View)) (phases : List ℕ) (id : ℕ) (v w : PartyView Self.View) (bar : ℕ) → (means p).holds words views phases → IsEnter views phases id v w bar → (means p).enters v bar → (means p).holds words (slice_set views id w) phases };

    ghost notice_keeps: { (p : Self) (words : List ℕ) (views : List (PartyView Self.View)) (phases : List ℕ) (id : ℕ) (v w : PartyView Self.View) (bar ph : ℕ) → (means p).holds words views phases → IsNotice views phases id v w bar ph → (means p).quiet v bar ph → (means p).holds words (slice_set views id w) phases };

    ghost elect_keeps: { (p : Self) (words : List ℕ) (views : List (PartyView Self.View)) (phases : List ℕ) (id : ℕ) (v : PartyView Self.View) (bar ph : ℕ) → (means p).holds words views phases → IsElection views phases id v bar ph → (means p).holds words (slice_set views id (elected v bar ph)) phases };

    // A phase that passes, while each seat that is attached is quiet in it.
    ghost pass_keeps: { (p : Self) (words : List ℕ) (views : List (PartyView Self.View)) (phases : List ℕ) (bar id : ℕ) (v : PartyView Self.View) → (means p).holds words views phases → IsPass ((means p).quiet) views phases bar id v → (means p).passes bar (now phases bar) → (means p).holds words views (slice_set phases bar (suc (now phases bar))) };

    // A quiet seat that detaches.
    ghost leave_keeps: { (p : Self) (words : List ℕ) (views : List (PartyView Self.View)) (phases : List ℕ) (id : ℕ) (v w : PartyView Self.View) (bar ph : ℕ) → (means p).holds words views phases → IsLeave ((means p).stays) views phases id v w bar ph → (means p).quiet v bar ph → (means p).holds words (slice_set views id w) phases };
}

/// A client with no word, whose law always holds.
#[derive(Debug, Drop)]
pub struct NoParty;

impl Party for NoParty {
    type Step = ();

    type View = ();

    ghost use Rattle.std.specs.Prelude.{⊤};
    ghost use Rattle.wait_core.specs.declared.party.ClientOp.TheVariants.{Load};

    ghost word_count = { λ _. 0 };

    ghost opens = { λ _ _. 0 };

    ghost does = { λ _ _. Load 0 };

    ghost first = { λ _. tt };

    ghost both = { λ _ _. tt };

    ghost spent = { tt };

    ghost may = { λ _ _ _. ⊥ };

    ghost after = { λ _ _ _ _. tt };

    ghost means = { λ _. record { holds = λ _ _ _. ⊤; quiet = λ _ _ _. ⊤; passes = λ _ _. ⊤; enters = λ _ _. ⊤; stays = λ _ _. ⊥ } };

    ghost step_inside = { λ p v step h. absurd h };

    ghost step_keeps = { λ p words views phases id v step h at may. absurd may };

    ghost draw_keeps = { λ _ _ _ _ _ _ _. tt };

    ghost join_keeps = { λ _ _ _ _ _ _ _ _ _ _. tt };

    ghost enter_keeps = { λ _ _ _ _ _ _ _ _ _ _ _. tt };

    ghost notice_keeps = { λ _ _ _ _ _ _ _ _ _ _ _ _. tt };

    ghost elect_keeps = { λ _ _ _ _ _ _ _ _ _ _. tt };

    ghost pass_keeps = { λ _ _ _ _ _ _ _ _ _ _. tt };

    ghost leave_keeps = { λ _ _ _ _ _ _ _ _ _ _ _ _. tt };

    fn words(&self) -> u32 {
        0
    }

    // With the trait's condition no call of it could be made.
    fn opening(&self, _at: u32) -> u64
        ensures { result ≡ 0 }
    {
        0
    }

    fn op(&self, _step: ()) -> ClientOp {
        ClientOp::Load { at: 0 }
    }
}
