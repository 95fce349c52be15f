//! What a script asks of a machine.

use std::alloc::AllocError;

/// A machine on which a script is played.
pub trait Machine {
    ghost use Rattle.std.specs.Prelude.{◌≡◌, ◌<◌, ◌+◌, ◌++◌, ℕ, List, Option, IfOk, OnOk};
    ghost use Rattle.script_play.specs.Play.{Prints, step_limit};

    /// How a backend begins the call that a text names, and what that prints.
    ghost begins: { Self → ℕ → List ℕ → Option (Self × List ℕ) };

    /// How a backend makes its next step, and what that prints.
    ghost steps: { Self → ℕ → Option (Self × List ℕ) };

    /// What is printed at the end.
    ghost ends: { Self → List ℕ };

    /// What holds after so many steps.
    ghost holds: { Self → ℕ → Type 0 };

    /// Begins a call of a backend, where the text is one and it is enabled. One that has no step ends
    /// here, and its answer is printed.
    fn begin(&mut self, proc: u64, call: &[u8], out: &mut Vec<u8>) -> Result<bool, AllocError>
        ensures begun { IfOk result (λ moved. Prints (begins self.old proc call.now) moved self.new out.old.items out.new.items) }
        ensures holds { OnOk result ((n : ℕ) → holds self.old n → holds self.new n) };

    /// Makes the next step of a backend, where it is in a call, and prints it.
    fn step(&mut self, made: u64, proc: u64, out: &mut Vec<u8>) -> Result<bool, AllocError>
        requires holds { holds self.old made }
        requires few { made < step_limit }
        ensures moved { IfOk result (λ moved. Prints (steps self.old proc) moved self.new out.old.items out.new.items) }
        ensures holds { OnOk result (holds self.new (made + 1)) };

    /// Prints what stands at the end.
    fn end(&self, out: &mut Vec<u8>) -> Result<(), AllocError>
        ensures { OnOk result (out.new.items ≡ out.old.items ++ ends self.now) };
}
