//! A script on the machine of signals.
ghost use Rattle.std.specs.Prelude.{◌≡◌, ◌≤◌, ◌<◌, ℕ, ◌+◌, ◌-◌, ◌++◌, ◌^◌, ◌⊎◌, ◌==◌, cond, map, Some, IfOk, OnOk};
ghost use Rattle.std.specs.List.{range_with_len};
ghost use Rattle.signal_core.specs.Words.{opened, worn};
ghost use Rattle.signal_script.specs.SignalScripts.{first_words};
ghost use Rattle.signal_core.specs.declared.step.SigStep.TheVariants.{Hadd};
ghost use Rattle.script_play.specs.Play.{ComesTo, step_limit};
ghost use Rattle.signal_script.specs.SignalSketch.{HeaderFits, PlaceFits, backend_at, begins, idle, opening_sketch, turn, went};

use crate::calls::{ask_of, may_begin};
use crate::places::{becomes, emitted_after, place_after, slot_after};
use crate::steps::step_at;
use crate::texts::{opened, push_changed, push_turn};
use proc_table::ProcNo;
use script_play::{Machine, push};
use signal_core::{About, Frame, SigStep, Slot};
use std::alloc::{AllocError, Global};
use std::marker::Model;

/// A call of a script on signals.
#[derive(Clone, Copy)]
pub(crate) enum Ask {
    /// Joins the own slot.
    Join,
    /// Leaves it.
    Leave,
    /// Emits a kind to every slot.
    Emit(u32),
    /// Absorbs what was emitted to the own slot; the kinds of a mask fail.
    Absorb(u64),
}

/// What a replay keeps of a backend: the call that it is in, its place, its slot, and the number of
/// its last emission.
#[derive(Clone, Copy)]
pub(crate) struct Backend {
    pub(crate) ask: Option<Ask>,
    pub(crate) place: Option<Frame>,
    pub(crate) slot: Option<Slot>,
    pub(crate) emitted: u64,
}

/// The words and the backends of a machine of signals.
#[derive(Drop)]
pub struct Signals {
    about: About,
    words: Vec<u64>,
    backends: Vec<Backend>,
}

impl Model for Signals {
    ghost use Rattle.signal_script.specs.SignalSketch.{Sketch, Fits};

    ghost Value = { Sketch };

    ghost view = { λ s. record { about = s.about; words = s.words.items; backends = s.backends.items } };

    ghost invariant = { λ s. Fits record { about = s.about; words = s.words.items; backends = s.backends.items } };
}

// A backend after a step.
fn went(about: About, step: &SigStep, found: u64, backend: Backend) -> Backend
    requires place { PlaceFits about.procs backend.place × (about.procs ≤ 64) }
    requires room { found < 2 ^ 64 - 1 ⊎ (step.now ≡ Hadd → ⊥) }
    ensures { result ≡ went about step.now found backend }
{
    let place = place_after(about, step, found, backend.place);
    Backend {
        ask: if place.is_some() { backend.ask } else { None },
        place,
        slot: slot_after(step, backend.place, backend.slot),
        emitted: emitted_after(step, backend.place, found, backend.emitted),
    }
}

// The word at a script's opening: all backends are drawn.
fn first_word(about: About, word: usize) -> u64
    ensures { result ≡ cond (word == 0) about.procs (opened about word) }
{
    if word == 0 {
        u64::from(about.procs)
    } else {
        opened(about, word)
    }
}

fn first_words(alloc: Global, about: About) -> Result<Vec<u64>, AllocError>
    requires { about.procs ≤ 64 }
    ensures { IfOk result (λ v. v.items ≡ first_words about) }
{
    let mut words = Vec::new(alloc);
    'words: for word in 0..4 * about.procs as usize + 2 {
        words.push(first_word(about, word))?;
    }
    Ok(words)
}

fn first_backends(alloc: Global, procs: u32) -> Result<Vec<Backend>, AllocError>
    ensures { IfOk result (λ v. v.items ≡ map (λ _. idle) (range_with_len 0 procs)) }
{
    let mut backends = Vec::new(alloc);
    'backends: for backend in 0..procs {
        backends.push(Backend {
            ask: None,
            place: None,
            slot: None,
            emitted: 0,
        })?;
    }
    Ok(backends)
}

impl Signals {
    /// A machine whose backends are all drawn, and in no call.
    pub fn new(alloc: Global, about: About) -> Result<Signals, AllocError>
        requires procs { (0 < about.procs) × (about.procs ≤ 64) }
        requires generation { about.generation ≤ worn }
        ensures opening { IfOk result (λ s. s ≡ opening_sketch about) }
        ensures header { IfOk result (λ s. HeaderFits s 0) }
    {
        Ok(Signals {
            about,
            words: first_words(alloc, about)?,
            backends: first_backends(alloc, about.procs)?,
        })
    }

    // Begins a call of a backend, where the text is one and it is enabled.
    fn begin_call(&mut self, proc: u64, call: &[u8]) -> bool
        ensures begun { ComesTo (begins self.old proc call.now) result self.new }
        ensures header { (n : ℕ) → HeaderFits self.old n → HeaderFits self.new n }
    {
        if proc >= u64::from(self.about.procs) {
            return false;
        }
        let backend = self.backends[proc as usize];
        let Some(ask) = ask_of(call) else {
            return false;
        };
        if backend.ask.is_some() || !may_begin(ask, backend.slot) {
            return false;
        }
        self.backends[proc as usize] = Backend {
            ask: Some(ask),
            ..backend
        };
        true
    }

    // A backend that is in a call makes its next step, and prints it.
    fn turn(
        &mut self,
        made: u64,
        own: ProcNo,
        ask: Ask,
        out: &mut Vec<u8>,
    ) -> Result<(), AllocError>
        requires own { own < self.old.about.procs }
        requires ask { (backend_at self.old own).ask ≡ Some ask }
        requires header { HeaderFits self.old made }
        requires few { made < step_limit }
        ensures turned { OnOk result (self.new ≡ (turn self.old own (backend_at self.old own) ask).0) }
        ensures text { OnOk result (out.new.items ≡ out.old.items ++ (turn self.old own (backend_at self.old own) ask).1) }
        ensures header { OnOk result (HeaderFits self.new (made + 1)) }
    {
        let backend = self.backends[own.number() as usize];
        let step = step_at(self.about.procs, own, ask, backend.place);
        let word = step.word(own);
        let found = self.words[word];
        let left = becomes(&step, found);
        let next = went(self.about, &step, found, backend);
        self.words[word] = left;
        self.backends[own.number() as usize] = next;
        push_turn(out, own, ask, &step, word, found, left, backend, next)
    }
}

impl Machine for Signals {
    ghost use Rattle.script_play.specs.Play.{silent};
    ghost use Rattle.signal_script.specs.SignalSketch.{begins, steps, ends};

    ghost begins = { silent begins };

    ghost steps = { steps };

    ghost ends = { ends };

    ghost holds = { HeaderFits };

    fn begin(&mut self, proc: u64, call: &[u8], _out: &mut Vec<u8>) -> Result<bool, AllocError> {
        Ok(self.begin_call(proc, call))
    }

    fn step(&mut self, made: u64, proc: u64, out: &mut Vec<u8>) -> Result<bool, AllocError> {
        if proc >= u64::from(self.about.procs) {
            return Ok(false);
        }
        let Some(ask) = self.backends[proc as usize].ask else {
            return Ok(false);
        };
        let Some(own) = ProcNo::new(proc as u32) else {
            return Ok(false);
        };
        self.turn(made, own, ask, out)?;
        Ok(true)
    }

    fn end(&self, out: &mut Vec<u8>) -> Result<(), AllocError> {
        push(out, "final\n")?;
        push_changed(out, self.about, self.words.as_slice())
    }
}
