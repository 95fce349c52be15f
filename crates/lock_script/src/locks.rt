//! A script on the machine of locks.
ghost use Rattle.std.specs.Prelude.{◌≡◌, ◌≤◌, ◌<◌, ℕ, ◌+◌, ◌++◌, ◌==◌, ◌||◌, ◌^◌, cond, map, All, Bool, None, Some, List, IfOk, OnOk};
ghost use Rattle.std.specs.List.{range_with_len};
ghost use Rattle.lw_core.specs.declared.view.Waiter.{Waiter};
ghost use Rattle.lw_core.specs.WaitLists.{AllBelow};
ghost use Rattle.lw_core.specs.Machine.{becomes, word_of};
ghost use Rattle.lw_core.specs.Sending.{modes_then, pokes_by};
ghost use Rattle.script_play.specs.Play.{ComesTo, step_limit};
ghost use Rattle.lock_script.specs.Locks.{ask_lock, call_lock, heard_after, mode_held, opened, step_at, still};
ghost use Rattle.lock_script.specs.LockScripts.{first_homes, first_words, home_after};
ghost use Rattle.lock_script.specs.LockSketch.{AskFits, BackendFits, Counts, SizeFits, SpotFits, StepFits, begins, frames, idle, mode_at, no_modes, opening_sketch, stand_at, stand_of, started, surplus_after, turn, waited_after, went};

use crate::calls::{ask_of, may_begin};
use crate::places::Turn;
use crate::spots::Spot;
use crate::steps::step_at;
use crate::texts::{Ending, opened, push_changed, push_lists, push_turn};
use crate::words::{becomes, is_free, lock_number, word_of};
use lw_core::{Call, LwStep, Size, Waiter};
use proc_table::{LockNo, Mode, ProcNo};
use script_play::{Machine, push};
use std::alloc::{AllocError, Global};
use std::marker::Model;
use std::mem;

/// A call of a script on locks.
#[derive(Clone, Copy)]
pub(crate) enum Ask {
    /// One of the machine's calls.
    Begin(Call),
    /// Reads a guarded word.
    Read(LockNo, u32),
    /// Writes one.
    Write(LockNo, u32, u64),
}

/// What a call heard last that its answer may tell.
#[derive(Clone, Copy)]
pub(crate) enum Heard {
    Nothing,
    /// An attempt was refused by this state word.
    Refused(u64),
    /// This state word has no exclusive holder.
    Free(u64),
    /// The variable is this.
    Changed(u64),
}

/// What a replay keeps of a backend: the call that it is in, its place, the modes in which it holds
/// locks, the wakes that it has to give back, its pokes, whether its call slept, and what that heard
/// last.
#[derive(Drop)]
pub(crate) struct Backend {
    pub(crate) ask: Option<Ask>,
    pub(crate) spot: Spot,
    pub(crate) modes: [Option<Mode>; 200],
    pub(crate) surplus: u64,
    pub(crate) pokes: u64,
    pub(crate) waited: bool,
    pub(crate) heard: Heard,
}

impl Backend {
    // Begins a call, where it is in none and the call's condition holds.
    fn begin(&mut self, size: Size, ask: Ask) -> bool
        requires fits { BackendFits size self.old × AskFits size ask }
        ensures begun { ComesTo (started (stand_of self.old) self.old.ask ask) result (stand_of self.new) }
        ensures fits { BackendFits size self.new }
        ensures surplus { self.new.surplus ≡ self.old.surplus }
        ensures pokes { self.new.pokes ≡ self.old.pokes }
    {
        if self.ask.is_some() {
            return false;
        }
        let mode = self.modes[ask_lock(&ask).number() as usize];
        if !may_begin(&ask, mode, self.pokes) {
            return false;
        }
        self.ask = Some(ask);
        self.waited = false;
        self.heard = Heard::Nothing;
        true
    }
}

/// The words, the lists at home and the backends of a machine of locks.
#[derive(Drop)]
pub struct Locks {
    alloc: Global,
    size: Size,
    words: Vec<u64>,
    homes: Vec<Vec<Waiter>>,
    backends: Vec<Backend>,
}

impl Model for Locks {
    ghost use Rattle.std.specs.Prelude.{map};
    ghost use Rattle.lock_script.specs.LockSketch.{Fits, Sketch, stand_of};

    ghost Value = { Sketch };

    ghost view = { λ s. record { size = s.size; words = s.words.items; homes = map (λ h. h.items) s.homes.items; stands = map stand_of s.backends.items } };

    ghost invariant = { λ s. Fits s.size s.words.items (map (λ h. h.items) s.homes.items) s.backends.items };
}

fn idle(size: Size) -> Backend
    ensures stand { stand_of result ≡ idle }
    ensures fits { BackendFits size result }
{
    Backend {
        ask: None,
        spot: Spot::Idle,
        modes: [None; 200],
        surplus: 0,
        pokes: 0,
        waited: false,
        heard: Heard::Nothing,
    }
}

fn first_words(alloc: Global, size: Size) -> Result<Vec<u64>, AllocError>
    requires { SizeFits size }
    ensures { IfOk result (λ v. v.items ≡ first_words size) }
{
    let mut words = Vec::new(alloc);
    'words: for word in 0..1 + 6 * size.locks as usize + 2 * size.procs as usize {
        words.push(first_word(size, word))?;
    }
    Ok(words)
}

// The word at a script's opening: all backends are drawn.
fn first_word(size: Size, word: usize) -> u64
    requires { SizeFits size }
    ensures { result ≡ cond (word == 0) size.procs (opened size word) }
{
    if word == 0 {
        u64::from(size.procs)
    } else {
        opened(size, word)
    }
}

fn first_homes(alloc: Global, size: Size) -> Result<Vec<Vec<Waiter>>, AllocError>
    ensures { IfOk result (λ v. map (λ h. h.items) v.items ≡ first_homes size) }
{
    let mut homes = Vec::new(alloc);
    'locks: for lock in 0..size.locks {
        homes.push(Vec::new(alloc))?;
    }
    Ok(homes)
}

fn first_backends(alloc: Global, size: Size) -> Result<Vec<Backend>, AllocError>
    ensures stands { IfOk result (λ v. map stand_of v.items ≡ map (λ _. idle) (range_with_len 0 size.procs)) }
    ensures fits { IfOk result (λ v. All (BackendFits size) v.items) }
{
    let mut backends = Vec::new(alloc);
    'backends: for backend in 0..size.procs {
        backends.push(idle(size))?;
    }
    Ok(backends)
}

fn zero() -> LockNo
    ensures { result ≡ 0 }
{
    match LockNo::new(0) {
        Some(lock) => lock,
        None => unreachable!(),
    }
}

fn call_lock(call: &Call) -> LockNo
    ensures { result ≡ call_lock call.now }
{
    match *call {
        Call::Try(lock, _) => lock,
        Call::Acquire(lock, _) => lock,
        Call::AcquireOrWait(lock, _) => lock,
        Call::Release(lock) => lock,
        Call::WaitForVar(lock, _) => lock,
        Call::UpdateVar(lock, _) => lock,
        Call::ReleaseClearVar(lock, _) => lock,
        Call::Down => zero(),
        Call::Poke(_) => zero(),
    }
}

// The lock of a call, or 0.
fn ask_lock(ask: &Ask) -> LockNo
    ensures { result ≡ ask_lock ask.now }
{
    match ask {
        Ask::Begin(call) => call_lock(call),
        Ask::Read(lock, _) => *lock,
        Ask::Write(lock, _, _) => *lock,
    }
}

// The mode in which a lock is held, Shared where it isn't.
fn mode_held(mode: Option<Mode>) -> Mode
    ensures { result ≡ mode_held mode }
{
    match mode {
        Some(mode) => mode,
        None => Mode::Shared,
    }
}

fn heard_after(step: &LwStep, found: u64, heard: Heard) -> Heard
    ensures { result ≡ heard_after step.now found heard }
{
    match *step {
        LwStep::Refuse(_, _, from) if found == from => Heard::Refused(found),
        LwStep::Peek(..) if is_free(Mode::Shared, found) => Heard::Free(found),
        LwStep::VarLoad(_) => Heard::Changed(found),
        _ => heard,
    }
}

fn surplus_after(turn: &Turn, spot: &Spot) -> u64
    requires { turn.now.surplus < 2 ^ 32 }
    ensures little { result ≤ turn.now.surplus + 1 }
    ensures surplus { result ≡ surplus_after (step_at turn.now.own turn.now.ask turn.now.mode (frames spot.now)) turn.now.found turn.now.surplus (frames spot.now) }
{
    match spot {
        Spot::Sleeping(..) => turn.surplus + u64::from(turn.found != 0),
        Spot::GivingBack => turn.surplus.saturating_sub(1),
        _ => turn.surplus,
    }
}

fn keep_mode(modes: &mut [Option<Mode>; 200], step: &LwStep, found: u64)
    ensures { modes.new ≡ modes_then step.now found modes.old }
{
    match *step {
        LwStep::Grant(lock, mode, from) => {
            if found == from {
                modes[lock.number() as usize] = Some(mode);
            }
        }
        LwStep::Sub(lock, _, _) => modes[lock.number() as usize] = None,
        _ => {}
    }
}

fn pokes_by(step: &LwStep) -> u64
    ensures little { result ≤ 1 }
    ensures pokes { result ≡ pokes_by step.now }
{
    match *step {
        LwStep::Post(_, Some(Call::Poke(_))) => 1,
        _ => 0,
    }
}

// Whether the sleep of an acquire ends with the step at this place.
fn wakes(turn: &Turn, spot: &Spot) -> bool
    ensures { (waited : Bool) → (result || waited) ≡ waited_after (step_at turn.now.own turn.now.ask turn.now.mode (frames spot.now)) turn.now.found (frames spot.now) waited }
{
    matches!(spot, Spot::Woken(..))
}

// The call, unless it has ended.
fn still(spot: &Spot, ask: &Ask) -> Option<Ask>
    ensures { result ≡ still (frames spot.now) (Some ask.now) }
{
    match spot {
        Spot::Idle => None,
        _ => Some(*ask),
    }
}

// A backend makes a step.
fn went(
    alloc: Global,
    turn: &Turn,
    step: &LwStep,
    home: &mut Vec<Waiter>,
    backend: &mut Backend,
) -> Result<(), AllocError>
    requires own { turn.now.own < turn.now.size.procs }
    requires ask { (backend.old.ask ≡ Some turn.now.ask) × AskFits turn.now.size turn.now.ask }
    requires spot { SpotFits turn.now.size backend.old.spot }
    requires step { step.now ≡ step_at turn.now.own turn.now.ask turn.now.mode (frames backend.old.spot) }
    requires surplus { (turn.now.surplus ≡ backend.old.surplus) × (backend.old.surplus < 2 ^ 32) × (backend.old.pokes < 2 ^ 32) }
    requires home { AllBelow turn.now.size.procs home.old.items }
    ensures stand { OnOk result (stand_of backend.new ≡ went step.now turn.now.found home.old.items (stand_of backend.old)) }
    ensures home { OnOk result (home.new.items ≡ home_after step.now turn.now.found (frames backend.old.spot) turn.now.own home.old.items) }
    ensures fits { BackendFits turn.now.size backend.new }
    ensures below { AllBelow turn.now.size.procs home.new.items }
    ensures little { (backend.new.surplus ≤ backend.old.surplus + 1) × (backend.new.pokes ≤ backend.old.pokes + 1) }
{
    keep_mode(&mut backend.modes, step, turn.found);
    backend.surplus = surplus_after(turn, &backend.spot);
    backend.pokes += pokes_by(step);
    backend.waited = wakes(turn, &backend.spot) || backend.waited;
    backend.heard = heard_after(step, turn.found, backend.heard);
    let spot = mem::replace(&mut backend.spot, Spot::Idle);
    backend.spot = turn.advance(alloc, home, spot)?;
    backend.ask = still(&backend.spot, &turn.ask);
    Ok(())
}

impl Locks {
    /// A machine whose backends are all drawn, and in no call.
    pub fn new(alloc: Global, size: Size) -> Result<Locks, AllocError>
        requires { SizeFits size }
        ensures opening { IfOk result (λ s. s ≡ opening_sketch size) }
        ensures counts { IfOk result (λ s. Counts s 0) }
    {
        Ok(Locks {
            alloc,
            size,
            words: first_words(alloc, size)?,
            homes: first_homes(alloc, size)?,
            backends: first_backends(alloc, size)?,
        })
    }

    // Begins a call of a backend, where the text is one and it is enabled.
    fn begin_call(&mut self, proc: u64, call: &[u8]) -> bool
        ensures begun { ComesTo (begins self.old proc call.now) result self.new }
        ensures counts { (n : ℕ) → Counts self.old n → Counts self.new n }
    {
        if proc >= u64::from(self.size.procs) {
            return false;
        }
        let Some(ask) = ask_of(self.size, call) else {
            return false;
        };
        self.backends[proc as usize].begin(self.size, ask)
    }

    // A backend that is in a call makes its next step, and prints it.
    fn turn(
        &mut self,
        made: u64,
        own: ProcNo,
        ask: Ask,
        out: &mut Vec<u8>,
    ) -> Result<(), AllocError>
        requires own { own < self.old.size.procs }
        requires ask { (stand_at self.old own).ask ≡ Some ask }
        requires counts { Counts self.old made }
        requires few { made < step_limit }
        ensures turned { OnOk result (self.new ≡ (turn self.old own (stand_at self.old own) ask).0) }
        ensures text { OnOk result (out.new.items ≡ out.old.items ++ (turn self.old own (stand_at self.old own) ask).1) }
        ensures counts { OnOk result (Counts self.new (made + 1)) }
    {
        let size = self.size;
        let lock = ask_lock(&ask).number() as usize;
        let backend = &mut self.backends[own.number() as usize];
        let mode = mode_held(backend.modes[lock]);
        let step = step_at(self.alloc, size, own, &ask, mode, &backend.spot)?;
        let word = word_of(size, own, &step);
        let found = self.words[word];
        let left = becomes(&step, found);
        let turn = Turn {
            size,
            own,
            ask,
            mode,
            found,
            surplus: backend.surplus,
        };
        let home = &mut self.homes[lock_number(&step)];
        went(self.alloc, &turn, &step, home, backend)?;
        self.words[word] = left;
        let ending = Ending {
            found,
            mode: backend.modes[lock],
            waited: backend.waited,
            heard: backend.heard,
        };
        push_turn(
            out,
            size,
            own,
            &ask,
            &step,
            word,
            left,
            ending,
            &backend.ask,
        )
    }
}

impl Machine for Locks {
    ghost use Rattle.script_play.specs.Play.{silent};
    ghost use Rattle.lock_script.specs.LockSketch.{begins, steps, ends, Counts};

    ghost begins = { silent begins };

    ghost steps = { steps };

    ghost ends = { ends };

    ghost holds = { Counts };

    fn begin(&mut self, proc: u64, call: &[u8], _out: &mut Vec<u8>) -> Result<bool, AllocError> {
        Ok(self.begin_call(proc, call))
    }

    fn step(&mut self, made: u64, proc: u64, out: &mut Vec<u8>) -> Result<bool, AllocError> {
        if proc >= u64::from(self.size.procs) {
            return Ok(false);
        }
        let Some(ask) = self.backends[proc as usize].ask else {
            return Ok(false);
        };
        let Some(own) = ProcNo::new(proc as u32) else {
            return Ok(false);
        };
        self.turn(made, own, ask, out)?;
        Ok(true)
    }

    fn end(&self, out: &mut Vec<u8>) -> Result<(), AllocError> {
        push(out, "final\n")?;
        push_changed(out, self.size, self.words.as_slice())?;
        push_lists(out, self.homes.as_slice())
    }
}
