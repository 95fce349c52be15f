//! A script on the machine of waits.
ghost use Rattle.std.specs.Prelude.{◌≡◌, ◌≤◌, ◌<◌, ℕ, ◌+◌, ◌++◌, ◌==◌, cond, map, All, Some, IfOk, OnOk};
ghost use Rattle.std.specs.List.{range_with_len};
ghost use Rattle.wait_core.specs.Lists.{AllBelow};
ghost use Rattle.wait_core.specs.Machine.{as_kept, attached_then, becomes, slot_number, word_of};
ghost use Rattle.script_play.specs.Play.{Prints, step_limit};
ghost use Rattle.wait_script.specs.Waits.{step_at, still, told_after};
ghost use Rattle.wait_script.specs.WaitScripts.{first_home, first_homes, first_words, home_after};
ghost use Rattle.wait_script.specs.WaitSketch.{BackendFits, CallFits, Counts, Near, OpeningFits, SizeFits, SpotFits, SpotNear, SpotRoom, begins, frames, frames_at, idle, kept_of, opening_sketch, stand_at, stand_of, started, turn, went};

use crate::calls::{ask_of, has_step, may_begin};
use crate::homes::{Home, attached_after, told_by};
use crate::places::Turn;
use crate::spots::{Point, Spot};
use crate::steps::step_at;
use crate::texts::{push_changed, push_homes, push_turn, push_unlisted};
use crate::words::{becomes, slot_number, target_then, word_of};
use proc_table::{CvNo, ProcNo};
use script_play::{Machine, push};
use std::alloc::{AllocError, Global};
use std::marker::Model;
use std::mem;
use wait_core::{Call, Record, Size, WaitStep};

/// What a script's first line opens: a table, and the phase of its barriers.
#[derive(Clone, Copy)]
pub struct Opening {
    pub size: Size,
    pub phase: u64,
}

/// What a call was told that its answer says.
#[derive(Clone, Copy)]
pub(crate) enum Told {
    Nothing,
    Shutdown,
    /// A cancel found the backend on the list, or didn't.
    WasListed(bool),
    Prepared,
    Signalled,
    /// A signal popped this backend, or nobody.
    Sent(u32),
    Nobody,
    /// The phase of the barrier to which the backend attached.
    Phase(u64),
    /// The barrier's phase is the last, which is never passed.
    Worn(u64),
    Elected,
    Released,
    /// The backend that leaves is the last, or isn't.
    Last,
    More,
}

/// What a replay keeps of a backend: its number, the call that it is in, its place, its target, its
/// attachments, each with a phase, and what its call was told.
#[derive(Drop)]
pub(crate) struct Backend {
    pub(crate) own: ProcNo,
    pub(crate) ask: Option<Call>,
    pub(crate) spot: Spot,
    pub(crate) target: Option<CvNo>,
    pub(crate) attached: Vec<(u32, u64)>,
    pub(crate) told: Told,
}

impl Backend {
    // Begins a call, where it is in none and the call's condition holds. One without a step ends at
    // once.
    fn begin(&mut self, size: Size, ask: Call, out: &mut Vec<u8>) -> Result<bool, AllocError>
        requires fits { BackendFits size self.old × CallFits size ask }
        ensures begun { IfOk result (λ moved. Prints (started (stand_of self.old) self.old.ask ask) moved (stand_of self.new) out.old.items out.new.items) }
        ensures fits { BackendFits size self.new }
        ensures spot { frames self.new.spot ≡ frames self.old.spot }
    {
        if self.ask.is_some() || !may_begin(&ask, self.attached.as_slice()) {
            return Ok(false);
        }
        if !has_step(&ask, self.target) {
            push_unlisted(out, self.own)?;
            return Ok(true);
        }
        self.ask = Some(ask);
        self.told = Told::Nothing;
        Ok(true)
    }
}

/// The words, what is at home and the backends of a machine of waits.
#[derive(Drop)]
pub struct Waits {
    alloc: Global,
    opening: Opening,
    words: Vec<u64>,
    homes: Vec<Home>,
    backends: Vec<Backend>,
}

impl Model for Waits {
    ghost use Rattle.std.specs.Prelude.{map};
    ghost use Rattle.wait_script.specs.WaitSketch.{Fits, Sketch, kept_of, stand_of};

    ghost Value = { Sketch };

    ghost view = { λ s. record { opening = s.opening; words = s.words.items; homes = map kept_of s.homes.items; stands = map stand_of s.backends.items } };

    ghost invariant = { λ s. Fits s.opening s.words.items (map kept_of s.homes.items) s.backends.items };
}

fn idle_backend(alloc: Global, size: Size, own: u32) -> Backend
    requires own { (own < size.procs) × SizeFits size }
    ensures stand { stand_of result ≡ idle own }
    ensures fits { BackendFits size result }
{
    let Some(own) = ProcNo::new(own) else {
        unreachable!()
    };
    Backend {
        own,
        ask: None,
        spot: Spot::At(Point::Idle),
        target: None,
        attached: Vec::new(alloc),
        told: Told::Nothing,
    }
}

// The word at a script's opening: all backends are drawn.
fn first_word(size: Size, word: usize) -> u64
    ensures { result ≡ cond (word == 0) size.procs 0 }
{
    if word == 0 { u64::from(size.procs) } else { 0 }
}

fn first_words(alloc: Global, size: Size) -> Result<Vec<u64>, AllocError>
    requires { SizeFits size }
    ensures { IfOk result (λ v. v.items ≡ first_words size) }
{
    let mut words = Vec::new(alloc);
    'words: for word in 0..3 * size.procs as usize + 162 + size.bars as usize {
        words.push(first_word(size, word))?;
    }
    Ok(words)
}

fn first_home(alloc: Global, phase: u64) -> Home
    ensures { kept_of result ≡ first_home phase }
{
    let record = Record {
        phase,
        participants: 0,
        arrived: 0,
        elected: phase,
    };
    let list = Vec::new(alloc);
    Home { list, record }
}

fn first_homes(alloc: Global, opening: Opening) -> Result<Vec<Home>, AllocError>
    requires { OpeningFits opening }
    ensures { IfOk result (λ v. map kept_of v.items ≡ first_homes opening) }
{
    let mut homes = Vec::new(alloc);
    'slots: for slot in 0..160 + opening.size.bars {
        homes.push(first_home(alloc, opening.phase))?;
    }
    Ok(homes)
}

fn first_backends(alloc: Global, size: Size) -> Result<Vec<Backend>, AllocError>
    requires { SizeFits size }
    ensures stands { IfOk result (λ v. map stand_of v.items ≡ map idle (range_with_len 0 size.procs)) }
    ensures fits { IfOk result (λ v. All (BackendFits size) v.items) }
{
    let mut backends = Vec::new(alloc);
    'backends: for backend in 0..size.procs {
        backends.push(idle_backend(alloc, size, backend))?;
    }
    Ok(backends)
}

// What a backend's call is told by the step at this place.
fn told_after(own: ProcNo, spot: &Spot, told: Told) -> Told
    requires { SpotRoom spot.now }
    ensures { result ≡ told_after own (frames spot.now) told }
{
    match spot {
        Spot::Holding(task, list, found) => told_by(own, task, list.as_slice(), *found, told),
        Spot::At(point) => point_told(*point, told),
    }
}

fn point_told(point: Point, told: Told) -> Told
    ensures { (own : ℕ) → result ≡ told_after own (frames_at point) told }
{
    match point {
        Point::LeavingShutdown(_) => Told::Shutdown,
        _ => told,
    }
}

// The attachments after the step at this place.
fn attached_then(
    alloc: Global,
    turn: &Turn,
    spot: &Spot,
    attached: Vec<(u32, u64)>,
) -> Result<Vec<(u32, u64)>, AllocError>
    requires { SpotRoom spot.now }
    ensures { IfOk result (λ v. v.items ≡ attached_then (step_at turn.now.own turn.now.ask turn.now.target (frames spot.now)) (frames spot.now) attached.items) }
{
    match spot {
        Spot::Holding(task, _, found) => attached_after(alloc, task, *found, attached),
        Spot::At(_) => Ok(attached),
    }
}

// The call, unless it has ended.
fn still(spot: &Spot, ask: &Call) -> Option<Call>
    ensures { result ≡ still (frames spot.now) (Some ask.now) }
{
    match spot {
        Spot::At(point) => still_at(*point, ask),
        Spot::Holding(..) => Some(*ask),
    }
}

fn still_at(point: Point, ask: &Call) -> Option<Call>
    ensures { result ≡ still (frames_at point) (Some ask.now) }
{
    match point {
        Point::Idle => None,
        _ => Some(*ask),
    }
}

// A backend makes a step.
fn went(
    alloc: Global,
    turn: &Turn,
    step: &WaitStep,
    home: &mut Home,
    backend: &mut Backend,
) -> Result<(), AllocError>
    requires own { (turn.now.own ≡ backend.old.own) × (turn.now.target ≡ backend.old.target) }
    requires ask { (backend.old.ask ≡ Some turn.now.ask) × CallFits turn.now.size turn.now.ask }
    requires fits { BackendFits turn.now.size backend.old × SizeFits turn.now.size }
    requires step { step.now ≡ step_at turn.now.own turn.now.ask turn.now.target (frames backend.old.spot) }
    requires room { SpotRoom backend.old.spot }
    requires home { AllBelow turn.now.size.procs home.old.list.items }
    ensures stand { OnOk result (stand_of backend.new ≡ went turn.now.size step.now turn.now.found (kept_of home.old) (stand_of backend.old)) }
    ensures home { OnOk result (kept_of home.new ≡ home_after step.now turn.now.found turn.now.own (frames backend.old.spot) (kept_of home.old)) }
    ensures fits { BackendFits turn.now.size backend.new }
    ensures near { (m : ℕ) → Near m home.old.record → OnOk result (SpotNear m backend.new.spot) }
    ensures below { AllBelow turn.now.size.procs home.new.list.items }
{
    backend.told = told_after(turn.own, &backend.spot, backend.told);
    let attached = mem::replace(&mut backend.attached, Vec::new(alloc));
    backend.attached = attached_then(alloc, turn, &backend.spot, attached)?;
    backend.target = target_then(step, backend.target);
    let spot = mem::replace(&mut backend.spot, Spot::At(Point::Idle));
    backend.spot = turn.advance(alloc, spot, home)?;
    backend.ask = still(&backend.spot, &turn.ask);
    Ok(())
}

impl Waits {
    /// A machine whose backends are all drawn, and in no call.
    pub fn new(alloc: Global, opening: Opening) -> Result<Waits, AllocError>
        requires { OpeningFits opening }
        ensures opening { IfOk result (λ s. s ≡ opening_sketch opening) }
        ensures counts { IfOk result (λ s. Counts s 0) }
    {
        Ok(Waits {
            alloc,
            opening,
            words: first_words(alloc, opening.size)?,
            homes: first_homes(alloc, opening)?,
            backends: first_backends(alloc, opening.size)?,
        })
    }

    // A backend that is in a call makes its next step, and prints it.
    fn turn(
        &mut self,
        made: u64,
        proc: usize,
        ask: Call,
        out: &mut Vec<u8>,
    ) -> Result<(), AllocError>
        requires proc { proc < self.old.opening.size.procs }
        requires ask { (stand_at self.old proc).ask ≡ Some ask }
        requires counts { Counts self.old made }
        requires few { made < step_limit }
        ensures turned { OnOk result (self.new ≡ (turn self.old proc (stand_at self.old proc) ask).0) }
        ensures text { OnOk result (out.new.items ≡ out.old.items ++ (turn self.old proc (stand_at self.old proc) ask).1) }
        ensures counts { OnOk result (Counts self.new (made + 1)) }
    {
        let size = self.opening.size;
        let backend = &mut self.backends[proc];
        let own = backend.own;
        let step = step_at(size, own, backend.target, &ask, &backend.spot);
        let word = word_of(size, own, &step);
        let found = self.words[word];
        let left = becomes(&step, found);
        let turn = Turn {
            size,
            own,
            ask,
            target: backend.target,
            found,
        };
        let home = &mut self.homes[slot_number(&step)];
        went(self.alloc, &turn, &step, home, backend)?;
        self.words[word] = left;
        push_turn(
            out,
            size,
            own,
            &ask,
            &step,
            word,
            found,
            left,
            backend.told,
            &backend.ask,
        )
    }
}

impl Machine for Waits {
    ghost use Rattle.wait_script.specs.WaitSketch.{begins, steps, ends, Counts};

    ghost begins = { begins };

    ghost steps = { steps };

    ghost ends = { ends };

    ghost holds = { Counts };

    fn begin(&mut self, proc: u64, call: &[u8], out: &mut Vec<u8>) -> Result<bool, AllocError> {
        let size = self.opening.size;
        if proc >= u64::from(size.procs) {
            return Ok(false);
        }
        let Some(ask) = ask_of(size, call) else {
            return Ok(false);
        };
        self.backends[proc as usize].begin(size, ask, out)
    }

    fn step(&mut self, made: u64, proc: u64, out: &mut Vec<u8>) -> Result<bool, AllocError> {
        if proc >= u64::from(self.opening.size.procs) {
            return Ok(false);
        }
        let Some(ask) = self.backends[proc as usize].ask else {
            return Ok(false);
        };
        self.turn(made, proc as usize, ask, out)?;
        Ok(true)
    }

    fn end(&self, out: &mut Vec<u8>) -> Result<(), AllocError> {
        push(out, "final\n")?;
        push_changed(out, self.opening.size, self.words.as_slice())?;
        push_homes(out, self.opening.phase, self.homes.as_slice())
    }
}
