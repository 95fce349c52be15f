//! A script from an input to the sink.

ghost use Rattle.std.specs.Prelude.{◌≡◌, IsSome};
ghost use Rattle.row_model.specs.declared.Side.TheVariants as side;
ghost use Rattle.csv_tables.specs.Appending.{IsFull};
ghost use Rattle.schedule_script.specs.ScriptText.{script_answer};
ghost use Rattle.pg_sync.specs.declared.status.Status.TheVariants as status;
ghost use Rattle.pg_sync.specs.Answer.{AllIsThere, CountsShow, Leaves, NoInputFailed, NoneFailed, ScriptDecided, counts_of};
ghost use Rattle.pg_sync.specs.Schedule.{PlayShows, ScriptShows, script_due};

use crate::join::refusal;
use crate::status::Status;
use csv_tables::{Inputs, Sink, read_all, write_all};
use row_model::Side;
use schedule_script::{ScriptFault, replay};
use std::alloc::Global;

// Plays a script, and writes its text.
fn play<S: Sink>(alloc: Global, script: &[u8], out: &mut S) -> Status
    ensures shows { PlayShows (script_answer script.now) (S.taken out.old) (S.taken out.new) (S.faults out.old) (S.faults out.new) result }
    ensures capacity { S.capacity out.new ≡ S.capacity out.old }
    ensures full { result ≡ status.WriteFault → IsFull (S.taken out.new) (S.capacity out.new) }
{
    let text = match replay(alloc, script) {
        Ok(text) => text,
        Err(ScriptFault::Bad { line }) => return Status::BadScript(line),
        Err(ScriptFault::NoMemory) => return Status::NoMemory,
    };
    match write_all(out, text.as_slice()) {
        Ok(()) => Status::Done,
        Err(_) => Status::WriteFault,
    }
}

// Plays the script that the input of this name holds.
fn play_input<I: Inputs, S: Sink>(alloc: Global, name: &str, inputs: &mut I, out: &mut S) -> Status
    requires { I.may_open inputs.old side.Inner name.now }
    ensures bytes { ScriptShows (I.held inputs.old name.now) result }
    ensures counts { CountsShow (counts_of I.open_faults I.read_faults inputs.old) (counts_of I.open_faults I.read_faults inputs.new) (S.faults out.old) (S.faults out.new) result }
    ensures written { Leaves (S.taken out.old) (S.taken out.new) (script_due (I.held inputs.old name.now)) result }
    ensures calm { I.is_steady inputs.old → IsSome (I.held inputs.old name.now) → NoInputFailed result }
    ensures capacity { S.capacity out.new ≡ S.capacity out.old }
    ensures full { result ≡ status.WriteFault → IsFull (S.taken out.new) (S.capacity out.new) }
{
    let script = match read_all(alloc, inputs, Side::Inner, name) {
        Ok(script) => script,
        Err(fault) => return refusal(Side::Inner, fault),
    };
    play(alloc, script.as_slice(), out)
}

/// Plays the script that the input of this name holds: writes the text of its steps, its answers and
/// what stands at the end, or names its first line that isn't in the grammar or isn't enabled.
pub fn run_schedule<I: Inputs, S: Sink>(
    alloc: Global,
    name: &str,
    inputs: &mut I,
    out: &mut S,
) -> Status
    requires { I.may_open inputs.old side.Inner name.now }
    ensures written { Leaves (S.taken out.old) (S.taken out.new) (script_due (I.held inputs.old name.now)) result }
    ensures bytes { ScriptShows (I.held inputs.old name.now) result }
    ensures counts { CountsShow (counts_of I.open_faults I.read_faults inputs.old) (counts_of I.open_faults I.read_faults inputs.new) (S.faults out.old) (S.faults out.new) result }
    ensures completeness { ScriptDecided (I.held inputs.old name.now)
        (counts_of I.open_faults I.read_faults inputs.old) (counts_of I.open_faults I.read_faults inputs.new) (S.faults out.old) (S.faults out.new) result }
    ensures faultless { AllIsThere (I.is_steady inputs.old) (I.held inputs.old name.now) (I.held inputs.old name.now) (S.taken out.old) (S.capacity out.old) (script_due (I.held inputs.old name.now))
        → NoneFailed (counts_of I.open_faults I.read_faults inputs.old) (counts_of I.open_faults I.read_faults inputs.new) (S.faults out.old) (S.faults out.new) }
{
    play_input(alloc, name, inputs, out)
}
