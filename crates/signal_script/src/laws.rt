//! A theorem over scripts. The function does nothing.
ghost use Rattle.std.specs.Prelude.{◌≡◌, ℕ, List, Some};
ghost use Rattle.signal_core.specs.declared.view.About.{About};
ghost use Rattle.script_play.specs.Lines.{Numbered};
ghost use Rattle.signal_script.specs.SignalScripts.{signal_header, signal_play};
ghost use Rattle.signal_script.specs.Passed.{EachMeetsTheRule};

/// Each state that a script passes meets the rule of the machine's table, from the opening on that
/// its first line gives.
pub fn passed_states_hold()
    ensures { (line : List ℕ) (about : About) (lines : List Numbered) → signal_header line ≡ Some about → EachMeetsTheRule about (signal_play about lines) }
{}
