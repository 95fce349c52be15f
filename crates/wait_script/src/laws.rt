//! A theorem over scripts. The function does nothing.
ghost use Rattle.std.specs.Prelude.{◌≡◌, ℕ, List, Some};
ghost use Rattle.script_play.specs.Lines.{Numbered};
ghost use Rattle.wait_script.specs.declared.waits.Opening.{Opening};
ghost use Rattle.wait_script.specs.WaitScripts.{wait_header, wait_play};
ghost use Rattle.wait_script.specs.Passed.{EachMeetsTheRule};

/// Each state that a script passes meets the rule of the machine's table, from the opening on that
/// its first line gives.
pub fn passed_states_hold()
    ensures { (line : List ℕ) (opening : Opening) (lines : List Numbered) → wait_header line ≡ Some opening → EachMeetsTheRule opening (wait_play opening lines) }
{}
