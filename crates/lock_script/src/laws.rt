//! A theorem over scripts. The function does nothing.
ghost use Rattle.std.specs.Prelude.{◌≡◌, ℕ, List, Some};
ghost use Rattle.lw_core.specs.declared.view.Size.{Size};
ghost use Rattle.script_play.specs.Lines.{Numbered};
ghost use Rattle.lock_script.specs.LockScripts.{lock_header, lock_play};
ghost use Rattle.lock_script.specs.Passed.{EachMeetsTheRule};

/// Each state that a script passes meets the rule of the machine's table, from the opening on that
/// its first line gives.
pub fn passed_states_hold()
    ensures { (line : List ℕ) (size : Size) (lines : List Numbered) → lock_header line ≡ Some size → EachMeetsTheRule size (lock_play size lines) }
{}
