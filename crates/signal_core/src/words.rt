//! How the words of a table open.
ghost use Rattle.std.specs.Prelude.{◌≤◌, IfOk};
ghost use Rattle.signal_core.specs.Words.{Opens};

use crate::view::About;
use std::alloc::{AllocError, Global};

pub(crate) fn opening_words(alloc: Global, about: About) -> Result<Vec<u64>, AllocError>
    requires { about.procs ≤ 64 }
    ensures { IfOk result (λ v. Opens about v.items) }
{
    let count = 4 * about.procs as usize + 2;
    let mut words = vec![in alloc; 0; count]?;
    words[0] = 1;
    words[1] = about.generation;
    for p in 0..about.procs {
        words[4 * p as usize + 3] = u64::MAX;
    }
    Ok(words)
}
