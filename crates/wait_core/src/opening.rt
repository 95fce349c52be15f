//! The words and the slots of a table at its opening.
ghost use Rattle.std.specs.Prelude.{◌≡◌, ◌≤◌, IfOk};
ghost use Rattle.wait_core.specs.Words.{opening_words};
ghost use Rattle.wait_core.specs.Slots.{OpeningSlots};

use crate::party::Party;
use crate::view::{Kept, Record, Size};
use arrayvec::ArrayVec;
use std::alloc::{AllocError, Global};

// The next number, the words of backends, conditions and barriers, and the client's.
pub(crate) fn opening_row<P: Party>(
    alloc: Global,
    party: &P,
    size: Size,
    count: u32,
) -> Result<Vec<u64>, AllocError>
    requires size { (size.procs ≤ 64) × (size.bars ≤ 72) }
    requires count { count ≡ P.word_count party.now }
    ensures { IfOk result (λ v. v.items ≡ opening_words size (P.opens party.now) count) }
{
    let machine = 3 * size.procs as usize + 2 + size.slots() as usize;
    let mut row = vec![in alloc; 0; machine]?;
    row[0] = 1;
    for at in 0..count {
        row.push(party.opening(at))?;
    }
    Ok(row)
}

// Each condition's list, and then each barrier's record.
pub(crate) fn opening_homes(
    alloc: Global,
    size: Size,
    opening_phase: u64,
) -> Result<Vec<Kept>, AllocError>
    requires size { size.bars ≤ 72 }
    ensures { IfOk result (λ v. OpeningSlots size opening_phase v.items) }
{
    let record = Record {
        phase: opening_phase,
        participants: 0,
        arrived: 0,
        elected: opening_phase,
    };
    let mut homes = Vec::new(alloc);
    for _ in 0..size.slots() {
        homes.push(Kept {
            list: ArrayVec::new(),
            record,
        })?;
    }
    Ok(homes)
}
