//! Lists of backends, and of attachments.
ghost use Rattle.std.specs.Prelude.{◌≡◌, ◌++◌, ◌∷◌, [], drop, is_some, IfOk, MatchOption, OnOk};
ghost use Rattle.wait_core.specs.Lists.{is_listed, rest_of, without};
ghost use Rattle.wait_core.specs.Jobs.{away_from};
ghost use Rattle.wait_core.specs.Parties.{phase_of};

use std::alloc::{AllocError, Global};

/// Whether a backend is on a list.
pub(crate) fn is_listed(own: u32, list: &[u32]) -> bool
    ensures { result ≡ is_listed own list.now }
{
    'backends: for backend in list {
        if *backend == own {
            return true;
        }
    }
    false
}

/// A list without a backend.
pub(crate) fn without(alloc: Global, own: u32, list: &[u32]) -> Result<Vec<u32>, AllocError>
    ensures { IfOk result (λ v. v.items ≡ without own list.now) }
{
    let mut others = Vec::new(alloc);
    'backends: for backend in list {
        if *backend != own {
            others.push(*backend)?;
        }
    }
    Ok(others)
}

/// The head of a list.
pub(crate) fn head_of(list: &[u32]) -> Option<u32>
    ensures { MatchOption result (list.now ≡ []) (λ q. list.now ≡ q ∷ drop 1 list.now) }
{
    if list.is_empty() { None } else { Some(list[0]) }
}

/// Those behind the head.
pub(crate) fn rest_of(alloc: Global, list: &[u32]) -> Result<Vec<u32>, AllocError>
    ensures { IfOk result (λ v. v.items ≡ rest_of list.now) }
{
    if list.is_empty() {
        return Ok(Vec::new(alloc));
    }
    list[1..].to_vec(alloc)
}

/// Whether a barrier is among the attachments.
pub(crate) fn is_attached(attached: &[(u32, u64)], barrier: u32) -> bool
    ensures { result ≡ is_some (phase_of attached.now barrier) }
{
    'attachments: for attachment in attached {
        if attachment.0 == barrier {
            return true;
        }
    }
    false
}

/// The attachments without a barrier.
pub(crate) fn away_from(
    alloc: Global,
    barrier: u32,
    attached: &[(u32, u64)],
) -> Result<Vec<(u32, u64)>, AllocError>
    ensures { IfOk result (λ v. v.items ≡ away_from barrier attached.now) }
{
    let mut others = Vec::new(alloc);
    'attachments: for attachment in attached {
        if attachment.0 != barrier {
            others.push(*attachment)?;
        }
    }
    Ok(others)
}

/// Attachments behind one to a barrier, at a phase.
pub(crate) fn with_first(
    alloc: Global,
    barrier: u32,
    phase: u64,
    others: &[(u32, u64)],
) -> Result<Vec<(u32, u64)>, AllocError>
    ensures { IfOk result (λ v. v.items ≡ (barrier, phase) ∷ others.now) }
{
    let mut attached = Vec::new(alloc);
    attached.push((barrier, phase))?;
    attached.extend_from_slice(others)?;
    Ok(attached)
}
