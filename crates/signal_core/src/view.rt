//! What a seat knows. In a table values of these types stand in contracts alone, but for `About`; a
//! replay keeps places and slots of its own.

use crate::step::SigStep;
use std::collections::LinkedList;

/// What a table is told once: how many backends it has, and the generation at which it opens.
#[derive(Debug, Clone, Copy, PartialEq, Eq)]
pub struct About {
    pub procs: u32,
    pub generation: u64,
}

/// What is still to be done of a call. No call of this machine stands inside another.
#[derive(Clone, Copy)]
pub enum Frame {
    /// Joins: the own mask is clear, and it will read the header.
    Reading,
    /// Joins: it read this header, and will store it as the own generation.
    Opening(u64),
    /// Joins: it will store its number.
    Entering(u64),
    /// Leaves: it will store that nobody is there.
    Leaving,
    /// Emits this kind with this number: the slots below the last field have it in their mask.
    Posting(u32, u64, u32),
    /// Emits: each slot has it, and it will take a number of the header.
    Numbering(u32, u64),
    /// Emits: it will look whether somebody is at this slot.
    Telling(u32),
    /// Emits: somebody is, and it will store the slot's pending word.
    Prodding(u32),
    /// Absorbs: it will read the own generation.
    Comparing,
    /// Absorbs: the own generation is this, and it will read the header.
    Heading(u64),
    /// Absorbs: the header was this, and it will swap the own mask.
    Swapping(u64),
    /// Absorbs: the header was this, and this mask was found. The kinds are asked for.
    Taking(u64, u64),
    /// Absorbs: of this header and this mask these kinds failed. Those below the last field are done
    /// with, and the lowest other that failed will be put back.
    Keeping(u64, u64, u64, u32),
    /// Absorbs: this kind was put back, and it will store the own pending word.
    Reminding(u64, u64, u64, u32),
}

/// A step that was made, and the word that it found.
pub struct Made {
    pub step: SigStep,
    pub found: u64,
}

/// A step of a seat that was joined into this one, which had the number `by`.
pub struct Inherited {
    pub by: u64,
    pub made: Made,
}

/// An emission that has its generation: the kind, and the number that goes with it.
pub struct Emission {
    pub kind: u32,
    pub number: u64,
    pub generation: u64,
}

/// What a seat that is joined knows of its slot: the generation with which it joined, and the one
/// that it has published.
#[derive(Clone, Copy)]
pub struct Slot {
    pub joined: u64,
    pub published: u64,
}

/// What a seat knows of the table.
pub struct SigView {
    /// Its number, one drawn for a seat to come, those of the seats that were joined into it, and
    /// the last one that it drew.
    pub own: Option<u64>,
    pub pending: Option<u64>,
    pub taken: LinkedList<u64>,
    pub drawn: u64,
    /// None where the seat is in no call.
    pub place: Option<Frame>,
    pub steps: LinkedList<Made>,
    /// The steps of the seats that were joined into it.
    pub inherited: LinkedList<Inherited>,
    /// None where its slot isn't joined.
    pub slot: Option<Slot>,
    /// The emissions that it made, and the kinds that it absorbed.
    pub emissions: LinkedList<Emission>,
    pub absorbed: LinkedList<u32>,
}

/// What lies in the table's slots, of which it has none.
#[derive(Drop)]
pub struct Nothing;
