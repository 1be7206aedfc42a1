// What a record of a transcript is, over slices: document 01, "The transcript program". What is
// printed for one is the crate `records_printed`.
#![tactic(auto)]

use sedna::Side;
use wire::Place;

mod heads;

pub use heads::{judge_head, record_at};

// The six bytes ahead of a payload, judged: who sent it and how long it is.
#[derive(Clone, Copy)]
pub struct Head {
    pub side: Side,
    pub len: usize,
}

// What stands at a place of a transcript: three ways, more than an Option or a Result has.
#[derive(Clone, Copy)]
pub enum Next {
    Record { side: Side, payload: Place },
    Damaged,
    End,
}

// No record is longer: a head of 6 bytes, and a payload.
pub const LONGEST_RECORD: usize = 10254;
