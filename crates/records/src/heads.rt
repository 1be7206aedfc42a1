// What a record is: its head judged, and the record that stands at a place of a transcript.
ghost use Rattle.std.specs.Prelude.{◌≡◌, drop};
ghost use Rattle.records.specs.Record.{front};
ghost use Rattle.records.specs.Places.{located, HeadRead};

use crate::{Head, Next};
use sedna::Side;
use wire::Place;

// Judges the six bytes that stand in front; fewer are a cut record.
#[tactic(auto, unfolding(crate::specs::Record::head_of))]
pub fn judge_head(bytes: &[u8]) -> Option<Head>
    ensures { HeadRead bytes.now result }
{
    let [a, b, c, d, low, high, ..] = bytes else {
        return None;
    };
    let len = u32::from_le_bytes([*a, *b, *c, *d]) as usize;
    if 10248 < len {
        return None;
    }
    // Both bytes count: a kind is no single byte.
    let side = match u16::from_le_bytes([*low, *high]) {
        1 => Side::Client,
        2 => Side::Server,
        _ => return None,
    };
    Some(Head { side, len })
}

// The record whose head starts at `at`; past the last byte the transcript ends.
pub fn record_at(bytes: &[u8], at: usize) -> Next
    ensures { result ≡ located at (front (drop at bytes.now)) }
{
    let n = bytes.len();
    if n <= at {
        return Next::End;
    }
    let Some(Head { side, len }) = judge_head(&bytes[at..]) else {
        return Next::Damaged;
    };
    let start = at + 6;
    if n - start < len {
        return Next::Damaged;
    }
    let payload = Place { start, len };
    Next::Record { side, payload }
}
