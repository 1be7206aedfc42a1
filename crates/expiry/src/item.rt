// An item of class 1 sent in 4.0: cut into messages, each written, read back and joined.
use parts_join::{Answer, Assembly, Joined, Open};
use sedna::{Side, names};
use wire::{Refusal, first};

// What the receiver makes of a message.
fn received(a: Assembly, buffer: &mut [u8], bytes: &[u8]) -> Result<Joined, Refusal> {
    let reading = sedna_read::read(Side::Server, bytes)?;
    Ok(parts_join::join(a, buffer, reading.instruction, reading.places, bytes))
}

// Part k, written and received.
fn part(
    a: Assembly,
    buffer: &mut [u8],
    kind: u8,
    text: &[u8],
    k: usize,
) -> Result<Joined, Refusal> {
    // An array: no heap, as in the library.
    let mut out = [0u8; 10248];
    let n = parts_cut::write_typed_item_part(&mut out, 1, kind, text, k)?;
    received(a, buffer, first(&out, n))
}

fn ended(a: Assembly, buffer: &mut [u8]) -> Result<Joined, Refusal> {
    let mut out = [0u8; 8];
    let n = sedna_write::write_empty(&mut out, names::ITEM_END)?;
    received(a, buffer, first(&out, n))
}

// How many messages: the parts, which are never so many that one more would be too much, and the end.
pub fn messages(text: &[u8]) -> usize {
    parts_cut::typed_item_parts(text.len()).saturating_add(1)
}

// Sends all parts and the end. Answers what joining says to the end, or the first refusal.
pub fn sent(buffer: &mut [u8], kind: u8, text: &[u8]) -> Result<Answer, Refusal> {
    let mut a = Assembly::open(Open::TypedItem);
    for k in 0..parts_cut::typed_item_parts(text.len()) {
        let joined = part(a, buffer, kind, text, k)?;
        joined.answer?;
        a = joined.assembly;
    }
    ended(a, buffer)?.answer
}
