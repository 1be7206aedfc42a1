// A list of items: "items, then 00".
ghost use Rattle.std.specs.Prelude.{◌≡◌, ◌-◌, length, drop};
ghost use Rattle.basex_response.specs.Items.{next, list, item_at};
ghost use Rattle.basex_response.specs.inner.Judging.{items_at};

use crate::ItemAt;
use wire::Refusal;

// What stands at `at` in a list of items, judged; nothing is stored. A caller walks the items with
// it: their texts stand in the output one behind the other.
pub fn item_at(full: bool, bytes: &[u8], at: usize) -> Result<ItemAt, Refusal>
    ensures { result ≡ item_at full at (length bytes.now - at) (next full (drop at bytes.now)) }
{
    if bytes.len() <= at {
        return Err(Refusal::MoreBytes);
    }
    let id = bytes[at];
    if id == 0 {
        return Ok(ItemAt::End { next: at + 1 });
    }
    if !basex::id_allowed(id) {
        return Err(Refusal::ValueNotAllowed);
    }
    let n = basex::item_strings(full, id);
    let texts = basex::two_at(bytes, at + 1, n)?;
    if n == 2 {
        Ok(ItemAt::Item {
            id,
            uri: texts.first,
            text: texts.second,
            next: texts.next,
        })
    } else {
        Ok(ItemAt::Item {
            id,
            uri: 0,
            text: texts.first,
            next: texts.next,
        })
    }
}

// How many items a list has, how many bytes their texts have, and where the next field starts.
#[derive(Clone, Copy)]
pub struct ItemsAt {
    pub count: usize,
    pub listed: usize,
    pub next: usize,
}

// The list of items that starts at `at`, judged.
pub fn items_at(full: bool, bytes: &[u8], at: usize) -> Result<ItemsAt, Refusal>
    ensures { result ≡ items_at at (length bytes.now - at) (list full (drop at bytes.now)) }
{
    let mut from = at;
    let mut count: usize = 0;
    let mut listed: usize = 0;
    // No iterator: the bytes say how far a step goes, and a refusal ends them.
    loop {
        match item_at(full, bytes, from)? {
            ItemAt::End { next } => {
                return Ok(ItemsAt {
                    count,
                    listed,
                    next,
                });
            }
            ItemAt::Item {
                uri,
                text,
                next,
                ..
            } => {
                count += 1;
                listed += uri + text;
                from = next;
            }
        }
    }
}
