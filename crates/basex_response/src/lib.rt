// BaseX responses: read knowing the request, their items handed out, and written.
#![tactic(auto)]

pub use errors::error_at;
pub use items::item_at;
pub use read::read_response;
use wire::Refusal;
pub use write::{write_end, write_item};

mod errors;
mod items;
mod read;
mod write;

// What stands in a list of items: an item with its id and how many bytes its URI (0 where it has
// none) and its text have, or the 00 behind the last; and where what follows starts.
#[derive(Clone, Copy)]
pub enum ItemAt {
    Item {
        id: u8,
        uri: usize,
        text: usize,
        next: usize,
    },
    End {
        next: usize,
    },
}

// A response that was read: how many bytes each string ahead of the status has, how many items there
// are and how many bytes their texts have together, the status, how many bytes the error behind it
// has, and how many bytes were read. 0 stands for what the response does not have.
#[derive(Clone, Copy)]
pub struct Replied {
    pub first: usize,
    pub second: usize,
    pub items: usize,
    pub listed: usize,
    pub status: u8,
    pub error: usize,
    pub read: usize,
}
