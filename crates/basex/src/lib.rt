// The published BaseX kinds: the one table of requests, what the response to each is made of, and
// strings that stand one behind the other.
#![tactic(auto)]

ghost use Rattle.std.specs.Prelude.{◌≡◌, ◌+◌, ◌-◌, ◌≤◌, min, length, drop};
ghost use Rattle.wire.specs.Call.{put_at, Gives};
ghost use Rattle.basex.specs.Kinds.{kinds, find_of, row_byte, starts_command, columns_of, is_command, ahead, error_behind, behind};
ghost use Rattle.basex.specs.Kinds.{listed, is_full, id_allowed, item_strings};
ghost use Rattle.basex.specs.Texts.{place_if, string_if, texts, two_at, texts_stored, ends};

use basex_string::Ends;
use wire::Refusal;

// What the response to a request is made of, named by the first request that has it.
#[derive(Clone, Copy, PartialEq, Eq)]
pub enum Reply {
    Command,
    Create,
    Query,
    Results,
    Full,
}

// First byte, number of strings, response.
#[derive(Clone, Copy)]
pub struct Kind(pub u8, pub u8, pub Reply);

// Document 01's list, COMMAND last, at the first of its first bytes.
pub const KINDS: [Kind; 15] = [
    Kind(0x00, 1, Reply::Query),
    Kind(0x02, 1, Reply::Query),
    Kind(0x03, 4, Reply::Query),
    Kind(0x04, 1, Reply::Results),
    Kind(0x05, 1, Reply::Query),
    Kind(0x06, 1, Reply::Query),
    Kind(0x07, 1, Reply::Query),
    Kind(0x08, 2, Reply::Create),
    Kind(0x09, 2, Reply::Create),
    Kind(0x0C, 2, Reply::Create),
    Kind(0x0D, 2, Reply::Create),
    Kind(0x0E, 3, Reply::Query),
    Kind(0x1E, 1, Reply::Query),
    Kind(0x1F, 1, Reply::Full),
    Kind(0x20, 1, Reply::Command),
];

// The constant, tied to its definition.
#[tactic(auto, unfolding(crate::specs::Kinds::kinds))]
fn table() -> [Kind; 15]
    ensures { result ≡ kinds }
{
    KINDS
}

// Whether a COMMAND starts with the byte.
pub fn starts_command(b: u8) -> bool
    ensures { result ≡ starts_command b }
{
    0x20 <= b && b <= 0xFE
}

// Every byte from 20 to FE stands for COMMAND.
fn row_byte(first: u8) -> u8
    ensures { result ≡ row_byte first }
{
    if starts_command(first) { 0x20 } else { first }
}

// The number of strings and the response of the request that starts with the byte.
pub fn find(first: u8) -> Option<(usize, Reply)>
    ensures { result ≡ find_of first }
{
    let b = row_byte(first);
    for k in table() {
        if k.0 == b {
            return Some((k.1 as usize, k.2));
        }
    }
    None
}

// Whether the request is a COMMAND, how many strings stand ahead of the status, whether an error string
// stands behind status 01, whether there are items, whether they have URI strings.
#[derive(Clone, Copy, PartialEq, Eq)]
pub struct Columns {
    pub command: bool,
    pub ahead: usize,
    pub error: bool,
    pub listed: bool,
    pub full: bool,
}

fn columns_of(reply: Reply) -> Columns
    ensures { result ≡ columns_of reply }
{
    let (command, ahead, error, listed, full) = match reply {
        Reply::Command => (true, 2, false, false, false),
        Reply::Create => (false, 1, false, false, false),
        Reply::Query => (false, 1, true, false, false),
        Reply::Results => (false, 0, true, true, false),
        Reply::Full => (false, 0, true, true, true),
    };
    Columns {
        command,
        ahead,
        error,
        listed,
        full,
    }
}

pub fn is_command(reply: Reply) -> bool
    ensures { result ≡ is_command reply }
{
    columns_of(reply).command
}

pub fn strings_ahead(reply: Reply) -> usize
    ensures { result ≡ ahead reply }
{
    columns_of(reply).ahead
}

pub fn error_behind(reply: Reply) -> bool
    ensures { result ≡ error_behind reply }
{
    columns_of(reply).error
}

pub fn strings_behind(reply: Reply, status: u8) -> usize
    ensures { result ≡ behind reply status }
{
    if error_behind(reply) {
        status as usize
    } else {
        0
    }
}

pub fn is_listed(reply: Reply) -> bool
    ensures { result ≡ listed reply }
{
    columns_of(reply).listed
}

pub fn is_full(reply: Reply) -> bool
    ensures { result ≡ is_full reply }
{
    columns_of(reply).full
}

#[tactic(auto, unfolding(crate::specs::Kinds::id_allowed))]
pub fn id_allowed(id: u8) -> bool
    ensures { result ≡ id_allowed id }
{
    matches!(id, 7..=15 | 32..=83)
}

// How many strings an item with the id has.
#[tactic(auto, unfolding(crate::specs::Kinds::has_uri))]
pub fn item_strings(full: bool, id: u8) -> usize
    ensures { result ≡ item_strings full id }
{
    if full && matches!(id, 12 | 14 | 82) {
        2
    } else {
        1
    }
}

// The lengths of up to two strings that stand one behind the other, and where the next field starts.
#[derive(Clone, Copy)]
pub struct TwoAt {
    pub first: usize,
    pub second: usize,
    pub next: usize,
}

// Up to two strings from `at` on, judged; nothing is stored.
pub fn two_at(bytes: &[u8], at: usize, n: usize) -> Result<TwoAt, Refusal>
    ensures { result ≡ two_at at (length bytes.now - at) (texts (min n 2) (drop at bytes.now)) }
{
    if n == 0 {
        return Ok(TwoAt {
            first: 0,
            second: 0,
            next: at,
        });
    }
    let one = basex_string::string_at(bytes, at)?;
    if n == 1 {
        return Ok(TwoAt {
            first: one.len,
            second: 0,
            next: one.next,
        });
    }
    let two = basex_string::string_at(bytes, one.next)?;
    Ok(TwoAt {
        first: one.len,
        second: two.len,
        next: two.next,
    })
}

// An inner tool of the readers: the texts of n judged strings from `at` on, one behind the other from
// `to` on. Nothing is judged or refused here: the caller has judged the strings, and seen that all of
// their texts fit.
pub fn store_judged_texts(bytes: &[u8], at: usize, n: usize, out: &mut [u8], to: usize) -> Ends
    ensures { Gives (ends at (length bytes.now - at) (texts_stored n out.old to (drop at bytes.now)))
        (texts_stored n out.old to (drop at bytes.now)).out result out.new }
{
    let mut from = at;
    let mut end = to;
    for _ in 0..n {
        let put = basex_string::store_judged_text(bytes, from, out, end);
        from = put.next;
        end = put.to;
    }
    Ends {
        next: from,
        to: end,
    }
}

// Whether the text has a place, or is empty.
pub fn has_place(present: bool, text: &[u8]) -> bool
    ensures { result ≡ place_if present text.now }
{
    present || text.is_empty()
}

// How many bytes the text takes as a string where it is present.
// A flag, not a closure: the tables of requests and replies have it.
pub fn size_if(present: bool, text: &[u8]) -> usize
    ensures { result ≡ length (string_if present text.now) }
{
    if present {
        basex_string::string_len(text)
    } else {
        0
    }
}

// The text as a string where it is present; where the next field starts. What does not fit is not put.
// A flag, as above.
pub fn put_string_if(out: &mut [u8], at: usize, present: bool, text: &[u8]) -> usize
    ensures answers { at + length (string_if present text.now) ≤ length out.old → result ≡ at + length (string_if present text.now) }
    ensures leaves { out.new ≡ put_at out.old at (string_if present text.now) }
{
    if present {
        at + basex_string::write_string(out, at, text).unwrap_or(0)
    } else {
        at
    }
}
