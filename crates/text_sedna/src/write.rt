// Writes a message that is told by the places of its fields, through the writer of its shape.
use sedna_read::Places;
use text_lines::parse::SPACE;
use wire::{Place, Refusal, first, part};

// A body has at most 1,137 options.
const MOST: usize = 1200;

pub fn message(
    out: &mut [u8],
    bytes: &[u8],
    instruction: u32,
    places: Places,
) -> Result<usize, Refusal> {
    match places {
        Places::Empty => sedna_write::write_empty(out, instruction),
        Places::Session {
            major,
            minor,
            user,
            database,
        } => {
            let u = part(bytes, user);
            sedna_write::write_session(out, instruction, major, minor, u, part(bytes, database))
        }
        Places::Text(p) => sedna_write::write_text(out, instruction, part(bytes, p)),
        Places::Statement { format, text } => {
            sedna_write::write_statement(out, instruction, format, part(bytes, text))
        }
        Places::Coded { code, text } => {
            sedna_write::write_coded(out, instruction, code, part(bytes, text))
        }
        Places::Options { pairs, count } => options(out, bytes, instruction, pairs, count),
        Places::Item {
            class,
            kind,
            url,
            part: p,
        } => item(out, bytes, instruction, class, kind, url, p),
    }
}

fn item(
    out: &mut [u8],
    bytes: &[u8],
    instruction: u32,
    class: u8,
    kind: u8,
    url: Option<Place>,
    last: Place,
) -> Result<usize, Refusal> {
    let last = part(bytes, last);
    match url {
        Some(url) => {
            sedna_write::write_item_url(out, instruction, class, kind, part(bytes, url), last)
        }
        None => sedna_write::write_item(out, instruction, class, kind, last),
    }
}

// The writer takes options as lists. Where these are too short it is 0 written, which the library
// never answers, and no refusal: those are the library's.
fn options(
    out: &mut [u8],
    bytes: &[u8],
    instruction: u32,
    pairs: Place,
    count: usize,
) -> Result<usize, Refusal> {
    // An array: no heap, as in the library.
    let mut ids = [0u32; MOST];
    let mut lengths = [0usize; MOST];
    let mut values = [0u8; SPACE];
    if MOST < count {
        return Ok(0);
    }
    let mut end = 0;
    for k in 0..count {
        let Some(option) = sedna_read::option_at(bytes, pairs, k) else {
            break;
        };
        let value = part(bytes, option.value);
        ids[k] = option.id;
        lengths[k] = value.len();
        end = append(&mut values, end, value);
    }
    sedna_write::write_options(
        out,
        instruction,
        &ids[0..count],
        &lengths[0..count],
        first(&values, end),
    )
}

// Puts a value behind the first n bytes; answers how many there are then.
fn append(values: &mut [u8], n: usize, value: &[u8]) -> usize {
    if !wire::has_room(values.len(), n, value.len()) {
        return n;
    }
    wire::put_bytes(values, n, value);
    n + value.len()
}
