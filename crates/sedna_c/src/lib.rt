// Reading, writing and the session for programs in C and Rust: numbers and slices in, numbers
// out. An answer above 2^63 is a refusal, its number on top of 2^63.
#![tactic(auto, using(answer_c::proofs::Codes::by_code))]

ghost use Rattle.std.specs.Prelude.{◌++◌, ◌≡◌, ◌≤◌, length, take, drop};
ghost use Rattle.sedna.specs.Message.{Url, Body, message};
ghost use Rattle.sedna_read.specs.Places.{option_at};
ghost use Rattle.sedna_c.specs.Codes.{fields_of, TellsOption};
ghost use Rattle.sedna_c.specs.Codes.{WritesMessageByCode, WritesOptionsByCode};

use answer_c::{counted_code, refusal_code};
use sedna_read::{OptionPlace, Places};
use wire::{Place, Refusal};

mod sessions;
pub mod sides;

pub use sessions::{kdr_closed, kdr_fresh, kdr_read, kdr_step, kdr_turn};

// A message's fields as ten numbers; those that its shape does not use are 0.
fn numbers(i: u32, places: Places) -> [u64; 10]
    ensures { result ≡ fields_of i places }
{
    let i = u64::from(i);
    match places {
        Places::Empty => [i, 0, 0, 0, 0, 0, 0, 0, 0, 0],
        Places::Session {
            major,
            minor,
            user: u,
            database: d,
        } => [
            i,
            1,
            u64::from(major),
            u64::from(minor),
            u.start as u64,
            u.len as u64,
            d.start as u64,
            d.len as u64,
            0,
            0,
        ],
        Places::Text(t) => [i, 2, 0, 0, t.start as u64, t.len as u64, 0, 0, 0, 0],
        Places::Statement { format, text: t } => {
            let format = u64::from(format);
            [i, 3, format, 0, t.start as u64, t.len as u64, 0, 0, 0, 0]
        }
        Places::Coded { code, text: t } => {
            let code = u64::from(code);
            [i, 4, code, 0, t.start as u64, t.len as u64, 0, 0, 0, 0]
        }
        Places::Options { pairs: p, count } => {
            let count = count as u64;
            [i, 5, 0, 0, p.start as u64, p.len as u64, 0, 0, count, 0]
        }
        Places::Item {
            class,
            kind,
            url,
            part: p,
        } => {
            let (u, there) = match url {
                None => (Place { start: 0, len: 0 }, 0),
                Some(u) => (u, 1),
            };
            [
                i,
                6,
                u64::from(class),
                u64::from(kind),
                p.start as u64,
                p.len as u64,
                u.start as u64,
                u.len as u64,
                0,
                there,
            ]
        }
    }
}

// They go to the front of the lent fields.
fn store_places(out: &mut [u64], i: u32, places: Places)
    requires { 10 ≤ length out.old }
    ensures { out.new ≡ fields_of i places ++ drop 10 out.old }
{
    out[..10].copy_from_slice(&numbers(i, places));
}

// The option number k among the pairs from start on: 1, and its id and its value's place; 0 where
// there is none.
pub fn kdr_option(bytes: &[u8], start: usize, len: usize, k: usize, fields: &mut [u64]) -> u64
    ensures { TellsOption (option_at k start (take len (drop start bytes.now))) fields.old result fields.new }
{
    let Some(OptionPlace { id, value }) = sedna_read::option_at(bytes, Place { start, len }, k)
    else {
        return 0;
    };
    if fields.len() < 3 {
        return refusal_code(Refusal::NoRoom);
    }
    fields[..3].copy_from_slice(&[u64::from(id), value.start as u64, value.len as u64]);
    1
}

pub fn kdr_write_empty(out: &mut [u8], instruction: u32) -> u64
    ensures { WritesMessageByCode out.old (message instruction Body.empty) result out.new }
{
    counted_code(sedna_write::write_empty(out, instruction))
}

pub fn kdr_write_session(
    out: &mut [u8],
    instruction: u32,
    major: u8,
    minor: u8,
    user: &[u8],
    database: &[u8],
) -> u64
    ensures { WritesMessageByCode out.old
        (message instruction (Body.session major minor user.now database.now)) result out.new }
{
    counted_code(sedna_write::write_session(out, instruction, major, minor, user, database))
}

pub fn kdr_write_text(out: &mut [u8], instruction: u32, text: &[u8]) -> u64
    ensures { WritesMessageByCode out.old (message instruction (Body.text text.now)) result out.new }
{
    counted_code(sedna_write::write_text(out, instruction, text))
}

pub fn kdr_write_statement(out: &mut [u8], instruction: u32, format: u8, text: &[u8]) -> u64
    ensures { WritesMessageByCode out.old (message instruction (Body.statement format text.now)) result out.new }
{
    counted_code(sedna_write::write_statement(out, instruction, format, text))
}

pub fn kdr_write_coded(out: &mut [u8], instruction: u32, code: u32, text: &[u8]) -> u64
    ensures { WritesMessageByCode out.old (message instruction (Body.coded code text.now)) result out.new }
{
    counted_code(sedna_write::write_coded(out, instruction, code, text))
}

pub fn kdr_write_item(out: &mut [u8], instruction: u32, class: u8, kind: u8, part: &[u8]) -> u64
    ensures { WritesMessageByCode out.old (message instruction (Body.item class kind Url.absent part.now)) result out.new }
{
    counted_code(sedna_write::write_item(out, instruction, class, kind, part))
}

pub fn kdr_write_item_url(
    out: &mut [u8],
    instruction: u32,
    class: u8,
    kind: u8,
    url: &[u8],
    part: &[u8],
) -> u64
    ensures { WritesMessageByCode out.old
        (message instruction (Body.item class kind (Url.present url.now) part.now)) result out.new }
{
    counted_code(sedna_write::write_item_url(out, instruction, class, kind, url, part))
}

pub fn kdr_write_options(
    out: &mut [u8],
    instruction: u32,
    ids: &[u32],
    lengths: &[usize],
    values: &[u8],
) -> u64
    ensures { WritesOptionsByCode out.old
        instruction ids.now lengths.now values.now result out.new }
{
    counted_code(sedna_write::write_options(out, instruction, ids, lengths, values))
}
