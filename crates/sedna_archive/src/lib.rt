// The static library for programs in C and Rust: each export calls the function of its name in
// sedna_c, under the same contract.
#![tactic(auto)]

ghost use Rattle.std.specs.Prelude.{take, drop};
ghost use Rattle.sedna.specs.Message.{Url, Body, message};
ghost use Rattle.sedna_read.specs.Places.{option_at};
ghost use Rattle.sedna_c.specs.Codes.{TellsOption, WritesMessageByCode, WritesOptionsByCode};

mod sessions;

#[unsafe(no_mangle)]
pub extern "C" fn kdr_option(
    bytes: &[u8],
    start: usize,
    len: usize,
    k: usize,
    fields: &mut [u64],
) -> u64
    ensures { TellsOption (option_at k start (take len (drop start bytes.now))) fields.old result fields.new }
{
    sedna_c::kdr_option(bytes, start, len, k, fields)
}

#[unsafe(no_mangle)]
pub extern "C" fn kdr_write_empty(out: &mut [u8], instruction: u32) -> u64
    ensures { WritesMessageByCode out.old (message instruction Body.empty) result out.new }
{
    sedna_c::kdr_write_empty(out, instruction)
}

#[unsafe(no_mangle)]
pub extern "C" fn kdr_write_session(
    out: &mut [u8],
    instruction: u32,
    major: u8,
    minor: u8,
    user: &[u8],
    database: &[u8],
) -> u64
    ensures { WritesMessageByCode out.old
        (message instruction (Body.session major minor user.now database.now)) result out.new }
{
    sedna_c::kdr_write_session(out, instruction, major, minor, user, database)
}

#[unsafe(no_mangle)]
pub extern "C" fn kdr_write_text(out: &mut [u8], instruction: u32, text: &[u8]) -> u64
    ensures { WritesMessageByCode out.old (message instruction (Body.text text.now)) result out.new }
{
    sedna_c::kdr_write_text(out, instruction, text)
}

#[unsafe(no_mangle)]
pub extern "C" fn kdr_write_statement(
    out: &mut [u8],
    instruction: u32,
    format: u8,
    text: &[u8],
) -> u64
    ensures { WritesMessageByCode out.old (message instruction (Body.statement format text.now)) result out.new }
{
    sedna_c::kdr_write_statement(out, instruction, format, text)
}

#[unsafe(no_mangle)]
pub extern "C" fn kdr_write_coded(out: &mut [u8], instruction: u32, code: u32, text: &[u8]) -> u64
    ensures { WritesMessageByCode out.old (message instruction (Body.coded code text.now)) result out.new }
{
    sedna_c::kdr_write_coded(out, instruction, code, text)
}

#[unsafe(no_mangle)]
pub extern "C" fn kdr_write_item(
    out: &mut [u8],
    instruction: u32,
    class: u8,
    kind: u8,
    part: &[u8],
) -> u64
    ensures { WritesMessageByCode out.old (message instruction (Body.item class kind Url.absent part.now)) result out.new }
{
    sedna_c::kdr_write_item(out, instruction, class, kind, part)
}

#[unsafe(no_mangle)]
pub extern "C" fn kdr_write_item_url(
    out: &mut [u8],
    instruction: u32,
    class: u8,
    kind: u8,
    url: &[u8],
    part: &[u8],
) -> u64
    ensures { WritesMessageByCode out.old
        (message instruction (Body.item class kind (Url.present url.now) part.now)) result out.new }
{
    sedna_c::kdr_write_item_url(out, instruction, class, kind, url, part)
}

#[unsafe(no_mangle)]
pub extern "C" fn kdr_write_options(
    out: &mut [u8],
    instruction: u32,
    ids: &[u32],
    lengths: &[usize],
    values: &[u8],
) -> u64
    ensures { WritesOptionsByCode out.old
        instruction ids.now lengths.now values.now result out.new }
{
    sedna_c::kdr_write_options(out, instruction, ids, lengths, values)
}
