// Requests.
ghost use Rattle.std.specs.Prelude.{length};
ghost use Rattle.basex_request.specs.Calls.{four};
ghost use Rattle.basex_request.specs.Reading.{reading, text_bytes};
ghost use Rattle.basex_request.specs.Writing.{written, bytes_of};
ghost use Rattle.basex_c.specs.Codes.{Reads};
ghost use Rattle.answer_c.specs.Codes.{WritesByCode};
ghost use Rattle.basex_c.specs.Told.{bytes_read, request_read};

#[unsafe(no_mangle)]
pub extern "C" fn kdr_basex_read_request(bytes: &[u8], out: &mut [u8], told: &mut [u64]) -> u64
    ensures { Reads (request_read bytes.now (length out.old) (length told.old))
        out.old 0 (bytes_read text_bytes (reading bytes.now)) told.old
        result out.new told.new }
{
    basex_c::kdr_basex_read_request(bytes, out, told)
}

#[unsafe(no_mangle)]
pub extern "C" fn kdr_basex_write_request(
    out: &mut [u8],
    kind: u8,
    first: &[u8],
    second: &[u8],
    third: &[u8],
    fourth: &[u8],
) -> u64
    ensures { WritesByCode
        (written (length out.old) kind (four first.now second.now third.now fourth.now))
        out.old 0
        (bytes_of kind (four first.now second.now third.now fourth.now)) result out.new }
{
    basex_c::kdr_basex_write_request(out, kind, first, second, third, fourth)
}
