// The error of a response.
ghost use Rattle.std.specs.Prelude.{length};
ghost use Rattle.basex_c.specs.Codes.{Tells};
ghost use Rattle.basex_c.specs.Told.{error_read};

#[unsafe(no_mangle)]
pub extern "C" fn kdr_basex_error(kind: u8, response: &[u64], place: &mut [u64]) -> u64
    ensures { Tells (error_read kind response.now (length place.old)) place.old result place.new }
{
    basex_c::kdr_basex_error(kind, response, place)
}
