// Reading, and the session.
ghost use Rattle.std.specs.Prelude.{◌≡◌};
ghost use Rattle.wire.specs.Call.{Gives};
ghost use Rattle.sedna_c.specs.Codes.{side_reading, TellsReading};
ghost use Rattle.sedna_c.specs.Sessions.{fresh_code, fresh_after, Steps, closed_code, turn_code};

#[unsafe(no_mangle)]
pub extern "C" fn kdr_fresh(session: &mut [u8]) -> u64
    ensures { Gives (fresh_code session.old) (fresh_after session.old) result session.new }
{
    sedna_c::kdr_fresh(session)
}

#[unsafe(no_mangle)]
pub extern "C" fn kdr_read(side: u8, bytes: &[u8], fields: &mut [u64]) -> u64
    ensures { TellsReading (side_reading side bytes.now) fields.old result fields.new }
{
    sedna_c::kdr_read(side, bytes, fields)
}

#[unsafe(no_mangle)]
pub extern "C" fn kdr_step(session: &mut [u8], side: u8, bytes: &[u8], fields: &mut [u64]) -> u64
    ensures { Steps session.old side bytes.now fields.old result session.new fields.new }
{
    sedna_c::kdr_step(session, side, bytes, fields)
}

#[unsafe(no_mangle)]
pub extern "C" fn kdr_closed(session: &[u8]) -> u8
    ensures { result ≡ closed_code session.now }
{
    sedna_c::kdr_closed(session)
}

#[unsafe(no_mangle)]
pub extern "C" fn kdr_turn(session: &[u8]) -> u8
    ensures { result ≡ turn_code session.now }
{
    sedna_c::kdr_turn(session)
}
