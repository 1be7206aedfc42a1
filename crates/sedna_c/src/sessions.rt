// Reading, and the session: the caller keeps its record in two bytes, phase and version, and lends
// them. A step that is refused, or whose fields have no room, changes nothing.
ghost use Rattle.std.specs.Prelude.{◌≡◌, ◌≤◌, length};
ghost use Rattle.wire.specs.Bytes.{if};
ghost use Rattle.wire.specs.Call.{Gives};
ghost use Rattle.session.specs.Machine.{move_of};
ghost use Rattle.sedna_c.specs.Codes.{side_reading, TellsReading};
ghost use Rattle.sedna_c.specs.Sessions.{record_in, record_put, fresh_code, fresh_after, Steps, closed_code, turn_code, turn_number};
ghost use Rattle.sedna_c.specs.inner.Taking.{phase_after, Settles, Takes};

use crate::sides::sender_of;
use crate::store_places;
use answer_c::refusal_code;
use sedna::{Shape, Side};
use sedna_read::Reading;
use session::Session;
use session::machine::next_found;
use session::phase::REFUSED;
use wire::Refusal;

// Two bytes of a slice, not an array: C lends them with their count, and shorter ones are refused.
fn record_in(session: &[u8]) -> Session
    requires { 2 ≤ length session.now }
    ensures { result ≡ record_in session.now }
{
    Session {
        phase: session[0],
        version: session[1],
    }
}

fn put(session: &mut [u8], after: Session)
    requires { 2 ≤ length session.old }
    ensures { session.new ≡ record_put after session.old }
{
    session[0] = after.phase;
    session[1] = after.version;
}

// Puts a fresh session into the first two bytes.
pub fn kdr_fresh(session: &mut [u8]) -> u64
    ensures { Gives (fresh_code session.old) (fresh_after session.old) result session.new }
{
    if session.len() < 2 {
        return refusal_code(Refusal::NoRoom);
    }
    put(session, Session::FRESH);
    0
}

// An answer as a number; what was accepted goes to the lent fields, and is kept in the record, with
// that phase after it. All or nothing.
// A number, not a Result: C reads it.
fn answer_code(
    answer: Result<Reading, Refusal>,
    phase: u8,
    session: &mut [u8],
    fields: &mut [u64],
) -> u64
    requires { 2 ≤ length session.old }
    ensures { Settles answer phase session.old fields.old result session.new fields.new }
{
    match answer {
        Err(r) => refusal_code(r),
        Ok(m) => {
            if fields.len() < 10 {
                return refusal_code(Refusal::NoRoom);
            }
            let after = session::after(record_in(session), phase, answer);
            put(session, after);
            store_places(fields, m.instruction, m.places);
            m.count as u64
        }
    }
}

// The phase after a step with the instruction i; for reading alone, any.
fn phase_after(stepping: bool, found: Option<(Side, Shape)>, session: &[u8], i: u32) -> u8
    requires { 2 ≤ length session.now }
    ensures { result
        ≡ if stepping (move_of found (record_in session.now).phase (record_in session.now).version i) 0 }
{
    if stepping {
        let before = record_in(session);
        next_found(found, before.phase, before.version, i)
    } else {
        0
    }
}

// Reads a message for both exports, and judges 9 where no phase is after it. Its instruction is
// found once. The one call of the reader: the compiler then makes one function of the two, and no
// message is put together in memory. So the exports differ by a bool and not by a closure, for which
// the reader would be compiled twice.
fn take(side: u8, bytes: &[u8], stepping: bool, session: &mut [u8], fields: &mut [u64]) -> u64
    requires { 2 ≤ length session.old }
    ensures { Takes side bytes.now (phase_after stepping (record_in session.old) bytes.now)
        session.old fields.old result session.new fields.new }
{
    let Some(s) = sender_of(side) else {
        return refusal_code(Refusal::ValueNotAllowed);
    };
    let i = wire::get_int(bytes, 0);
    let found = sedna::find(i);
    let phase = phase_after(stepping, found, session, i);
    let answer = sedna_read::read_found(found, s, bytes, phase != REFUSED);
    answer_code(answer, phase, session, fields)
}

// Reads the message at the front of bytes: side 1 is the client, 2 the server. The fields are
// instruction, shape, two numbers, two places, a count and whether there is a URL; see fields_of.
pub fn kdr_read(side: u8, bytes: &[u8], fields: &mut [u64]) -> u64
    ensures { TellsReading (side_reading side bytes.now) fields.old result fields.new }
{
    // No heap, here or in the programs: arrays are lent.
    let mut no_session = [0u8; 2];
    take(side, bytes, false, &mut no_session, fields)
}

// The step on the record in the first two bytes, with the message at the front of bytes, which side
// sent: 1 is the client, 2 the server. The fields are those of kdr_read.
pub fn kdr_step(session: &mut [u8], side: u8, bytes: &[u8], fields: &mut [u64]) -> u64
    ensures { Steps session.old side bytes.now fields.old result session.new fields.new }
{
    if session.len() < 2 {
        return refusal_code(Refusal::NoRoom);
    }
    take(side, bytes, true, session, fields)
}

// Whether the conversation is over: 1 or 0.
pub fn kdr_closed(session: &[u8]) -> u8
    ensures { result ≡ closed_code session.now }
{
    u8::from(2 <= session.len() && session::closed(record_in(session)))
}

// A turn as a side's number; 0 where the conversation is over.
// A number, not an Option: C reads it.
fn turn_number(turn: Option<Side>) -> u8
    ensures { result ≡ turn_number turn }
{
    match turn {
        Some(Side::Client) => 1,
        Some(Side::Server) => 2,
        None => 0,
    }
}

// Whose turn it is: 1 the client's, 2 the server's, 0 where the conversation is over.
pub fn kdr_turn(session: &[u8]) -> u8
    ensures { result ≡ turn_code session.now }
{
    if session.len() < 2 {
        0
    } else {
        turn_number(session::whose_turn(record_in(session)))
    }
}
