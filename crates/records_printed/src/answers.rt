// What a record is answered.
ghost use Rattle.std.specs.Prelude.{◌≡◌};
ghost use Rattle.records_printed.specs.Answer.{answered};
ghost use Rattle.records_printed.specs.inner.Line.{refused_with};
ghost use Rattle.records.specs.Record.{record_of};

use crate::Answered;
use sedna::Side;
use session::Session;
use wire::Refusal;

// The number of a step's refusal. 9 is for a message that reads well: bytes after it are 7, ahead
// of 9.
fn refused_with(refusal: Refusal, payload: &[u8]) -> u8
    ensures { result ≡ refused_with payload.now refusal }
{
    if refusal == Refusal::OutOfOrder && 8 + (wire::get_int(payload, 4) as usize) < payload.len() {
        Refusal::BytesLeftOver.number()
    } else {
        refusal.number()
    }
}

// What a record is answered, and the session after it. One call of the step reads the payload; where
// bytes are left over, what it made of the session is dropped.
pub fn answer(session: Session, side: Side, payload: &[u8]) -> Answered
    ensures { result ≡ answered session (record_of side payload.now) }
{
    let step = session::step(session, side, payload);
    let after = step.session;
    match step.answer {
        Err(refusal) => Answered {
            number: refused_with(refusal, payload),
            session,
        },
        Ok(m) if m.count < payload.len() => {
            let number = Refusal::BytesLeftOver.number();
            Answered { number, session }
        }
        Ok(_) => Answered {
            number: 0,
            session: after,
        },
    }
}
