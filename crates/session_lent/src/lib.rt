// The step over a session record that is lent, where the gateway keeps it.
#![tactic(auto)]

ghost use Rattle.std.specs.Prelude.{◌≡◌};
ghost use Rattle.session.specs.Step.{stepped};
ghost use Rattle.session_lent.specs.Lent.{StepsLent};

use sedna::Side;
use sedna_read::Reading;
use session::{Session, Stepped, step};
use wire::Refusal;

// The step by value, on the record where it lies. A refused step leaves it as it was.
pub fn step_lent(s: &mut Session, side: Side, bytes: &[u8]) -> Result<Reading, Refusal>
    ensures { StepsLent s.old side bytes.now result s.new }
{
    let out = step(*s, side, bytes);
    *s = out.session;
    out.answer
}

// The step over a record that is kept here and lent for the call, for callers that hold it by value.
pub fn step_kept(session: Session, side: Side, bytes: &[u8]) -> Stepped
    ensures { result ≡ stepped session side bytes.now }
{
    let mut kept = session;
    let answer = step_lent(&mut kept, side, bytes);
    Stepped {
        answer,
        session: kept,
    }
}
