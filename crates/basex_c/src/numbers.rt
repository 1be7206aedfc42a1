// The numbers that a call tells, in front of those that are lent.
ghost use Rattle.std.specs.Prelude.{length};
ghost use Rattle.basex_c.specs.Codes.{Outcome, lent, Tells};

use answer_c::refusal_code;
use wire::Refusal;

// All of them, and the count is answered; or 10 and none, where fewer are lent.
pub(crate) fn tell(told: &mut [u64], count: u64, numbers: &[u64]) -> u64
    ensures { Tells (lent (length told.old) (Outcome.counted count numbers.now)) told.old result told.new }
{
    if told.len() < numbers.len() {
        return refusal_code(Refusal::NoRoom);
    }
    told[..numbers.len()].copy_from_slice(numbers);
    count
}
