// Instants: a dateTime read as a point in time (document 02, request 1), and which of two is earlier.
//
// No function that another crate can call has a `requires`: what is no instant is refused, with 15 or 16.
#![tactic(auto)]

ghost use Rattle.std.specs.Prelude.{◌≡◌};
ghost use Rattle.sedna_instant.specs.Orders.{ordered};

use std::cmp::Ordering;
use wire::Refusal;

mod calendar;
mod fields;
pub mod read;

// Seconds from 1970-01-01T00:00:00Z, and nanoseconds on top, before 1970 too.
#[derive(Clone, Copy, PartialEq, Eq, PartialOrd)]
pub struct Instant {
    pub seconds: i64,
    pub nanos: u32,
}

// The derived order, which `PartialOrd` has, judges both fields for each pair. This one is the same, as its laws say.
impl Ord for Instant {
    ghost use Rattle.std.specs.Cmp.Rules.{comparing};
    ghost use Rattle.std.specs.Ordering.{on, then_cmp, int_cmp, nat_cmp};
    ghost use Rattle.std.proofs.Common.{rules};

    ghost cmp = { then_cmp (on (λ a. a.seconds) int_cmp) (on (λ a. a.nanos) nat_cmp) };

    ghost total = { Prim.search comparing };

    ghost matches_partial_cmp = { Prim.search (comparing, rules) };

    ghost matches_eq = { Prim.search (comparing, rules) };

    fn cmp(&self, other: &Instant) -> Ordering {
        if self.seconds == other.seconds {
            self.nanos.cmp(&other.nanos)
        } else if self.seconds < other.seconds {
            Ordering::Less
        } else {
            Ordering::Greater
        }
    }
}

// How the first instant lies to the second: by seconds, then by nanoseconds, and by nothing else.
pub fn compare(a: Instant, b: Instant) -> Ordering
    ensures { result ≡ ordered a b }
{
    a.cmp(&b)
}
