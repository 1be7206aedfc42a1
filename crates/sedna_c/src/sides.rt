// Sides as numbers.
ghost use Rattle.std.specs.Prelude.{◌≡◌};
ghost use Rattle.sedna_c.specs.Codes.{sender_of};

use sedna::Side;

pub fn sender_of(side: u8) -> Option<Side>
    ensures { result ≡ sender_of side }
{
    match side {
        1 => Some(Side::Client),
        2 => Some(Side::Server),
        _ => None,
    }
}
