// Where the error of a failed request stands.
ghost use Rattle.std.specs.Prelude.{◌≡◌};
ghost use Rattle.basex_response.specs.Errors.{error_at};

use basex::Reply;
use wire::Place;

// Of a response with status 1, by how long its texts are: of COMMAND, CREATE, ADD, PUT and PUTBINARY
// the last text ahead of the status, of the others the one behind it.
pub fn error_at(reply: Reply, first: usize, second: usize, listed: usize, error: usize) -> Place
    ensures { result ≡ error_at reply first second listed error }
{
    if basex::error_behind(reply) {
        let start = if basex::is_listed(reply) {
            listed
        } else {
            first
        };
        return Place { start, len: error };
    }
    if 1 < basex::strings_ahead(reply) {
        return Place {
            start: first,
            len: second,
        };
    }
    Place {
        start: 0,
        len: first,
    }
}
