// Prints the rules of a session as a sheet, comma-separated text. The first line is
//     phase,instruction,1.0,2.0,3.0,4.0
// Then comes a line for each phase, the fresh one first, and each instruction, in document 01's order: both
// names, and under each version the next phase, or - where the move is refused.
#![tactic(auto)]

ghost use Rattle.std.specs.Prelude.{◌<◌};

mod names;

use session::lookup::sheet;
use session::table::Column;
use std::io::{self, Write};
use text_lines::output::Output;

// The line of a phase and an instruction, with its column of the table.
fn line<W: Write>(to: &mut W, at: u8, instruction: u32, column: Column) -> io::Result<()>
    requires { at < 31 }
{
    let cells = column.0;
    let first = at as usize * 4;
    let phase = names::of(at);
    let name = text_sedna::names::name(instruction);
    write!(to, "{phase},{name}")?;
    for cell in &cells[first..first + 4] {
        let next = names::of(*cell);
        write!(to, ",{next}")?;
    }
    to.write_all(b"\n")
}

fn print<W: Write>(to: &mut W) -> io::Result<()> {
    to.write_all(b"phase,instruction,1.0,2.0,3.0,4.0\n")?;
    let columns = sheet();
    for at in 0..31 {
        for (entry, column) in sedna::table().into_iter().zip(columns) {
            line(to, at, entry.0, column)?;
        }
    }
    Ok(())
}

fn main(rt: HostRuntime) -> io::Result<()> {
    print(&mut Output {
        to: io::writer(&rt),
    })
}
