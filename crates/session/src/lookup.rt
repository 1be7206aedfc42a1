// The machine as a look-up in the one table of moves. It answers as `machine::next` does, from whatever
// phase and in whatever version. A refused move is `phase::REFUSED`, no None: said there.
ghost use Rattle.std.specs.Prelude.{◌≡◌, ◌==◌, ◌-◌, position};
ghost use Rattle.sedna.specs.Table.{rows};
ghost use Rattle.session.specs.Machine.{next as next_of};
ghost use Rattle.session.specs.Sheet.{sheet as sheet_of, counted_of, entry_in, look_up};

use crate::phase;
use crate::phase::REFUSED;
use crate::table::{Column, NEXT};

// The place of a version's entry among the four of a phase. A record may hold any version: below 1.0 it
// is read as 1.0, above 4.0 as 4.0.
fn slot(version: u8) -> usize
    ensures { result ≡ counted_of version - 1 }
{
    usize::from(version.clamp(1, 4)) - 1
}

// What a column has for a phase and a version; above the last phase, the mark.
#[tactic(auto, unfolding(crate::specs::Sheet::entry_in))]
fn entry(column: &Column, at: u8, version: u8) -> u8
    ensures { result ≡ entry_in column.now at version }
{
    if phase::CLOSED < at {
        REFUSED
    } else {
        column.0[usize::from(at) * 4 + slot(version)]
    }
}

// Where the table of instructions has an instruction, and so the table of moves its column.
fn place(i: u32) -> Option<usize>
    ensures { result ≡ position (λ e. e.0 == i) rows }
{
    sedna::table().iter().position(|e| e.0 == i)
}

// The move by any instruction; by one that the table lacks, the mark.
fn look_up(columns: &[Column; 46], at: u8, version: u8, i: u32) -> u8
    ensures { result ≡ look_up columns.now at version i }
{
    match place(i) {
        Some(j) => entry(&columns[j], at, version),
        None => REFUSED,
    }
}

// The phase that an instruction leads to.
pub fn next(at: u8, version: u8, i: u32) -> u8
    ensures { result ≡ next_of at version i }
{
    look_up(&NEXT, at, version, i)
}

// The table, tied to what its rule asks for.
pub fn sheet() -> [Column; 46]
    ensures { result ≡ sheet_of }
{
    NEXT
}
