// What a message is to an assembly.
ghost use Rattle.std.specs.Prelude.{◌≡◌, List, ℕ};
ghost use Rattle.sedna.specs.Message.{message};
ghost use Rattle.sedna_read.specs.Meaning.{body_in};
ghost use Rattle.parts_join.specs.Roles.{statement_role, item_role, typed_item_role, open_role, together, role_of, takes, in_order, ends};

use crate::body::shape_in;
use crate::{Open, Role};
use sedna::names;
use sedna_read::Places;

fn statement_role(instruction: u32) -> Role
    ensures { result ≡ statement_role instruction }
{
    match instruction {
        names::EXECUTE => Role::Sole,
        names::EXECUTE_LONG => Role::Part,
        names::LONG_QUERY_END => Role::End,
        _ => Role::Other,
    }
}

fn item_role(instruction: u32) -> Role
    ensures { result ≡ item_role instruction }
{
    match instruction {
        names::ITEM_PART => Role::Part,
        names::ITEM_END | names::RESULT_END => Role::End,
        _ => Role::Other,
    }
}

fn typed_item_role(instruction: u32) -> Role
    ensures { result ≡ typed_item_role instruction }
{
    match instruction {
        names::ITEM_START => Role::Start,
        names::ITEM_PART => Role::Further,
        names::ITEM_END | names::RESULT_END => Role::End,
        _ => Role::Other,
    }
}

fn open_role(what: Open, instruction: u32) -> Role
    ensures { result ≡ open_role what instruction }
{
    match what {
        Open::Nothing => Role::Other,
        Open::Statement => statement_role(instruction),
        Open::Item => item_role(instruction),
        Open::TypedItem => typed_item_role(instruction),
    }
}

// Whether the body is of the shape that the table gives the instruction.
#[tactic(auto, unfolding(crate::specs::Roles::together))]
fn together(instruction: u32, places: Places) -> bool
    ensures { (s : List ℕ) → result ≡ together instruction (body_in s places) }
{
    sedna::fits(instruction, shape_in(places)).is_ok()
}

#[tactic(auto, unfolding(crate::specs::Roles::role_of))]
pub fn role_in(what: Open, instruction: u32, places: Places) -> Role
    ensures { (s : List ℕ) → result ≡ role_of what (message instruction (body_in s places)) }
{
    if together(instruction, places) {
        open_role(what, instruction)
    } else {
        Role::Other
    }
}

impl Role {
    pub fn takes(self) -> bool
        ensures { result ≡ takes self }
    {
        !matches!(self, Role::Other)
    }

    pub fn in_order(self, begun: bool) -> bool
        ensures { result ≡ in_order self begun }
    {
        match self {
            Role::Other => false,
            Role::Part => true,
            Role::Sole | Role::Start => !begun,
            Role::Further | Role::End => begun,
        }
    }

    pub fn ends(self) -> bool
        ensures { result ≡ ends self }
    {
        matches!(self, Role::Sole | Role::End)
    }
}
