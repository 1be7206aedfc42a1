// Joins the parts of a statement or an item: a record by value beside the caller's buffer. An
// assembly is 01's gathering: the record says what is open and how many bytes the buffer holds.
// 01's word for an assembly that overflowed is spoilt.
#![tactic(auto)]

ghost use Rattle.std.specs.Prelude.{Ok, ◌≡◌, List, ℕ, ◌+◌, ◌<◌, ◌^◌, length};
ghost use Rattle.sedna.specs.Message.{message};
ghost use Rattle.sedna_read.specs.Meaning.{body_in};
ghost use Rattle.parts_join.specs.Answers.{reply, bytes_handed};
ghost use Rattle.parts_join.specs.Roles.{text_of};
ghost use Rattle.parts_join.specs.Joining.{opened, closed, refused, marked, grown, whole_of, accepted, fitted, joined_as, joined};
ghost use Rattle.parts_join.specs.Joining.{JoinGives, Hands};

use body::{allowed_in, label_in, text_in};
use roles::role_in;
use sedna_read::Places;
use wire::Refusal;

mod body;
mod roles;

// What is being joined: a statement, an item up to 3.0, or an item of 4.0.
#[derive(Clone, Copy)]
pub enum Open {
    Nothing,
    Statement,
    Item,
    TypedItem,
}

// What the first part says of the whole: a statement's format, or a typed item's class and type; 0
// where it says nothing.
#[derive(Clone, Copy)]
pub struct Label {
    pub format: u8,
    pub class: u8,
    pub kind: u8,
}

// What is open, whether a part was taken, how many bytes the buffer holds, whether a part found no
// room, and what the first part said.
#[derive(Clone, Copy)]
pub struct Assembly {
    pub what: Open,
    pub begun: bool,
    pub held: usize,
    pub overflowed: bool,
    pub label: Label,
}

// What a message is to an assembly: of another kind; the only part, which also ends it; a part
// wherever it stands; a part that must come first; a part that must not; the end.
#[derive(Clone, Copy)]
pub enum Role {
    Other,
    Sole,
    Part,
    Start,
    Further,
    End,
}

// A part was taken; or all is there, and stands in the first `len` bytes of the buffer.
#[derive(Clone, Copy)]
pub enum Answer {
    Part,
    Statement { format: u8, len: usize },
    Item { len: usize },
    TypedItem { class: u8, kind: u8, len: usize },
}

// What joining a message returns: the record after it, and the answer.
#[derive(Clone, Copy)]
pub struct Joined {
    pub assembly: Assembly,
    pub answer: Result<Answer, Refusal>,
}

impl Label {
    // Where nothing is said.
    pub const NONE: Label = Label {
        format: 0,
        class: 0,
        kind: 0,
    };
}

impl Assembly {
    // Nothing is open.
    pub const CLOSED: Assembly = Assembly {
        what: Open::Nothing,
        begun: false,
        held: 0,
        overflowed: false,
        label: Label::NONE,
    };

    // The constant, tied to its definition.
    pub fn closed() -> Assembly
        ensures { result ≡ closed }
    {
        Assembly::CLOSED
    }

    // Opens a statement or an item. Whatever record was kept before is dropped by keeping this one.
    pub fn open(what: Open) -> Assembly
        ensures { result ≡ opened what }
    {
        Assembly {
            what,
            ..Assembly::CLOSED
        }
    }

    fn refused(self, refusal: Refusal) -> Joined
        ensures { result ≡ refused refusal self }
    {
        Joined {
            assembly: self,
            answer: Err(refusal),
        }
    }

    // A part found no room.
    fn marked(self) -> Assembly
        ensures { result ≡ marked self }
    {
        Assembly {
            overflowed: true,
            ..self
        }
    }

    // A part of n bytes was taken, or an end, of none. The first part's label counts.
    fn grown(self, label: Label, n: usize) -> Assembly
        requires { self.held + n < 2 ^ 64 }
        ensures { result ≡ grown self label n }
    {
        Assembly {
            begun: true,
            held: self.held + n,
            label: if self.begun { self.label } else { label },
            ..self
        }
    }

    // What is handed over. Where nothing is open no end is taken, and the first arm serves no call.
    fn whole(self) -> Answer
        ensures { Ok result ≡ whole_of self.what self.label self.held }
    {
        let len = self.held;
        let Label {
            format,
            class,
            kind,
        } = self.label;
        match self.what {
            Open::Nothing => Answer::Part,
            Open::Statement => Answer::Statement { format, len },
            Open::Item => Answer::Item { len },
            Open::TypedItem => Answer::TypedItem { class, kind, len },
        }
    }

    // The answer to a part or an end that was taken. An accepted end closes the assembly.
    fn accepted(self, role: Role) -> Joined
        ensures { result ≡ accepted self role }
    {
        if role.ends() {
            Joined {
                assembly: Assembly::CLOSED,
                answer: Ok(self.whole()),
            }
        } else {
            Joined {
                assembly: self,
                answer: Ok(Answer::Part),
            }
        }
    }

    // 12 where n bytes more are too many for the room.
    #[tactic(auto, unfolding(crate::specs::Joining::fitted))]
    fn fitted(self, role: Role, label: Label, n: usize, room: usize) -> Joined
        ensures { result ≡ fitted self role label n room }
    {
        if wire::has_room(room, self.held, n) {
            self.grown(label, n).accepted(role)
        } else {
            self.marked().refused(Refusal::BufferOverrun)
        }
    }

    // 9 for another kind; 12 once overflowed; 9 out of order; then the room.
    #[tactic(auto, unfolding(crate::specs::Joining::joined_as))]
    fn joined_as(self, role: Role, label: Label, n: usize, room: usize) -> Joined
        ensures { result ≡ joined_as self role label n room }
    {
        if !role.takes() {
            return self.refused(Refusal::OutOfOrder);
        }
        if self.overflowed {
            return self.refused(Refusal::BufferOverrun);
        }
        if !role.in_order(self.begun) {
            return self.refused(Refusal::OutOfOrder);
        }
        self.fitted(role, label, n, room)
    }

    // The answer and the record, for a message that adds n bytes. 8 ahead of all.
    #[tactic(auto, unfolding(crate::specs::Joining::joined))]
    fn judge(self, instruction: u32, places: Places, n: usize, room: usize) -> Joined
        ensures { (s : List ℕ) → n ≡ length (text_of (body_in s places)) → result ≡ joined self room (message instruction (body_in s places)) }
    {
        if !allowed_in(places) {
            return self.refused(Refusal::ValueNotAllowed);
        }
        let role = role_in(self.what, instruction, places);
        self.joined_as(role, label_in(places), n, room)
    }
}

// Joins a message that was read: its instruction, the places of its fields, and the bytes that it was
// read from. The text of a part goes behind what the buffer holds; a part that finds no room is not
// stored at all. What was read is not one parameter, a `Reading`: docs/CLAIMS.md names this function.
pub fn join(
    a: Assembly,
    buffer: &mut [u8],
    instruction: u32,
    places: Places,
    bytes: &[u8],
) -> Joined
    ensures { JoinGives a buffer.old (message instruction (body_in bytes.now places)) result buffer.new }
{
    let part = wire::part(bytes, text_in(places));
    let joined = a.judge(instruction, places, part.len(), buffer.len());
    if joined.answer.is_ok() {
        wire::put_bytes(buffer, a.held, part);
    }
    joined
}

// How many bytes an answer hands over: none, but for what is finished.
fn bytes_handed(answer: Result<Answer, Refusal>) -> usize
    ensures { result ≡ bytes_handed (reply answer) }
{
    match answer {
        Ok(Answer::Statement { len, .. } | Answer::Item { len } | Answer::TypedItem { len, .. }) =>
            len,
        Ok(Answer::Part) | Err(_) => 0,
    }
}

// What an answer hands over: the front part of the buffer, where it stands, with no copy; shared, so
// that nothing is changed. Where the buffer is shorter than that, which the one that the answer was
// given for never is, all of it.
pub fn handed<'a>(buffer: &'a [u8], answer: Result<Answer, Refusal>) -> &'a [u8]
    ensures { Hands answer buffer.now buffer.entry.ref_ptr result.now result.ref_ptr }
{
    let len = bytes_handed(answer);
    if len <= buffer.len() {
        &buffer[..len]
    } else {
        buffer
    }
}
