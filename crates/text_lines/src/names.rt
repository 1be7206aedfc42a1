// The documents' words for the refusals.
use std::io::{self, Write};
use wire::Refusal;

// The table "Refusal numbers", with those that document 02 adds.
fn meaning(r: Refusal) -> &'static str {
    match r {
        Refusal::MoreBytes => "more bytes are needed",
        Refusal::UnknownInstruction => "unknown instruction, or BaseX first byte",
        Refusal::OtherSide => "instruction of the other side",
        Refusal::BodyTooLong => "body length above 10,240",
        Refusal::FieldCut => "the body ends inside a field",
        Refusal::StringFormat => "string format byte not 0",
        Refusal::BytesLeftOver => "bytes left over",
        Refusal::ValueNotAllowed => "value not allowed",
        Refusal::OutOfOrder =>
            "no conversation goes on with this message; a part or an end that no open gathering takes",
        Refusal::NoRoom => "lent output shorter than the bytes to be put there",
        Refusal::NoEncoding => "value has no encoding (body above 10,240; BaseX command start)",
        Refusal::BufferOverrun => "item or statement longer than its gathering buffer",
        Refusal::BadEscape => "FF followed by a byte other than 00 or FF",
        Refusal::NoSuchPart => "no such part of a cut",
        Refusal::NotOfForm => "another class, a type not named, or text not of its form",
        Refusal::OutOfRange => {
            "value out of range, a missing zone, more digits than named, or a double with an exponent, INF or NaN"
        }
    }
}

pub fn refused<W: Write>(out: &mut W, r: Refusal) -> io::Result<()> {
    let number = r.number();
    let words = meaning(r);
    write!(out, "refused {number}, {words}")
}
