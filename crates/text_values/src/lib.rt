// Prints typed values. No part of the library: what programs share.
#![tactic(auto)]

use sedna_value::Value;
use std::io::{self, Write};
use wire::Refusal;

pub fn value<W: Write>(out: &mut W, value: Value) -> io::Result<()> {
    match value {
        Value::Whole(n) => write!(out, "whole {n}"),
        Value::At(at) => {
            let seconds = at.seconds;
            let nanos = at.nanos;
            write!(out, "instant {seconds} {nanos}")
        }
        Value::Boolean(yes) => out.write_all(if yes { b"yes" } else { b"no" }),
        Value::Double(x) => double(out, x),
    }
}

// The sixteen digits of its bits. No value is a NaN, whose bits would be undefined.
fn double<W: Write>(out: &mut W, x: f64) -> io::Result<()> {
    if x == x {
        let bits = f64::to_bits(x);
        write!(out, "double {bits:016X}")
    } else {
        out.write_all(b"double ")
    }
}

pub fn refusal<W: Write>(out: &mut W, r: Refusal) -> io::Result<()> {
    let number = r.number();
    write!(out, "refused {number}")
}

pub fn valued<W: Write>(out: &mut W, valued: Result<Value, Refusal>) -> io::Result<()> {
    match valued {
        Ok(value) => crate::value(out, value),
        Err(r) => refusal(out, r),
    }
}
