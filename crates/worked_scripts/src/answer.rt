// How a script ends, as text.
use itoa::Buffer;
use khepri_terms::Bytes;
use khepri_terms::texts::print_byte;
use khepri_types::{Outcome, Value};
use line_text::print_reply;
use std::alloc::AllocError;

/// Appends `done` and the values, or `no` and why.
pub fn append_outcome(outcome: &Outcome, out: &mut Vec<u8>) -> Result<(), AllocError> {
    match outcome {
        Outcome::Done(values) => {
            out.extend_from_slice(b"done")?;
            for value in values.as_slice() {
                append_value(value, out)?;
            }
            Ok(())
        }
        Outcome::Abort(text) => {
            out.extend_from_slice(b"no abort ")?;
            append_quoted(text, out)
        }
        Outcome::Spent => out.extend_from_slice(b"no spent"),
        Outcome::Refused(reply) => print_reply(reply, out),
    }
}

// Appends a space and a value.
fn append_value(value: &Value, out: &mut Vec<u8>) -> Result<(), AllocError> {
    out.extend_from_slice(b" ")?;
    match value {
        Value::Int(z) => append_int(*z, out),
        Value::Text(text) => append_quoted(text, out),
        Value::Path(path) => path.print(out),
        Value::Rec(rec) => rec.print(out),
    }
}

fn append_int(z: i64, out: &mut Vec<u8>) -> Result<(), AllocError> {
    let mut digits = Buffer::new();
    out.extend_from_slice(digits.format(z).as_bytes())
}

fn append_quoted(text: &Bytes, out: &mut Vec<u8>) -> Result<(), AllocError> {
    out.extend_from_slice(b"'")?;
    for byte in text.as_slice() {
        print_byte(*byte, out)?;
    }
    Ok(())
}
