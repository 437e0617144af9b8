// The values that a script emitted.
ghost use Rattle.std.specs.Prelude.{◌≡◌, ◌++◌, length, take, IfOk, OnOk, Err, Some, None};
ghost use Rattle.std.specs.List.{flat_map};
ghost use Rattle.khepri_terms.specs.Records.{rec_at};
ghost use Rattle.khepri_types.specs.ReadingOut.{value_at};
ghost use Rattle.khepri_types.specs.ReadingScripts.{read_as};
ghost use Rattle.khepri_types.specs.Texts.{value_text, spaced_value_text};
ghost use Rattle.script_text.specs.Leaves.{value_or_rec, value_or_path};

use crate::leaf::read_quoted;
use crate::printing::{append_int, append_path, append_quoted, append_rec};
use condition_text::words::append_word;
use khepri_terms::numbers::read_int;
use khepri_terms::{Path, Rec, TextFault};
use khepri_types::Value;
use std::alloc::{AllocError, Global};

/// Appends values, each behind a space.
pub fn append_values(values: &[Value], out: &mut Vec<u8>) -> Result<(), AllocError>
    ensures ok { OnOk result (out.new.items ≡ out.old.items ++ flat_map spaced_value_text values.now) }
    ensures front { take (length out.old.items) out.new.items ≡ out.old.items }
{
    for value in values {
        append_spaced(value, out)?;
    }
    Ok(())
}

// Appends a space and a value.
fn append_spaced(value: &Value, out: &mut Vec<u8>) -> Result<(), AllocError>
    ensures ok { OnOk result (out.new.items ≡ out.old.items ++ spaced_value_text value.now) }
    ensures front { take (length out.old.items) out.new.items ≡ out.old.items }
{
    append_word(b" ", out)?;
    append_value(value, out)
}

#[tactic(auto, unfolding(khepri_types::specs::Texts::value_text))]
fn append_value(value: &Value, out: &mut Vec<u8>) -> Result<(), AllocError>
    ensures ok { OnOk result (out.new.items ≡ out.old.items ++ value_text value.now) }
    ensures front { take (length out.old.items) out.new.items ≡ out.old.items }
{
    match value {
        Value::Int(z) => append_int(z, out),
        Value::Text(b) => append_quoted(b, out),
        Value::Path(p) => append_path(p, out),
        Value::Rec(f) => append_rec(f, out),
    }
}

/// The value at the front, and what is after it.
#[tactic(auto, unfolding(khepri_types::specs::ReadingOut::value_at))]
pub fn read_value(alloc: Global, text: &[u8]) -> Result<(Value, &[u8]), TextFault>
    ensures value { IfOk result (λ x. value_at text.now ≡ Some (x.0, x.1.now)) }
    ensures bad { result ≡ Err TextFault.Bad → value_at text.now ≡ None }
{
    match read_int(text) {
        Some((z, rest)) => Ok((Value::Int(z), rest)),
        None => read_text_value(alloc, text),
    }
}

// A text, a path or a record.
fn read_text_value(alloc: Global, text: &[u8]) -> Result<(Value, &[u8]), TextFault>
    ensures value { IfOk result (λ x. value_or_path text.now ≡ Some (x.0, x.1.now)) }
    ensures bad { result ≡ Err TextFault.Bad → value_or_path text.now ≡ None }
{
    match read_quoted(alloc, text) {
        Ok((bytes, rest)) => Ok((Value::Text(bytes), rest)),
        Err(TextFault::Bad) => read_path_value(alloc, text),
        Err(TextFault::NoMemory) => Err(TextFault::NoMemory),
    }
}

// A path or a record.
fn read_path_value(alloc: Global, text: &[u8]) -> Result<(Value, &[u8]), TextFault>
    ensures value { IfOk result (λ x. value_or_rec text.now ≡ Some (x.0, x.1.now)) }
    ensures bad { result ≡ Err TextFault.Bad → value_or_rec text.now ≡ None }
{
    match Path::read(alloc, text) {
        Ok((path, rest)) => Ok((Value::Path(path), rest)),
        Err(TextFault::Bad) => read_rec_value(alloc, text),
        Err(TextFault::NoMemory) => Err(TextFault::NoMemory),
    }
}

// A record.
fn read_rec_value(alloc: Global, text: &[u8]) -> Result<(Value, &[u8]), TextFault>
    ensures value { IfOk result (λ x. read_as Value.Rec (rec_at text.now) ≡ Some (x.0, x.1.now)) }
    ensures bad { result ≡ Err TextFault.Bad → read_as Value.Rec (rec_at text.now) ≡ None }
{
    let (rec, rest) = Rec::read(alloc, text)?;
    Ok((Value::Rec(rec), rest))
}
