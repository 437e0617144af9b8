// What stands in expressions and statements beside other expressions.
ghost use Rattle.std.specs.Prelude.{◌≡◌, IfOk, Err, Some, None};
ghost use Rattle.khepri_terms.specs.Numbers.{int_at};
ghost use Rattle.khepri_types.specs.Items.{ended, uncounted};
ghost use Rattle.khepri_types.specs.ReadingConditions.{after_byte, condition_at, key_at, pattern_at};
ghost use Rattle.khepri_types.specs.ReadingScripts.{quoted_at, register_named};
ghost use Rattle.script_text.specs.Forms.{key_and};

use crate::leaf::{read_quoted, read_register};
use condition_text::words::read_mark;
use condition_text::{read_condition, read_key, read_pattern};
use khepri_terms::numbers::read_int;
use khepri_terms::{Bytes, Name, TextFault};
use khepri_types::{Condition, Pattern, Register};
use std::alloc::Global;

/// `KEY,`.
pub(crate) fn read_key_part(
    alloc: Global,
    left: usize,
    text: &[u8],
) -> Result<(Name, usize, &[u8]), TextFault>
    ensures value { IfOk result (λ x. ended 44 (uncounted key_at) left text.now ≡ Some (x.0, x.1, x.2.now)) }
    ensures bad { result ≡ Err TextFault.Bad → ended 44 (uncounted key_at) left text.now ≡ None }
{
    let (key, rest) = read_key(alloc, text)?;
    let (key, rest) = marked(key, b',', rest)?;
    Ok((key, left, rest))
}

/// `KEY,INT)`.
pub(crate) fn read_key_int(
    alloc: Global,
    left: usize,
    text: &[u8],
) -> Result<(Name, i64, usize, &[u8]), TextFault>
    ensures value { IfOk result (λ x. key_and (uncounted int_at) left text.now ≡ Some ((x.0, x.1), x.2, x.3.now)) }
    ensures bad { result ≡ Err TextFault.Bad → key_and (uncounted int_at) left text.now ≡ None }
{
    let (key, left, rest) = read_key_part(alloc, left, text)?;
    let (z, left, rest) = read_int_closed(left, rest)?;
    Ok((key, z, left, rest))
}

/// `KEY,'BYTES)`.
pub(crate) fn read_key_quoted(
    alloc: Global,
    left: usize,
    text: &[u8],
) -> Result<(Name, Bytes, usize, &[u8]), TextFault>
    ensures value { IfOk result (λ x. key_and (uncounted quoted_at) left text.now ≡ Some ((x.0, x.1), x.2, x.3.now)) }
    ensures bad { result ≡ Err TextFault.Bad → key_and (uncounted quoted_at) left text.now ≡ None }
{
    let (key, left, rest) = read_key_part(alloc, left, text)?;
    let (bytes, left, rest) = read_quoted_closed(alloc, left, rest)?;
    Ok((key, bytes, left, rest))
}

/// A value, and what is after this byte at the front; the value goes where the byte does not stand there.
pub(crate) fn marked<T: Drop>(value: T, mark: u8, text: &[u8]) -> Result<(T, &[u8]), TextFault>
    ensures value { IfOk result (λ x. (x.0 ≡ value) × (after_byte mark text.now ≡ Some x.1.now)) }
    ensures bad { result ≡ Err TextFault.Bad → after_byte mark text.now ≡ None }
{
    match read_mark(text, mark) {
        Ok(rest) => Ok((value, rest)),
        Err(fault) => Err(fault),
    }
}

// `INT)`.
fn read_int_closed(left: usize, text: &[u8]) -> Result<(i64, usize, &[u8]), TextFault>
    ensures value { IfOk result (λ x. ended 41 (uncounted int_at) left text.now ≡ Some (x.0, x.1, x.2.now)) }
    ensures bad { result ≡ Err TextFault.Bad → ended 41 (uncounted int_at) left text.now ≡ None }
{
    let Some((z, rest)) = read_int(text) else {
        return Err(TextFault::Bad);
    };
    let rest = read_mark(rest, b')')?;
    Ok((z, left, rest))
}

// `'BYTES)`.
fn read_quoted_closed(
    alloc: Global,
    left: usize,
    text: &[u8],
) -> Result<(Bytes, usize, &[u8]), TextFault>
    ensures value { IfOk result (λ x. ended 41 (uncounted quoted_at) left text.now ≡ Some (x.0, x.1, x.2.now)) }
    ensures bad { result ≡ Err TextFault.Bad → ended 41 (uncounted quoted_at) left text.now ≡ None }
{
    let (bytes, rest) = read_quoted(alloc, text)?;
    let (bytes, rest) = marked(bytes, b')', rest)?;
    Ok((bytes, left, rest))
}

/// `COND)`.
pub(crate) fn read_condition_closed(
    alloc: Global,
    left: usize,
    text: &[u8],
) -> Result<(Condition, usize, &[u8]), TextFault>
    ensures value { IfOk result (λ x. ended 41 (uncounted condition_at) left text.now ≡ Some (x.0, x.1, x.2.now)) }
    ensures bad { result ≡ Err TextFault.Bad → ended 41 (uncounted condition_at) left text.now ≡ None }
{
    let (cond, rest) = read_condition(alloc, text)?;
    let (cond, rest) = marked(cond, b')', rest)?;
    Ok((cond, left, rest))
}

/// `PATTERN)`.
pub(crate) fn read_pattern_closed(
    alloc: Global,
    left: usize,
    text: &[u8],
) -> Result<(Pattern, usize, &[u8]), TextFault>
    ensures value { IfOk result (λ x. ended 41 (uncounted pattern_at) left text.now ≡ Some (x.0, x.1, x.2.now)) }
    ensures bad { result ≡ Err TextFault.Bad → ended 41 (uncounted pattern_at) left text.now ≡ None }
{
    let (pattern, rest) = read_pattern(alloc, text)?;
    let (pattern, rest) = marked(pattern, b')', rest)?;
    Ok((pattern, left, rest))
}

/// `REG,`.
pub(crate) fn read_register_part(
    left: usize,
    text: &[u8],
) -> Result<(Register, usize, &[u8]), TextFault>
    ensures value { IfOk result (λ x. register_named left text.now ≡ Some (x.0, x.1, x.2.now)) }
    ensures bad { result ≡ Err TextFault.Bad → register_named left text.now ≡ None }
{
    let (register, rest) = read_register(text)?;
    let rest = read_mark(rest, b',')?;
    Ok((register, left, rest))
}
