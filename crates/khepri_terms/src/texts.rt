//! The forms that larger texts are made of: one byte, bytes, and the bytes of a name. A reader gives the value at the
//! front and what is after it, a printer appends the spelling. After want of memory a printer of this crate alone
//! may leave a part behind what was there before.
ghost use Rattle.std.specs.Prelude.{◌≡◌, ◌++◌, ◌<◌, ◌≤◌, true, take, length, Some, None, MatchOption, IfSome, OnOk, OnErr, IfOk, Err};
ghost use Rattle.std.specs.List.{AllByRecursion};
ghost use Rattle.khepri_terms.specs.declared.limits.TheConstants.{MAX_NAME};
ghost use Rattle.khepri_terms.specs.Lengths.{capped};
ghost use Rattle.khepri_terms.specs.Names.{IsNameBytes, is_dots, name_text, dots_at, undotted, name_at};
ghost use Rattle.khepri_terms.specs.Bytes.{is_plain, byte_text, bytes_text, hex_value, escape_at, byte_at, bytes_at};

use crate::bytes::Bytes;
use crate::fault::TextFault;
use crate::limits::MAX_NAME;
use percent_encoding::percent_encode_byte;
use std::alloc::{AllocError, Global};

/// Ends a print that began where `out` held `len` bytes: after want of memory these alone stay.
pub fn keep_whole(
    printed: Result<(), AllocError>,
    len: usize,
    out: &mut Vec<u8>,
) -> Result<(), AllocError>
    ensures same { result ≡ printed }
    ensures ok { OnOk printed (out.new.items ≡ out.old.items) }
    ensures err { OnErr printed (out.new.items ≡ take len out.old.items) }
{
    if printed.is_err() {
        out.truncate(len);
    }
    printed
}

#[tactic(auto, unfolding(crate::specs::Bytes::is_plain))]
fn is_plain_byte(b: u8) -> bool
    ensures { result ≡ is_plain b }
{
    matches!(b, b'a'..=b'z' | b'A'..=b'Z' | b'0'..=b'9' | b'-' | b'_' | b'.' | b'~')
}

// What an upper-case hexadecimal digit counts.
#[tactic(auto, unfolding(crate::specs::Bytes::hex_value))]
fn hex_digit(b: u8) -> Option<u8>
    ensures value { result ≡ hex_value b }
    ensures small { IfSome result (λ x. x < 16) }
{
    match b {
        b'0'..=b'9' => Some(b - b'0'),
        b'A'..=b'F' => Some(b - 55),
        _ => None,
    }
}

// The byte that two digits behind a `%` spell, and what is after them.
#[tactic(auto, unfolding(crate::specs::Bytes::escape_at))]
fn read_escape(text: &[u8]) -> Option<(u8, &[u8])>
    ensures { MatchOption result (escape_at text.now ≡ None) (λ x. escape_at text.now ≡ Some (x.0, x.1.now)) }
{
    match text {
        [high, low, rest @ ..] => {
            let high = hex_digit(*high)?;
            let low = hex_digit(*low)?;
            let byte = 16 * high + low;
            if is_plain_byte(byte) {
                return None;
            }
            Some((byte, rest))
        }
        _ => None,
    }
}

/// The byte that is spelled at the front, and what is after it.
#[tactic(auto, unfolding(crate::specs::Bytes::byte_at))]
pub fn read_byte(text: &[u8]) -> Option<(u8, &[u8])>
    ensures { MatchOption result (byte_at text.now ≡ None) (λ x. byte_at text.now ≡ Some (x.0, x.1.now)) }
{
    match text {
        [b, rest @ ..] => {
            if is_plain_byte(*b) {
                return Some((*b, rest));
            }
            if *b == b'%' {
                return read_escape(rest);
            }
            None
        }
        [] => None,
    }
}

// As many bytes at the front as stand for themselves, at most `max`, and what is after them.
fn plain_front(text: &[u8], max: usize) -> (&[u8], &[u8])
    ensures parts { text.now ≡ result.0.now ++ result.1.now }
    ensures plain { AllByRecursion (λ b. is_plain b ≡ true) result.0.now }
    ensures few { length result.0.now ≤ max }
{
    let mut len: usize = 0;
    'plain: while len < max && len < text.len() && is_plain_byte(text[len]) {
        len += 1;
    }
    text.split_at(len)
}

// As many bytes as are spelled at the front, at most `max`, and what is after them, where some may be escaped.
fn read_escaped(alloc: Global, text: &[u8], max: usize) -> Result<(Vec<u8>, &[u8]), AllocError>
    ensures { IfOk result (λ x. bytes_at max text.now ≡ (x.0.items, x.1.now)) }
{
    let (front, behind) = plain_front(text, max);
    let mut bytes = Vec::from_slice(alloc, front)?;
    let mut rest = behind;
    'bytes: while bytes.len() < max {
        match read_byte(rest) {
            Some((byte, after)) => {
                bytes.push(byte)?;
                let (plain, other) = plain_front(after, max - bytes.len());
                bytes.extend_from_slice(plain)?;
                rest = other;
            }
            None => break 'bytes,
        }
    }
    Ok((bytes, rest))
}

// As many bytes as are spelled at the front, at most `max`, and what is after them. Those that stand for themselves are taken at once.
pub(crate) fn read_bytes(
    alloc: Global,
    text: &[u8],
    max: usize,
) -> Result<(Bytes, &[u8]), AllocError>
    ensures { IfOk result (λ x. bytes_at max text.now ≡ (x.0, x.1.now)) }
{
    let (front, behind) = plain_front(text, max);
    let escaped = if front.len() < max {
        read_byte(behind)
    } else {
        None
    };
    match escaped {
        Some(_) => {
            let (bytes, rest) = read_escaped(alloc, text, max)?;
            Ok((Bytes::from_vec(alloc, bytes), rest))
        }
        None => Ok((Bytes::from_slice(alloc, front)?, behind)),
    }
}

/// Appends the spelling of one byte; where memory is wanting, nothing.
#[tactic(auto, unfolding(crate::specs::Bytes::byte_text))]
pub fn print_byte(b: u8, out: &mut Vec<u8>) -> Result<(), AllocError>
    ensures ok { OnOk result (out.new.items ≡ out.old.items ++ byte_text b) }
    ensures err { OnErr result (out.new.items ≡ out.old.items) }
{
    if is_plain_byte(b) {
        out.push(b)?;
    } else {
        out.extend_from_slice(percent_encode_byte(b).as_bytes())?;
    }
    Ok(())
}

// Appends the spelling of bytes.
pub(crate) fn print_bytes(bytes: &[u8], out: &mut Vec<u8>) -> Result<(), AllocError>
    ensures ok { OnOk result (out.new.items ≡ out.old.items ++ bytes_text bytes.now) }
    ensures front { take (length out.old.items) out.new.items ≡ out.old.items }
{
    let mut rest = bytes;
    'runs: loop {
        let (plain, other) = plain_front(rest, rest.len());
        out.extend_from_slice(plain)?;
        match other {
            [] => return Ok(()),
            [b, after @ ..] => {
                print_byte(*b, out)?;
                rest = after;
            }
        }
    }
}

// The dots behind an escaped one, and what is after them.
fn read_dots(alloc: Global, text: &[u8]) -> Result<(Bytes, &[u8]), AllocError>
    ensures value { IfOk result (λ x. dots_at text.now ≡ (x.0, x.1.now)) }
    ensures name { IfOk result (λ x. IsNameBytes x.0) }
{
    match text {
        [b'.', rest @ ..] => Ok((Bytes::from_slice(alloc, b"..")?, rest)),
        _ => Ok((Bytes::from_slice(alloc, b".")?, text)),
    }
}

// Whether these are `.` or `..`.
fn is_dots(name: &[u8]) -> bool
    ensures { result ≡ is_dots name.now }
{
    matches!(name, [b'.'] | [b'.', b'.'])
}

// The bytes of the name at the front that stands as it is, and what is after it.
fn read_undotted(alloc: Global, text: &[u8]) -> Result<(Bytes, &[u8]), TextFault>
    ensures value { IfOk result (λ x. undotted (bytes_at MAX_NAME text.now) ≡ Some (x.0, x.1.now)) }
    ensures name { IfOk result (λ x. IsNameBytes x.0) }
    ensures bad { result ≡ Err TextFault.Bad → undotted (bytes_at MAX_NAME text.now) ≡ None }
{
    let (bytes, rest) = read_bytes(alloc, text, MAX_NAME)?;
    if bytes.len() == 0 || is_dots(bytes.as_slice()) {
        return Err(TextFault::Bad);
    }
    Ok((bytes, rest))
}

// The bytes of the name at the front, read as far as it goes, and what is after it.
#[tactic(auto, unfolding(crate::specs::Names::name_at))]
pub(crate) fn read_name(alloc: Global, text: &[u8]) -> Result<(Bytes, &[u8]), TextFault>
    ensures value { IfOk result (λ x. name_at text.now ≡ Some (x.0, x.1.now)) }
    ensures name { IfOk result (λ x. IsNameBytes x.0) }
    ensures bad { result ≡ Err TextFault.Bad → name_at text.now ≡ None }
{
    match text {
        [b'%', b'2', b'E', rest @ ..] => Ok(read_dots(alloc, rest)?),
        _ => read_undotted(alloc, text),
    }
}

// Appends the spelling of a name's bytes.
#[tactic(auto, unfolding(crate::specs::Names::name_text))]
pub(crate) fn print_name(name: &[u8], out: &mut Vec<u8>) -> Result<(), AllocError>
    ensures ok { OnOk result (out.new.items ≡ out.old.items ++ name_text name.now) }
    ensures front { take (length out.old.items) out.new.items ≡ out.old.items }
{
    match name {
        [b'.'] => out.extend_from_slice(b"%2E")?,
        [b'.', b'.'] => out.extend_from_slice(b"%2E.")?,
        _ => print_bytes(name, out)?,
    }
    Ok(())
}

/// How long the spelling of one byte is.
#[tactic(auto, unfolding(crate::specs::Bytes::byte_text, percent_encoding::specs::Percent::percent_encode_byte))]
pub fn byte_len(b: u8) -> usize
    ensures { result ≡ length (byte_text b) }
{
    if is_plain_byte(b) { 1 } else { 3 }
}

// How long the spelling of bytes is, at most `usize::MAX`.
pub(crate) fn bytes_len(bytes: &[u8]) -> usize
    ensures { result ≡ capped (length (bytes_text bytes.now)) }
{
    let mut len: usize = 0;
    for b in bytes {
        len = len.saturating_add(byte_len(*b));
    }
    len
}

// How long the spelling of a name's bytes is, at most `usize::MAX`.
#[tactic(auto, unfolding(crate::specs::Names::name_text))]
pub(crate) fn name_len(name: &[u8]) -> usize
    ensures { result ≡ capped (length (name_text name.now)) }
{
    match name {
        [b'.'] => 3,
        [b'.', b'.'] => 4,
        _ => bytes_len(name),
    }
}
