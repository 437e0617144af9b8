// The parts of a row.
ghost use Rattle.std.specs.Prelude.{◌<◌, ◌≤◌, length, IfOk};

use crate::fault::Fault;
use itoa::Buffer;
use khepri_terms::numbers::read_number;
use memchr::memchr;
use std::alloc::{AllocError, Global};

/// What is before the first of these bytes, and what is behind it.
pub fn cut_at(mark: u8, text: &[u8]) -> (&[u8], &[u8])
    ensures { 0 < length text.now → length result.1.now < length text.now }
{
    match memchr(mark, text) {
        Some(at) => (&text[..at], &text[at + 1..]),
        None => (text, b""),
    }
}

/// What stands before, between and behind these bytes; an empty end is left out.
pub fn pieces(alloc: Global, mark: u8, text: &[u8]) -> Result<Vec<&[u8]>, AllocError> {
    let mut pieces = Vec::new(alloc);
    let mut rest = text;
    'pieces: while 0 < rest.len() {
        let (piece, behind) = cut_at(mark, rest);
        pieces.push(piece)?;
        rest = behind;
    }
    Ok(pieces)
}

/// The number that a word spells.
pub fn number(word: &[u8]) -> Result<u64, Fault> {
    match read_number(word, u64::MAX) {
        Some((number, [])) => Ok(number),
        _ => Err(Fault::NoRow),
    }
}

/// The number before the first space, and what is behind that.
pub fn numbered(text: &[u8]) -> Result<(u64, &[u8]), Fault> {
    let (word, rest) = cut_at(b' ', text);
    Ok((number(word)?, rest))
}

pub fn push_number(number: u64, out: &mut Vec<u8>) -> Result<(), AllocError> {
    let mut buffer = Buffer::new();
    out.extend_from_slice(buffer.format(number).as_bytes())
}

/// The text with LF for `\n` and CR for `\r`.
pub fn unescaped(alloc: Global, text: &[u8]) -> Result<Vec<u8>, AllocError> {
    let mut out = Vec::new(alloc);
    let mut rest = text;
    'rest: while 0 < rest.len() {
        let (front, behind) = cut_at(b'\\', rest);
        out.extend_from_slice(front)?;
        rest = push_control(behind, &mut out)?;
    }
    Ok(out)
}

// Appends what the letter behind a `\` stands for, and gives what is behind that.
fn push_control<'a>(text: &'a [u8], out: &mut Vec<u8>) -> Result<&'a [u8], AllocError>
    ensures { IfOk result (λ rest. length rest.now ≤ length text.now) }
{
    match text {
        [b'n', rest @ ..] => {
            out.extend_from_slice(b"\n")?;
            Ok(rest)
        }
        [b'r', rest @ ..] => {
            out.extend_from_slice(b"\r")?;
            Ok(rest)
        }
        _ => Ok(text),
    }
}

/// Appends a text with `\n` for LF and `\r` for CR.
pub fn push_escaped(text: &[u8], out: &mut Vec<u8>) -> Result<(), AllocError> {
    for byte in text {
        match *byte {
            b'\n' => out.extend_from_slice(b"\\n")?,
            b'\r' => out.extend_from_slice(b"\\r")?,
            other => out.extend_from_slice(&[other])?,
        }
    }
    Ok(())
}
