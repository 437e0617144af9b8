//! Reads each row of the file `texts`, and reads and prints again the text of tables that it has. A row is a letter for what the text
//! is to be, the text, `|`, and what must come of it: `=` where it is printed again as it stands, `!` where it is refused. Where something
//! else comes, the row is printed, with what was told.
#![tactic(auto)]

ghost use Rattle.std.specs.Prelude.{◌<◌, length};

use khepri_terms::TextFault;
use memchr::memchr;
use std::alloc::{AllocError, Global};
use std::fs;
use std::io::{self, Write};
use table_text::{
    append_found, append_lookup, append_proj, append_projection, append_unproj, read_found,
    read_lookup, read_proj, read_projection, read_unproj,
};

fn main(rt: HostRuntime) -> io::Result<()> {
    let text = fs::read(&rt, "texts")?;
    let mut rest = text.as_slice();
    let mut rows: u64 = 0;
    'rows: while 0 < rest.len() {
        let (row, behind) = cut_at(b'\n', rest);
        compare(&rt, row)?;
        rows = rows.saturating_add(1);
        rest = behind;
    }
    println!(rt; "texts: {rows} rows")
}

// What is before the first of these bytes, and what is behind it.
fn cut_at(mark: u8, text: &[u8]) -> (&[u8], &[u8])
    ensures { 0 < length text.now → length result.1.now < length text.now }
{
    match memchr(mark, text) {
        Some(at) => (&text[..at], &text[at + 1..]),
        None => (text, b""),
    }
}

// Prints a row that says something else.
fn compare(rt: &HostRuntime, row: &[u8]) -> io::Result<()> {
    let (given, wanted) = cut_at(b'|', row);
    let (form, text) = cut_at(b' ', given);
    let told = answer(rt.alloc(), form, text)?;
    if told.as_slice() != meant(wanted, text) {
        rt.stdout().write_all(row)?;
        print!(rt; " but ")?;
        rt.stdout().write_all(told.as_slice())?;
        println!(rt; "")?;
    }
    Ok(())
}

// What must come: the text itself for `=`.
fn meant<'a>(wanted: &'a [u8], text: &'a [u8]) -> &'a [u8] {
    match wanted {
        [b'='] => text,
        _ => wanted,
    }
}

fn answer(alloc: Global, form: &[u8], text: &[u8]) -> Result<Vec<u8>, AllocError> {
    let mut out = Vec::new(alloc);
    match tell(alloc, form, text, &mut out) {
        Ok(()) => {}
        Err(TextFault::Bad) => out.extend_from_slice(b"!")?,
        Err(TextFault::NoMemory) => return Err(AllocError),
    }
    Ok(out)
}

// Appends the text as it is printed again.
fn tell(alloc: Global, form: &[u8], text: &[u8], out: &mut Vec<u8>) -> Result<(), TextFault> {
    match form {
        [b'p', ..] => tell_proj(alloc, text, out),
        [b'u', ..] => tell_unproj(alloc, text, out),
        [b'q', ..] => tell_lookup(alloc, text, out),
        [b'f', ..] => tell_found(alloc, text, out),
        _ => tell_front(alloc, text, out),
    }
}

fn tell_proj(alloc: Global, text: &[u8], out: &mut Vec<u8>) -> Result<(), TextFault> {
    let projection = read_proj(alloc, text)?;
    append_proj(&projection, out)?;
    Ok(())
}

fn tell_unproj(alloc: Global, text: &[u8], out: &mut Vec<u8>) -> Result<(), TextFault> {
    let name = read_unproj(alloc, text)?;
    append_unproj(&name, out)?;
    Ok(())
}

fn tell_lookup(alloc: Global, text: &[u8], out: &mut Vec<u8>) -> Result<(), TextFault> {
    let (name, key) = read_lookup(alloc, text)?;
    append_lookup(&name, &key, out)?;
    Ok(())
}

fn tell_found(alloc: Global, text: &[u8], out: &mut Vec<u8>) -> Result<(), TextFault> {
    let rows = read_found(alloc, text)?;
    append_found(&rows, out)?;
    Ok(())
}

// A projection at the front, and what is after it between `<` and `>`.
fn tell_front(alloc: Global, text: &[u8], out: &mut Vec<u8>) -> Result<(), TextFault> {
    let (projection, rest) = read_projection(alloc, text)?;
    append_projection(&projection, out)?;
    out.extend_from_slice(b"<")?;
    out.extend_from_slice(rest)?;
    out.extend_from_slice(b">")?;
    Ok(())
}
