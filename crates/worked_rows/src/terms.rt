// Rows of names, paths, scalars and records.
use crate::fault::Fault;
use crate::rows::{cut_at, number, numbered, pieces, push_number};
use khepri_terms::{Bytes, Kind, Name, NameFault, Path, Rec, RecFault, Scalar};
use std::alloc::{AllocError, Global};
use std::cmp::Ordering;
use std::collections::HashSet;

pub fn tell(alloc: Global, form: &[u8], given: &[u8], out: &mut Vec<u8>) -> Result<(), Fault> {
    let (kind, rest) = cut_at(b' ', given);
    match form {
        b"read" => tell_front(alloc, kind, rest, out),
        b"order" => tell_orders(alloc, kind, rest, out),
        b"distinct" => tell_distinct(alloc, kind, rest, out),
        b"limit" => tell_limit(alloc, kind, rest, out),
        b"part" => tell_part(alloc, kind, rest, out),
        _ => Err(Fault::NoRow),
    }
}

// What is read at the front of a text, printed again.
fn tell_front(alloc: Global, kind: &[u8], text: &[u8], out: &mut Vec<u8>) -> Result<(), Fault> {
    match kind {
        b"name" => name_front(alloc, text, out),
        b"path" => path_front(alloc, text, out),
        b"scalar" => scalar_front(alloc, text, out),
        b"record" => record_front(alloc, text, out),
        _ => Err(Fault::NoRow),
    }
}

fn name_front(alloc: Global, text: &[u8], out: &mut Vec<u8>) -> Result<(), Fault> {
    let (name, rest) = Name::read(alloc, text)?;
    name.print(out)?;
    check_len(name.text_len(), text.len().saturating_sub(rest.len()), out)
}

fn path_front(alloc: Global, text: &[u8], out: &mut Vec<u8>) -> Result<(), Fault> {
    let (path, end) = Path::read_at(alloc, text, 0)?;
    path.print(out)?;
    check_len(path.text_len(), end, out)
}

fn scalar_front(alloc: Global, text: &[u8], out: &mut Vec<u8>) -> Result<(), Fault> {
    let (value, rest) = Scalar::read(alloc, text)?;
    value.print(out)?;
    check_len(value.text_len(), text.len().saturating_sub(rest.len()), out)
}

fn record_front(alloc: Global, text: &[u8], out: &mut Vec<u8>) -> Result<(), Fault> {
    let (record, end) = Rec::read_at(alloc, text, 0)?;
    record.print(out)?;
    check_len(record.text_len(), end, out)
}

// A `?` behind what is printed, where its length is not the one that is told, or not that of what was read.
fn check_len(len: usize, end: usize, out: &mut Vec<u8>) -> Result<(), Fault> {
    if out.len() != len || out.len() != end {
        out.push(b'?')?;
    }
    Ok(())
}

// How the first text stands to each of the others.
fn tell_orders(alloc: Global, kind: &[u8], texts: &[u8], out: &mut Vec<u8>) -> Result<(), Fault> {
    let (first, others) = cut_at(b' ', texts);
    for other in pieces(alloc, b' ', others)?.iter() {
        out.push(sign_of(alloc, kind, first, other)?)?;
    }
    Ok(())
}

fn sign_of(alloc: Global, kind: &[u8], first: &[u8], other: &[u8]) -> Result<u8, Fault> {
    match kind {
        b"path" => paths_sign(alloc, first, other),
        b"scalar" => scalars_sign(alloc, first, other),
        b"record" => records_sign(alloc, first, other),
        _ => Err(Fault::NoRow),
    }
}

fn paths_sign(alloc: Global, first: &[u8], other: &[u8]) -> Result<u8, Fault> {
    let first = path_of(alloc, first)?;
    let other = path_of(alloc, other)?.copy()?;
    Ok(sign(first.compare(&other), first.is_same(&other)))
}

fn scalars_sign(alloc: Global, first: &[u8], other: &[u8]) -> Result<u8, Fault> {
    let (first, _) = Scalar::read(alloc, first)?;
    let (other, _) = Scalar::read(alloc, other)?;
    let other = other.copy()?;
    Ok(sign(first.compare(&other), first.is_same(&other)))
}

fn records_sign(alloc: Global, first: &[u8], other: &[u8]) -> Result<u8, Fault> {
    let first = record_of(alloc, first)?;
    let other = record_of(alloc, other)?;
    Ok(sign(first.cmp(&other), first.is_same(&other)))
}

// `?` where two are told to be the same and not equal in the order, or the other way round.
fn sign(order: Ordering, is_same: bool) -> u8 {
    match (order, is_same) {
        (Ordering::Less, false) => b'<',
        (Ordering::Equal, true) => b'=',
        (Ordering::Greater, false) => b'>',
        _ => b'?',
    }
}

fn path_of(alloc: Global, text: &[u8]) -> Result<Path, Fault> {
    let (path, _) = Path::read(alloc, text)?;
    Ok(path)
}

fn record_of(alloc: Global, text: &[u8]) -> Result<Rec, Fault> {
    let (record, _) = Rec::read_at(alloc, text, 0)?;
    Ok(record)
}

fn tell_distinct(alloc: Global, kind: &[u8], texts: &[u8], out: &mut Vec<u8>) -> Result<(), Fault> {
    let texts = pieces(alloc, b' ', texts)?;
    let count = match kind {
        b"paths" => distinct_paths(alloc, texts.as_slice())?,
        b"records" => distinct_records(alloc, texts.as_slice())?,
        _ => return Err(Fault::NoRow),
    };
    Ok(push_number(count as u64, out)?)
}

// How many of these a set holds that looks them up by their hash.
fn distinct_paths(alloc: Global, texts: &[&[u8]]) -> Result<usize, Fault> {
    let mut set = HashSet::new(alloc);
    for text in texts {
        set.insert(path_of(alloc, text)?)?;
    }
    Ok(set.len())
}

fn distinct_records(alloc: Global, texts: &[&[u8]]) -> Result<usize, Fault> {
    let mut set = HashSet::new(alloc);
    for text in texts {
        set.insert(record_of(alloc, text)?)?;
    }
    Ok(set.len())
}

fn tell_limit(alloc: Global, kind: &[u8], given: &[u8], out: &mut Vec<u8>) -> Result<(), Fault> {
    let (count, rest) = numbered(given)?;
    match kind {
        b"name" => name_of_letters(alloc, count as usize, out),
        b"names" => names_of_letters(alloc, count, number(rest)? as usize, out),
        b"text" => record_of_letters(alloc, count as usize, out),
        b"fields" => fields_taken(alloc, count, out),
        _ => Err(Fault::NoRow),
    }
}

fn letters(alloc: Global, count: usize) -> Result<Vec<u8>, AllocError> {
    vec![in alloc; b'a'; count]
}

// What becomes of a name of as many letters.
fn name_of_letters(alloc: Global, count: usize, out: &mut Vec<u8>) -> Result<(), Fault> {
    let bytes = letters(alloc, count)?;
    match Name::new(alloc, Kind::Text, bytes.as_slice()) {
        Ok(_) => Ok(out.extend_from_slice(b"whole")?),
        Err(NameFault::Empty) => Ok(out.extend_from_slice(b"empty")?),
        Err(NameFault::Long) => Ok(out.extend_from_slice(b"long")?),
        Err(NameFault::NoMemory) => Err(Fault::NoMemory),
    }
}

// How many names are read of as many names of as many letters, and where they end.
fn names_of_letters(
    alloc: Global,
    names: u64,
    count: usize,
    out: &mut Vec<u8>,
) -> Result<(), Fault> {
    let text = text_of_names(alloc, names, count)?;
    let (path, end) = Path::read_at(alloc, text.as_slice(), 0)?;
    push_number(path.len() as u64, out)?;
    out.push(b' ')?;
    Ok(push_number(end as u64, out)?)
}

fn text_of_names(alloc: Global, names: u64, count: usize) -> Result<Vec<u8>, AllocError> {
    let name = letters(alloc, count)?;
    let mut text = Vec::new(alloc);
    for _ in 0..names {
        text.extend_from_slice(b"/")?;
        text.extend_from_slice(name.as_slice())?;
    }
    Ok(text)
}

// The record with this value at a key of one byte.
fn with(alloc: Global, record: &Rec, key: u8, value: &Scalar) -> Result<Rec, RecFault> {
    match Name::new(alloc, Kind::Text, &[key]) {
        Ok(key) => record.with(&key, value),
        Err(_) => Err(RecFault::NoMemory),
    }
}

// What becomes of a record of the one field `k` with as many letters.
fn record_of_letters(alloc: Global, count: usize, out: &mut Vec<u8>) -> Result<(), Fault> {
    let text = Scalar::Text(Bytes::from_vec(alloc, letters(alloc, count)?));
    match with(alloc, &Rec::empty(alloc), b'k', &text) {
        Ok(_) => Ok(out.extend_from_slice(b"whole")?),
        Err(RecFault::Full) => Ok(out.extend_from_slice(b"full")?),
        Err(RecFault::NoMemory) => Err(Fault::NoMemory),
    }
}

// How many fields a record takes, of as many that are put from the last key to the first.
fn fields_taken(alloc: Global, count: u64, out: &mut Vec<u8>) -> Result<(), Fault> {
    match u8::try_from(count) {
        Ok(count) => Ok(push_number(record_of_fields(alloc, count)?.len() as u64, out)?),
        Err(_) => Err(Fault::NoRow),
    }
}

fn record_of_fields(alloc: Global, count: u8) -> Result<Rec, Fault> {
    let mut record = Rec::empty(alloc);
    for i in 0..count {
        match with(alloc, &record, 255 - i, &Scalar::Int(1)) {
            Ok(more) => record = more,
            Err(RecFault::Full) => return Ok(record),
            Err(RecFault::NoMemory) => return Err(Fault::NoMemory),
        }
    }
    Ok(record)
}

fn tell_part(alloc: Global, kind: &[u8], given: &[u8], out: &mut Vec<u8>) -> Result<(), Fault> {
    let (first, rest) = cut_at(b' ', given);
    match kind {
        b"child" => tell_child(alloc, first, rest, out),
        b"value" => tell_value(alloc, first, rest, out),
        _ => Err(Fault::NoRow),
    }
}

// A name behind a path; a `?` behind it where the path is not its front.
fn tell_child(alloc: Global, path: &[u8], name: &[u8], out: &mut Vec<u8>) -> Result<(), Fault> {
    let path = path_of(alloc, path)?;
    let (name, _) = Name::read(alloc, name)?;
    let child = path.child(&name.copy()?)?;
    child.print(out)?;
    if !child.front(path.len())?.is_same(&path) {
        out.push(b'?')?;
    }
    Ok(())
}

// The value of a key in a record that begins at a place of a text.
fn tell_value(alloc: Global, key: &[u8], given: &[u8], out: &mut Vec<u8>) -> Result<(), Fault> {
    let (at, text) = numbered(given)?;
    let (record, _) = Rec::read_at(alloc, text, (at as usize).min(text.len()))?;
    match record.copy()?.field(key) {
        Some(value) => Ok(value.print(out)?),
        None => Err(Fault::Refused),
    }
}
