//! Numbers in eight bytes, the highest first.
ghost use Rattle.std.specs.Prelude.{◌≡◌, ◌++◌, ◌<◌, length, Some, None, OnOk, OnErr, IfSome, IfNone};
ghost use Rattle.byteorder.specs.Endian.{big_bytes};
ghost use Rattle.raft_durable.specs.Bytes.{number_at, numbers_at, term_vote_at};

use byteorder::{BigEndian, ByteOrder};
use std::alloc::AllocError;

/// Appends a number.
pub fn put_u64(out: &mut Vec<u8>, n: u64) -> Result<(), AllocError>
    ensures ok { OnOk result (out.new.items ≡ out.old.items ++ big_bytes 8 n) }
    ensures err { OnErr result (out.new.items ≡ out.old.items) }
{
    let mut eight = [0u8; 8];
    BigEndian::write_u64(&mut eight, n);
    out.extend_from_slice(&eight)
}

// Reads a number, which is tested by writing it again.
fn split_u64(bytes: &[u8]) -> Option<(u64, &[u8])>
    ensures found { IfSome result (λ r. bytes.now ≡ big_bytes 8 r.0 ++ r.1.now) }
    ensures none { IfNone result (length bytes.now < 8) }
{
    if bytes.len() < 8 {
        return None;
    }
    let (front, rest) = bytes.split_at(8);
    let n = BigEndian::read_u64(front);
    let mut eight = [0u8; 8];
    BigEndian::write_u64(&mut eight, n);
    if eight.as_slice() != front {
        return None;
    }
    Some((n, rest))
}

/// A number, and what is behind it.
pub fn read_u64(bytes: &[u8]) -> Option<(u64, &[u8])>
    ensures found { IfSome result (λ r. number_at bytes.now ≡ Some (r.0, r.1.now)) }
    ensures none { IfNone result (number_at bytes.now ≡ None) }
{
    split_u64(bytes)
}

/// Two numbers, and what is behind them.
pub fn read_two(bytes: &[u8]) -> Option<(u64, u64, &[u8])>
    ensures found { IfSome result (λ r. numbers_at bytes.now ≡ Some (r.0, r.1, r.2.now)) }
    ensures none { IfNone result (numbers_at bytes.now ≡ None) }
{
    let (first, rest) = read_u64(bytes)?;
    let (second, rest) = read_u64(rest)?;
    Some((first, second, rest))
}

/// A term and a vote, where nothing is behind them.
pub fn read_vote(bytes: &[u8]) -> Option<(u64, u8)>
    ensures { result ≡ term_vote_at bytes.now }
{
    let (term, rest) = read_u64(bytes)?;
    match rest {
        [vote] => Some((term, *vote)),
        _ => None,
    }
}
