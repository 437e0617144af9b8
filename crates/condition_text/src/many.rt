//! Items one after another.
ghost use Rattle.std.specs.Prelude.{◌≡◌, ◌≤◌, ℕ, List, Option, Some, None, length, IfOk, Err};
ghost use Rattle.khepri_terms.specs.Many.{many};

use khepri_terms::TextFault;
use khepri_terms::texts::read_byte;
use std::alloc::{AllocError, Global};

/// A form that may stand several times in a row.
pub trait Item {
    /// What is read.
    type Value: Drop;

    /// The value that is spelled at the front, and what is after it.
    ghost item_at: { List ℕ → Option (Self.Value × List ℕ) };

    /// The value at the front, and what is after it.
    fn read_item(alloc: Global, text: &[u8]) -> Result<(Self::Value, &[u8]), TextFault>
        ensures value { IfOk result (λ x. item_at text.now ≡ Some (x.0, x.1.now)) }
        ensures bad { result ≡ Err TextFault.Bad → item_at text.now ≡ None };
}

/// As many as stand at the front, at most `most`, and what is after them.
pub fn read_many<T: Item>(
    alloc: Global,
    text: &[u8],
    most: usize,
) -> Result<(Vec<T::Value>, &[u8]), AllocError>
    ensures value { IfOk result (λ x. many T.item_at most text.now ≡ (x.0.items, x.1.now)) }
    ensures few { IfOk result (λ x. length x.0.items ≤ most) }
{
    let mut items = Vec::new(alloc);
    let mut rest = text;
    'items: while items.len() < most {
        match T::read_item(alloc, rest) {
            Ok((item, after)) => {
                items.push(item)?;
                rest = after;
            }
            Err(TextFault::Bad) => break 'items,
            Err(TextFault::NoMemory) => return Err(AllocError),
        }
    }
    Ok((items, rest))
}

/// The spelling of one byte.
pub struct ByteItem;

impl Item for ByteItem {
    ghost use Rattle.khepri_terms.specs.Bytes.{byte_at};

    type Value = u8;

    ghost item_at = { byte_at };

    fn read_item(_alloc: Global, text: &[u8]) -> Result<(u8, &[u8]), TextFault> {
        match read_byte(text) {
            Some((byte, rest)) => Ok((byte, rest)),
            None => Err(TextFault::Bad),
        }
    }
}
