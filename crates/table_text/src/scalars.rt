// Keys that are asked for, and values of rows.
ghost use Rattle.std.specs.Prelude.{◌≡◌, ◌++◌, length, take, IfOk, OnOk, Err, Some, None};
ghost use Rattle.khepri_types.specs.ProjectionTexts.{scalars_text, read_key_at, row_value_at};

use crate::list::{Listed, append_list, read_list, read_some_list};
use khepri_terms::{Scalar, TextFault};
use khepri_types::Key;
use khepri_types::limits::{MAX_ROW_KEYS, MAX_ROW_VALUES};
use std::alloc::{AllocError, Global};

/// Appends the scalars of a key or a value.
pub(crate) fn append_scalars(key: &Key, out: &mut Vec<u8>) -> Result<(), AllocError>
    ensures ok { OnOk result (out.new.items ≡ out.old.items ++ scalars_text key.now) }
    ensures front { take (length out.old.items) out.new.items ≡ out.old.items }
{
    append_list(key.as_slice(), out)
}

/// The key that is asked for at the front, and what is after it.
pub(crate) fn read_asked_key(alloc: Global, text: &[u8]) -> Result<(Key, &[u8]), TextFault>
    ensures value { IfOk result (λ x. read_key_at text.now ≡ Some (x.0, x.1.now)) }
    ensures bad { result ≡ Err TextFault.Bad → read_key_at text.now ≡ None }
{
    let (scalars, rest) = read_some_list(alloc, text, MAX_ROW_KEYS)?;
    Ok((Key::from_vec(alloc, scalars), rest))
}

/// The value of a row at the front, and what is after it.
pub(crate) fn read_row_value(alloc: Global, text: &[u8]) -> Result<(Key, &[u8]), TextFault>
    ensures value { IfOk result (λ x. row_value_at text.now ≡ Some (x.0, x.1.now)) }
    ensures bad { result ≡ Err TextFault.Bad → row_value_at text.now ≡ None }
{
    let (scalars, rest) = read_list(alloc, text, MAX_ROW_VALUES)?;
    Ok((Key::from_vec(alloc, scalars), rest))
}

impl Listed for Scalar {
    ghost use Rattle.khepri_terms.specs.Records.{scalar_text, scalar_at};

    ghost listed_text = { scalar_text };

    ghost listed_at = { scalar_at };

    fn append_listed(&self, out: &mut Vec<u8>) -> Result<(), AllocError> {
        self.print(out)
    }

    fn read_listed(alloc: Global, text: &[u8]) -> Result<(Scalar, &[u8]), TextFault> {
        Scalar::read(alloc, text)
    }
}
