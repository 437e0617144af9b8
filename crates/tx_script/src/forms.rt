// What the forms of expressions give, once their parts have been evaluated.
ghost use Rattle.std.specs.Prelude.{◌≡◌, [], ◌∷◌, ◌++◌, ◌&&◌, ◌||◌, not, take, length, pos, ◌+ℤ◌, ◌-ℤ◌, IfOk};
ghost use Rattle.std.specs.Option.{option_copied};
ghost use Rattle.khepri_terms.specs.Order.{scalar_cmp};
ghost use Rattle.khepri_terms.specs.Records.{field_of, with_field};
ghost use Rattle.khepri_types.specs.Compares.{compares};
ghost use Rattle.khepri_types.specs.Conditions.{last_name};
ghost use Rattle.khepri_types.specs.declared.limits.TheConstants.{MAX_CAT_TEXT};
ghost use Rattle.khepri_types.specs.Expressions.{cut, int_or, text_or, name_bytes, is_long, is_name, within, child, small};
ghost use Rattle.khepri_types.specs.Values.{number, bytes, path, fields, truth, scalar};
ghost use Rattle.tx_script.specs.Answers.{Gives};

use crate::halt::Unvalued;
use crate::operands::{bytes, into_path, into_rec, into_scalar, number, truth};
use khepri_terms::limits::{MAX_NAME, MAX_PATH_TEXT};
use khepri_terms::{Bytes, Kind, Name, NameFault, Path, Rec, RecFault, Scalar};
use khepri_types::limits::{MAX_CAT_TEXT, MAX_PATH_NAMES};
use khepri_types::{Compare, Operand, Refusal};
use std::alloc::{AllocError, Global};

pub(crate) fn add(x: Operand, y: Operand) -> Operand
    ensures { result ≡ cut (number x +ℤ number y) }
{
    Operand::Int(number(&x).saturating_add(number(&y)))
}

pub(crate) fn sub(x: Operand, y: Operand) -> Operand
    ensures { result ≡ cut (number x -ℤ number y) }
{
    Operand::Int(number(&x).saturating_sub(number(&y)))
}

pub(crate) fn cat(alloc: Global, x: Operand, y: Operand) -> Result<Operand, AllocError>
    ensures { IfOk result (λ v. v ≡ Operand.Text (take MAX_CAT_TEXT (bytes x ++ bytes y))) }
{
    let mut text = Vec::from_slice(alloc, bytes(&x))?;
    text.extend_from_slice(bytes(&y))?;
    text.truncate(MAX_CAT_TEXT);
    Ok(Operand::Text(Bytes::from_vec(alloc, text)))
}

fn int_or(found: Option<&Scalar>, z: i64) -> i64
    ensures { result ≡ int_or z (option_copied found.entry) }
{
    match found {
        Some(scalar) => match scalar {
            Scalar::Int(y) => *y,
            Scalar::Text(_) => z,
        },
        None => z,
    }
}

fn text_or(found: Option<&Scalar>, other: &Bytes) -> Result<Bytes, AllocError>
    ensures { IfOk result (λ b. b ≡ text_or other.now (option_copied found.entry)) }
{
    match found {
        Some(scalar) => match scalar {
            Scalar::Int(_) => other.copy(),
            Scalar::Text(b) => b.copy(),
        },
        None => other.copy(),
    }
}

pub(crate) fn int_field(alloc: Global, d: Operand, key: &Name, z: i64) -> Operand
    ensures { result ≡ Operand.Int (int_or z (field_of key.now.bytes (fields d))) }
{
    let rec = into_rec(alloc, d);
    Operand::Int(int_or(rec.field(key.bytes()), z))
}

pub(crate) fn text_field(
    alloc: Global,
    d: Operand,
    key: &Name,
    other: &Bytes,
) -> Result<Operand, AllocError>
    ensures { IfOk result (λ v. v ≡ Operand.Text (text_or other.now (field_of key.now.bytes (fields d)))) }
{
    let rec = into_rec(alloc, d);
    Ok(Operand::Text(text_or(rec.field(key.bytes()), other)?))
}

// The last name of a path.
fn last_name(at: &Path) -> Option<&Name>
    ensures { option_copied result ≡ last_name at.now }
{
    let names = at.len();
    if names == 0 {
        return None;
    }
    Some(at.name(names - 1))
}

fn name_bytes(alloc: Global, name: Option<&Name>) -> Result<Bytes, AllocError>
    ensures { IfOk result (λ b. b ≡ name_bytes (option_copied name.entry)) }
{
    match name {
        Some(name) => Bytes::from_slice(alloc, name.bytes()),
        None => Ok(Bytes::from_vec(alloc, Vec::new(alloc))),
    }
}

pub(crate) fn last(alloc: Global, p: Operand) -> Result<Operand, AllocError>
    ensures { IfOk result (λ v. v ≡ Operand.Text (name_bytes (last_name (path p)))) }
{
    let at = into_path(alloc, p);
    Ok(Operand::Text(name_bytes(alloc, last_name(&at))?))
}

fn is_name(text: &[u8]) -> bool
    ensures { result ≡ is_name text.now }
{
    1 <= text.len() && text.len() <= MAX_NAME
}

fn is_long(at: &Path) -> bool
    ensures { result ≡ is_long at.now }
{
    at.len() > MAX_PATH_NAMES || at.text_len() > MAX_PATH_TEXT
}

fn within(at: Path) -> Result<Operand, Unvalued>
    ensures { Gives result (within at) }
{
    if is_long(&at) {
        return Err(Unvalued::Refused(Refusal::Deep));
    }
    Ok(Operand::Path(at))
}

pub(crate) fn child(alloc: Global, p: Operand, t: Operand) -> Result<Operand, Unvalued>
    ensures { Gives result (child (path p) (bytes t)) }
{
    if !is_name(bytes(&t)) {
        return Err(Unvalued::Refused(Refusal::Name));
    }
    match Name::new(alloc, Kind::Text, bytes(&t)) {
        Ok(name) => within(into_path(alloc, p).child(&name)?),
        Err(NameFault::Empty) => Err(Unvalued::Refused(Refusal::Name)),
        Err(NameFault::Long) => Err(Unvalued::Refused(Refusal::Name)),
        Err(NameFault::NoMemory) => Err(Unvalued::NoMemory),
    }
}

pub(crate) fn with(alloc: Global, d: Operand, key: &Name, x: Operand) -> Result<Operand, Unvalued>
    ensures { Gives result (small (with_field (record { key = key.now.bytes; value = scalar x }) (fields d))) }
{
    match Name::new(alloc, Kind::Text, key.bytes()) {
        Ok(name) => set_field(&into_rec(alloc, d), &name, &into_scalar(x)),
        Err(NameFault::Empty) => unreachable!(),
        Err(NameFault::Long) => unreachable!(),
        Err(NameFault::NoMemory) => Err(Unvalued::NoMemory),
    }
}

fn set_field(rec: &Rec, key: &Name, x: &Scalar) -> Result<Operand, Unvalued>
    requires { key.now.kind ≡ Kind.Text }
    ensures { Gives result (small (with_field (record { key = key.now.bytes; value = x.now }) rec.now)) }
{
    match rec.with(key, x) {
        Ok(rec) => Ok(Operand::Rec(rec)),
        Err(RecFault::Full) => Err(Unvalued::Refused(Refusal::Full)),
        Err(RecFault::NoMemory) => Err(Unvalued::NoMemory),
    }
}

pub(crate) fn compare(op: Compare, x: Operand, y: Operand) -> Operand
    ensures { result ≡ Operand.Bool (compares op (scalar_cmp (scalar x) (scalar y))) }
{
    let x = into_scalar(x);
    let y = into_scalar(y);
    Operand::Bool(op.holds(x.cmp(&y)))
}

pub(crate) fn not(x: Operand) -> Operand
    ensures { result ≡ Operand.Bool (not (truth x)) }
{
    Operand::Bool(!truth(&x))
}

pub(crate) fn all(x: Operand, y: Operand) -> Operand
    ensures { result ≡ Operand.Bool (truth x && truth y) }
{
    Operand::Bool(truth(&x) && truth(&y))
}

pub(crate) fn any(x: Operand, y: Operand) -> Operand
    ensures { result ≡ Operand.Bool (truth x || truth y) }
{
    Operand::Bool(truth(&x) || truth(&y))
}
