// What the atoms of conditions ask.
ghost use Rattle.std.specs.Prelude.{◌≡◌, ◌++◌, ◌∷◌, [], length, take, codes, IfOk, OnOk, OnErr, Err, Some, None};
ghost use Rattle.khepri_terms.specs.Names.{comp_text};
ghost use Rattle.khepri_terms.specs.Records.{scalar_text, rec_text};
ghost use Rattle.khepri_types.specs.Compares.{compare_text};
ghost use Rattle.khepri_types.specs.ConditionTexts.{asked_text, number_text};
ghost use Rattle.khepri_types.specs.Globs.{glob_text};
ghost use Rattle.khepri_types.specs.ReadingConditions.{compare_at, key_at, name_asked, is_asked, field_value, field_op, field_asked, number_asked, pv_asked, cv_asked, kids_asked, asking_at, atom_at};

use crate::glob::{append_glob, read_glob};
use crate::words::{append_number, append_word, read_mark, strip};
use khepri_terms::numbers::read_number;
use khepri_terms::{Kind, Name, Rec, Scalar, TextFault};
use khepri_types::limits::MAX_NUMBER;
use khepri_types::{Compare, Condition, Glob};
use std::alloc::{AllocError, Global};

/// The word of a comparison.
#[tactic(auto, unfolding(khepri_types::specs::Compares::compare_text))]
pub fn compare_word(op: Compare) -> &'static [u8]
    ensures { result.now ≡ compare_text op }
{
    match op {
        Compare::Eq => b"eq",
        Compare::Ne => b"ne",
        Compare::Lt => b"lt",
        Compare::Le => b"le",
        Compare::Gt => b"gt",
        Compare::Ge => b"ge",
    }
}

/// The comparison at the front, and what is after it.
pub fn read_compare(text: &[u8]) -> Result<(Compare, &[u8]), TextFault>
    ensures value { IfOk result (λ x. compare_at text.now ≡ Some (x.0, x.1.now)) }
    ensures bad { result ≡ Err TextFault.Bad → compare_at text.now ≡ None }
{
    if let Some(rest) = strip(text, b"eq") {
        return Ok((Compare::Eq, rest));
    }
    if let Some(rest) = strip(text, b"ne") {
        return Ok((Compare::Ne, rest));
    }
    if let Some(rest) = strip(text, b"lt") {
        return Ok((Compare::Lt, rest));
    }
    if let Some(rest) = strip(text, b"le") {
        return Ok((Compare::Le, rest));
    }
    if let Some(rest) = strip(text, b"gt") {
        return Ok((Compare::Gt, rest));
    }
    if let Some(rest) = strip(text, b"ge") {
        return Ok((Compare::Ge, rest));
    }
    Err(TextFault::Bad)
}

/// Appends `name(GLOB)`.
pub(crate) fn append_name_asked(glob: &Glob, out: &mut Vec<u8>) -> Result<(), AllocError>
    ensures ok { OnOk result (out.new.items ≡ out.old.items ++ asked_text (codes "name") (glob_text glob.now)) }
    ensures front { take (length out.old.items) out.new.items ≡ out.old.items }
{
    append_word(b"name(", out)?;
    append_glob(glob, out)?;
    append_word(b")", out)
}

/// Appends `is(REC)`.
pub(crate) fn append_is_asked(rec: &Rec, out: &mut Vec<u8>) -> Result<(), AllocError>
    ensures ok { OnOk result (out.new.items ≡ out.old.items ++ asked_text (codes "is") (rec_text rec.now)) }
    ensures front { take (length out.old.items) out.new.items ≡ out.old.items }
{
    append_word(b"is(", out)?;
    rec.print(out)?;
    append_word(b")", out)
}

/// Appends `field(KEY,OP,SCALAR)`.
pub(crate) fn append_field_asked(
    key: &Name,
    op: Compare,
    value: &Scalar,
    out: &mut Vec<u8>,
) -> Result<(), AllocError>
    ensures ok { OnOk result (out.new.items ≡ out.old.items ++ asked_text (codes "field") (comp_text key.now ++ 44 ∷ (compare_text op ++ 44 ∷ scalar_text value.now))) }
    ensures front { take (length out.old.items) out.new.items ≡ out.old.items }
{
    append_key(key, out)?;
    append_value(op, value, out)
}

// Appends `field(KEY,`.
fn append_key(key: &Name, out: &mut Vec<u8>) -> Result<(), AllocError>
    ensures ok { OnOk result (out.new.items ≡ out.old.items ++ (codes "field(" ++ (comp_text key.now ++ 44 ∷ []))) }
    ensures front { take (length out.old.items) out.new.items ≡ out.old.items }
{
    append_word(b"field(", out)?;
    key.print(out)?;
    append_word(b",", out)
}

// Appends `OP,SCALAR)`.
fn append_value(op: Compare, value: &Scalar, out: &mut Vec<u8>) -> Result<(), AllocError>
    ensures ok { OnOk result (out.new.items ≡ out.old.items ++ (compare_text op ++ (44 ∷ (scalar_text value.now ++ 41 ∷ [])))) }
    ensures front { take (length out.old.items) out.new.items ≡ out.old.items }
{
    append_op(op, out)?;
    value.print(out)?;
    append_word(b")", out)
}

// Appends `OP,`.
fn append_op(op: Compare, out: &mut Vec<u8>) -> Result<(), AllocError>
    ensures ok { OnOk result (out.new.items ≡ out.old.items ++ (compare_text op ++ 44 ∷ [])) }
    ensures front { take (length out.old.items) out.new.items ≡ out.old.items }
{
    append_word(compare_word(op), out)?;
    append_word(b",", out)
}

/// Appends a word that ends in `(`, and `OP,NUM)`.
pub(crate) fn append_number_asked(
    word: &[u8],
    op: Compare,
    number: u64,
    out: &mut Vec<u8>,
) -> Result<(), AllocError>
    ensures ok { OnOk result (out.new.items ≡ out.old.items ++ (word.now ++ (number_text op number ++ 41 ∷ []))) }
    ensures front { take (length out.old.items) out.new.items ≡ out.old.items }
{
    append_word(word, out)?;
    append_comparison(op, number, out)?;
    append_word(b")", out)
}

// Appends `OP,NUM`.
fn append_comparison(op: Compare, number: u64, out: &mut Vec<u8>) -> Result<(), AllocError>
    ensures ok { OnOk result (out.new.items ≡ out.old.items ++ number_text op number) }
    ensures front { take (length out.old.items) out.new.items ≡ out.old.items }
{
    append_word(compare_word(op), out)?;
    append_number(b",", number, out)
}

/// The key at the front, and what is after it.
#[tactic(auto, unfolding(khepri_types::specs::ReadingConditions::key_at))]
pub fn read_key(alloc: Global, text: &[u8]) -> Result<(Name, &[u8]), TextFault>
    ensures value { IfOk result (λ x. key_at text.now ≡ Some (x.0, x.1.now)) }
    ensures bad { result ≡ Err TextFault.Bad → key_at text.now ≡ None }
{
    let (key, rest) = Name::read(alloc, text)?;
    match key.kind() {
        Kind::Atom => Err(TextFault::Bad),
        Kind::Text => Ok((key, rest)),
    }
}

// Behind `name(`.
#[tactic(auto, unfolding(khepri_types::specs::ReadingConditions::name_asked))]
fn read_name_asked(
    alloc: Global,
    left: usize,
    text: &[u8],
) -> Result<(Condition, usize, &[u8]), TextFault>
    ensures value { IfOk result (λ x. name_asked left text.now ≡ Some (x.0, x.1, x.2.now)) }
    ensures bad { result ≡ Err TextFault.Bad → name_asked left text.now ≡ None }
{
    let (glob, rest) = read_glob(alloc, text)?;
    let rest = read_mark(rest, b')')?;
    Ok((Condition::Name(glob), left, rest))
}

// Behind `is(`.
#[tactic(auto, unfolding(khepri_types::specs::ReadingConditions::is_asked))]
fn read_is_asked(
    alloc: Global,
    left: usize,
    text: &[u8],
) -> Result<(Condition, usize, &[u8]), TextFault>
    ensures value { IfOk result (λ x. is_asked left text.now ≡ Some (x.0, x.1, x.2.now)) }
    ensures bad { result ≡ Err TextFault.Bad → is_asked left text.now ≡ None }
{
    let (rec, rest) = Rec::read(alloc, text)?;
    let rest = read_mark(rest, b')')?;
    Ok((Condition::Is(rec), left, rest))
}

// Behind `field(`.
#[tactic(auto, unfolding(khepri_types::specs::ReadingConditions::field_asked))]
fn read_field_asked(
    alloc: Global,
    left: usize,
    text: &[u8],
) -> Result<(Condition, usize, &[u8]), TextFault>
    ensures value { IfOk result (λ x. field_asked left text.now ≡ Some (x.0, x.1, x.2.now)) }
    ensures bad { result ≡ Err TextFault.Bad → field_asked left text.now ≡ None }
{
    let (key, rest) = read_key(alloc, text)?;
    let rest = read_mark(rest, b',')?;
    read_field_op(alloc, left, key, rest)
}

// Behind `field(KEY,`.
#[tactic(auto, unfolding(khepri_types::specs::ReadingConditions::field_op))]
fn read_field_op(
    alloc: Global,
    left: usize,
    key: Name,
    text: &[u8],
) -> Result<(Condition, usize, &[u8]), TextFault>
    ensures value { IfOk result (λ x. field_op left key text.now ≡ Some (x.0, x.1, x.2.now)) }
    ensures bad { result ≡ Err TextFault.Bad → field_op left key text.now ≡ None }
{
    let (op, rest) = read_compare(text)?;
    let rest = read_mark(rest, b',')?;
    read_field_value(alloc, left, key, op, rest)
}

// Behind `field(KEY,OP,`.
#[tactic(auto, unfolding(khepri_types::specs::ReadingConditions::field_value))]
fn read_field_value(
    alloc: Global,
    left: usize,
    key: Name,
    op: Compare,
    text: &[u8],
) -> Result<(Condition, usize, &[u8]), TextFault>
    ensures value { IfOk result (λ x. field_value left key op text.now ≡ Some (x.0, x.1, x.2.now)) }
    ensures bad { result ≡ Err TextFault.Bad → field_value left key op text.now ≡ None }
{
    let (value, rest) = Scalar::read(alloc, text)?;
    let rest = read_mark(rest, b')')?;
    Ok((Condition::Field { key, op, value }, left, rest))
}

// The comparison and the number behind `pv(` and its like, and what is after the `)`.
#[tactic(auto, unfolding(khepri_types::specs::ReadingConditions::number_asked))]
fn read_number_asked(text: &[u8]) -> Result<(Compare, u64, &[u8]), TextFault>
    ensures value { IfOk result (λ x. number_asked text.now ≡ Some (x.0, x.1, x.2.now)) }
    ensures bad { result ≡ Err TextFault.Bad → number_asked text.now ≡ None }
{
    let (op, rest) = read_compare(text)?;
    let rest = read_mark(rest, b',')?;
    let Some((number, rest)) = read_number(rest, MAX_NUMBER) else {
        return Err(TextFault::Bad);
    };
    let rest = read_mark(rest, b')')?;
    Ok((op, number, rest))
}

// Behind `pv(`.
fn read_pv_asked(left: usize, text: &[u8]) -> Result<(Condition, usize, &[u8]), TextFault>
    ensures value { IfOk result (λ x. pv_asked left text.now ≡ Some (x.0, x.1, x.2.now)) }
    ensures bad { result ≡ Err TextFault.Bad → pv_asked left text.now ≡ None }
{
    let (op, number, rest) = read_number_asked(text)?;
    Ok((Condition::Pv(op, number), left, rest))
}

// Behind `cv(`.
fn read_cv_asked(left: usize, text: &[u8]) -> Result<(Condition, usize, &[u8]), TextFault>
    ensures value { IfOk result (λ x. cv_asked left text.now ≡ Some (x.0, x.1, x.2.now)) }
    ensures bad { result ≡ Err TextFault.Bad → cv_asked left text.now ≡ None }
{
    let (op, number, rest) = read_number_asked(text)?;
    Ok((Condition::Cv(op, number), left, rest))
}

// Behind `kids(`.
fn read_kids_asked(left: usize, text: &[u8]) -> Result<(Condition, usize, &[u8]), TextFault>
    ensures value { IfOk result (λ x. kids_asked left text.now ≡ Some (x.0, x.1, x.2.now)) }
    ensures bad { result ≡ Err TextFault.Bad → kids_asked left text.now ≡ None }
{
    let (op, number, rest) = read_number_asked(text)?;
    Ok((Condition::Kids(op, number), left, rest))
}

/// The condition at the front that has none in it: a word, or what it asks of a node.
pub(crate) fn read_atom(
    alloc: Global,
    left: usize,
    text: &[u8],
) -> Result<(Condition, usize, &[u8]), TextFault>
    ensures value { IfOk result (λ x. atom_at left text.now ≡ Some (x.0, x.1, x.2.now)) }
    ensures bad { result ≡ Err TextFault.Bad → atom_at left text.now ≡ None }
{
    if let Some(rest) = strip(text, b"absent") {
        return Ok((Condition::Absent, left, rest));
    }
    if let Some(rest) = strip(text, b"exists") {
        return Ok((Condition::Exists, left, rest));
    }
    if let Some(rest) = strip(text, b"payload") {
        return Ok((Condition::Payload, left, rest));
    }
    if let Some(rest) = strip(text, b"data") {
        return Ok((Condition::Data, left, rest));
    }
    if let Some(rest) = strip(text, b"sproc") {
        return Ok((Condition::Sproc, left, rest));
    }
    read_asking(alloc, left, text)
}

// The condition at the front that asks something of a node.
fn read_asking(
    alloc: Global,
    left: usize,
    text: &[u8],
) -> Result<(Condition, usize, &[u8]), TextFault>
    ensures value { IfOk result (λ x. asking_at left text.now ≡ Some (x.0, x.1, x.2.now)) }
    ensures bad { result ≡ Err TextFault.Bad → asking_at left text.now ≡ None }
{
    if let Some(rest) = strip(text, b"name(") {
        return read_name_asked(alloc, left, rest);
    }
    if let Some(rest) = strip(text, b"is(") {
        return read_is_asked(alloc, left, rest);
    }
    if let Some(rest) = strip(text, b"field(") {
        return read_field_asked(alloc, left, rest);
    }
    if let Some(rest) = strip(text, b"pv(") {
        return read_pv_asked(left, rest);
    }
    if let Some(rest) = strip(text, b"cv(") {
        return read_cv_asked(left, rest);
    }
    if let Some(rest) = strip(text, b"kids(") {
        return read_kids_asked(left, rest);
    }
    Err(TextFault::Bad)
}
