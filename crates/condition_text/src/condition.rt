// Conditions.
ghost use Rattle.std.specs.Prelude.{◌≡◌, ◌++◌, ◌∷◌, [], ◌+◌, ◌≤◌, length, take, drop, map, codes, IfOk, OnOk, OnErr, Err, Some, None};
ghost use Rattle.khepri_types.specs.ConditionTexts.{joined, asked_text, condition_text};
ghost use Rattle.khepri_types.specs.ReadingConditions.{list_end_at, not_asked, some_asked, list_asked, all_asked, any_asked, layer_at, nested_at, condition_at};
ghost use Rattle.condition_text.specs.Joining.{comma};

use crate::atom::{
    append_field_asked, append_is_asked, append_name_asked, append_number_asked, read_atom,
};
use crate::words::{append_word, read_mark, strip};
use khepri_terms::TextFault;
use khepri_types::Condition;
use khepri_types::limits::{MAX_CONDITION_NESTING, MAX_CONDITION_PARTS};
use sqlite_items::{Boxed, Items};
use std::alloc::{AllocError, Global};

/// Appends the spelling of a condition.
#[cycle(printing)]
#[tactic(auto, unfolding(khepri_types::specs::ConditionTexts::layer_text), using(khepri_terms::proofs::Printing::front_then))]
pub fn append_condition(cond: &Condition, out: &mut Vec<u8>) -> Result<(), AllocError>
    ensures ok { OnOk result (out.new.items ≡ out.old.items ++ condition_text cond.now) }
    ensures front { take (length out.old.items) out.new.items ≡ out.old.items }
{
    match cond {
        Condition::Absent => append_word(b"absent", out),
        Condition::Exists => append_word(b"exists", out),
        Condition::Payload => append_word(b"payload", out),
        Condition::Data => append_word(b"data", out),
        Condition::Sproc => append_word(b"sproc", out),
        Condition::Name(glob) => append_name_asked(glob, out),
        Condition::Is(rec) => append_is_asked(rec, out),
        Condition::Field { key, op, value } => append_field_asked(key, *op, value, out),
        Condition::Pv(op, number) => append_number_asked(b"pv(", *op, *number, out),
        Condition::Cv(op, number) => append_number_asked(b"cv(", *op, *number, out),
        Condition::Kids(op, number) => append_number_asked(b"kids(", *op, *number, out),
        Condition::Not(inner) => append_not_asked(inner, out),
        Condition::All(parts) => append_list_asked(b"all(", parts.as_slice(), out),
        Condition::Any(parts) => append_list_asked(b"any(", parts.as_slice(), out),
    }
}

// Appends `not(COND)`.
#[cycle(printing)]
#[tactic(auto, using(khepri_terms::proofs::Printing::front_then))]
fn append_not_asked(inner: &Boxed<Condition>, out: &mut Vec<u8>) -> Result<(), AllocError>
    ensures ok { OnOk result (out.new.items ≡ out.old.items ++ asked_text (codes "not") (condition_text inner.now)) }
    ensures front { take (length out.old.items) out.new.items ≡ out.old.items }
{
    append_word(b"not(", out)?;
    append_condition(inner.get(), out)?;
    append_word(b")", out)
}

// Appends a word that ends in `(`, the conditions joined by `,`, and a `)`.
#[cycle(printing)]
#[tactic(auto, using(khepri_terms::proofs::Printing::front_then))]
fn append_list_asked(word: &[u8], parts: &[Condition], out: &mut Vec<u8>) -> Result<(), AllocError>
    ensures ok { OnOk result (out.new.items ≡ out.old.items ++ (word.now ++ (joined (map condition_text parts.now) ++ 41 ∷ []))) }
    ensures front { take (length out.old.items) out.new.items ≡ out.old.items }
{
    append_word(word, out)?;
    for (i, part) in parts.iter().enumerate() {
        append_comma(i, out)?;
        append_condition(part, out)?;
    }
    append_word(b")", out)
}

// Appends a `,` behind the first part.
fn append_comma(i: usize, out: &mut Vec<u8>) -> Result<(), AllocError>
    ensures ok { OnOk result (out.new.items ≡ out.old.items ++ comma i) }
    ensures err { OnErr result (out.new.items ≡ out.old.items) }
{
    if i == 0 {
        return Ok(());
    }
    out.extend_from_slice(b",")
}

/// The condition that is spelled at the front, and what is after it.
#[tactic(auto, unfolding(khepri_types::specs::ReadingConditions::condition_at))]
pub fn read_condition(alloc: Global, text: &[u8]) -> Result<(Condition, &[u8]), TextFault>
    ensures value { IfOk result (λ x. condition_at text.now ≡ Some (x.0, x.1.now)) }
    ensures bad { result ≡ Err TextFault.Bad → condition_at text.now ≡ None }
{
    let (cond, _, rest) = read_nested(alloc, MAX_CONDITION_NESTING, MAX_CONDITION_PARTS, text)?;
    Ok((cond, rest))
}

// The condition at the front, of at most `nesting` in one another and `left` in all, how many are left, and what is after it.
#[cycle(reading)]
fn read_nested(
    alloc: Global,
    nesting: usize,
    left: usize,
    text: &[u8],
) -> Result<(Condition, usize, &[u8]), TextFault>
    ensures value { IfOk result (λ x. nested_at nesting left text.now ≡ Some (x.0, x.1, x.2.now)) }
    ensures bad { result ≡ Err TextFault.Bad → nested_at nesting left text.now ≡ None }
{
    if nesting == 0 {
        return Err(TextFault::Bad);
    }
    if left == 0 {
        return Err(TextFault::Bad);
    }
    read_layer(alloc, nesting - 1, left - 1, text)
}

// The condition at the front, one of conditions or else an atom.
#[cycle(reading)]
fn read_layer(
    alloc: Global,
    nesting: usize,
    left: usize,
    text: &[u8],
) -> Result<(Condition, usize, &[u8]), TextFault>
    ensures value { IfOk result (λ x. layer_at (nested_at nesting) left text.now ≡ Some (x.0, x.1, x.2.now)) }
    ensures bad { result ≡ Err TextFault.Bad → layer_at (nested_at nesting) left text.now ≡ None }
{
    if let Some(rest) = strip(text, b"not(") {
        return read_not_asked(alloc, nesting, left, rest);
    }
    if let Some(rest) = strip(text, b"all(") {
        return read_all_asked(alloc, nesting, left, rest);
    }
    if let Some(rest) = strip(text, b"any(") {
        return read_any_asked(alloc, nesting, left, rest);
    }
    read_atom(alloc, left, text)
}

// Behind `not(`.
#[cycle(reading)]
#[tactic(auto, unfolding(khepri_types::specs::ReadingConditions::not_asked))]
fn read_not_asked(
    alloc: Global,
    nesting: usize,
    left: usize,
    text: &[u8],
) -> Result<(Condition, usize, &[u8]), TextFault>
    ensures value { IfOk result (λ x. not_asked (nested_at nesting) left text.now ≡ Some (x.0, x.1, x.2.now)) }
    ensures bad { result ≡ Err TextFault.Bad → not_asked (nested_at nesting) left text.now ≡ None }
{
    let (inner, left, rest) = read_nested(alloc, nesting, left, text)?;
    let rest = read_mark(rest, b')')?;
    Ok((Condition::Not(Boxed::new(alloc, inner)?), left, rest))
}

// Behind `all(`.
#[cycle(reading)]
fn read_all_asked(
    alloc: Global,
    nesting: usize,
    left: usize,
    text: &[u8],
) -> Result<(Condition, usize, &[u8]), TextFault>
    ensures value { IfOk result (λ x. all_asked (nested_at nesting) left text.now ≡ Some (x.0, x.1, x.2.now)) }
    ensures bad { result ≡ Err TextFault.Bad → all_asked (nested_at nesting) left text.now ≡ None }
{
    let (parts, left, rest) = read_list(alloc, nesting, left, text)?;
    Ok((Condition::All(parts), left, rest))
}

// Behind `any(`.
#[cycle(reading)]
fn read_any_asked(
    alloc: Global,
    nesting: usize,
    left: usize,
    text: &[u8],
) -> Result<(Condition, usize, &[u8]), TextFault>
    ensures value { IfOk result (λ x. any_asked (nested_at nesting) left text.now ≡ Some (x.0, x.1, x.2.now)) }
    ensures bad { result ≡ Err TextFault.Bad → any_asked (nested_at nesting) left text.now ≡ None }
{
    let (parts, left, rest) = read_list(alloc, nesting, left, text)?;
    Ok((Condition::Any(parts), left, rest))
}

// Behind `all(` or `any(`.
#[cycle(reading)]
#[tactic(auto, unfolding(khepri_types::specs::ReadingConditions::list_asked))]
fn read_list(
    alloc: Global,
    nesting: usize,
    left: usize,
    text: &[u8],
) -> Result<(Items<Condition>, usize, &[u8]), TextFault>
    ensures value { IfOk result (λ x. list_asked (nested_at nesting) left text.now ≡ Some (x.0, x.1, x.2.now)) }
    ensures bad { result ≡ Err TextFault.Bad → list_asked (nested_at nesting) left text.now ≡ None }
{
    match text {
        [] => Err(TextFault::Bad),
        [b')', rest @ ..] => Ok((Items::new(alloc), left, rest)),
        [_, ..] => read_parts(alloc, nesting, left, text),
    }
}

// Conditions joined by `,`, at least one, and the `)` behind them.
#[cycle(reading)]
fn read_parts(
    alloc: Global,
    nesting: usize,
    left: usize,
    text: &[u8],
) -> Result<(Items<Condition>, usize, &[u8]), TextFault>
    ensures value { IfOk result (λ x. some_asked (nested_at nesting) left left text.now ≡ Some (x.0, x.1, x.2.now)) }
    ensures bad { result ≡ Err TextFault.Bad → some_asked (nested_at nesting) left left text.now ≡ None }
{
    let mut parts = Items::new(alloc);
    let mut more = left;
    let mut rest = text;
    'parts: while parts.len() < left {
        let (part, fewer, after) = read_nested(alloc, nesting, more, rest)?;
        parts.push(part)?;
        let (is_last, next) = read_list_end(after)?;
        if is_last {
            return Ok((parts, fewer, next));
        }
        more = fewer;
        rest = next;
    }
    Err(TextFault::Bad)
}

// Whether a list ends behind a condition or goes on, and what is after that.
#[tactic(auto, unfolding(khepri_types::specs::ReadingConditions::list_end_at))]
fn read_list_end(text: &[u8]) -> Result<(bool, &[u8]), TextFault>
    ensures value { IfOk result (λ x. list_end_at text.now ≡ Some (x.0, x.1.now)) }
    ensures bad { result ≡ Err TextFault.Bad → list_end_at text.now ≡ None }
{
    match text {
        [b')', rest @ ..] => Ok((true, rest)),
        [b',', rest @ ..] => Ok((false, rest)),
        _ => Err(TextFault::Bad),
    }
}
