// Lists between `[` and `]`.
ghost use Rattle.std.specs.Prelude.{◌≡◌, ◌≤◌, ◌++◌, ◌∷◌, [], ℕ, List, Option, Some, None, length, take, IfOk, OnOk, Err};
ghost use Rattle.khepri_types.specs.Lists.{items_text, list_text, sign_at, items_at, inside_at, list_at, some_list_at};

use condition_text::words::append_word;
use khepri_terms::TextFault;
use std::alloc::{AllocError, Global};

/// What may stand in a list.
pub(crate) trait Listed: Sized + Drop {
    /// The spelling of an item.
    ghost listed_text: { Self → List ℕ };

    /// The item that is spelled at the front, and what is after it.
    ghost listed_at: { List ℕ → Option (Self × List ℕ) };

    /// Appends the item.
    fn append_listed(&self, out: &mut Vec<u8>) -> Result<(), AllocError>
        ensures ok { OnOk result (out.new.items ≡ out.old.items ++ listed_text self.now) }
        ensures front { take (length out.old.items) out.new.items ≡ out.old.items };

    /// The item at the front, and what is after it.
    fn read_listed(alloc: Global, text: &[u8]) -> Result<(Self, &[u8]), TextFault>
        ensures value { IfOk result (λ x. listed_at text.now ≡ Some (x.0, x.1.now)) }
        ensures bad { result ≡ Err TextFault.Bad → listed_at text.now ≡ None };
}

/// Appends the items between `[` and `]`.
#[tactic(auto, unfolding(khepri_types::specs::Lists::list_text))]
pub(crate) fn append_list<T: Listed>(items: &[T], out: &mut Vec<u8>) -> Result<(), AllocError>
    ensures ok { OnOk result (out.new.items ≡ out.old.items ++ list_text T.listed_text items.now) }
    ensures front { take (length out.old.items) out.new.items ≡ out.old.items }
{
    append_word(b"[", out)?;
    append_items(items, out)?;
    append_word(b"]", out)
}

// Appends the items joined by `,`.
#[tactic(auto, unfolding(khepri_types::specs::Lists::items_text), using(khepri_terms::proofs::Printing::front_then))]
fn append_items<T: Listed>(items: &[T], out: &mut Vec<u8>) -> Result<(), AllocError>
    ensures ok { OnOk result (out.new.items ≡ out.old.items ++ items_text T.listed_text items.now) }
    ensures front { take (length out.old.items) out.new.items ≡ out.old.items }
{
    match items {
        [] => Ok(()),
        [first, rest @ ..] => {
            first.append_listed(out)?;
            if rest.len() == 0 {
                return Ok(());
            }
            append_word(b",", out)?;
            append_items(rest, out)
        }
    }
}

/// At most `most` items from a `[` to the `]`, and what is after it.
#[tactic(auto, unfolding(khepri_types::specs::Lists::list_at))]
pub(crate) fn read_list<T: Listed>(
    alloc: Global,
    text: &[u8],
    most: usize,
) -> Result<(Vec<T>, &[u8]), TextFault>
    ensures value { IfOk result (λ x. list_at T.listed_at most text.now ≡ Some (x.0.items, x.1.now)) }
    ensures bad { result ≡ Err TextFault.Bad → list_at T.listed_at most text.now ≡ None }
{
    match text {
        [b'[', inside @ ..] => read_inside(alloc, inside, most),
        _ => Err(TextFault::Bad),
    }
}

/// The same, but no empty list.
#[tactic(auto, unfolding(khepri_types::specs::Lists::some_list_at))]
pub(crate) fn read_some_list<T: Listed>(
    alloc: Global,
    text: &[u8],
    most: usize,
) -> Result<(Vec<T>, &[u8]), TextFault>
    ensures value { IfOk result (λ x. some_list_at T.listed_at most text.now ≡ Some (x.0.items, x.1.now)) }
    ensures bad { result ≡ Err TextFault.Bad → some_list_at T.listed_at most text.now ≡ None }
{
    match text {
        [b'[', inside @ ..] => read_items(alloc, inside, most),
        _ => Err(TextFault::Bad),
    }
}

// Behind a `[`.
#[tactic(auto, unfolding(khepri_types::specs::Lists::inside_at))]
fn read_inside<T: Listed>(
    alloc: Global,
    text: &[u8],
    most: usize,
) -> Result<(Vec<T>, &[u8]), TextFault>
    ensures value { IfOk result (λ x. inside_at T.listed_at most text.now ≡ Some (x.0.items, x.1.now)) }
    ensures bad { result ≡ Err TextFault.Bad → inside_at T.listed_at most text.now ≡ None }
{
    match text {
        [] => Err(TextFault::Bad),
        [b']', rest @ ..] => Ok((Vec::new(alloc), rest)),
        [_, ..] => read_items(alloc, text, most),
    }
}

// Items joined by `,`, at least one and at most `most`, and what is after the `]` behind them.
fn read_items<T: Listed>(
    alloc: Global,
    text: &[u8],
    most: usize,
) -> Result<(Vec<T>, &[u8]), TextFault>
    ensures value { IfOk result (λ x. items_at T.listed_at most text.now ≡ Some (x.0.items, x.1.now)) }
    ensures bad { result ≡ Err TextFault.Bad → items_at T.listed_at most text.now ≡ None }
{
    let mut items = Vec::new(alloc);
    let mut rest = text;
    'items: while items.len() < most {
        let (item, after) = T::read_listed(alloc, rest)?;
        items.push(item)?;
        let (is_last, next) = read_sign(after)?;
        if is_last {
            return Ok((items, next));
        }
        rest = next;
    }
    Err(TextFault::Bad)
}

// Whether a list ends behind an item or goes on, and what is after that.
#[tactic(auto, unfolding(khepri_types::specs::Lists::sign_at))]
fn read_sign(text: &[u8]) -> Result<(bool, &[u8]), TextFault>
    ensures value { IfOk result (λ x. sign_at text.now ≡ Some (x.0, x.1.now)) }
    ensures bad { result ≡ Err TextFault.Bad → sign_at text.now ≡ None }
{
    match text {
        [b']', rest @ ..] => Ok((true, rest)),
        [b',', rest @ ..] => Ok((false, rest)),
        _ => Err(TextFault::Bad),
    }
}
