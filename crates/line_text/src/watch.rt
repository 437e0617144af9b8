// What a command says of watches.
ghost use Rattle.std.specs.Prelude.{◌≡◌, ◌++◌, ◌∷◌, length, take, codes, IfOk, OnOk, OnErr, Err, Some, None};
ghost use Rattle.std.specs.List.{flat_map};
ghost use Rattle.khepri_terms.specs.Many.{many};
ghost use Rattle.khepri_terms.specs.Paths.{path_text};
ghost use Rattle.khepri_types.specs.ConditionTexts.{condition_text};
ghost use Rattle.khepri_types.specs.Texts.{watch_text, watching_text};
ghost use Rattle.khepri_types.specs.declared.limits.TheConstants.{MAX_WATCHES};
ghost use Rattle.khepri_types.specs.Reading.{asked_at, watch_at, whole_watches, spelled_watching};

use crate::words::{after, is_word};
use condition_text::many::{Item, read_many};
use condition_text::words::{append_word, read_mark};
use condition_text::{append_condition, read_condition};
use khepri_terms::{Path, TextFault};
use khepri_types::limits::MAX_WATCHES;
use khepri_types::{Condition, Watch, Watches, Watching};
use std::alloc::{AllocError, Global};

/// Appends nothing, ` free`, or the watches one after another.
#[tactic(auto, unfolding(khepri_types::specs::Texts::watching_text))]
pub(crate) fn append_watching(watch: &Watching, out: &mut Vec<u8>) -> Result<(), AllocError>
    ensures ok { OnOk result (out.new.items ≡ out.old.items ++ watching_text watch.now) }
    ensures front { take (length out.old.items) out.new.items ≡ out.old.items }
{
    match watch {
        Watching::Stay => Ok(()),
        Watching::Free => append_word(b" free", out),
        Watching::While(watches) => append_watches(watches.as_slice(), out),
    }
}

// Appends the watches one after another.
fn append_watches(watches: &[Watch], out: &mut Vec<u8>) -> Result<(), AllocError>
    ensures ok { OnOk result (out.new.items ≡ out.old.items ++ flat_map watch_text watches.now) }
    ensures front { take (length out.old.items) out.new.items ≡ out.old.items }
{
    for watch in watches {
        append_watch(watch, out)?;
    }
    Ok(())
}

// Appends ` while PATH COND`.
#[tactic(auto, unfolding(khepri_types::specs::Texts::watch_text))]
fn append_watch(watch: &Watch, out: &mut Vec<u8>) -> Result<(), AllocError>
    ensures ok { OnOk result (out.new.items ≡ out.old.items ++ watch_text watch.now) }
    ensures front { take (length out.old.items) out.new.items ≡ out.old.items }
{
    append_word(b" while ", out)?;
    append_asked(&watch.target, &watch.cond, out)
}

/// Appends `PATH COND`.
pub(crate) fn append_asked(
    path: &Path,
    cond: &Condition,
    out: &mut Vec<u8>,
) -> Result<(), AllocError>
    ensures ok { OnOk result (out.new.items ≡ out.old.items ++ (path_text path.now ++ 32 ∷ condition_text cond.now)) }
    ensures front { take (length out.old.items) out.new.items ≡ out.old.items }
{
    path.print(out)?;
    append_word(b" ", out)?;
    append_condition(cond, out)
}

/// What the whole text says of watches.
#[tactic(auto, unfolding(khepri_types::specs::Reading::spelled_watching))]
pub(crate) fn read_watching(alloc: Global, text: &[u8]) -> Result<Watching, TextFault>
    ensures value { IfOk result (λ x. spelled_watching text.now ≡ Some x) }
    ensures bad { result ≡ Err TextFault.Bad → spelled_watching text.now ≡ None }
{
    match text {
        [] => Ok(Watching::Stay),
        [_, ..] => {
            if is_word(text, b" free") {
                return Ok(Watching::Free);
            }
            read_whole_watches(alloc, text)
        }
    }
}

// The watches that the whole text spells, at least one.
fn read_whole_watches(alloc: Global, text: &[u8]) -> Result<Watching, TextFault>
    ensures value { IfOk result (λ x. whole_watches (many watch_at MAX_WATCHES text.now) ≡ Some x) }
    ensures bad { result ≡ Err TextFault.Bad → whole_watches (many watch_at MAX_WATCHES text.now) ≡ None }
{
    let (watches, rest) = read_many::<WatchItem>(alloc, text, MAX_WATCHES)?;
    if watches.len() == 0 {
        return Err(TextFault::Bad);
    }
    match rest {
        [] => match Watches::from_vec(watches) {
            Some(watches) => Ok(Watching::While(watches)),
            None => unreachable!(),
        },
        [_, ..] => Err(TextFault::Bad),
    }
}

/// The path and the condition at the front, and what is after them.
#[tactic(auto, unfolding(khepri_types::specs::Reading::asked_at))]
pub(crate) fn read_asked(alloc: Global, text: &[u8]) -> Result<(Path, Condition, &[u8]), TextFault>
    ensures value { IfOk result (λ x. asked_at text.now ≡ Some (x.0, x.1, x.2.now)) }
    ensures bad { result ≡ Err TextFault.Bad → asked_at text.now ≡ None }
{
    let (path, rest) = Path::read(alloc, text)?;
    let rest = read_mark(rest, b' ')?;
    let (cond, rest) = read_condition(alloc, rest)?;
    Ok((path, cond, rest))
}

struct WatchItem;

impl Item for WatchItem {
    ghost use Rattle.khepri_types.specs.Reading.{watch_at};

    type Value = Watch;

    ghost item_at = { watch_at };

    #[tactic(auto, unfolding(khepri_types::specs::Reading::watch_at))]
    fn read_item(alloc: Global, text: &[u8]) -> Result<(Watch, &[u8]), TextFault> {
        let Some(rest) = after(text, b" while ") else {
            return Err(TextFault::Bad);
        };
        let (target, cond, rest) = read_asked(alloc, rest)?;
        Ok((Watch { target, cond }, rest))
    }
}
