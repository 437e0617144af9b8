// Where the scalars of rows come from.
ghost use Rattle.std.specs.Prelude.{◌≡◌, ◌++◌, ◌∷◌, [], length, take, codes, IfOk, OnOk, Err, Some, None};
ghost use Rattle.std.specs.Fmt.{decimal};
ghost use Rattle.khepri_terms.specs.Names.{comp_text};
ghost use Rattle.khepri_types.specs.ProjectionTexts.{source_text, sources_text, seg_behind, field_behind, source_at, keys_at, values_at};

use crate::list::{Listed, append_list, read_list, read_some_list};
use condition_text::read_key;
use condition_text::words::{append_number, append_word, read_mark, strip};
use khepri_terms::numbers::read_number;
use khepri_terms::{Name, TextFault};
use khepri_types::Origin;
use khepri_types::limits::{MAX_PATH_NAMES, MAX_ROW_KEYS, MAX_ROW_VALUES};
use sqlite_items::Items;
use std::alloc::{AllocError, Global};

/// Appends the sources of a key or a value.
pub(crate) fn append_sources(sources: &[Origin], out: &mut Vec<u8>) -> Result<(), AllocError>
    ensures ok { OnOk result (out.new.items ≡ out.old.items ++ sources_text sources.now) }
    ensures front { take (length out.old.items) out.new.items ≡ out.old.items }
{
    append_list(sources, out)
}

/// The sources of a key at the front, and what is after them.
pub(crate) fn read_keys(alloc: Global, text: &[u8]) -> Result<(Items<Origin>, &[u8]), TextFault>
    ensures value { IfOk result (λ x. keys_at text.now ≡ Some (x.0, x.1.now)) }
    ensures bad { result ≡ Err TextFault.Bad → keys_at text.now ≡ None }
{
    let (sources, rest) = read_some_list(alloc, text, MAX_ROW_KEYS)?;
    Ok((Items::from_vec(sources), rest))
}

/// The sources of a value at the front, and what is after them.
pub(crate) fn read_values(alloc: Global, text: &[u8]) -> Result<(Items<Origin>, &[u8]), TextFault>
    ensures value { IfOk result (λ x. values_at text.now ≡ Some (x.0, x.1.now)) }
    ensures bad { result ≡ Err TextFault.Bad → values_at text.now ≡ None }
{
    let (sources, rest) = read_list(alloc, text, MAX_ROW_VALUES)?;
    Ok((Items::from_vec(sources), rest))
}

impl Listed for Origin {
    ghost use Rattle.khepri_types.specs.ProjectionTexts.{source_text, source_at};

    ghost listed_text = { source_text };

    ghost listed_at = { source_at };

    fn append_listed(&self, out: &mut Vec<u8>) -> Result<(), AllocError> {
        append_source(self, out)
    }

    fn read_listed(alloc: Global, text: &[u8]) -> Result<(Origin, &[u8]), TextFault> {
        read_source(alloc, text)
    }
}

#[tactic(auto, unfolding(khepri_types::specs::ProjectionTexts::source_text))]
fn append_source(source: &Origin, out: &mut Vec<u8>) -> Result<(), AllocError>
    ensures ok { OnOk result (out.new.items ≡ out.old.items ++ source_text source.now) }
    ensures front { take (length out.old.items) out.new.items ≡ out.old.items }
{
    match source {
        Origin::Seg(place) => append_seg(*place, out),
        Origin::Field(key) => append_field(key, out),
        Origin::Version => append_word(b"pv", out),
    }
}

// Appends `seg(NUM)`.
fn append_seg(place: u8, out: &mut Vec<u8>) -> Result<(), AllocError>
    ensures ok { OnOk result (out.new.items ≡ out.old.items ++ (codes "seg(" ++ decimal place ++ 41 ∷ [])) }
    ensures front { take (length out.old.items) out.new.items ≡ out.old.items }
{
    append_number(b"seg(", place as u64, out)?;
    append_word(b")", out)
}

// Appends `field(KEY)`.
fn append_field(key: &Name, out: &mut Vec<u8>) -> Result<(), AllocError>
    ensures ok { OnOk result (out.new.items ≡ out.old.items ++ (codes "field(" ++ comp_text key.now ++ 41 ∷ [])) }
    ensures front { take (length out.old.items) out.new.items ≡ out.old.items }
{
    append_word(b"field(", out)?;
    key.print(out)?;
    append_word(b")", out)
}

// The source at the front, and what is after it.
#[tactic(auto, unfolding(khepri_types::specs::ProjectionTexts::source_at))]
fn read_source(alloc: Global, text: &[u8]) -> Result<(Origin, &[u8]), TextFault>
    ensures value { IfOk result (λ x. source_at text.now ≡ Some (x.0, x.1.now)) }
    ensures bad { result ≡ Err TextFault.Bad → source_at text.now ≡ None }
{
    if let Some(rest) = strip(text, b"seg(") {
        return read_seg(rest);
    }
    if let Some(rest) = strip(text, b"field(") {
        return read_field(alloc, rest);
    }
    if let Some(rest) = strip(text, b"pv") {
        return Ok((Origin::Version, rest));
    }
    Err(TextFault::Bad)
}

// Behind `seg(`.
#[tactic(auto, unfolding(khepri_types::specs::ProjectionTexts::seg_behind))]
fn read_seg(text: &[u8]) -> Result<(Origin, &[u8]), TextFault>
    ensures value { IfOk result (λ x. seg_behind text.now ≡ Some (x.0, x.1.now)) }
    ensures bad { result ≡ Err TextFault.Bad → seg_behind text.now ≡ None }
{
    let Some((place, rest)) = read_number(text, MAX_PATH_NAMES as u64) else {
        return Err(TextFault::Bad);
    };
    let rest = read_mark(rest, b')')?;
    if place == 0 {
        return Err(TextFault::Bad);
    }
    Ok((Origin::Seg(place as u8), rest))
}

// Behind `field(`.
#[tactic(auto, unfolding(khepri_types::specs::ProjectionTexts::field_behind))]
fn read_field(alloc: Global, text: &[u8]) -> Result<(Origin, &[u8]), TextFault>
    ensures value { IfOk result (λ x. field_behind text.now ≡ Some (x.0, x.1.now)) }
    ensures bad { result ≡ Err TextFault.Bad → field_behind text.now ≡ None }
{
    let (key, rest) = read_key(alloc, text)?;
    let rest = read_mark(rest, b')')?;
    Ok((Origin::Field(key), rest))
}
