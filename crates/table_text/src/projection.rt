// Projections.
ghost use Rattle.std.specs.Prelude.{◌≡◌, ◌++◌, ◌∷◌, [], length, take, IfOk, OnOk, Err, Some, None};
ghost use Rattle.khepri_terms.specs.Names.{comp_text};
ghost use Rattle.khepri_types.specs.PatternTexts.{pattern_text};
ghost use Rattle.khepri_types.specs.ProjectionLines.{table_kind_text, projection_text, table_kind_at, table_name_at, sources_behind, pattern_behind, kind_behind, projection_at};
ghost use Rattle.khepri_types.specs.ProjectionTexts.{sources_text};
ghost use Rattle.table_text.specs.TableGrammar.{BeginsWith, BeginsNoProjection};

use crate::source::{append_sources, read_keys, read_values};
use condition_text::words::{append_word, read_mark, strip};
use condition_text::{append_pattern, read_key, read_pattern};
use khepri_terms::{Name, TextFault};
use khepri_types::{Origin, Pattern, Projection};
use std::alloc::{AllocError, Global};

/// Appends `NAME KIND PATTERN KEYS VALUES`.
#[tactic(auto, unfolding(khepri_types::specs::ProjectionLines::projection_text))]
pub fn append_projection(projection: &Projection, out: &mut Vec<u8>) -> Result<(), AllocError>
    ensures ok { OnOk result (out.new.items ≡ out.old.items ++ projection_text projection.now) }
    ensures front { take (length out.old.items) out.new.items ≡ out.old.items }
{
    append_head(&projection.name, projection.bag, &projection.pattern, out)?;
    append_spaced(projection.keys.as_slice(), out)?;
    append_spaced(projection.values.as_slice(), out)
}

// Appends `NAME KIND PATTERN`.
fn append_head(
    name: &Name,
    bag: bool,
    pattern: &Pattern,
    out: &mut Vec<u8>,
) -> Result<(), AllocError>
    ensures ok { OnOk result (out.new.items ≡ out.old.items ++ (comp_text name.now ++ 32 ∷ table_kind_text bag ++ 32 ∷ pattern_text pattern.now)) }
    ensures front { take (length out.old.items) out.new.items ≡ out.old.items }
{
    name.print(out)?;
    append_kind(bag, out)?;
    append_pattern(pattern, out)
}

// Appends the kind between two spaces.
fn append_kind(bag: bool, out: &mut Vec<u8>) -> Result<(), AllocError>
    ensures ok { OnOk result (out.new.items ≡ out.old.items ++ 32 ∷ (table_kind_text bag ++ 32 ∷ [])) }
    ensures front { take (length out.old.items) out.new.items ≡ out.old.items }
{
    append_word(kind_word(bag), out)
}

// The word of a kind between two spaces.
#[tactic(auto, unfolding(khepri_types::specs::ProjectionLines::table_kind_text))]
fn kind_word(bag: bool) -> &'static [u8]
    ensures { result.now ≡ 32 ∷ (table_kind_text bag ++ 32 ∷ []) }
{
    if bag {
        return b" bag ";
    }
    b" set "
}

// Appends a space and sources.
fn append_spaced(sources: &[Origin], out: &mut Vec<u8>) -> Result<(), AllocError>
    ensures ok { OnOk result (out.new.items ≡ out.old.items ++ 32 ∷ sources_text sources.now) }
    ensures front { take (length out.old.items) out.new.items ≡ out.old.items }
{
    append_word(b" ", out)?;
    append_sources(sources, out)
}

/// The projection at the front, and what is after it. `Bad` says that none is spelled there.
#[tactic(auto, using(crate::proofs::Grammar::projection_read, crate::proofs::Grammar::projection_unread))]
pub fn read_projection(alloc: Global, text: &[u8]) -> Result<(Projection, &[u8]), TextFault>
    ensures value { IfOk result (λ x. projection_at text.now ≡ Some (x.0, x.1.now)) }
    ensures bad { result ≡ Err TextFault.Bad → projection_at text.now ≡ None }
    ensures spelled { IfOk result (λ x. BeginsWith text.now x.0 x.1.now) }
    ensures none { result ≡ Err TextFault.Bad → BeginsNoProjection text.now }
{
    match_projection(alloc, text)
}

#[tactic(auto, unfolding(khepri_types::specs::ProjectionLines::projection_at))]
fn match_projection(alloc: Global, text: &[u8]) -> Result<(Projection, &[u8]), TextFault>
    ensures value { IfOk result (λ x. projection_at text.now ≡ Some (x.0, x.1.now)) }
    ensures bad { result ≡ Err TextFault.Bad → projection_at text.now ≡ None }
{
    let (name, rest) = read_table_name(alloc, text)?;
    read_kind_behind(alloc, name, rest)
}

/// The name of a table at the front, and what is after the space behind it.
#[tactic(auto, unfolding(khepri_types::specs::ProjectionLines::table_name_at))]
pub(crate) fn read_table_name(alloc: Global, text: &[u8]) -> Result<(Name, &[u8]), TextFault>
    ensures value { IfOk result (λ x. table_name_at text.now ≡ Some (x.0, x.1.now)) }
    ensures bad { result ≡ Err TextFault.Bad → table_name_at text.now ≡ None }
{
    let (name, rest) = read_key(alloc, text)?;
    let rest = read_mark(rest, b' ')?;
    Ok((name, rest))
}

// Whether a bag or a set is spelled at the front, and what is after it.
#[tactic(auto, unfolding(khepri_types::specs::ProjectionLines::table_kind_at))]
fn read_kind(text: &[u8]) -> Result<(bool, &[u8]), TextFault>
    ensures value { IfOk result (λ x. table_kind_at text.now ≡ Some (x.0, x.1.now)) }
    ensures bad { result ≡ Err TextFault.Bad → table_kind_at text.now ≡ None }
{
    if let Some(rest) = strip(text, b"bag") {
        return Ok((true, rest));
    }
    if let Some(rest) = strip(text, b"set") {
        return Ok((false, rest));
    }
    Err(TextFault::Bad)
}

// Behind a name: `KIND PATTERN KEYS VALUES`.
#[tactic(auto, unfolding(khepri_types::specs::ProjectionLines::kind_behind))]
fn read_kind_behind(
    alloc: Global,
    name: Name,
    text: &[u8],
) -> Result<(Projection, &[u8]), TextFault>
    ensures value { IfOk result (λ x. kind_behind name text.now ≡ Some (x.0, x.1.now)) }
    ensures bad { result ≡ Err TextFault.Bad → kind_behind name text.now ≡ None }
{
    let (bag, rest) = read_kind(text)?;
    let rest = read_mark(rest, b' ')?;
    read_pattern_behind(alloc, name, bag, rest)
}

// Behind a kind: `PATTERN KEYS VALUES`.
#[tactic(auto, unfolding(khepri_types::specs::ProjectionLines::pattern_behind))]
fn read_pattern_behind(
    alloc: Global,
    name: Name,
    bag: bool,
    text: &[u8],
) -> Result<(Projection, &[u8]), TextFault>
    ensures value { IfOk result (λ x. pattern_behind name bag text.now ≡ Some (x.0, x.1.now)) }
    ensures bad { result ≡ Err TextFault.Bad → pattern_behind name bag text.now ≡ None }
{
    let (pattern, rest) = read_pattern(alloc, text)?;
    let rest = read_mark(rest, b' ')?;
    read_sources_behind(alloc, name, bag, pattern, rest)
}

// Behind a pattern: `KEYS VALUES`.
#[tactic(auto, unfolding(khepri_types::specs::ProjectionLines::sources_behind))]
fn read_sources_behind(
    alloc: Global,
    name: Name,
    bag: bool,
    pattern: Pattern,
    text: &[u8],
) -> Result<(Projection, &[u8]), TextFault>
    ensures value { IfOk result (λ x. sources_behind name bag pattern text.now ≡ Some (x.0, x.1.now)) }
    ensures bad { result ≡ Err TextFault.Bad → sources_behind name bag pattern text.now ≡ None }
{
    let (keys, rest) = read_keys(alloc, text)?;
    let rest = read_mark(rest, b' ')?;
    let (values, rest) = read_values(alloc, rest)?;
    Ok((
        Projection {
            name,
            bag,
            pattern,
            keys,
            values,
        },
        rest,
    ))
}
