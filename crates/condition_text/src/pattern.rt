// Patterns.
ghost use Rattle.std.specs.Prelude.{◌≡◌, ◌++◌, ◌∷◌, [], ◌+◌, ◌≤◌, length, take, drop, IfOk, OnOk, OnErr, Err, Some, None};
ghost use Rattle.std.specs.List.{flat_map};
ghost use Rattle.khepri_terms.specs.Many.{many};
ghost use Rattle.khepri_types.specs.declared.limits.TheConstants.{MAX_PATTERN_PARTS};
ghost use Rattle.khepri_types.specs.ConditionTexts.{condition_text};
ghost use Rattle.khepri_types.specs.PatternTexts.{part_text, stage_text, pattern_text};
ghost use Rattle.khepri_types.specs.ReadingConditions.{meets_at, part_at, stage_at, pattern_at};

use crate::condition::{append_condition, read_condition};
use crate::many::{Item, read_many};
use crate::words::{append_word, read_mark};
use khepri_terms::{Name, TextFault};
use khepri_types::limits::{MAX_PATTERN_PARTS, MAX_PATTERN_TEXT};
use khepri_types::{Condition, Pattern, PatternPart};
use sqlite_items::Items;
use std::alloc::{AllocError, Global};

/// Appends the spelling of a pattern.
pub fn append_pattern(pattern: &Pattern, out: &mut Vec<u8>) -> Result<(), AllocError>
    ensures ok { OnOk result (out.new.items ≡ out.old.items ++ pattern_text pattern.now) }
    ensures front { take (length out.old.items) out.new.items ≡ out.old.items }
{
    append_parts(pattern.parts(), out)
}

#[tactic(auto, unfolding(khepri_types::specs::PatternTexts::pattern_text))]
fn append_parts(parts: &[PatternPart], out: &mut Vec<u8>) -> Result<(), AllocError>
    ensures ok { OnOk result (out.new.items ≡ out.old.items ++ pattern_text parts.now) }
    ensures front { take (length out.old.items) out.new.items ≡ out.old.items }
{
    match parts {
        [] => append_word(b"/", out),
        [_, ..] => append_stages(parts, out),
    }
}

// Appends each part behind a slash.
fn append_stages(parts: &[PatternPart], out: &mut Vec<u8>) -> Result<(), AllocError>
    ensures ok { OnOk result (out.new.items ≡ out.old.items ++ flat_map stage_text parts.now) }
    ensures front { take (length out.old.items) out.new.items ≡ out.old.items }
{
    for part in parts {
        append_stage(part, out)?;
    }
    Ok(())
}

// Appends a slash and a part.
fn append_stage(part: &PatternPart, out: &mut Vec<u8>) -> Result<(), AllocError>
    ensures ok { OnOk result (out.new.items ≡ out.old.items ++ stage_text part.now) }
    ensures front { take (length out.old.items) out.new.items ≡ out.old.items }
{
    append_word(b"/", out)?;
    append_part(part, out)
}

#[tactic(auto, unfolding(khepri_types::specs::PatternTexts::part_text))]
fn append_part(part: &PatternPart, out: &mut Vec<u8>) -> Result<(), AllocError>
    ensures ok { OnOk result (out.new.items ≡ out.old.items ++ part_text part.now) }
    ensures front { take (length out.old.items) out.new.items ≡ out.old.items }
{
    match part {
        PatternPart::Name(name) => name.print(out),
        PatternPart::One => append_word(b"*", out),
        PatternPart::Many => append_word(b"**", out),
        PatternPart::Meets(cond) => append_meets(cond, out),
    }
}

// Appends `[COND]`.
fn append_meets(cond: &Condition, out: &mut Vec<u8>) -> Result<(), AllocError>
    ensures ok { OnOk result (out.new.items ≡ out.old.items ++ 91 ∷ (condition_text cond.now ++ 93 ∷ [])) }
    ensures front { take (length out.old.items) out.new.items ≡ out.old.items }
{
    append_word(b"[", out)?;
    append_condition(cond, out)?;
    append_word(b"]", out)
}

/// The pattern at the front, read as far as it goes, and what is after it.
pub fn read_pattern(alloc: Global, text: &[u8]) -> Result<(Pattern, &[u8]), TextFault>
    ensures value { IfOk result (λ x. pattern_at text.now ≡ Some (x.0, x.1.now)) }
    ensures bad { result ≡ Err TextFault.Bad → pattern_at text.now ≡ None }
{
    let (parts, rest) = match_pattern(alloc, text)?;
    Ok((Pattern::new(parts), rest))
}

// The parts of the pattern at the front, and what is after it.
#[tactic(auto, using(crate::proofs::Stages::pattern_root, crate::proofs::Stages::pattern_odd, crate::proofs::Stages::pattern_found, crate::proofs::Stages::pattern_long))]
fn match_pattern(alloc: Global, text: &[u8]) -> Result<(Items<PatternPart>, &[u8]), TextFault>
    ensures value { IfOk result (λ x. pattern_at text.now ≡ Some (x.0, x.1.now)) }
    ensures bad { result ≡ Err TextFault.Bad → pattern_at text.now ≡ None }
{
    let (parts, rest) = read_stages(alloc, text)?;
    if parts.len() == 0 {
        let after = read_mark(text, b'/')?;
        return Ok((Items::from_vec(parts), after));
    }
    if text.len() - rest.len() > MAX_PATTERN_TEXT {
        return Err(TextFault::Bad);
    }
    Ok((Items::from_vec(parts), rest))
}

// As many parts as stand at the front, each behind a slash, and what is after them.
fn read_stages(alloc: Global, text: &[u8]) -> Result<(Vec<PatternPart>, &[u8]), AllocError>
    ensures value { IfOk result (λ x. many stage_at MAX_PATTERN_PARTS text.now ≡ (x.0.items, x.1.now)) }
    ensures within { IfOk result (λ x. length x.1.now ≤ length text.now) }
{
    read_many::<StageItem>(alloc, text, MAX_PATTERN_PARTS)
}

struct StageItem;

impl Item for StageItem {
    ghost use Rattle.khepri_types.specs.ReadingConditions.{stage_at};

    type Value = PatternPart;

    ghost item_at = { stage_at };

    // The slash and the part.
    #[tactic(auto, unfolding(khepri_types::specs::ReadingConditions::stage_at))]
    fn read_item(alloc: Global, text: &[u8]) -> Result<(PatternPart, &[u8]), TextFault> {
        match text {
            [b'/', rest @ ..] => read_part(alloc, rest),
            _ => Err(TextFault::Bad),
        }
    }
}

// The part at the front, and what is after it.
#[tactic(auto, unfolding(khepri_types::specs::ReadingConditions::part_at))]
fn read_part(alloc: Global, text: &[u8]) -> Result<(PatternPart, &[u8]), TextFault>
    ensures value { IfOk result (λ x. part_at text.now ≡ Some (x.0, x.1.now)) }
    ensures bad { result ≡ Err TextFault.Bad → part_at text.now ≡ None }
{
    if let Some(rest) = text.strip_prefix(b"**") {
        return Ok((PatternPart::Many, rest));
    }
    if let Some(rest) = text.strip_prefix(b"*") {
        return Ok((PatternPart::One, rest));
    }
    if let Some(rest) = text.strip_prefix(b"[") {
        return read_meets(alloc, rest);
    }
    let (name, rest) = Name::read(alloc, text)?;
    Ok((PatternPart::Name(name), rest))
}

// The condition behind a `[`, and what is after its `]`.
#[tactic(auto, unfolding(khepri_types::specs::ReadingConditions::meets_at))]
fn read_meets(alloc: Global, text: &[u8]) -> Result<(PatternPart, &[u8]), TextFault>
    ensures value { IfOk result (λ x. meets_at text.now ≡ Some (x.0, x.1.now)) }
    ensures bad { result ≡ Err TextFault.Bad → meets_at text.now ≡ None }
{
    let (cond, rest) = read_condition(alloc, text)?;
    let rest = read_mark(rest, b']')?;
    Ok((PatternPart::Meets(cond), rest))
}
