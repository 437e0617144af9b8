// Patterns of paths.
ghost use Rattle.std.specs.Prelude.{◌≡◌, IfOk};
ghost use Rattle.khepri_types.specs.PatternTexts.{IsPattern};

use crate::condition::Condition;
use khepri_terms::Name;
use sqlite_items::Items;
use std::alloc::{AllocError, Global};
use std::marker::Model;

/// What one name of a path, or several, may be.
#[derive(Drop)]
pub enum PatternPart {
    /// This name.
    Name(Name),
    /// `*`, any one name.
    One,
    /// `**`, one or more names.
    Many,
    /// `[c]`, one name whose node meets the condition.
    Meets(Condition),
}

/// At most 32 parts, and at most 1,024 bytes of text; the pattern of the root has none.
#[derive(Drop)]
pub struct Pattern {
    parts: Items<PatternPart>,
}

impl Model for Pattern {
    ghost use Rattle.std.specs.Prelude.{List};
    ghost use Rattle.khepri_types.specs.declared.pattern.PatternPart.{PatternPart};
    ghost use Rattle.khepri_types.specs.PatternTexts.{IsPattern};
    ghost use Rattle.khepri_types.specs.contracts.condition.Condition as condition;
    ghost use Rattle.std.specs.Coded.{codes};

    ghost Value = { List PatternPart };

    ghost coded = { Prim.hlevel (codes, condition.the_row.coded) };

    ghost view = { λ p. p.parts };

    ghost invariant = { λ p. IsPattern p.parts };
}

impl Pattern {
    /// A pattern of parts that have a spelling together.
    pub fn new(parts: Items<PatternPart>) -> Pattern
        requires { IsPattern parts }
        ensures { result ≡ parts }
    {
        Pattern { parts }
    }

    /// The parts, from the left.
    pub fn parts(&self) -> &[PatternPart]
        ensures value { result.now ≡ self.now }
        ensures is { IsPattern self.now }
    {
        self.parts.as_slice()
    }

    /// A copy with memory of its own.
    pub fn copy(&self, alloc: Global) -> Result<Pattern, AllocError>
        ensures { IfOk result (λ p. p ≡ self.now) }
    {
        Ok(Pattern {
            parts: copy_parts(alloc, self.parts.as_slice())?,
        })
    }
}

fn copy_part(alloc: Global, part: &PatternPart) -> Result<PatternPart, AllocError>
    ensures { IfOk result (λ p. p ≡ part.now) }
{
    match part {
        PatternPart::Name(name) => Ok(PatternPart::Name(name.copy()?)),
        PatternPart::One => Ok(PatternPart::One),
        PatternPart::Many => Ok(PatternPart::Many),
        PatternPart::Meets(cond) => Ok(PatternPart::Meets(cond.copy(alloc)?)),
    }
}

fn copy_parts(alloc: Global, parts: &[PatternPart]) -> Result<Items<PatternPart>, AllocError>
    ensures { IfOk result (λ p. p ≡ parts.now) }
{
    let mut all = Items::new(alloc);
    for part in parts {
        all.push(copy_part(alloc, part)?)?;
    }
    Ok(all)
}
