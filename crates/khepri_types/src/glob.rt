// Texts with places that any bytes may take.
ghost use Rattle.std.specs.Prelude.{◌≡◌, IfOk, Some, None, MatchOption};
ghost use Rattle.khepri_types.specs.Globs.{some_tail, glob_matches, same_kind, fits_name};
ghost use Rattle.khepri_types.specs.Literals.{literal_at};
ghost use Rattle.khepri_types.specs.Begun.{IsBegun};

use khepri_terms::{Kind, Name};
use sqlite_items::Items;
use std::alloc::{AllocError, Global};

/// A byte that stands for itself, or `*`, which stands for some bytes, perhaps none.
#[derive(Clone, Copy, PartialEq, Eq, Drop)]
pub enum GlobPiece {
    Byte(u8),
    Star,
}

/// A kind, and 1 to 255 pieces.
#[derive(Drop)]
pub struct Glob {
    pub kind: Kind,
    pub pieces: Items<GlobPiece>,
}

impl Glob {
    /// Whether a name is of this kind and its bytes are the pieces, with each `*` replaced by some bytes.
    pub fn fits(&self, name: &Name) -> bool
        ensures { result ≡ fits_name self.now name.now }
    {
        same_kind(self.kind, name.kind()) && glob_matches(self.pieces.as_slice(), name.bytes())
    }

    /// A copy with memory of its own.
    pub fn copy(&self, alloc: Global) -> Result<Glob, AllocError>
        ensures { IfOk result (λ g. g ≡ self.now) }
    {
        Ok(Glob {
            kind: self.kind,
            pieces: Items::from_slice(alloc, self.pieces.as_slice())?,
        })
    }
}

fn same_kind(a: Kind, b: Kind) -> bool
    ensures { result ≡ same_kind a b }
{
    match a {
        Kind::Atom => match b {
            Kind::Atom => true,
            Kind::Text => false,
        },
        Kind::Text => match b {
            Kind::Atom => false,
            Kind::Text => true,
        },
    }
}

// What a glob does at one place of the bytes.
enum Begun<'a, 'b> {
    // The pieces before the first `*` take their bytes; then come these pieces and these bytes.
    Star(&'a [GlobPiece], &'b [u8]),
    // The pieces have no `*`, and are the bytes.
    Same,
    // The pieces are not the bytes.
    Unlike,
}

// What is left once the pieces before the first `*` have taken their bytes; none where they cannot.
#[tactic(auto, unfolding(crate::specs::Literals::literal_at))]
fn after_literal<'a, 'b>(
    pieces: &'a [GlobPiece],
    bytes: &'b [u8],
) -> Option<(&'a [GlobPiece], &'b [u8])>
    ensures { MatchOption result (literal_at pieces.now bytes.now ≡ None) (λ x. literal_at pieces.now bytes.now ≡ Some (x.0.now, x.1.now)) }
{
    let mut left = pieces;
    let mut rest = bytes;
    'literal: while let [GlobPiece::Byte(a), later @ ..] = left {
        match rest {
            [b, after @ ..] => {
                if a != b {
                    return None;
                }
                left = later;
                rest = after;
            }
            [] => return None,
        }
    }
    Some((left, rest))
}

// The pieces before the first `*` against the bytes.
fn begin<'a, 'b>(pieces: &'a [GlobPiece], bytes: &'b [u8]) -> Begun<'a, 'b>
    ensures { IsBegun pieces.now bytes.now result }
{
    let Some((left, rest)) = after_literal(pieces, bytes) else {
        return Begun::Unlike;
    };
    match left {
        [_, later @ ..] => Begun::Star(later, rest),
        [] => match rest {
            [] => Begun::Same,
            [_, ..] => Begun::Unlike,
        },
    }
}

// Whether the pieces are the bytes. Behind a `*` the first place that fits is taken, and only the last `*` is moved on.
#[tactic(auto, using(crate::proofs::GlobLaws::star_matches))]
fn glob_matches(pieces: &[GlobPiece], bytes: &[u8]) -> bool
    ensures { result ≡ glob_matches pieces.now bytes.now }
{
    match begin(pieces, bytes) {
        Begun::Star(later, rest) => some_tail_matches(later, rest),
        Begun::Same => true,
        Begun::Unlike => false,
    }
}

// Whether the pieces are the bytes, or what is behind some of the first ones.
fn some_tail_matches(pieces: &[GlobPiece], bytes: &[u8]) -> bool
    ensures { result ≡ some_tail (glob_matches pieces.now) bytes.now }
{
    let mut left = pieces;
    let mut rest = bytes;
    'tails: loop {
        match begin(left, rest) {
            Begun::Star(later, after) => {
                left = later;
                rest = after;
            }
            Begun::Same => return true,
            Begun::Unlike => match rest {
                [_, after @ ..] => rest = after,
                [] => return false,
            },
        }
    }
}
