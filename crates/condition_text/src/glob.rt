// Globs.
ghost use Rattle.std.specs.Prelude.{◌≡◌, ◌++◌, length, take, IfOk, OnOk, OnErr, MatchOption, Err, Some, None};
ghost use Rattle.std.specs.List.{flat_map};
ghost use Rattle.khepri_terms.specs.Many.{many};
ghost use Rattle.khepri_types.specs.declared.limits.TheConstants.{MAX_GLOB_PIECES};
ghost use Rattle.khepri_types.specs.Globs.{piece_text, glob_text, piece_at, globbed, glob_at};

use crate::many::{Item, read_many};
use crate::words::append_word;
use khepri_terms::texts::{print_byte, read_byte};
use khepri_terms::{Kind, TextFault};
use khepri_types::limits::MAX_GLOB_PIECES;
use khepri_types::{Glob, GlobPiece};
use sqlite_items::Items;
use std::alloc::{AllocError, Global};

// Appends a byte's spelling, or `*`.
fn append_piece(piece: &GlobPiece, out: &mut Vec<u8>) -> Result<(), AllocError>
    ensures ok { OnOk result (out.new.items ≡ out.old.items ++ piece_text piece.now) }
    ensures err { OnErr result (out.new.items ≡ out.old.items) }
{
    match piece {
        GlobPiece::Byte(byte) => print_byte(*byte, out),
        GlobPiece::Star => out.extend_from_slice(b"*"),
    }
}

// Appends the pieces one after another.
fn append_pieces(pieces: &[GlobPiece], out: &mut Vec<u8>) -> Result<(), AllocError>
    ensures ok { OnOk result (out.new.items ≡ out.old.items ++ flat_map piece_text pieces.now) }
    ensures front { take (length out.old.items) out.new.items ≡ out.old.items }
{
    for piece in pieces {
        append_piece(piece, out)?;
    }
    Ok(())
}

/// Appends the spelling of a glob.
#[tactic(auto, unfolding(khepri_types::specs::Globs::glob_text), using(khepri_terms::proofs::Printing::front_then))]
pub(crate) fn append_glob(glob: &Glob, out: &mut Vec<u8>) -> Result<(), AllocError>
    ensures ok { OnOk result (out.new.items ≡ out.old.items ++ glob_text glob.now) }
    ensures front { take (length out.old.items) out.new.items ≡ out.old.items }
{
    match glob.kind {
        Kind::Atom => {
            append_word(b":", out)?;
            append_pieces(glob.pieces.as_slice(), out)
        }
        Kind::Text => append_pieces(glob.pieces.as_slice(), out),
    }
}

// The piece at the front, and what is after it.
#[tactic(auto, unfolding(khepri_types::specs::Globs::piece_at))]
fn read_piece(text: &[u8]) -> Option<(GlobPiece, &[u8])>
    ensures { MatchOption result (piece_at text.now ≡ None) (λ x. piece_at text.now ≡ Some (x.0, x.1.now)) }
{
    match text {
        [b'*', rest @ ..] => Some((GlobPiece::Star, rest)),
        [_, ..] => {
            let (byte, rest) = read_byte(text)?;
            Some((GlobPiece::Byte(byte), rest))
        }
        [] => None,
    }
}

struct PieceItem;

impl Item for PieceItem {
    ghost use Rattle.khepri_types.specs.Globs.{piece_at};

    type Value = GlobPiece;

    ghost item_at = { piece_at };

    fn read_item(_alloc: Global, text: &[u8]) -> Result<(GlobPiece, &[u8]), TextFault> {
        match read_piece(text) {
            Some((piece, rest)) => Ok((piece, rest)),
            None => Err(TextFault::Bad),
        }
    }
}

// The pieces at the front as a glob of this kind, and what is after them.
fn read_kind(alloc: Global, kind: Kind, text: &[u8]) -> Result<(Glob, &[u8]), TextFault>
    ensures value { IfOk result (λ x. globbed kind (many piece_at MAX_GLOB_PIECES text.now) ≡ Some (x.0, x.1.now)) }
    ensures bad { result ≡ Err TextFault.Bad → globbed kind (many piece_at MAX_GLOB_PIECES text.now) ≡ None }
{
    let (pieces, rest) = read_many::<PieceItem>(alloc, text, MAX_GLOB_PIECES)?;
    if pieces.len() == 0 {
        return Err(TextFault::Bad);
    }
    let pieces = Items::from_vec(pieces);
    Ok((Glob { kind, pieces }, rest))
}

/// The glob at the front, read as far as it goes, and what is after it.
#[tactic(auto, unfolding(khepri_types::specs::Globs::glob_at))]
pub(crate) fn read_glob(alloc: Global, text: &[u8]) -> Result<(Glob, &[u8]), TextFault>
    ensures value { IfOk result (λ x. glob_at text.now ≡ Some (x.0, x.1.now)) }
    ensures bad { result ≡ Err TextFault.Bad → glob_at text.now ≡ None }
{
    match text {
        [b':', rest @ ..] => read_kind(alloc, Kind::Atom, rest),
        [_, ..] => read_kind(alloc, Kind::Text, text),
        [] => Err(TextFault::Bad),
    }
}
