// Reads of tables.
ghost use Rattle.std.specs.Prelude.{◌≡◌, ◌++◌, ◌∷◌, length, take, IfOk, OnOk, Err, Some, None};
ghost use Rattle.khepri_types.specs.ProjectionLines.{lookup_text, lookup_at, spelled_lookup};
ghost use Rattle.khepri_types.specs.ProjectionTexts.{scalars_text};
ghost use Rattle.table_text.specs.TableGrammar.{SpellsLookup, IsNoLookup};

use crate::projection::read_table_name;
use crate::scalars::{append_scalars, read_asked_key};
use condition_text::words::{append_word, strip};
use khepri_terms::{Name, TextFault};
use khepri_types::Key;
use std::alloc::{AllocError, Global};

/// Appends `~ NAME LIST`.
#[tactic(auto, unfolding(khepri_types::specs::ProjectionLines::lookup_text))]
pub fn append_lookup(name: &Name, key: &Key, out: &mut Vec<u8>) -> Result<(), AllocError>
    ensures ok { OnOk result (out.new.items ≡ out.old.items ++ lookup_text (record { name = name.now; key = key.now })) }
    ensures front { take (length out.old.items) out.new.items ≡ out.old.items }
{
    append_word(b"~ ", out)?;
    name.print(out)?;
    append_asked(key, out)
}

// Appends a space and the key.
fn append_asked(key: &Key, out: &mut Vec<u8>) -> Result<(), AllocError>
    ensures ok { OnOk result (out.new.items ≡ out.old.items ++ 32 ∷ scalars_text key.now) }
    ensures front { take (length out.old.items) out.new.items ≡ out.old.items }
{
    append_word(b" ", out)?;
    append_scalars(key, out)
}

/// The name and the key that the whole text asks for. `Bad` says that it is no read.
#[tactic(auto, using(crate::proofs::Grammar::lookup_read, crate::proofs::Grammar::lookup_unread))]
pub fn read_lookup(alloc: Global, text: &[u8]) -> Result<(Name, Key), TextFault>
    ensures value { IfOk result (λ x. spelled_lookup text.now ≡ Some (record { name = x.0; key = x.1 })) }
    ensures bad { result ≡ Err TextFault.Bad → spelled_lookup text.now ≡ None }
    ensures spelled { IfOk result (λ x. SpellsLookup text.now (record { name = x.0; key = x.1 })) }
    ensures none { result ≡ Err TextFault.Bad → IsNoLookup text.now }
{
    match_lookup(alloc, text)
}

#[tactic(auto, unfolding(khepri_types::specs::ProjectionLines::spelled_lookup))]
fn match_lookup(alloc: Global, text: &[u8]) -> Result<(Name, Key), TextFault>
    ensures value { IfOk result (λ x. spelled_lookup text.now ≡ Some (record { name = x.0; key = x.1 })) }
    ensures bad { result ≡ Err TextFault.Bad → spelled_lookup text.now ≡ None }
{
    let (name, key, behind) = read_asked(alloc, text)?;
    match behind {
        [] => Ok((name, key)),
        [_, ..] => Err(TextFault::Bad),
    }
}

// The read at the front, and what is after it.
#[tactic(auto, unfolding(khepri_types::specs::ProjectionLines::lookup_at, khepri_types::specs::Words::after_word))]
fn read_asked(alloc: Global, text: &[u8]) -> Result<(Name, Key, &[u8]), TextFault>
    ensures value { IfOk result (λ x. lookup_at text.now ≡ Some (record { name = x.0; key = x.1 }, x.2.now)) }
    ensures bad { result ≡ Err TextFault.Bad → lookup_at text.now ≡ None }
{
    let Some(rest) = strip(text, b"~ ") else {
        return Err(TextFault::Bad);
    };
    let (name, rest) = read_table_name(alloc, rest)?;
    let (key, rest) = read_asked_key(alloc, rest)?;
    Ok((name, key, rest))
}
