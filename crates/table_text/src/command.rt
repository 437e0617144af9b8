// Commands on projections.
ghost use Rattle.std.specs.Prelude.{◌≡◌, ◌++◌, length, take, IfOk, OnOk, Err, Some, None};
ghost use Rattle.khepri_types.specs.ProjectionLines.{proj_text, unproj_text, whole, projection_at, spelled_proj, spelled_unproj};
ghost use Rattle.khepri_types.specs.ReadingConditions.{key_at};
ghost use Rattle.table_text.specs.TableGrammar.{SpellsProj, IsNoProj, SpellsUnproj, IsNoUnproj};

use crate::projection::{append_projection, read_projection};
use condition_text::read_key;
use condition_text::words::{append_word, strip};
use khepri_terms::{Name, TextFault};
use khepri_types::Projection;
use std::alloc::{AllocError, Global};

/// Appends the command that registers a projection.
#[tactic(auto, unfolding(khepri_types::specs::ProjectionLines::proj_text))]
pub fn append_proj(projection: &Projection, out: &mut Vec<u8>) -> Result<(), AllocError>
    ensures ok { OnOk result (out.new.items ≡ out.old.items ++ proj_text projection.now) }
    ensures front { take (length out.old.items) out.new.items ≡ out.old.items }
{
    append_word(b"proj ", out)?;
    append_projection(projection, out)
}

/// Appends the command that removes the projection of a name.
#[tactic(auto, unfolding(khepri_types::specs::ProjectionLines::unproj_text))]
pub fn append_unproj(name: &Name, out: &mut Vec<u8>) -> Result<(), AllocError>
    ensures ok { OnOk result (out.new.items ≡ out.old.items ++ unproj_text name.now) }
    ensures front { take (length out.old.items) out.new.items ≡ out.old.items }
{
    append_word(b"unproj ", out)?;
    name.print(out)
}

/// The projection that the whole text registers. `Bad` says that it is no such command.
#[tactic(auto, using(crate::proofs::Grammar::proj_read, crate::proofs::Grammar::proj_unread))]
pub fn read_proj(alloc: Global, text: &[u8]) -> Result<Projection, TextFault>
    ensures value { IfOk result (λ x. spelled_proj text.now ≡ Some x) }
    ensures bad { result ≡ Err TextFault.Bad → spelled_proj text.now ≡ None }
    ensures spelled { IfOk result (λ x. SpellsProj text.now x) }
    ensures none { result ≡ Err TextFault.Bad → IsNoProj text.now }
{
    match_proj(alloc, text)
}

#[tactic(auto, unfolding(khepri_types::specs::ProjectionLines::spelled_proj, khepri_types::specs::Words::after_word))]
fn match_proj(alloc: Global, text: &[u8]) -> Result<Projection, TextFault>
    ensures value { IfOk result (λ x. spelled_proj text.now ≡ Some x) }
    ensures bad { result ≡ Err TextFault.Bad → spelled_proj text.now ≡ None }
{
    let Some(rest) = strip(text, b"proj ") else {
        return Err(TextFault::Bad);
    };
    read_whole_projection(alloc, rest)
}

// The projection that the whole text spells.
fn read_whole_projection(alloc: Global, text: &[u8]) -> Result<Projection, TextFault>
    ensures value { IfOk result (λ x. whole (projection_at text.now) ≡ Some x) }
    ensures bad { result ≡ Err TextFault.Bad → whole (projection_at text.now) ≡ None }
{
    let (projection, behind) = read_projection(alloc, text)?;
    match behind {
        [] => Ok(projection),
        [_, ..] => Err(TextFault::Bad),
    }
}

/// The name whose projection the whole text removes. `Bad` says that it is no such command.
#[tactic(auto, using(crate::proofs::Grammar::unproj_read, crate::proofs::Grammar::unproj_unread))]
pub fn read_unproj(alloc: Global, text: &[u8]) -> Result<Name, TextFault>
    ensures value { IfOk result (λ x. spelled_unproj text.now ≡ Some x) }
    ensures bad { result ≡ Err TextFault.Bad → spelled_unproj text.now ≡ None }
    ensures spelled { IfOk result (λ x. SpellsUnproj text.now x) }
    ensures none { result ≡ Err TextFault.Bad → IsNoUnproj text.now }
{
    match_unproj(alloc, text)
}

#[tactic(auto, unfolding(khepri_types::specs::ProjectionLines::spelled_unproj, khepri_types::specs::Words::after_word))]
fn match_unproj(alloc: Global, text: &[u8]) -> Result<Name, TextFault>
    ensures value { IfOk result (λ x. spelled_unproj text.now ≡ Some x) }
    ensures bad { result ≡ Err TextFault.Bad → spelled_unproj text.now ≡ None }
{
    let Some(rest) = strip(text, b"unproj ") else {
        return Err(TextFault::Bad);
    };
    read_whole_name(alloc, rest)
}

// The key that the whole text spells.
fn read_whole_name(alloc: Global, text: &[u8]) -> Result<Name, TextFault>
    ensures value { IfOk result (λ x. whole (key_at text.now) ≡ Some x) }
    ensures bad { result ≡ Err TextFault.Bad → whole (key_at text.now) ≡ None }
{
    let (name, behind) = read_key(alloc, text)?;
    match behind {
        [] => Ok(name),
        [_, ..] => Err(TextFault::Bad),
    }
}
