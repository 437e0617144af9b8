// Payloads.
ghost use Rattle.std.specs.Prelude.{◌≡◌, ◌++◌, length, take, IfOk, OnOk, Err, Some, None};
ghost use Rattle.khepri_types.specs.Texts.{payload_text};
ghost use Rattle.khepri_types.specs.Reading.{spelled_script, spelled_content, spelled_payload, content_at, payload_at};

use crate::words::is_word;
use condition_text::words::append_word;
use khepri_terms::{Rec, TextFault};
use khepri_types::{Payload, Script};
use script_text::read_script;
use std::alloc::{AllocError, Global};

#[tactic(auto, unfolding(khepri_types::specs::Texts::payload_text))]
pub(crate) fn append_payload(payload: &Payload, out: &mut Vec<u8>) -> Result<(), AllocError>
    ensures ok { OnOk result (out.new.items ≡ out.old.items ++ payload_text payload.now) }
    ensures front { take (length out.old.items) out.new.items ≡ out.old.items }
{
    match payload {
        Payload::Empty => append_word(b"-", out),
        Payload::Fields(rec) => rec.print(out),
        Payload::Proc(script) => append_word(script.text(), out),
    }
}

/// The payload at the front, and what is after it.
#[tactic(auto, unfolding(khepri_types::specs::Reading::payload_at))]
pub(crate) fn read_payload(alloc: Global, text: &[u8]) -> Result<(Payload, &[u8]), TextFault>
    ensures value { IfOk result (λ x. payload_at text.now ≡ Some (x.0, x.1.now)) }
    ensures bad { result ≡ Err TextFault.Bad → payload_at text.now ≡ None }
{
    if let Some(rest) = text.strip_prefix(b"-") {
        return Ok((Payload::Empty, rest));
    }
    read_content(alloc, text)
}

// The record or the script at the front, and what is after it.
#[tactic(auto, unfolding(khepri_types::specs::Reading::content_at))]
fn read_content(alloc: Global, text: &[u8]) -> Result<(Payload, &[u8]), TextFault>
    ensures value { IfOk result (λ x. content_at text.now ≡ Some (x.0, x.1.now)) }
    ensures bad { result ≡ Err TextFault.Bad → content_at text.now ≡ None }
{
    if text.strip_prefix(b"<").is_some() {
        let (script, rest) = read_script(alloc, text)?;
        return Ok((Payload::Proc(script), rest));
    }
    let (rec, rest) = Rec::read(alloc, text)?;
    Ok((Payload::Fields(rec), rest))
}

/// The payload that the whole text spells.
#[tactic(auto, unfolding(khepri_types::specs::Reading::spelled_payload))]
pub(crate) fn read_whole_payload(alloc: Global, text: &[u8]) -> Result<Payload, TextFault>
    ensures value { IfOk result (λ x. spelled_payload text.now ≡ Some x) }
    ensures bad { result ≡ Err TextFault.Bad → spelled_payload text.now ≡ None }
{
    if is_word(text, b"-") {
        return Ok(Payload::Empty);
    }
    read_whole_content(alloc, text)
}

// The record or the script that the whole text spells.
#[tactic(auto, unfolding(khepri_types::specs::Reading::spelled_content))]
fn read_whole_content(alloc: Global, text: &[u8]) -> Result<Payload, TextFault>
    ensures value { IfOk result (λ x. spelled_content text.now ≡ Some x) }
    ensures bad { result ≡ Err TextFault.Bad → spelled_content text.now ≡ None }
{
    if text.strip_prefix(b"<").is_some() {
        let script = read_whole_script(alloc, text)?;
        return Ok(Payload::Proc(script));
    }
    let (rec, rest) = Rec::read(alloc, text)?;
    match rest {
        [] => Ok(Payload::Fields(rec)),
        [_, ..] => Err(TextFault::Bad),
    }
}

/// The script that the whole text spells.
#[tactic(auto, unfolding(khepri_types::specs::Reading::spelled_script))]
pub(crate) fn read_whole_script(alloc: Global, text: &[u8]) -> Result<Script, TextFault>
    ensures value { IfOk result (λ x. spelled_script text.now ≡ Some x) }
    ensures bad { result ≡ Err TextFault.Bad → spelled_script text.now ≡ None }
{
    let (script, rest) = read_script(alloc, text)?;
    match rest {
        [] => Ok(script),
        [_, ..] => Err(TextFault::Bad),
    }
}
