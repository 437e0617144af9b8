// Replies.
ghost use Rattle.std.specs.Prelude.{◌≡◌, ◌++◌, length, take, codes, IfOk, OnOk, OnErr, MatchOption, Err, Some, None};
ghost use Rattle.std.specs.List.{flat_map};
ghost use Rattle.std.specs.Fmt.{decimal};
ghost use Rattle.khepri_types.specs.ScriptTexts.{quoted};
ghost use Rattle.khepri_types.specs.Texts.{shown_text, spaced_value_text, reply_text};
ghost use Rattle.khepri_types.specs.ReadingOut.{changed_at, node_at, count_at, abort_no, script_no, while_no, spelled_no, spelled_reply};

use crate::command::{append_path, read_whole_path};
use crate::payload::read_whole_payload;
use crate::shown::{append_content, append_shown_nodes, read_nodes};
use crate::values::read_done;
use crate::words::{append_numbers, is_word, read_number_before, read_three, read_whole_number};
use condition_text::words::{append_number, append_word, strip};
use khepri_terms::texts::keep_whole;
use khepri_terms::{Bytes, TextFault};
use khepri_types::{Reply, ShownNodes, Value};
use script_text::{append_quoted, append_values, read_quoted};
use sqlite_items::Items;
use std::alloc::{AllocError, Global};

/// Appends the spelling of a reply; where memory is wanting, nothing.
pub fn print_reply(reply: &Reply, out: &mut Vec<u8>) -> Result<(), AllocError>
    ensures ok { OnOk result (out.new.items ≡ out.old.items ++ reply_text reply.now) }
    ensures err { OnErr result (out.new.items ≡ out.old.items) }
{
    let len = out.len();
    let printed = append_reply(reply, out);
    keep_whole(printed, len, out)
}

#[tactic(auto, unfolding(khepri_types::specs::Texts::reply_text))]
pub(crate) fn append_reply(reply: &Reply, out: &mut Vec<u8>) -> Result<(), AllocError>
    ensures ok { OnOk result (out.new.items ≡ out.old.items ++ reply_text reply.now) }
    ensures front { take (length out.old.items) out.new.items ≡ out.old.items }
{
    match reply {
        Reply::Changed { count, gone } => append_numbers(b"ok ", *count, b" ", *gone, out),
        Reply::Node {
            pv,
            cv,
            kids,
            payload,
        } => append_content(b"node ", *pv, *cv, *kids, payload, out),
        Reply::Nodes { count, nodes } => append_nodes(*count, nodes, out),
        Reply::Count { count } => append_number(b"count ", *count, out),
        Reply::Done { gone, values } => append_done(*gone, values, out),
        Reply::NoRoot => append_word(b"no root", out),
        Reply::NoDeep => append_word(b"no deep", out),
        Reply::NoScript => append_word(b"no script", out),
        Reply::NoExists => append_word(b"no exists", out),
        Reply::NoAbsent => append_word(b"no absent", out),
        Reply::NoMismatch => append_word(b"no mismatch", out),
        Reply::NoWhile { target } => append_path(b"no while ", target, out),
        Reply::NoName => append_word(b"no name", out),
        Reply::NoSpent => append_word(b"no spent", out),
        Reply::NoAbort { text } => append_abort(text, out),
        Reply::NoFull => append_word(b"no full", out),
    }
}

// Appends `done K`, and the values one after another.
fn append_done(gone: u64, values: &Items<Value>, out: &mut Vec<u8>) -> Result<(), AllocError>
    ensures ok { OnOk result (out.new.items ≡ out.old.items ++ (codes "done " ++ decimal gone ++ flat_map spaced_value_text values.now)) }
    ensures front { take (length out.old.items) out.new.items ≡ out.old.items }
{
    append_number(b"done ", gone, out)?;
    append_values(values.as_slice(), out)
}

// Appends `no abort` and the text.
fn append_abort(text: &Bytes, out: &mut Vec<u8>) -> Result<(), AllocError>
    ensures ok { OnOk result (out.new.items ≡ out.old.items ++ (codes "no abort " ++ quoted text.now)) }
    ensures front { take (length out.old.items) out.new.items ≡ out.old.items }
{
    append_word(b"no abort ", out)?;
    append_quoted(text, out)
}

// Appends `nodes M`, and the nodes one after another.
fn append_nodes(count: u64, nodes: &ShownNodes, out: &mut Vec<u8>) -> Result<(), AllocError>
    ensures ok { OnOk result (out.new.items ≡ out.old.items ++ (codes "nodes " ++ decimal count ++ flat_map shown_text nodes.now)) }
    ensures front { take (length out.old.items) out.new.items ≡ out.old.items }
{
    append_number(b"nodes ", count, out)?;
    append_shown_nodes(nodes.as_slice(), out)
}

// Behind `ok `.
#[tactic(auto, unfolding(khepri_types::specs::ReadingOut::changed_at))]
fn read_changed(text: &[u8]) -> Option<Reply>
    ensures { MatchOption result (changed_at text.now ≡ None) (λ x. changed_at text.now ≡ Some x) }
{
    let (count, rest) = read_number_before(text, b" ")?;
    let gone = read_whole_number(rest)?;
    Some(Reply::Changed { count, gone })
}

// Behind `node `.
#[tactic(auto, unfolding(khepri_types::specs::ReadingOut::node_at))]
fn read_node(alloc: Global, text: &[u8]) -> Result<Reply, TextFault>
    ensures value { IfOk result (λ x. node_at text.now ≡ Some x) }
    ensures bad { result ≡ Err TextFault.Bad → node_at text.now ≡ None }
{
    let Some((pv, cv, kids, rest)) = read_three(text) else {
        return Err(TextFault::Bad);
    };
    let payload = read_whole_payload(alloc, rest)?;
    Ok(Reply::Node {
        pv,
        cv,
        kids,
        payload,
    })
}

// Behind `count `.
#[tactic(auto, unfolding(khepri_types::specs::ReadingOut::count_at))]
fn read_count(text: &[u8]) -> Option<Reply>
    ensures { MatchOption result (count_at text.now ≡ None) (λ x. count_at text.now ≡ Some x) }
{
    let count = read_whole_number(text)?;
    Some(Reply::Count { count })
}

// Behind `no while `.
#[tactic(auto, unfolding(khepri_types::specs::ReadingOut::while_no))]
fn read_no_while(alloc: Global, text: &[u8]) -> Result<Reply, TextFault>
    ensures value { IfOk result (λ x. while_no text.now ≡ Some x) }
    ensures bad { result ≡ Err TextFault.Bad → while_no text.now ≡ None }
{
    let target = read_whole_path(alloc, text)?;
    Ok(Reply::NoWhile { target })
}

// Behind `no abort `.
#[tactic(auto, unfolding(khepri_types::specs::ReadingOut::abort_no))]
fn read_no_abort(alloc: Global, text: &[u8]) -> Result<Reply, TextFault>
    ensures value { IfOk result (λ x. abort_no text.now ≡ Some x) }
    ensures bad { result ≡ Err TextFault.Bad → abort_no text.now ≡ None }
{
    let (text, rest) = read_quoted(alloc, text)?;
    match rest {
        [] => Ok(Reply::NoAbort { text }),
        [_, ..] => Err(TextFault::Bad),
    }
}

// The refusal of a script that the whole text spells.
#[tactic(auto, unfolding(khepri_types::specs::ReadingOut::script_no))]
fn read_script_no(alloc: Global, text: &[u8]) -> Result<Reply, TextFault>
    ensures value { IfOk result (λ x. script_no text.now ≡ Some x) }
    ensures bad { result ≡ Err TextFault.Bad → script_no text.now ≡ None }
{
    if is_word(text, b"no script") {
        return Ok(Reply::NoScript);
    }
    if is_word(text, b"no name") {
        return Ok(Reply::NoName);
    }
    if is_word(text, b"no spent") {
        return Ok(Reply::NoSpent);
    }
    if let Some(rest) = text.strip_prefix(b"no abort ") {
        return read_no_abort(alloc, rest);
    }
    Err(TextFault::Bad)
}

// The refusal that the whole text spells.
#[tactic(auto, unfolding(khepri_types::specs::ReadingOut::spelled_no))]
fn read_no(alloc: Global, text: &[u8]) -> Result<Reply, TextFault>
    ensures value { IfOk result (λ x. spelled_no text.now ≡ Some x) }
    ensures bad { result ≡ Err TextFault.Bad → spelled_no text.now ≡ None }
{
    if is_word(text, b"no root") {
        return Ok(Reply::NoRoot);
    }
    if is_word(text, b"no deep") {
        return Ok(Reply::NoDeep);
    }
    if is_word(text, b"no exists") {
        return Ok(Reply::NoExists);
    }
    if is_word(text, b"no absent") {
        return Ok(Reply::NoAbsent);
    }
    if is_word(text, b"no mismatch") {
        return Ok(Reply::NoMismatch);
    }
    if is_word(text, b"no full") {
        return Ok(Reply::NoFull);
    }
    if let Some(rest) = text.strip_prefix(b"no while ") {
        return read_no_while(alloc, rest);
    }
    read_script_no(alloc, text)
}

/// The reply that the whole text spells.
#[tactic(auto, unfolding(khepri_types::specs::ReadingOut::spelled_reply))]
pub(crate) fn read_reply(alloc: Global, text: &[u8]) -> Result<Reply, TextFault>
    ensures value { IfOk result (λ x. spelled_reply text.now ≡ Some x) }
    ensures bad { result ≡ Err TextFault.Bad → spelled_reply text.now ≡ None }
{
    if let Some(rest) = strip(text, b"ok ") {
        return read_changed(rest).ok_or(TextFault::Bad);
    }
    if let Some(rest) = strip(text, b"node ") {
        return read_node(alloc, rest);
    }
    if let Some(rest) = strip(text, b"nodes ") {
        return read_nodes(alloc, rest);
    }
    if let Some(rest) = strip(text, b"count ") {
        return read_count(rest).ok_or(TextFault::Bad);
    }
    if let Some(rest) = strip(text, b"done ") {
        return read_done(alloc, rest);
    }
    read_no(alloc, text)
}
