// Output lines.
ghost use Rattle.std.specs.Prelude.{◌≡◌, ◌++◌, ◌∷◌, length, take, codes, IfOk, OnOk, OnErr, MatchOption, Err, Some, None};
ghost use Rattle.std.specs.Fmt.{decimal};
ghost use Rattle.khepri_types.specs.Texts.{entry_text, reply_text, reason_text, stop_text, rows_text, out_text};
ghost use Rattle.khepri_types.specs.ReadingOut.{spelled_reason, spelled_stop, spelled_rows, entry_line, reply_line, end_line, pending_line, rows_line, node_news, node_line, out_at};
ghost use Rattle.line_text.specs.Grammar.{SpellsOut, IsNoOut};

use crate::entry::{append_entry, read_entry};
use crate::reply::{append_reply, read_reply};
use crate::words::{append_numbers, is_word, read_number_before, read_whole_number};
use condition_text::words::{append_number, append_word, strip};
use khepri_terms::TextFault;
use khepri_terms::texts::keep_whole;
use khepri_types::{EntryText, OutLine, Reason, Reply, Rows, StopWord};
use std::alloc::{AllocError, Global};

/// Appends the spelling of an output line, its LF not included; where memory is wanting, nothing.
pub fn print_out(line: &OutLine, out: &mut Vec<u8>) -> Result<(), AllocError>
    ensures ok { OnOk result (out.new.items ≡ out.old.items ++ out_text line.now) }
    ensures err { OnErr result (out.new.items ≡ out.old.items) }
{
    let len = out.len();
    let printed = append_out(line, out);
    keep_whole(printed, len, out)
}

#[tactic(auto, unfolding(khepri_types::specs::Texts::out_text))]
fn append_out(line: &OutLine, out: &mut Vec<u8>) -> Result<(), AllocError>
    ensures ok { OnOk result (out.new.items ≡ out.old.items ++ out_text line.now) }
    ensures front { take (length out.old.items) out.new.items ≡ out.old.items }
{
    match line {
        OutLine::Entry { n, line, text } => append_entry_line(*n, *line, text, out),
        OutLine::Reply { line, n, reply } => append_reply_line(*line, *n, reply, out),
        OutLine::Lost { line } => append_numbered(b"- ", *line, b" lost", out),
        OutLine::Pending { line, n } => append_numbers(b"? ", *line, b" ", *n, out),
        OutLine::Read { line, n, rows } => append_read(*line, *n, *rows, out),
        OutLine::Refused { line, reason } => {
            append_numbered(b"- ", *line, reason_word(*reason), out)
        }
        OutLine::Leads { node, term } => {
            append_numbers(b"! ", u64::from(*node), b" leads ", *term, out)
        }
        OutLine::Follows { node, term } => {
            append_numbers(b"! ", u64::from(*node), b" follows ", *term, out)
        }
        OutLine::Stopped { node, cause } => {
            append_numbered(b"! ", u64::from(*node), stop_words(*cause), out)
        }
        OutLine::Started { node } => append_numbered(b"! ", u64::from(*node), b" started", out),
    }
}

// Appends `# N @L ` and what stands there.
fn append_entry_line(
    n: u64,
    line: u64,
    text: &EntryText,
    out: &mut Vec<u8>,
) -> Result<(), AllocError>
    ensures ok { OnOk result (out.new.items ≡ out.old.items ++ (codes "# " ++ decimal n ++ codes " @" ++ decimal line ++ 32 ∷ entry_text text.now)) }
    ensures front { take (length out.old.items) out.new.items ≡ out.old.items }
{
    append_numbers(b"# ", n, b" @", line, out)?;
    append_word(b" ", out)?;
    append_entry(text, out)
}

// Appends `= L N ` and the reply.
fn append_reply_line(line: u64, n: u64, reply: &Reply, out: &mut Vec<u8>) -> Result<(), AllocError>
    ensures ok { OnOk result (out.new.items ≡ out.old.items ++ (codes "= " ++ decimal line ++ 32 ∷ decimal n ++ 32 ∷ reply_text reply.now)) }
    ensures front { take (length out.old.items) out.new.items ≡ out.old.items }
{
    append_numbers(b"= ", line, b" ", n, out)?;
    append_answer(reply, out)
}

// Appends a word, a number, and what is behind it.
fn append_numbered(
    word: &[u8],
    number: u64,
    behind: &[u8],
    out: &mut Vec<u8>,
) -> Result<(), AllocError>
    ensures ok { OnOk result (out.new.items ≡ out.old.items ++ (word.now ++ decimal number ++ behind.now)) }
    ensures front { take (length out.old.items) out.new.items ≡ out.old.items }
{
    append_number(word, number, out)?;
    append_word(behind, out)
}

// Appends `* L N ` and the rows.
fn append_read(line: u64, n: u64, rows: Rows, out: &mut Vec<u8>) -> Result<(), AllocError>
    ensures ok { OnOk result (out.new.items ≡ out.old.items ++ (codes "* " ++ decimal line ++ 32 ∷ decimal n ++ 32 ∷ rows_text rows)) }
    ensures front { take (length out.old.items) out.new.items ≡ out.old.items }
{
    append_numbers(b"* ", line, b" ", n, out)?;
    append_word(rows_word(rows), out)
}

// Appends a space and the spelling of a reply.
fn append_answer(reply: &Reply, out: &mut Vec<u8>) -> Result<(), AllocError>
    ensures ok { OnOk result (out.new.items ≡ out.old.items ++ 32 ∷ reply_text reply.now) }
    ensures front { take (length out.old.items) out.new.items ≡ out.old.items }
{
    append_word(b" ", out)?;
    append_reply(reply, out)
}

// A space and the word of a reason.
#[tactic(auto, unfolding(khepri_types::specs::Texts::reason_text))]
fn reason_word(reason: Reason) -> &'static [u8]
    ensures { result.now ≡ 32 ∷ reason_text reason }
{
    match reason {
        Reason::TooLong => b" toolong",
        Reason::BadLine => b" badline",
        Reason::NoNode => b" nonode",
        Reason::Running => b" running",
        Reason::Stopped => b" stopped",
        Reason::NotLeader => b" notleader",
        Reason::LogFull => b" logfull",
        Reason::Backlog => b" backlog",
        Reason::NoSlot => b" noslot",
    }
}

// That the node stopped, and the word of the cause.
#[tactic(auto, unfolding(khepri_types::specs::Texts::stop_text))]
fn stop_words(cause: StopWord) -> &'static [u8]
    ensures { result.now ≡ codes " stopped " ++ stop_text cause }
{
    match cause {
        StopWord::Order => b" stopped order",
        StopWord::Vault => b" stopped vault",
        StopWord::Memory => b" stopped memory",
        StopWord::Bad => b" stopped bad",
    }
}

// A space and the rows.
#[tactic(auto, unfolding(khepri_types::specs::Texts::rows_text))]
fn rows_word(rows: Rows) -> &'static [u8]
    ensures { result.now ≡ 32 ∷ rows_text rows }
{
    match rows {
        Rows::Absent => b" none",
    }
}

#[tactic(auto, unfolding(khepri_types::specs::ReadingOut::spelled_reason))]
fn read_reason(text: &[u8]) -> Option<Reason>
    ensures { MatchOption result (spelled_reason text.now ≡ None) (λ x. spelled_reason text.now ≡ Some x) }
{
    if is_word(text, b"toolong") {
        return Some(Reason::TooLong);
    }
    if is_word(text, b"badline") {
        return Some(Reason::BadLine);
    }
    if is_word(text, b"nonode") {
        return Some(Reason::NoNode);
    }
    if is_word(text, b"running") {
        return Some(Reason::Running);
    }
    if is_word(text, b"stopped") {
        return Some(Reason::Stopped);
    }
    if is_word(text, b"notleader") {
        return Some(Reason::NotLeader);
    }
    if is_word(text, b"logfull") {
        return Some(Reason::LogFull);
    }
    if is_word(text, b"backlog") {
        return Some(Reason::Backlog);
    }
    if is_word(text, b"noslot") {
        return Some(Reason::NoSlot);
    }
    None
}

#[tactic(auto, unfolding(khepri_types::specs::ReadingOut::spelled_stop))]
fn read_stop(text: &[u8]) -> Option<StopWord>
    ensures { MatchOption result (spelled_stop text.now ≡ None) (λ x. spelled_stop text.now ≡ Some x) }
{
    if is_word(text, b"order") {
        return Some(StopWord::Order);
    }
    if is_word(text, b"vault") {
        return Some(StopWord::Vault);
    }
    if is_word(text, b"memory") {
        return Some(StopWord::Memory);
    }
    if is_word(text, b"bad") {
        return Some(StopWord::Bad);
    }
    None
}

#[tactic(auto, unfolding(khepri_types::specs::ReadingOut::spelled_rows))]
fn read_rows(text: &[u8]) -> Option<Rows>
    ensures { MatchOption result (spelled_rows text.now ≡ None) (λ x. spelled_rows text.now ≡ Some x) }
{
    if is_word(text, b"none") {
        return Some(Rows::Absent);
    }
    None
}

// Behind `# `.
#[tactic(auto, unfolding(khepri_types::specs::ReadingOut::entry_line))]
fn read_entry_line(alloc: Global, text: &[u8]) -> Result<OutLine, TextFault>
    ensures value { IfOk result (λ x. entry_line text.now ≡ Some x) }
    ensures bad { result ≡ Err TextFault.Bad → entry_line text.now ≡ None }
{
    let Some((n, rest)) = read_number_before(text, b" @") else {
        return Err(TextFault::Bad);
    };
    let Some((line, rest)) = read_number_before(rest, b" ") else {
        return Err(TextFault::Bad);
    };
    let text = read_entry(alloc, line, rest)?;
    Ok(OutLine::Entry { n, line, text })
}

// Behind `= `.
#[tactic(auto, unfolding(khepri_types::specs::ReadingOut::reply_line))]
fn read_reply_line(alloc: Global, text: &[u8]) -> Result<OutLine, TextFault>
    ensures value { IfOk result (λ x. reply_line text.now ≡ Some x) }
    ensures bad { result ≡ Err TextFault.Bad → reply_line text.now ≡ None }
{
    let Some((line, rest)) = read_number_before(text, b" ") else {
        return Err(TextFault::Bad);
    };
    let Some((n, rest)) = read_number_before(rest, b" ") else {
        return Err(TextFault::Bad);
    };
    let reply = read_reply(alloc, rest)?;
    Ok(OutLine::Reply { line, n, reply })
}

// Behind `- `.
#[tactic(auto, unfolding(khepri_types::specs::ReadingOut::end_line, khepri_types::specs::ReadingOut::refused_line))]
fn read_end_line(text: &[u8]) -> Option<OutLine>
    ensures { MatchOption result (end_line text.now ≡ None) (λ x. end_line text.now ≡ Some x) }
{
    let (line, rest) = read_number_before(text, b" ")?;
    if is_word(rest, b"lost") {
        return Some(OutLine::Lost { line });
    }
    let reason = read_reason(rest)?;
    Some(OutLine::Refused { line, reason })
}

// Behind `? `.
#[tactic(auto, unfolding(khepri_types::specs::ReadingOut::pending_line))]
fn read_pending_line(text: &[u8]) -> Option<OutLine>
    ensures { MatchOption result (pending_line text.now ≡ None) (λ x. pending_line text.now ≡ Some x) }
{
    let (line, rest) = read_number_before(text, b" ")?;
    let n = read_whole_number(rest)?;
    Some(OutLine::Pending { line, n })
}

// Behind `* `.
#[tactic(auto, unfolding(khepri_types::specs::ReadingOut::rows_line))]
fn read_rows_line(text: &[u8]) -> Option<OutLine>
    ensures { MatchOption result (rows_line text.now ≡ None) (λ x. rows_line text.now ≡ Some x) }
{
    let (line, rest) = read_number_before(text, b" ")?;
    let (n, rest) = read_number_before(rest, b" ")?;
    let rows = read_rows(rest)?;
    Some(OutLine::Read { line, n, rows })
}

// What is said of a node.
#[tactic(auto, unfolding(khepri_types::specs::ReadingOut::node_news, khepri_types::specs::ReadingOut::leads_line, khepri_types::specs::ReadingOut::follows_line, khepri_types::specs::ReadingOut::stopped_line))]
fn read_news(node: u8, text: &[u8]) -> Option<OutLine>
    ensures { MatchOption result (node_news node text.now ≡ None) (λ x. node_news node text.now ≡ Some x) }
{
    if let Some(rest) = text.strip_prefix(b"leads ") {
        let term = read_whole_number(rest)?;
        return Some(OutLine::Leads { node, term });
    }
    if let Some(rest) = text.strip_prefix(b"follows ") {
        let term = read_whole_number(rest)?;
        return Some(OutLine::Follows { node, term });
    }
    if let Some(rest) = text.strip_prefix(b"stopped ") {
        let cause = read_stop(rest)?;
        return Some(OutLine::Stopped { node, cause });
    }
    if is_word(text, b"started") {
        return Some(OutLine::Started { node });
    }
    None
}

// Behind `! `.
#[tactic(auto, unfolding(khepri_types::specs::ReadingOut::node_line))]
fn read_node_line(text: &[u8]) -> Option<OutLine>
    ensures { MatchOption result (node_line text.now ≡ None) (λ x. node_line text.now ≡ Some x) }
{
    match text {
        [digit @ b'1'..=b'9', b' ', rest @ ..] => read_news(*digit - b'0', rest),
        _ => None,
    }
}

/// The output line that the whole text spells, its LF not included. `Bad` says that it spells none.
#[tactic(auto, using(crate::proofs::Grammar::out_read))]
pub fn read_out(alloc: Global, text: &[u8]) -> Result<OutLine, TextFault>
    ensures value { IfOk result (λ line. out_at text.now ≡ Some line) }
    ensures bad { result ≡ Err TextFault.Bad → out_at text.now ≡ None }
    ensures spelled { IfOk result (λ line. SpellsOut text.now line) }
    ensures none { result ≡ Err TextFault.Bad → IsNoOut text.now }
{
    match_out(alloc, text)
}

// By the first sign.
#[tactic(auto, unfolding(khepri_types::specs::ReadingOut::out_at))]
fn match_out(alloc: Global, text: &[u8]) -> Result<OutLine, TextFault>
    ensures value { IfOk result (λ line. out_at text.now ≡ Some line) }
    ensures bad { result ≡ Err TextFault.Bad → out_at text.now ≡ None }
{
    if let Some(rest) = strip(text, b"# ") {
        return read_entry_line(alloc, rest);
    }
    if let Some(rest) = strip(text, b"= ") {
        return read_reply_line(alloc, rest);
    }
    if let Some(rest) = strip(text, b"- ") {
        return read_end_line(rest).ok_or(TextFault::Bad);
    }
    if let Some(rest) = strip(text, b"? ") {
        return read_pending_line(rest).ok_or(TextFault::Bad);
    }
    if let Some(rest) = strip(text, b"* ") {
        return read_rows_line(rest).ok_or(TextFault::Bad);
    }
    if let Some(rest) = strip(text, b"! ") {
        return read_node_line(rest).ok_or(TextFault::Bad);
    }
    Err(TextFault::Bad)
}
