// What stands in a `#` line.
ghost use Rattle.std.specs.Prelude.{◌≡◌, ◌++◌, length, take, IfOk, OnOk, MatchOption, Err, Some, None};
ghost use Rattle.khepri_types.specs.Texts.{entry_text};
ghost use Rattle.khepri_types.specs.ReadingOut.{command_entry, fire_entry, older_entry, spelled_entry};

use crate::command::{append_command, match_command};
use crate::words::{is_word, read_whole_number};
use condition_text::words::{append_number, append_word};
use khepri_terms::TextFault;
use khepri_types::EntryText;
use std::alloc::{AllocError, Global};

#[tactic(auto, unfolding(khepri_types::specs::Texts::entry_text))]
pub(crate) fn append_entry(text: &EntryText, out: &mut Vec<u8>) -> Result<(), AllocError>
    ensures ok { OnOk result (out.new.items ≡ out.old.items ++ entry_text text.now) }
    ensures front { take (length out.old.items) out.new.items ≡ out.old.items }
{
    match text {
        EntryText::Command(cmd) => append_command(cmd, out),
        EntryText::Fire(event) => append_number(b"fire ", *event, out),
        EntryText::Noop => append_word(b"noop", out),
    }
}

#[tactic(auto, unfolding(khepri_types::specs::ReadingOut::command_entry))]
fn read_command_entry(alloc: Global, text: &[u8]) -> Result<EntryText, TextFault>
    ensures value { IfOk result (λ x. command_entry text.now ≡ Some x) }
    ensures bad { result ≡ Err TextFault.Bad → command_entry text.now ≡ None }
{
    let cmd = match_command(alloc, text)?;
    Ok(EntryText::Command(cmd))
}

// Behind `fire `.
#[tactic(auto, unfolding(khepri_types::specs::ReadingOut::fire_entry))]
fn read_fire_entry(text: &[u8]) -> Option<EntryText>
    ensures { MatchOption result (fire_entry text.now ≡ None) (λ x. fire_entry text.now ≡ Some x) }
{
    let event = read_whole_number(text)?;
    Some(EntryText::Fire(event))
}

// What stands in the line of an entry of no input line.
#[tactic(auto, unfolding(khepri_types::specs::ReadingOut::older_entry))]
fn read_older_entry(alloc: Global, text: &[u8]) -> Result<EntryText, TextFault>
    ensures value { IfOk result (λ x. older_entry text.now ≡ Some x) }
    ensures bad { result ≡ Err TextFault.Bad → older_entry text.now ≡ None }
{
    if is_word(text, b"noop") {
        return Ok(EntryText::Noop);
    }
    if let Some(rest) = text.strip_prefix(b"fire ") {
        return read_fire_entry(rest).ok_or(TextFault::Bad);
    }
    read_command_entry(alloc, text)
}

/// What stands in the line of an entry of this input line, 0 for none.
#[tactic(auto, unfolding(khepri_types::specs::ReadingOut::spelled_entry))]
pub(crate) fn read_entry(alloc: Global, line: u64, text: &[u8]) -> Result<EntryText, TextFault>
    ensures value { IfOk result (λ x. spelled_entry line text.now ≡ Some x) }
    ensures bad { result ≡ Err TextFault.Bad → spelled_entry line text.now ≡ None }
{
    if line == 0 {
        return read_older_entry(alloc, text);
    }
    read_command_entry(alloc, text)
}
