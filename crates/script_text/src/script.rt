// Scripts.
ghost use Rattle.std.specs.Prelude.{◌≡◌, ◌-◌, ◌≤◌, ◌++◌, length, take, IfOk, OnOk, OnErr, Err, Some, None};
ghost use Rattle.khepri_types.specs.ReadingScripts.{script_at};
ghost use Rattle.khepri_types.specs.ScriptTexts.{script_text};
ghost use Rattle.script_text.specs.Forms.{between};
ghost use Rattle.script_text.specs.Spelling.{SpellsScript, IsNoScript};

use crate::print_statement::append_block;
use crate::statement::read_block;
use condition_text::words::{append_word, read_mark};
use khepri_terms::texts::keep_whole;
use khepri_terms::{Bytes, TextFault};
use khepri_types::limits::{MAX_BLOCK_NESTING, MAX_SCRIPT_PARTS, MAX_SCRIPT_TEXT};
use khepri_types::{Script, Statement};
use script_laws::script_spelling;
use sqlite_items::Items;
use std::alloc::{AllocError, Global};

/// The script that is spelled at the front, and what is after it. `Bad` says that none is.
pub fn read_script(alloc: Global, text: &[u8]) -> Result<(Script, &[u8]), TextFault>
    ensures value { IfOk result (λ x. script_at text.now ≡ Some (x.0, x.1.now)) }
    ensures bad { result ≡ Err TextFault.Bad → script_at text.now ≡ None }
    ensures spelled { IfOk result (λ x. SpellsScript text.now x.0 x.1.now) }
    ensures none { result ≡ Err TextFault.Bad → IsNoScript text.now }
{
    script_spelling(); // a law, for the proof alone
    match match_script(alloc, text) {
        Ok((block, rest)) => {
            let spelled = text_before(alloc, text, rest)?;
            Ok((Script::new(block, spelled), rest))
        }
        Err(fault) => Err(fault),
    }
}

// The bytes of a text up to what is after them.
fn text_before(alloc: Global, text: &[u8], rest: &[u8]) -> Result<Bytes, AllocError>
    requires within { length rest.now ≤ length text.now }
    ensures { IfOk result (λ b. b ≡ take (length text.now - length rest.now) text.now) }
{
    let (front, _) = text.split_at(text.len() - rest.len());
    Bytes::from_slice(alloc, front)
}

// The block of the script at the front, and what is after the script.
#[tactic(auto, unfolding(khepri_types::specs::ReadingScripts::script_at))]
fn match_script(alloc: Global, text: &[u8]) -> Result<(Items<Statement>, &[u8]), TextFault>
    ensures value { IfOk result (λ x. script_at text.now ≡ Some (x.0, x.1.now)) }
    ensures bad { result ≡ Err TextFault.Bad → script_at text.now ≡ None }
{
    let (block, _, rest) = read_between(alloc, text)?;
    if text.len().saturating_sub(rest.len()) <= MAX_SCRIPT_TEXT {
        return Ok((block, rest));
    }
    Err(TextFault::Bad)
}

// A block behind `<` to its `>`, however long, how many more parts there might be, and what is after it.
fn read_between(alloc: Global, text: &[u8]) -> Result<(Items<Statement>, usize, &[u8]), TextFault>
    ensures value { IfOk result (λ x. between text.now ≡ Some (x.0, x.1, x.2.now)) }
    ensures bad { result ≡ Err TextFault.Bad → between text.now ≡ None }
{
    let rest = read_mark(text, b'<')?;
    read_block(alloc, MAX_BLOCK_NESTING, b'>', MAX_SCRIPT_PARTS, rest)
}

/// Appends the spelling of a script; where memory is wanting, nothing.
pub fn print_script(script: &Script, out: &mut Vec<u8>) -> Result<(), AllocError>
    ensures ok { OnOk result (out.new.items ≡ out.old.items ++ script_text script.now) }
    ensures err { OnErr result (out.new.items ≡ out.old.items) }
{
    let len = out.len();
    let printed = append_script(script.block(), out);
    keep_whole(printed, len, out)
}

// Appends `<`, the statements, and `>`.
#[tactic(auto, unfolding(khepri_types::specs::ScriptTexts::script_text))]
fn append_script(block: &[Statement], out: &mut Vec<u8>) -> Result<(), AllocError>
    ensures ok { OnOk result (out.new.items ≡ out.old.items ++ script_text block.now) }
    ensures front { take (length out.old.items) out.new.items ≡ out.old.items }
{
    append_word(b"<", out)?;
    append_block(block, out)?;
    append_word(b">", out)
}
