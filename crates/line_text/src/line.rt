// Input lines.
ghost use Rattle.std.specs.Prelude.{◌≡◌, IfOk, Err, Some, None};
ghost use Rattle.khepri_types.specs.Reading.{spelled_command, asked, line_at};
ghost use Rattle.line_text.specs.Grammar.{SpellsLine, IsNoLine};

use crate::command::match_command;
use khepri_terms::TextFault;
use khepri_types::Line;
use std::alloc::Global;

/// The input line that the whole text spells, its LF not included. `Bad` says that it spells none.
#[tactic(auto, using(crate::proofs::Grammar::line_read))]
pub fn read_line(alloc: Global, text: &[u8]) -> Result<Line, TextFault>
    ensures value { IfOk result (λ line. line_at text.now ≡ Some line) }
    ensures bad { result ≡ Err TextFault.Bad → line_at text.now ≡ None }
    ensures spelled { IfOk result (λ line. SpellsLine text.now line) }
    ensures none { result ≡ Err TextFault.Bad → IsNoLine text.now }
{
    match_line(alloc, text)
}

// By the first bytes.
#[tactic(auto, unfolding(khepri_types::specs::Reading::line_at))]
fn match_line(alloc: Global, text: &[u8]) -> Result<Line, TextFault>
    ensures value { IfOk result (λ line. line_at text.now ≡ Some line) }
    ensures bad { result ≡ Err TextFault.Bad → line_at text.now ≡ None }
{
    match text {
        [b'@', digit @ b'1'..=b'9', b' ', rest @ ..] => read_command_to(alloc, *digit - b'0', rest),
        _ => Err(TextFault::Bad),
    }
}

// The command to this node that the whole text spells.
fn read_command_to(alloc: Global, node: u8, text: &[u8]) -> Result<Line, TextFault>
    ensures value { IfOk result (λ line. asked node (spelled_command text.now) ≡ Some line) }
    ensures bad { result ≡ Err TextFault.Bad → asked node (spelled_command text.now) ≡ None }
{
    let cmd = match_command(alloc, text)?;
    Ok(Line::Command { node, cmd })
}
