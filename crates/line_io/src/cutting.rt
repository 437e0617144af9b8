ghost use Rattle.std.specs.Prelude.{◌≡◌, ◌≤◌, ◌+◌, ◌++◌, [], ◌∷◌, ℕ, List, length, take, IfOk, OnOk, OnErr};
ghost use Rattle.line_io.specs.Lines.{without_cr, last_line};
ghost use Rattle.line_io.specs.Shown.{shown, shown_lines, given_next};

use crate::next::Next;
use std::alloc::{AllocError, Global};

// Adds bytes to the front of a line that is kept.
pub fn keep(begun: &mut Vec<u8>, limit: usize, more: &[u8]) -> Result<(), AllocError>
    requires front { length begun.old.items ≤ limit + 2 }
    ensures kept { OnOk result (begun.new.items ≡ take (limit + 2) (begun.old.items ++ more.now)) }
    ensures err { OnErr result (begun.new.items ≡ begun.old.items) }
{
    let room = limit.saturating_add(2) - begun.len();
    let n = if more.len() < room { more.len() } else { room };
    begun.extend_from_slice(&more[..n])
}

// The line that an LF ended, where a front of it is kept. A line that came in one piece takes the room of the spare.
pub fn ended_line(
    alloc: Global,
    limit: usize,
    begun: &mut Vec<u8>,
    spare: &mut Vec<u8>,
    more: &[u8],
) -> Result<Next, AllocError>
    requires front { length begun.old.items ≤ limit + 2 }
    ensures line { IfOk result (λ next. given_next next ≡ shown limit (without_cr (begun.old.items ++ more.now)) ∷ []) }
    ensures ok { OnOk result (begun.new.items ≡ []) }
    ensures err { OnErr result (begun.new.items ≡ begun.old.items) }
{
    if begun.len() == 0 {
        return copied_line(alloc, limit, spare, cut_cr(more));
    }
    keep(begun, limit, more)?;
    let line = std::mem::replace(begun, Vec::new(alloc));
    Ok(kept_line(limit, line))
}

// The line that the end of the input ended.
pub fn final_line(limit: usize, line: Vec<u8>) -> Next
    ensures { (text : List ℕ) → line.items ≡ take (limit + 2) text → given_next result ≡ shown_lines limit (last_line text) }
{
    if line.len() == 0 {
        return Next::End;
    }
    sized_line(limit, line)
}

// The kept front of a line that an LF ended.
fn kept_line(limit: usize, mut line: Vec<u8>) -> Next
    ensures { (text : List ℕ) → line.items ≡ take (limit + 2) text → given_next result ≡ shown limit (without_cr text) ∷ [] }
{
    let n = cut_cr(line.as_slice()).len();
    line.truncate(n);
    sized_line(limit, line)
}

fn sized_line(limit: usize, line: Vec<u8>) -> Next
    ensures { given_next result ≡ shown limit line.items ∷ [] }
{
    if line.len() > limit {
        return Next::TooLong;
    }
    Next::Line(line)
}

// A line of this text, in the room of the spare.
fn copied_line(
    alloc: Global,
    limit: usize,
    spare: &mut Vec<u8>,
    text: &[u8],
) -> Result<Next, AllocError>
    ensures { IfOk result (λ next. given_next next ≡ shown limit text.now ∷ []) }
{
    if text.len() > limit {
        return Ok(Next::TooLong);
    }
    spare.clear();
    spare.extend_from_slice(text)?;
    let line = std::mem::replace(spare, Vec::new(alloc));
    Ok(Next::Line(line))
}

fn cut_cr(line: &[u8]) -> &[u8]
    ensures line { result.now ≡ without_cr line.now }
    ensures front { result.now ≡ take (length result.now) line.now }
{
    let len = line.len();
    if len == 0 {
        return line;
    }
    if line[len - 1] != 13 {
        return line;
    }
    &line[..len - 1]
}
