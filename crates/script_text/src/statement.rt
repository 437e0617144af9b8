// Reading statements and blocks.
ghost use Rattle.std.specs.Prelude.{◌≡◌, IfOk, Err, Some, None};
ghost use Rattle.khepri_types.specs.Items.{behind, items_at, some_items, turn_at};
ghost use Rattle.khepri_types.specs.ReadingScripts.{block_at, deed, statement_arguments};
ghost use Rattle.script_text.specs.Forms.{branches_at, deed_at, held_at, hold_at, let_at, put_at, statement_in, turns_at, worded_at};

use crate::expression::read_marked;
use crate::parts::{read_condition_closed, read_pattern_closed, read_register_part};
use crate::words::statement_word;
use condition_text::words::read_mark;
use khepri_terms::TextFault;
use khepri_types::{Condition, DeedWord, Expr, Pattern, Statement, StatementWord};
use sqlite_items::Items;
use std::alloc::Global;

/// The statements of a block to the byte that closes it, with at most `nesting` blocks in one another, this one counted, and of at most
/// `left` parts; how many are left, and what is after it.
#[cycle(reading)]
pub(crate) fn read_block(
    alloc: Global,
    nesting: usize,
    close: u8,
    left: usize,
    text: &[u8],
) -> Result<(Items<Statement>, usize, &[u8]), TextFault>
    ensures value { IfOk result (λ x. block_at nesting close left text.now ≡ Some (x.0, x.1, x.2.now)) }
    ensures bad { result ≡ Err TextFault.Bad → block_at nesting close left text.now ≡ None }
{
    if nesting == 0 {
        return Err(TextFault::Bad);
    }
    read_items(alloc, nesting - 1, close, left, text)
}

// Statements joined by `;`, perhaps none, and the byte that closes the block.
#[cycle(reading)]
#[tactic(auto, unfolding(khepri_types::specs::Items::items_at))]
fn read_items(
    alloc: Global,
    nesting: usize,
    close: u8,
    left: usize,
    text: &[u8],
) -> Result<(Items<Statement>, usize, &[u8]), TextFault>
    ensures value { IfOk result (λ x. items_at close (statement_in nesting) left text.now ≡ Some (x.0, x.1, x.2.now)) }
    ensures bad { result ≡ Err TextFault.Bad → items_at close (statement_in nesting) left text.now ≡ None }
{
    match text {
        [] => Err(TextFault::Bad),
        [first, rest @ ..] => {
            if *first == close {
                return Ok((Items::new(alloc), left, rest));
            }
            read_statements(alloc, nesting, close, left, text)
        }
    }
}

// Statements joined by `;`, at least one, and the byte that closes the block.
#[cycle(reading)]
fn read_statements(
    alloc: Global,
    nesting: usize,
    close: u8,
    left: usize,
    text: &[u8],
) -> Result<(Items<Statement>, usize, &[u8]), TextFault>
    ensures value { IfOk result (λ x. some_items close (statement_in nesting) left left text.now ≡ Some (x.0, x.1, x.2.now)) }
    ensures bad { result ≡ Err TextFault.Bad → some_items close (statement_in nesting) left left text.now ≡ None }
{
    let mut block = Items::new(alloc);
    let mut more = left;
    let mut rest = text;
    'statements: while block.len() < left {
        let (one, fewer, after) = read_statement(alloc, nesting, more, rest)?;
        block.push(one)?;
        let (is_last, next) = read_turn(close, after)?;
        if is_last {
            return Ok((block, fewer, next));
        }
        more = fewer;
        rest = next;
    }
    Err(TextFault::Bad)
}

// Whether a block ends behind a statement or goes on, and what is after that.
#[tactic(auto, unfolding(khepri_types::specs::Items::turn_at))]
fn read_turn(close: u8, text: &[u8]) -> Result<(bool, &[u8]), TextFault>
    ensures value { IfOk result (λ x. turn_at close text.now ≡ Some (x.0, x.1.now)) }
    ensures bad { result ≡ Err TextFault.Bad → turn_at close text.now ≡ None }
{
    match text {
        [] => Err(TextFault::Bad),
        [mark, rest @ ..] => {
            if *mark == close {
                return Ok((true, rest));
            }
            if *mark == b';' {
                return Ok((false, rest));
            }
            Err(TextFault::Bad)
        }
    }
}

// One statement, with at most `nesting` blocks in one another in it.
#[cycle(reading)]
fn read_statement(
    alloc: Global,
    nesting: usize,
    left: usize,
    text: &[u8],
) -> Result<(Statement, usize, &[u8]), TextFault>
    ensures value { IfOk result (λ x. statement_in nesting left text.now ≡ Some (x.0, x.1, x.2.now)) }
    ensures bad { result ≡ Err TextFault.Bad → statement_in nesting left text.now ≡ None }
{
    if left == 0 {
        return Err(TextFault::Bad);
    }
    read_worded(alloc, nesting, left - 1, text)
}

// The word of a statement, and what stands behind it.
#[cycle(reading)]
fn read_worded(
    alloc: Global,
    nesting: usize,
    left: usize,
    text: &[u8],
) -> Result<(Statement, usize, &[u8]), TextFault>
    ensures value { IfOk result (λ x. worded_at nesting left text.now ≡ Some (x.0, x.1, x.2.now)) }
    ensures bad { result ≡ Err TextFault.Bad → worded_at nesting left text.now ≡ None }
{
    match statement_word(text) {
        Some((word, rest)) => read_arguments(alloc, nesting, word, left, rest),
        None => Err(TextFault::Bad),
    }
}

// What stands behind the word of a statement.
#[cycle(reading)]
#[tactic(auto, unfolding(khepri_types::specs::ReadingScripts::statement_arguments))]
fn read_arguments(
    alloc: Global,
    nesting: usize,
    word: StatementWord,
    left: usize,
    text: &[u8],
) -> Result<(Statement, usize, &[u8]), TextFault>
    ensures value { IfOk result (λ x. statement_arguments (block_at nesting 125) word left text.now ≡ Some (x.0, x.1, x.2.now)) }
    ensures bad { result ≡ Err TextFault.Bad → statement_arguments (block_at nesting 125) word left text.now ≡ None }
{
    match word {
        StatementWord::Deed(word) => read_deed(alloc, word, left, text),
        StatementWord::Let => read_let(alloc, left, text),
        StatementWord::Put => read_put(alloc, left, text),
        StatementWord::Hold => read_hold(alloc, left, text),
        StatementWord::If => read_if(alloc, nesting, left, text),
        StatementWord::Each => read_each(alloc, nesting, left, text),
    }
}

// Behind the word of a statement of one expression.
fn read_deed(
    alloc: Global,
    word: DeedWord,
    left: usize,
    text: &[u8],
) -> Result<(Statement, usize, &[u8]), TextFault>
    ensures value { IfOk result (λ x. deed_at word left text.now ≡ Some (x.0, x.1, x.2.now)) }
    ensures bad { result ≡ Err TextFault.Bad → deed_at word left text.now ≡ None }
{
    let (a, left, rest) = read_marked(alloc, b')', left, text)?;
    Ok((deed(word, a), left, rest))
}

// Behind `let(`.
fn read_let(alloc: Global, left: usize, text: &[u8]) -> Result<(Statement, usize, &[u8]), TextFault>
    ensures value { IfOk result (λ x. let_at left text.now ≡ Some (x.0, x.1, x.2.now)) }
    ensures bad { result ≡ Err TextFault.Bad → let_at left text.now ≡ None }
{
    let (register, left, rest) = read_register_part(left, text)?;
    let (a, left, rest) = read_marked(alloc, b')', left, rest)?;
    Ok((Statement::Let(register, a), left, rest))
}

// Behind `put(`.
fn read_put(alloc: Global, left: usize, text: &[u8]) -> Result<(Statement, usize, &[u8]), TextFault>
    ensures value { IfOk result (λ x. put_at left text.now ≡ Some (x.0, x.1, x.2.now)) }
    ensures bad { result ≡ Err TextFault.Bad → put_at left text.now ≡ None }
{
    let (a, left, rest) = read_marked(alloc, b',', left, text)?;
    match read_marked(alloc, b')', left, rest) {
        Ok((b, left, rest)) => Ok((Statement::Put(a, b), left, rest)),
        Err(fault) => {
            drop(a);
            Err(fault)
        }
    }
}

// Behind `hold(`.
fn read_hold(
    alloc: Global,
    left: usize,
    text: &[u8],
) -> Result<(Statement, usize, &[u8]), TextFault>
    ensures value { IfOk result (λ x. hold_at left text.now ≡ Some (x.0, x.1, x.2.now)) }
    ensures bad { result ≡ Err TextFault.Bad → hold_at left text.now ≡ None }
{
    let (a, left, rest) = read_marked(alloc, b',', left, text)?;
    match read_held(alloc, left, rest) {
        Ok((b, cond, left, rest)) => Ok((Statement::Hold(a, b, cond), left, rest)),
        Err(fault) => {
            drop(a);
            Err(fault)
        }
    }
}

// `e,COND)`.
fn read_held(
    alloc: Global,
    left: usize,
    text: &[u8],
) -> Result<(Expr, Condition, usize, &[u8]), TextFault>
    ensures value { IfOk result (λ x. held_at left text.now ≡ Some ((x.0, x.1), x.2, x.3.now)) }
    ensures bad { result ≡ Err TextFault.Bad → held_at left text.now ≡ None }
{
    let (b, left, rest) = read_marked(alloc, b',', left, text)?;
    match read_condition_closed(alloc, left, rest) {
        Ok((cond, left, rest)) => Ok((b, cond, left, rest)),
        Err(fault) => {
            drop(b);
            Err(fault)
        }
    }
}

// Behind `if(`.
#[cycle(reading)]
#[tactic(auto, unfolding(khepri_types::specs::ReadingScripts::statement_arguments))]
fn read_if(
    alloc: Global,
    nesting: usize,
    left: usize,
    text: &[u8],
) -> Result<(Statement, usize, &[u8]), TextFault>
    ensures value { IfOk result (λ x. statement_arguments (block_at nesting 125) StatementWord.If left text.now ≡ Some (x.0, x.1, x.2.now)) }
    ensures bad { result ≡ Err TextFault.Bad → statement_arguments (block_at nesting 125) StatementWord.If left text.now ≡ None }
{
    let (e, left, rest) = read_marked(alloc, b')', left, text)?;
    match read_branches(alloc, nesting, left, rest) {
        Ok((a, b, left, rest)) => Ok((Statement::If(e, a, b), left, rest)),
        Err(fault) => {
            drop(e);
            Err(fault)
        }
    }
}

// Two blocks between braces.
#[cycle(reading)]
fn read_branches(
    alloc: Global,
    nesting: usize,
    left: usize,
    text: &[u8],
) -> Result<(Items<Statement>, Items<Statement>, usize, &[u8]), TextFault>
    ensures value { IfOk result (λ x. branches_at nesting left text.now ≡ Some ((x.0, x.1), x.2, x.3.now)) }
    ensures bad { result ≡ Err TextFault.Bad → branches_at nesting left text.now ≡ None }
{
    let (a, left, rest) = read_braced(alloc, nesting, left, text)?;
    match read_braced(alloc, nesting, left, rest) {
        Ok((b, left, rest)) => Ok((a, b, left, rest)),
        Err(fault) => {
            drop(a);
            Err(fault)
        }
    }
}

// Behind `each(`.
#[cycle(reading)]
#[tactic(auto, unfolding(khepri_types::specs::ReadingScripts::statement_arguments))]
fn read_each(
    alloc: Global,
    nesting: usize,
    left: usize,
    text: &[u8],
) -> Result<(Statement, usize, &[u8]), TextFault>
    ensures value { IfOk result (λ x. statement_arguments (block_at nesting 125) StatementWord.Each left text.now ≡ Some (x.0, x.1, x.2.now)) }
    ensures bad { result ≡ Err TextFault.Bad → statement_arguments (block_at nesting 125) StatementWord.Each left text.now ≡ None }
{
    let (register, left, rest) = read_register_part(left, text)?;
    let (pattern, body, left, rest) = read_turns(alloc, nesting, left, rest)?;
    Ok((Statement::Each(register, pattern, body), left, rest))
}

// `PATTERN)`, and a block between braces.
#[cycle(reading)]
fn read_turns(
    alloc: Global,
    nesting: usize,
    left: usize,
    text: &[u8],
) -> Result<(Pattern, Items<Statement>, usize, &[u8]), TextFault>
    ensures value { IfOk result (λ x. turns_at nesting left text.now ≡ Some ((x.0, x.1), x.2, x.3.now)) }
    ensures bad { result ≡ Err TextFault.Bad → turns_at nesting left text.now ≡ None }
{
    let (pattern, left, rest) = read_pattern_closed(alloc, left, text)?;
    match read_braced(alloc, nesting, left, rest) {
        Ok((body, left, rest)) => Ok((pattern, body, left, rest)),
        Err(fault) => {
            drop(pattern);
            Err(fault)
        }
    }
}

// A block between braces.
#[cycle(reading)]
fn read_braced(
    alloc: Global,
    nesting: usize,
    left: usize,
    text: &[u8],
) -> Result<(Items<Statement>, usize, &[u8]), TextFault>
    ensures value { IfOk result (λ x. behind 123 (block_at nesting 125) left text.now ≡ Some (x.0, x.1, x.2.now)) }
    ensures bad { result ≡ Err TextFault.Bad → behind 123 (block_at nesting 125) left text.now ≡ None }
{
    let rest = read_mark(text, b'{')?;
    read_block(alloc, nesting, b'}', left, rest)
}

// A statement of one expression.
fn deed(word: DeedWord, a: Expr) -> Statement
    ensures { result ≡ deed word a }
{
    match word {
        DeedWord::Clear => Statement::Clear(a),
        DeedWord::Del => Statement::Del(a),
        DeedWord::Free => Statement::Free(a),
        DeedWord::Emit => Statement::Emit(a),
        DeedWord::Abort => Statement::Abort(a),
    }
}
