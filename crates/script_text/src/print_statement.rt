// Printing statements and blocks.
ghost use Rattle.std.specs.Prelude.{◌≡◌, ◌++◌, ◌∷◌, [], length, take, codes, map, OnOk};
ghost use Rattle.khepri_types.specs.ConditionTexts.{asked_text, condition_text};
ghost use Rattle.khepri_types.specs.PatternTexts.{pattern_text};
ghost use Rattle.khepri_types.specs.ScriptTexts.{register_text, expr_text, two_texts, three_texts, block_joined, braced, statement_text};
ghost use Rattle.script_text.specs.Joining.{semicolon};

use crate::print_expr::append_expr;
use crate::printing::{append_asked, append_register};
use condition_text::append_pattern;
use condition_text::words::append_word;
use khepri_types::{Condition, Expr, Pattern, Register, Statement};
use sqlite_items::Items;
use std::alloc::AllocError;

/// Appends statements joined by `;`.
#[cycle(printing)]
pub(crate) fn append_block(block: &[Statement], out: &mut Vec<u8>) -> Result<(), AllocError>
    ensures ok { OnOk result (out.new.items ≡ out.old.items ++ block_joined (map statement_text block.now)) }
    ensures front { take (length out.old.items) out.new.items ≡ out.old.items }
{
    for (i, one) in block.iter().enumerate() {
        append_semicolon(i, out)?;
        append_statement(one, out)?;
    }
    Ok(())
}

// Appends a `;` behind the first statement.
fn append_semicolon(i: usize, out: &mut Vec<u8>) -> Result<(), AllocError>
    ensures ok { OnOk result (out.new.items ≡ out.old.items ++ semicolon i) }
    ensures front { take (length out.old.items) out.new.items ≡ out.old.items }
{
    if i == 0 {
        return Ok(());
    }
    append_word(b";", out)
}

// Appends the spelling of a statement.
#[cycle(printing)]
fn append_statement(s: &Statement, out: &mut Vec<u8>) -> Result<(), AllocError>
    ensures ok { OnOk result (out.new.items ≡ out.old.items ++ statement_text s.now) }
    ensures front { take (length out.old.items) out.new.items ≡ out.old.items }
{
    match s {
        Statement::Let(register, e) => append_let(*register, e, out),
        Statement::Put(a, b) => append_put(a, b, out),
        Statement::Clear(a) => append_deed(b"clear(", a, out),
        Statement::Del(a) => append_deed(b"del(", a, out),
        Statement::Hold(a, b, cond) => append_hold(a, b, cond, out),
        Statement::Free(a) => append_deed(b"free(", a, out),
        Statement::Emit(a) => append_deed(b"emit(", a, out),
        Statement::Abort(a) => append_deed(b"abort(", a, out),
        Statement::If(e, a, b) => {
            append_deed(b"if(", e, out)?;
            append_braced(a, out)?;
            append_braced(b, out)
        }
        Statement::Each(register, pattern, body) => append_each(*register, pattern, body, out),
    }
}

// Appends `each(REG,PATTERN){BLOCK}`.
#[cycle(printing)]
fn append_each(
    register: Register,
    pattern: &Pattern,
    body: &Items<Statement>,
    out: &mut Vec<u8>,
) -> Result<(), AllocError>
    ensures ok { OnOk result (out.new.items ≡ out.old.items ++ (asked_text (codes "each") (two_texts (register_text register) (pattern_text pattern.now)) ++ braced (map statement_text body.now))) }
    ensures front { take (length out.old.items) out.new.items ≡ out.old.items }
{
    append_each_head(register, pattern, out)?;
    append_braced(body, out)
}

// Appends a block between braces.
#[cycle(printing)]
fn append_braced(block: &Items<Statement>, out: &mut Vec<u8>) -> Result<(), AllocError>
    ensures ok { OnOk result (out.new.items ≡ out.old.items ++ braced (map statement_text block.now)) }
    ensures front { take (length out.old.items) out.new.items ≡ out.old.items }
{
    append_word(b"{", out)?;
    append_block(block.as_slice(), out)?;
    append_word(b"}", out)
}

// Appends `each(REG,PATTERN)`.
fn append_each_head(
    register: Register,
    pattern: &Pattern,
    out: &mut Vec<u8>,
) -> Result<(), AllocError>
    ensures ok { OnOk result (out.new.items ≡ out.old.items ++ asked_text (codes "each") (two_texts (register_text register) (pattern_text pattern.now))) }
    ensures front { take (length out.old.items) out.new.items ≡ out.old.items }
{
    append_named(b"each(", register, out)?;
    append_pattern(pattern, out)?;
    append_word(b")", out)
}

// Appends a word that ends in `(`, a register and `,`.
fn append_named(word: &[u8], register: Register, out: &mut Vec<u8>) -> Result<(), AllocError>
    ensures ok { OnOk result (out.new.items ≡ out.old.items ++ (word.now ++ (register_text register ++ 44 ∷ []))) }
    ensures front { take (length out.old.items) out.new.items ≡ out.old.items }
{
    append_word(word, out)?;
    append_register(register, out)?;
    append_word(b",", out)
}

// Appends a word that ends in `(`, an expression and `)`.
fn append_deed(word: &[u8], a: &Expr, out: &mut Vec<u8>) -> Result<(), AllocError>
    ensures ok { OnOk result (out.new.items ≡ out.old.items ++ (word.now ++ (expr_text a.now ++ 41 ∷ []))) }
    ensures front { take (length out.old.items) out.new.items ≡ out.old.items }
{
    append_word(word, out)?;
    append_expr(a, out)?;
    append_word(b")", out)
}

// Appends `let(REG,e)`.
fn append_let(register: Register, e: &Expr, out: &mut Vec<u8>) -> Result<(), AllocError>
    ensures ok { OnOk result (out.new.items ≡ out.old.items ++ asked_text (codes "let") (two_texts (register_text register) (expr_text e.now))) }
    ensures front { take (length out.old.items) out.new.items ≡ out.old.items }
{
    append_named(b"let(", register, out)?;
    append_expr(e, out)?;
    append_word(b")", out)
}

// Appends `put(e,e)`.
fn append_put(a: &Expr, b: &Expr, out: &mut Vec<u8>) -> Result<(), AllocError>
    ensures ok { OnOk result (out.new.items ≡ out.old.items ++ asked_text (codes "put") (two_texts (expr_text a.now) (expr_text b.now))) }
    ensures front { take (length out.old.items) out.new.items ≡ out.old.items }
{
    append_word(b"put(", out)?;
    append_two(a, b, out)?;
    append_word(b")", out)
}

// Appends two expressions joined by `,`.
fn append_two(a: &Expr, b: &Expr, out: &mut Vec<u8>) -> Result<(), AllocError>
    ensures ok { OnOk result (out.new.items ≡ out.old.items ++ two_texts (expr_text a.now) (expr_text b.now)) }
    ensures front { take (length out.old.items) out.new.items ≡ out.old.items }
{
    append_expr(a, out)?;
    append_word(b",", out)?;
    append_expr(b, out)
}

// Appends `hold(e,e,COND)`.
fn append_hold(a: &Expr, b: &Expr, cond: &Condition, out: &mut Vec<u8>) -> Result<(), AllocError>
    ensures ok { OnOk result (out.new.items ≡ out.old.items ++ asked_text (codes "hold") (three_texts (expr_text a.now) (expr_text b.now) (condition_text cond.now))) }
    ensures front { take (length out.old.items) out.new.items ≡ out.old.items }
{
    append_word(b"hold(", out)?;
    append_two(a, b, out)?;
    append_asked(cond, out)
}
