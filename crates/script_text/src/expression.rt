// Reading expressions.
ghost use Rattle.std.specs.Prelude.{◌≡◌, IfOk, Err, Some, None};
ghost use Rattle.khepri_types.specs.Items.{ended};
ghost use Rattle.khepri_types.specs.ReadingScripts.{pair_expr, one_expr, arguments_at, layer_expr_at, nested_expr_at, expr_at};
ghost use Rattle.script_text.specs.Forms.{form_at, key_and, pair_at};

use crate::leaf::read_leaf;
use crate::parts::{marked, read_condition_closed, read_key_int, read_key_part, read_key_quoted};
use crate::words::expr_word;
use khepri_terms::{Name, TextFault};
use khepri_types::limits::MAX_EXPRESSION_NESTING;
use khepri_types::{Expr, ExprWord, OneWord, PairWord};
use sqlite_items::Boxed;
use std::alloc::Global;

/// The expression at the front, of at most `left` parts, how many are left, and what is after it.
pub(crate) fn read_expr(
    alloc: Global,
    left: usize,
    text: &[u8],
) -> Result<(Expr, usize, &[u8]), TextFault>
    ensures value { IfOk result (λ x. expr_at left text.now ≡ Some (x.0, x.1, x.2.now)) }
    ensures bad { result ≡ Err TextFault.Bad → expr_at left text.now ≡ None }
{
    read_nested(alloc, MAX_EXPRESSION_NESTING, left, text)
}

/// An expression and this byte behind it.
pub(crate) fn read_marked(
    alloc: Global,
    mark: u8,
    left: usize,
    text: &[u8],
) -> Result<(Expr, usize, &[u8]), TextFault>
    ensures value { IfOk result (λ x. ended mark expr_at left text.now ≡ Some (x.0, x.1, x.2.now)) }
    ensures bad { result ≡ Err TextFault.Bad → ended mark expr_at left text.now ≡ None }
{
    let (a, left, rest) = read_expr(alloc, left, text)?;
    let (a, rest) = marked(a, mark, rest)?;
    Ok((a, left, rest))
}

// The expression at the front, of at most `nesting` in one another and `left` parts in all.
#[cycle(reading)]
fn read_nested(
    alloc: Global,
    nesting: usize,
    left: usize,
    text: &[u8],
) -> Result<(Expr, usize, &[u8]), TextFault>
    ensures value { IfOk result (λ x. nested_expr_at nesting left text.now ≡ Some (x.0, x.1, x.2.now)) }
    ensures bad { result ≡ Err TextFault.Bad → nested_expr_at nesting left text.now ≡ None }
{
    if nesting == 0 {
        return Err(TextFault::Bad);
    }
    if left == 0 {
        return Err(TextFault::Bad);
    }
    read_layer(alloc, nesting - 1, left - 1, text)
}

// An expression that has none in it, or else a form.
#[cycle(reading)]
fn read_layer(
    alloc: Global,
    nesting: usize,
    left: usize,
    text: &[u8],
) -> Result<(Expr, usize, &[u8]), TextFault>
    ensures value { IfOk result (λ x. layer_expr_at (nested_expr_at nesting) left text.now ≡ Some (x.0, x.1, x.2.now)) }
    ensures bad { result ≡ Err TextFault.Bad → layer_expr_at (nested_expr_at nesting) left text.now ≡ None }
{
    match read_leaf(alloc, text) {
        Ok((leaf, rest)) => Ok((leaf, left, rest)),
        Err(TextFault::Bad) => read_form(alloc, nesting, left, text),
        Err(TextFault::NoMemory) => Err(TextFault::NoMemory),
    }
}

// A form: its word, and what stands behind that.
#[cycle(reading)]
fn read_form(
    alloc: Global,
    nesting: usize,
    left: usize,
    text: &[u8],
) -> Result<(Expr, usize, &[u8]), TextFault>
    ensures value { IfOk result (λ x. form_at nesting left text.now ≡ Some (x.0, x.1, x.2.now)) }
    ensures bad { result ≡ Err TextFault.Bad → form_at nesting left text.now ≡ None }
{
    let (word, rest) = expr_word(text)?;
    read_arguments(alloc, nesting, word, left, rest)
}

// What stands behind the word of a form.
#[cycle(reading)]
fn read_arguments(
    alloc: Global,
    nesting: usize,
    word: ExprWord,
    left: usize,
    text: &[u8],
) -> Result<(Expr, usize, &[u8]), TextFault>
    ensures value { IfOk result (λ x. arguments_at (nested_expr_at nesting) word left text.now ≡ Some (x.0, x.1, x.2.now)) }
    ensures bad { result ≡ Err TextFault.Bad → arguments_at (nested_expr_at nesting) word left text.now ≡ None }
{
    match word {
        ExprWord::Pair(word) => read_pair_form(alloc, nesting, word, left, text),
        ExprWord::One(word) => read_one_form(alloc, nesting, word, left, text),
        ExprWord::Int => read_int_field(alloc, nesting, left, text),
        ExprWord::Text => read_text_field(alloc, nesting, left, text),
        ExprWord::With => read_with(alloc, nesting, left, text),
        ExprWord::Test => read_test(alloc, nesting, left, text),
    }
}

// Behind the word of a form of two expressions.
#[cycle(reading)]
#[tactic(auto, unfolding(khepri_types::specs::ReadingScripts::arguments_at))]
fn read_pair_form(
    alloc: Global,
    nesting: usize,
    word: PairWord,
    left: usize,
    text: &[u8],
) -> Result<(Expr, usize, &[u8]), TextFault>
    ensures value { IfOk result (λ x. arguments_at (nested_expr_at nesting) (ExprWord.Pair word) left text.now ≡ Some (x.0, x.1, x.2.now)) }
    ensures bad { result ≡ Err TextFault.Bad → arguments_at (nested_expr_at nesting) (ExprWord.Pair word) left text.now ≡ None }
{
    let (a, b, left, rest) = read_pair(alloc, nesting, left, text)?;
    Ok((pair_expr(word, a, b), left, rest))
}

// Behind the word of a form of one expression.
#[cycle(reading)]
#[tactic(auto, unfolding(khepri_types::specs::ReadingScripts::arguments_at))]
fn read_one_form(
    alloc: Global,
    nesting: usize,
    word: OneWord,
    left: usize,
    text: &[u8],
) -> Result<(Expr, usize, &[u8]), TextFault>
    ensures value { IfOk result (λ x. arguments_at (nested_expr_at nesting) (ExprWord.One word) left text.now ≡ Some (x.0, x.1, x.2.now)) }
    ensures bad { result ≡ Err TextFault.Bad → arguments_at (nested_expr_at nesting) (ExprWord.One word) left text.now ≡ None }
{
    let (a, left, rest) = read_boxed(alloc, nesting, b')', left, text)?;
    Ok((one_expr(word, a), left, rest))
}

// Behind `int(`.
#[cycle(reading)]
#[tactic(auto, unfolding(khepri_types::specs::ReadingScripts::arguments_at))]
fn read_int_field(
    alloc: Global,
    nesting: usize,
    left: usize,
    text: &[u8],
) -> Result<(Expr, usize, &[u8]), TextFault>
    ensures value { IfOk result (λ x. arguments_at (nested_expr_at nesting) ExprWord.Int left text.now ≡ Some (x.0, x.1, x.2.now)) }
    ensures bad { result ≡ Err TextFault.Bad → arguments_at (nested_expr_at nesting) ExprWord.Int left text.now ≡ None }
{
    let (a, left, rest) = read_boxed(alloc, nesting, b',', left, text)?;
    let (key, z, left, rest) = read_key_int(alloc, left, rest)?;
    Ok((Expr::IntField(a, key, z), left, rest))
}

// Behind `text(`.
#[cycle(reading)]
#[tactic(auto, unfolding(khepri_types::specs::ReadingScripts::arguments_at))]
fn read_text_field(
    alloc: Global,
    nesting: usize,
    left: usize,
    text: &[u8],
) -> Result<(Expr, usize, &[u8]), TextFault>
    ensures value { IfOk result (λ x. arguments_at (nested_expr_at nesting) ExprWord.Text left text.now ≡ Some (x.0, x.1, x.2.now)) }
    ensures bad { result ≡ Err TextFault.Bad → arguments_at (nested_expr_at nesting) ExprWord.Text left text.now ≡ None }
{
    let (a, left, rest) = read_boxed(alloc, nesting, b',', left, text)?;
    let (key, bytes, left, rest) = read_key_quoted(alloc, left, rest)?;
    Ok((Expr::TextField(a, key, bytes), left, rest))
}

// Behind `with(`.
#[cycle(reading)]
#[tactic(auto, unfolding(khepri_types::specs::ReadingScripts::arguments_at))]
fn read_with(
    alloc: Global,
    nesting: usize,
    left: usize,
    text: &[u8],
) -> Result<(Expr, usize, &[u8]), TextFault>
    ensures value { IfOk result (λ x. arguments_at (nested_expr_at nesting) ExprWord.With left text.now ≡ Some (x.0, x.1, x.2.now)) }
    ensures bad { result ≡ Err TextFault.Bad → arguments_at (nested_expr_at nesting) ExprWord.With left text.now ≡ None }
{
    let (a, left, rest) = read_boxed(alloc, nesting, b',', left, text)?;
    let (key, b, left, rest) = read_key_boxed(alloc, nesting, left, rest)?;
    Ok((Expr::With(a, key, b), left, rest))
}

// Behind `test(`.
#[cycle(reading)]
#[tactic(auto, unfolding(khepri_types::specs::ReadingScripts::arguments_at))]
fn read_test(
    alloc: Global,
    nesting: usize,
    left: usize,
    text: &[u8],
) -> Result<(Expr, usize, &[u8]), TextFault>
    ensures value { IfOk result (λ x. arguments_at (nested_expr_at nesting) ExprWord.Test left text.now ≡ Some (x.0, x.1, x.2.now)) }
    ensures bad { result ≡ Err TextFault.Bad → arguments_at (nested_expr_at nesting) ExprWord.Test left text.now ≡ None }
{
    let (a, left, rest) = read_boxed(alloc, nesting, b',', left, text)?;
    let (cond, left, rest) = read_condition_closed(alloc, left, rest)?;
    Ok((Expr::Test(a, cond), left, rest))
}

// An expression and this byte behind it.
#[cycle(reading)]
fn read_boxed(
    alloc: Global,
    nesting: usize,
    mark: u8,
    left: usize,
    text: &[u8],
) -> Result<(Boxed<Expr>, usize, &[u8]), TextFault>
    ensures value { IfOk result (λ x. ended mark (nested_expr_at nesting) left text.now ≡ Some (x.0, x.1, x.2.now)) }
    ensures bad { result ≡ Err TextFault.Bad → ended mark (nested_expr_at nesting) left text.now ≡ None }
{
    let (a, left, rest) = read_nested(alloc, nesting, left, text)?;
    let (a, rest) = marked(Boxed::new(alloc, a)?, mark, rest)?;
    Ok((a, left, rest))
}

// `e,e)`.
#[cycle(reading)]
fn read_pair(
    alloc: Global,
    nesting: usize,
    left: usize,
    text: &[u8],
) -> Result<(Boxed<Expr>, Boxed<Expr>, usize, &[u8]), TextFault>
    ensures value { IfOk result (λ x. pair_at nesting left text.now ≡ Some ((x.0, x.1), x.2, x.3.now)) }
    ensures bad { result ≡ Err TextFault.Bad → pair_at nesting left text.now ≡ None }
{
    let (a, left, rest) = read_boxed(alloc, nesting, b',', left, text)?;
    let (b, left, rest) = read_boxed(alloc, nesting, b')', left, rest)?;
    Ok((a, b, left, rest))
}

// `KEY,e)`.
#[cycle(reading)]
fn read_key_boxed(
    alloc: Global,
    nesting: usize,
    left: usize,
    text: &[u8],
) -> Result<(Name, Boxed<Expr>, usize, &[u8]), TextFault>
    ensures value { IfOk result (λ x. key_and (nested_expr_at nesting) left text.now ≡ Some ((x.0, x.1), x.2, x.3.now)) }
    ensures bad { result ≡ Err TextFault.Bad → key_and (nested_expr_at nesting) left text.now ≡ None }
{
    let (key, left, rest) = read_key_part(alloc, left, text)?;
    let (b, left, rest) = read_boxed(alloc, nesting, b')', left, rest)?;
    Ok((key, b, left, rest))
}

// A form of two expressions.
fn pair_expr(word: PairWord, a: Boxed<Expr>, b: Boxed<Expr>) -> Expr
    ensures { result ≡ pair_expr word (a, b) }
{
    match word {
        PairWord::Add => Expr::Add(a, b),
        PairWord::Sub => Expr::Sub(a, b),
        PairWord::Cat => Expr::Cat(a, b),
        PairWord::Child => Expr::Child(a, b),
        PairWord::All => Expr::All(a, b),
        PairWord::Any => Expr::Any(a, b),
        PairWord::Compare(op) => Expr::Compare(op, a, b),
    }
}

// A form of one expression.
fn one_expr(word: OneWord, a: Boxed<Expr>) -> Expr
    ensures { result ≡ one_expr word a }
{
    match word {
        OneWord::Data => Expr::Data(a),
        OneWord::Pv => Expr::Pv(a),
        OneWord::Cv => Expr::Cv(a),
        OneWord::Kids => Expr::Kids(a),
        OneWord::Last => Expr::Last(a),
        OneWord::Not => Expr::Not(a),
    }
}
