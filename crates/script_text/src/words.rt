// The words of the forms of scripts.
ghost use Rattle.std.specs.Prelude.{◌≡◌, IfOk, MatchOption, Err, Some, None};
ghost use Rattle.khepri_types.specs.ReadingScripts.{compare_word_at, pair_word_at, one_word_at, field_word_at, expr_word_at, deed_word_at, longer_word_at, statement_word_at};

use condition_text::read_compare;
use condition_text::words::{read_mark, strip};
use khepri_terms::TextFault;
use khepri_types::{DeedWord, ExprWord, OneWord, PairWord, StatementWord};

// A comparison and its `(`.
#[tactic(auto, unfolding(khepri_types::specs::ReadingScripts::compare_word_at))]
fn compare_word(text: &[u8]) -> Result<(PairWord, &[u8]), TextFault>
    ensures value { IfOk result (λ x. compare_word_at text.now ≡ Some (x.0, x.1.now)) }
    ensures bad { result ≡ Err TextFault.Bad → compare_word_at text.now ≡ None }
{
    let (op, rest) = read_compare(text)?;
    let rest = read_mark(rest, b'(')?;
    Ok((PairWord::Compare(op), rest))
}

// The word of a form of two expressions at the front, and what is behind its `(`.
#[tactic(auto, unfolding(khepri_types::specs::ReadingScripts::pair_word_at))]
fn pair_word(text: &[u8]) -> Result<(PairWord, &[u8]), TextFault>
    ensures value { IfOk result (λ x. pair_word_at text.now ≡ Some (x.0, x.1.now)) }
    ensures bad { result ≡ Err TextFault.Bad → pair_word_at text.now ≡ None }
{
    if let Some(rest) = strip(text, b"add(") {
        return Ok((PairWord::Add, rest));
    }
    if let Some(rest) = strip(text, b"sub(") {
        return Ok((PairWord::Sub, rest));
    }
    if let Some(rest) = strip(text, b"cat(") {
        return Ok((PairWord::Cat, rest));
    }
    if let Some(rest) = strip(text, b"child(") {
        return Ok((PairWord::Child, rest));
    }
    if let Some(rest) = strip(text, b"all(") {
        return Ok((PairWord::All, rest));
    }
    if let Some(rest) = strip(text, b"any(") {
        return Ok((PairWord::Any, rest));
    }
    compare_word(text)
}

// The word of a form of one expression.
#[tactic(auto, unfolding(khepri_types::specs::ReadingScripts::one_word_at))]
fn one_word(text: &[u8]) -> Option<(OneWord, &[u8])>
    ensures { MatchOption result (one_word_at text.now ≡ None) (λ x. one_word_at text.now ≡ Some (x.0, x.1.now)) }
{
    if let Some(rest) = strip(text, b"data(") {
        return Some((OneWord::Data, rest));
    }
    if let Some(rest) = strip(text, b"pv(") {
        return Some((OneWord::Pv, rest));
    }
    if let Some(rest) = strip(text, b"cv(") {
        return Some((OneWord::Cv, rest));
    }
    if let Some(rest) = strip(text, b"kids(") {
        return Some((OneWord::Kids, rest));
    }
    if let Some(rest) = strip(text, b"last(") {
        return Some((OneWord::Last, rest));
    }
    if let Some(rest) = strip(text, b"not(") {
        return Some((OneWord::Not, rest));
    }
    None
}

// The word of another form of expressions.
#[tactic(auto, unfolding(khepri_types::specs::ReadingScripts::field_word_at))]
fn field_word(text: &[u8]) -> Option<(ExprWord, &[u8])>
    ensures { MatchOption result (field_word_at text.now ≡ None) (λ x. field_word_at text.now ≡ Some (x.0, x.1.now)) }
{
    if let Some(rest) = strip(text, b"int(") {
        return Some((ExprWord::Int, rest));
    }
    if let Some(rest) = strip(text, b"text(") {
        return Some((ExprWord::Text, rest));
    }
    if let Some(rest) = strip(text, b"with(") {
        return Some((ExprWord::With, rest));
    }
    if let Some(rest) = strip(text, b"test(") {
        return Some((ExprWord::Test, rest));
    }
    None
}

/// The word of a form of expressions at the front, and what is behind its `(`.
#[tactic(auto, unfolding(khepri_types::specs::ReadingScripts::expr_word_at))]
pub(crate) fn expr_word(text: &[u8]) -> Result<(ExprWord, &[u8]), TextFault>
    ensures value { IfOk result (λ x. expr_word_at text.now ≡ Some (x.0, x.1.now)) }
    ensures bad { result ≡ Err TextFault.Bad → expr_word_at text.now ≡ None }
{
    if let Some(found) = field_word(text) {
        return Ok(found);
    }
    if let Some((word, rest)) = one_word(text) {
        return Ok((ExprWord::One(word), rest));
    }
    let (word, rest) = pair_word(text)?;
    Ok((ExprWord::Pair(word), rest))
}

// The word of a statement of one expression.
#[tactic(auto, unfolding(khepri_types::specs::ReadingScripts::deed_word_at))]
fn deed_word(text: &[u8]) -> Option<(DeedWord, &[u8])>
    ensures { MatchOption result (deed_word_at text.now ≡ None) (λ x. deed_word_at text.now ≡ Some (x.0, x.1.now)) }
{
    if let Some(rest) = strip(text, b"clear(") {
        return Some((DeedWord::Clear, rest));
    }
    if let Some(rest) = strip(text, b"del(") {
        return Some((DeedWord::Del, rest));
    }
    if let Some(rest) = strip(text, b"free(") {
        return Some((DeedWord::Free, rest));
    }
    if let Some(rest) = strip(text, b"emit(") {
        return Some((DeedWord::Emit, rest));
    }
    if let Some(rest) = strip(text, b"abort(") {
        return Some((DeedWord::Abort, rest));
    }
    None
}

// The word of another statement.
#[tactic(auto, unfolding(khepri_types::specs::ReadingScripts::longer_word_at))]
fn longer_word(text: &[u8]) -> Option<(StatementWord, &[u8])>
    ensures { MatchOption result (longer_word_at text.now ≡ None) (λ x. longer_word_at text.now ≡ Some (x.0, x.1.now)) }
{
    if let Some(rest) = strip(text, b"let(") {
        return Some((StatementWord::Let, rest));
    }
    if let Some(rest) = strip(text, b"put(") {
        return Some((StatementWord::Put, rest));
    }
    if let Some(rest) = strip(text, b"hold(") {
        return Some((StatementWord::Hold, rest));
    }
    if let Some(rest) = strip(text, b"if(") {
        return Some((StatementWord::If, rest));
    }
    if let Some(rest) = strip(text, b"each(") {
        return Some((StatementWord::Each, rest));
    }
    None
}

/// The word of a statement at the front, and what is behind its `(`.
#[tactic(auto, unfolding(khepri_types::specs::ReadingScripts::statement_word_at))]
pub(crate) fn statement_word(text: &[u8]) -> Option<(StatementWord, &[u8])>
    ensures { MatchOption result (statement_word_at text.now ≡ None) (λ x. statement_word_at text.now ≡ Some (x.0, x.1.now)) }
{
    if let Some(found) = longer_word(text) {
        return Some(found);
    }
    let (word, rest) = deed_word(text)?;
    Some((StatementWord::Deed(word), rest))
}
