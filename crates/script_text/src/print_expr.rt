// Printing expressions.
ghost use Rattle.std.specs.Prelude.{◌≡◌, ◌++◌, ◌∷◌, [], length, take, codes, OnOk};
ghost use Rattle.std.specs.Fmt.{signed_decimal};
ghost use Rattle.khepri_terms.specs.Names.{comp_text};
ghost use Rattle.khepri_types.specs.Compares.{compare_text};
ghost use Rattle.khepri_types.specs.ConditionTexts.{asked_text, condition_text};
ghost use Rattle.khepri_types.specs.ScriptTexts.{expr_text, quoted, two_texts, three_texts};

use crate::printing::{
    append_asked, append_int, append_int_closed, append_key, append_path, append_quoted,
    append_quoted_closed, append_rec, append_register,
};
use condition_text::compare_word;
use condition_text::words::append_word;
use khepri_terms::{Bytes, Name};
use khepri_types::{Compare, Condition, Expr};
use sqlite_items::Boxed;
use std::alloc::AllocError;

/// Appends the spelling of an expression.
#[cycle(printing)]
pub(crate) fn append_expr(e: &Expr, out: &mut Vec<u8>) -> Result<(), AllocError>
    ensures ok { OnOk result (out.new.items ≡ out.old.items ++ expr_text e.now) }
    ensures front { take (length out.old.items) out.new.items ≡ out.old.items }
{
    match e {
        Expr::Int(z) => append_int(z, out),
        Expr::Text(bytes) => append_quoted(bytes, out),
        Expr::Path(path) => append_path(path, out),
        Expr::Rec(rec) => append_rec(rec, out),
        Expr::Register(register) => append_register(*register, out),
        Expr::Add(a, b) => append_pair(b"add(", a, b, out),
        Expr::Sub(a, b) => append_pair(b"sub(", a, b, out),
        Expr::Cat(a, b) => append_pair(b"cat(", a, b, out),
        Expr::IntField(a, key, z) => append_int_field(a, key, z, out),
        Expr::TextField(a, key, bytes) => append_text_field(a, key, bytes, out),
        Expr::Data(a) => append_one(b"data(", a, out),
        Expr::Pv(a) => append_one(b"pv(", a, out),
        Expr::Cv(a) => append_one(b"cv(", a, out),
        Expr::Kids(a) => append_one(b"kids(", a, out),
        Expr::Last(a) => append_one(b"last(", a, out),
        Expr::Child(a, b) => append_pair(b"child(", a, b, out),
        Expr::With(a, key, b) => append_with(a, key, b, out),
        Expr::Compare(op, a, b) => append_compared(*op, a, b, out),
        Expr::Test(a, cond) => append_tested(a, cond, out),
        Expr::Not(a) => append_one(b"not(", a, out),
        Expr::All(a, b) => append_pair(b"all(", a, b, out),
        Expr::Any(a, b) => append_pair(b"any(", a, b, out),
    }
}

// Appends a word that ends in `(`, an expression and `)`.
#[cycle(printing)]
fn append_one(word: &[u8], a: &Boxed<Expr>, out: &mut Vec<u8>) -> Result<(), AllocError>
    ensures ok { OnOk result (out.new.items ≡ out.old.items ++ (word.now ++ (expr_text a.now ++ 41 ∷ []))) }
    ensures front { take (length out.old.items) out.new.items ≡ out.old.items }
{
    append_word(word, out)?;
    append_closed(a, out)
}

// Appends an expression and `)`.
#[cycle(printing)]
fn append_closed(a: &Boxed<Expr>, out: &mut Vec<u8>) -> Result<(), AllocError>
    ensures ok { OnOk result (out.new.items ≡ out.old.items ++ (expr_text a.now ++ 41 ∷ [])) }
    ensures front { take (length out.old.items) out.new.items ≡ out.old.items }
{
    append_expr(a.get(), out)?;
    append_word(b")", out)
}

// Appends two expressions joined by `,`.
#[cycle(printing)]
fn append_two(a: &Boxed<Expr>, b: &Boxed<Expr>, out: &mut Vec<u8>) -> Result<(), AllocError>
    ensures ok { OnOk result (out.new.items ≡ out.old.items ++ two_texts (expr_text a.now) (expr_text b.now)) }
    ensures front { take (length out.old.items) out.new.items ≡ out.old.items }
{
    append_expr(a.get(), out)?;
    append_word(b",", out)?;
    append_expr(b.get(), out)
}

// Appends a word that ends in `(`, two expressions joined by `,`, and `)`.
#[cycle(printing)]
fn append_pair(
    word: &[u8],
    a: &Boxed<Expr>,
    b: &Boxed<Expr>,
    out: &mut Vec<u8>,
) -> Result<(), AllocError>
    ensures ok { OnOk result (out.new.items ≡ out.old.items ++ (word.now ++ (two_texts (expr_text a.now) (expr_text b.now) ++ 41 ∷ []))) }
    ensures front { take (length out.old.items) out.new.items ≡ out.old.items }
{
    append_word(word, out)?;
    append_two(a, b, out)?;
    append_word(b")", out)
}

// Appends a comparison of two expressions.
#[cycle(printing)]
fn append_compared(
    op: Compare,
    a: &Boxed<Expr>,
    b: &Boxed<Expr>,
    out: &mut Vec<u8>,
) -> Result<(), AllocError>
    ensures ok { OnOk result (out.new.items ≡ out.old.items ++ asked_text (compare_text op) (two_texts (expr_text a.now) (expr_text b.now))) }
    ensures front { take (length out.old.items) out.new.items ≡ out.old.items }
{
    append_word(compare_word(op), out)?;
    append_pair(b"(", a, b, out)
}

// Appends a word that ends in `(`, an expression, and a key between two `,`.
#[cycle(printing)]
fn append_keyed(
    word: &[u8],
    a: &Boxed<Expr>,
    key: &Name,
    out: &mut Vec<u8>,
) -> Result<(), AllocError>
    ensures ok { OnOk result (out.new.items ≡ out.old.items ++ (word.now ++ (expr_text a.now ++ 44 ∷ (comp_text key.now ++ 44 ∷ [])))) }
    ensures front { take (length out.old.items) out.new.items ≡ out.old.items }
{
    append_word(word, out)?;
    append_expr(a.get(), out)?;
    append_key(key, out)
}

// Appends `int(e,KEY,INT)`.
#[cycle(printing)]
fn append_int_field(
    a: &Boxed<Expr>,
    key: &Name,
    z: &i64,
    out: &mut Vec<u8>,
) -> Result<(), AllocError>
    ensures ok { OnOk result (out.new.items ≡ out.old.items ++ asked_text (codes "int") (three_texts (expr_text a.now) (comp_text key.now) (signed_decimal z.now))) }
    ensures front { take (length out.old.items) out.new.items ≡ out.old.items }
{
    append_keyed(b"int(", a, key, out)?;
    append_int_closed(z, out)
}

// Appends `text(e,KEY,'BYTES)`.
#[cycle(printing)]
fn append_text_field(
    a: &Boxed<Expr>,
    key: &Name,
    bytes: &Bytes,
    out: &mut Vec<u8>,
) -> Result<(), AllocError>
    ensures ok { OnOk result (out.new.items ≡ out.old.items ++ asked_text (codes "text") (three_texts (expr_text a.now) (comp_text key.now) (quoted bytes.now))) }
    ensures front { take (length out.old.items) out.new.items ≡ out.old.items }
{
    append_keyed(b"text(", a, key, out)?;
    append_quoted_closed(bytes, out)
}

// Appends `with(e,KEY,e)`.
#[cycle(printing)]
fn append_with(
    a: &Boxed<Expr>,
    key: &Name,
    b: &Boxed<Expr>,
    out: &mut Vec<u8>,
) -> Result<(), AllocError>
    ensures ok { OnOk result (out.new.items ≡ out.old.items ++ asked_text (codes "with") (three_texts (expr_text a.now) (comp_text key.now) (expr_text b.now))) }
    ensures front { take (length out.old.items) out.new.items ≡ out.old.items }
{
    append_keyed(b"with(", a, key, out)?;
    append_closed(b, out)
}

// Appends `test(e,COND)`.
#[cycle(printing)]
fn append_tested(a: &Boxed<Expr>, cond: &Condition, out: &mut Vec<u8>) -> Result<(), AllocError>
    ensures ok { OnOk result (out.new.items ≡ out.old.items ++ asked_text (codes "test") (two_texts (expr_text a.now) (condition_text cond.now))) }
    ensures front { take (length out.old.items) out.new.items ≡ out.old.items }
{
    append_word(b"test(", out)?;
    append_expr(a.get(), out)?;
    append_asked(cond, out)
}
