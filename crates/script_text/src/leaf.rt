// Registers, and the expressions that have none in them.
ghost use Rattle.std.specs.Prelude.{◌≡◌, IfOk, Err, Some, None};
ghost use Rattle.khepri_types.specs.ReadingScripts.{read_as, register_at, quoted_at, leaf_at};
ghost use Rattle.script_text.specs.Leaves.{rec_or_register, path_or_more, text_or_more};

use condition_text::many::{ByteItem, read_many};
use khepri_terms::numbers::read_int;
use khepri_terms::{Bytes, Path, Rec, TextFault};
use khepri_types::{Expr, Register};
use std::alloc::Global;

/// The register at the front, and what is after it.
#[tactic(auto, unfolding(khepri_types::specs::ReadingScripts::register_at))]
pub(crate) fn read_register(text: &[u8]) -> Result<(Register, &[u8]), TextFault>
    ensures value { IfOk result (λ x. register_at text.now ≡ Some (x.0, x.1.now)) }
    ensures bad { result ≡ Err TextFault.Bad → register_at text.now ≡ None }
{
    match text {
        [kind, digit @ b'0'..=b'7', rest @ ..] => match *kind {
            b'i' => Ok((Register::Int(*digit - b'0'), rest)),
            b't' => Ok((Register::Text(*digit - b'0'), rest)),
            b'p' => Ok((Register::Path(*digit - b'0'), rest)),
            b'd' => Ok((Register::Rec(*digit - b'0'), rest)),
            _ => Err(TextFault::Bad),
        },
        _ => Err(TextFault::Bad),
    }
}

/// The bytes behind a `'` at the front, as far as they go, and what is after them.
#[tactic(auto, unfolding(khepri_types::specs::ReadingScripts::quoted_at))]
pub fn read_quoted(alloc: Global, text: &[u8]) -> Result<(Bytes, &[u8]), TextFault>
    ensures value { IfOk result (λ x. quoted_at text.now ≡ Some (x.0, x.1.now)) }
    ensures bad { result ≡ Err TextFault.Bad → quoted_at text.now ≡ None }
{
    match text {
        [b'\'', rest @ ..] => {
            let (bytes, rest) = read_many::<ByteItem>(alloc, rest, rest.len())?;
            Ok((Bytes::from_vec(alloc, bytes), rest))
        }
        _ => Err(TextFault::Bad),
    }
}

/// The expression at the front that has none in it, and what is after it.
#[tactic(auto, unfolding(khepri_types::specs::ReadingScripts::leaf_at))]
pub(crate) fn read_leaf(alloc: Global, text: &[u8]) -> Result<(Expr, &[u8]), TextFault>
    ensures value { IfOk result (λ x. leaf_at text.now ≡ Some (x.0, x.1.now)) }
    ensures bad { result ≡ Err TextFault.Bad → leaf_at text.now ≡ None }
{
    match read_int(text) {
        Some((z, rest)) => Ok((Expr::Int(z), rest)),
        None => read_text_or_more(alloc, text),
    }
}

// A text, or what comes after it among the leaves.
fn read_text_or_more(alloc: Global, text: &[u8]) -> Result<(Expr, &[u8]), TextFault>
    ensures value { IfOk result (λ x. text_or_more text.now ≡ Some (x.0, x.1.now)) }
    ensures bad { result ≡ Err TextFault.Bad → text_or_more text.now ≡ None }
{
    match read_quoted(alloc, text) {
        Ok((bytes, rest)) => Ok((Expr::Text(bytes), rest)),
        Err(TextFault::Bad) => read_path_or_more(alloc, text),
        Err(TextFault::NoMemory) => Err(TextFault::NoMemory),
    }
}

// A path, or what comes after it.
fn read_path_or_more(alloc: Global, text: &[u8]) -> Result<(Expr, &[u8]), TextFault>
    ensures value { IfOk result (λ x. path_or_more text.now ≡ Some (x.0, x.1.now)) }
    ensures bad { result ≡ Err TextFault.Bad → path_or_more text.now ≡ None }
{
    match Path::read(alloc, text) {
        Ok((path, rest)) => Ok((Expr::Path(path), rest)),
        Err(TextFault::Bad) => read_rec_or_register(alloc, text),
        Err(TextFault::NoMemory) => Err(TextFault::NoMemory),
    }
}

// Fields, or a register.
fn read_rec_or_register(alloc: Global, text: &[u8]) -> Result<(Expr, &[u8]), TextFault>
    ensures value { IfOk result (λ x. rec_or_register text.now ≡ Some (x.0, x.1.now)) }
    ensures bad { result ≡ Err TextFault.Bad → rec_or_register text.now ≡ None }
{
    match Rec::read(alloc, text) {
        Ok((rec, rest)) => Ok((Expr::Rec(rec), rest)),
        Err(TextFault::Bad) => read_register_leaf(text),
        Err(TextFault::NoMemory) => Err(TextFault::NoMemory),
    }
}

// A register.
fn read_register_leaf(text: &[u8]) -> Result<(Expr, &[u8]), TextFault>
    ensures value { IfOk result (λ x. read_as Expr.Register (register_at text.now) ≡ Some (x.0, x.1.now)) }
    ensures bad { result ≡ Err TextFault.Bad → read_as Expr.Register (register_at text.now) ≡ None }
{
    let (register, rest) = read_register(text)?;
    Ok((Expr::Register(register), rest))
}
