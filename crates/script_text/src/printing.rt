// Printing what stands in expressions and statements beside other expressions.
ghost use Rattle.std.specs.Prelude.{◌≡◌, ◌++◌, ◌∷◌, [], length, take, OnOk};
ghost use Rattle.std.specs.Fmt.{signed_decimal};
ghost use Rattle.khepri_terms.specs.Bytes.{bytes_text};
ghost use Rattle.khepri_terms.specs.Names.{comp_text};
ghost use Rattle.khepri_terms.specs.Paths.{path_text};
ghost use Rattle.khepri_terms.specs.Records.{rec_text};
ghost use Rattle.khepri_types.specs.ConditionTexts.{condition_text};
ghost use Rattle.khepri_types.specs.ScriptTexts.{register_text, quoted};

use condition_text::append_condition;
use condition_text::words::{append_number, append_word};
use itoa::Buffer;
use khepri_terms::texts::print_byte;
use khepri_terms::{Bytes, Name, Path, Rec};
use khepri_types::{Condition, Register};
use std::alloc::AllocError;

/// Appends an integer.
pub(crate) fn append_int(z: &i64, out: &mut Vec<u8>) -> Result<(), AllocError>
    ensures ok { OnOk result (out.new.items ≡ out.old.items ++ signed_decimal z.now) }
    ensures front { take (length out.old.items) out.new.items ≡ out.old.items }
{
    let number = *z;
    let mut digits = Buffer::new();
    append_word(digits.format(number).as_bytes(), out)
}

/// Appends a path.
pub(crate) fn append_path(path: &Path, out: &mut Vec<u8>) -> Result<(), AllocError>
    ensures ok { OnOk result (out.new.items ≡ out.old.items ++ path_text path.now) }
    ensures front { take (length out.old.items) out.new.items ≡ out.old.items }
{
    path.print(out)
}

/// Appends a record.
pub(crate) fn append_rec(rec: &Rec, out: &mut Vec<u8>) -> Result<(), AllocError>
    ensures ok { OnOk result (out.new.items ≡ out.old.items ++ rec_text rec.now) }
    ensures front { take (length out.old.items) out.new.items ≡ out.old.items }
{
    rec.print(out)
}

/// Appends a register.
#[tactic(auto, unfolding(khepri_types::specs::ScriptTexts::register_text))]
pub(crate) fn append_register(register: Register, out: &mut Vec<u8>) -> Result<(), AllocError>
    ensures ok { OnOk result (out.new.items ≡ out.old.items ++ register_text register) }
    ensures front { take (length out.old.items) out.new.items ≡ out.old.items }
{
    match register {
        Register::Int(n) => append_number(b"i", u64::from(n), out),
        Register::Text(n) => append_number(b"t", u64::from(n), out),
        Register::Path(n) => append_number(b"p", u64::from(n), out),
        Register::Rec(n) => append_number(b"d", u64::from(n), out),
    }
}

/// Appends a `'` and the bytes.
pub fn append_quoted(bytes: &Bytes, out: &mut Vec<u8>) -> Result<(), AllocError>
    ensures ok { OnOk result (out.new.items ≡ out.old.items ++ quoted bytes.now) }
    ensures front { take (length out.old.items) out.new.items ≡ out.old.items }
{
    append_word(b"'", out)?;
    append_bytes(bytes.as_slice(), out)
}

// Appends the spelling of each byte.
fn append_bytes(bytes: &[u8], out: &mut Vec<u8>) -> Result<(), AllocError>
    ensures ok { OnOk result (out.new.items ≡ out.old.items ++ bytes_text bytes.now) }
    ensures front { take (length out.old.items) out.new.items ≡ out.old.items }
{
    for b in bytes {
        print_byte(*b, out)?;
    }
    Ok(())
}

/// Appends `,KEY,`.
pub(crate) fn append_key(key: &Name, out: &mut Vec<u8>) -> Result<(), AllocError>
    ensures ok { OnOk result (out.new.items ≡ out.old.items ++ 44 ∷ (comp_text key.now ++ 44 ∷ [])) }
    ensures front { take (length out.old.items) out.new.items ≡ out.old.items }
{
    append_word(b",", out)?;
    append_name(key, out)?;
    append_word(b",", out)
}

fn append_name(name: &Name, out: &mut Vec<u8>) -> Result<(), AllocError>
    ensures ok { OnOk result (out.new.items ≡ out.old.items ++ comp_text name.now) }
    ensures front { take (length out.old.items) out.new.items ≡ out.old.items }
{
    name.print(out)
}

/// Appends an integer and `)`.
pub(crate) fn append_int_closed(z: &i64, out: &mut Vec<u8>) -> Result<(), AllocError>
    ensures ok { OnOk result (out.new.items ≡ out.old.items ++ (signed_decimal z.now ++ 41 ∷ [])) }
    ensures front { take (length out.old.items) out.new.items ≡ out.old.items }
{
    append_int(z, out)?;
    append_word(b")", out)
}

/// Appends a `'`, the bytes and `)`.
pub(crate) fn append_quoted_closed(bytes: &Bytes, out: &mut Vec<u8>) -> Result<(), AllocError>
    ensures ok { OnOk result (out.new.items ≡ out.old.items ++ (quoted bytes.now ++ 41 ∷ [])) }
    ensures front { take (length out.old.items) out.new.items ≡ out.old.items }
{
    append_quoted(bytes, out)?;
    append_word(b")", out)
}

/// Appends `,COND)`.
pub(crate) fn append_asked(cond: &Condition, out: &mut Vec<u8>) -> Result<(), AllocError>
    ensures ok { OnOk result (out.new.items ≡ out.old.items ++ 44 ∷ (condition_text cond.now ++ 41 ∷ [])) }
    ensures front { take (length out.old.items) out.new.items ≡ out.old.items }
{
    append_word(b",", out)?;
    append_condition(cond, out)?;
    append_word(b")", out)
}
