//! Words, marks and numbers: appending them, and finding them at the front.
ghost use Rattle.std.specs.Prelude.{◌≡◌, ◌++◌, true, false, length, take, drop, IfOk, OnOk, Err, MatchOption, Some, None};
ghost use Rattle.std.specs.Fmt.{decimal};
ghost use Rattle.khepri_types.specs.ReadingConditions.{after_byte};
ghost use Rattle.khepri_types.specs.Words.{begins};

use itoa::Buffer;
use khepri_terms::TextFault;
use std::alloc::AllocError;

/// Appends a word.
pub fn append_word(word: &[u8], out: &mut Vec<u8>) -> Result<(), AllocError>
    ensures ok { OnOk result (out.new.items ≡ out.old.items ++ word.now) }
    ensures front { take (length out.old.items) out.new.items ≡ out.old.items }
{
    out.extend_from_slice(word)
}

/// Appends a word and a number in decimal behind it.
pub fn append_number(word: &[u8], number: u64, out: &mut Vec<u8>) -> Result<(), AllocError>
    ensures ok { OnOk result (out.new.items ≡ out.old.items ++ (word.now ++ decimal number)) }
    ensures front { take (length out.old.items) out.new.items ≡ out.old.items }
{
    append_word(word, out)?;
    append_decimal(number, out)
}

// Appends a number in decimal, a number of one digit at once.
fn append_decimal(number: u64, out: &mut Vec<u8>) -> Result<(), AllocError>
    ensures ok { OnOk result (out.new.items ≡ out.old.items ++ decimal number) }
    ensures front { take (length out.old.items) out.new.items ≡ out.old.items }
{
    if number < 10 {
        return append_word(&[b'0' + number as u8], out);
    }
    let mut digits = Buffer::new();
    append_word(digits.format(number).as_bytes(), out)
}

/// What is after this word at the front, none where the text does not begin with it.
pub fn strip<'a>(text: &'a [u8], word: &[u8]) -> Option<&'a [u8]>
    ensures { MatchOption result (begins word.now text.now ≡ false) (λ x. (begins word.now text.now ≡ true) × (x.now ≡ drop (length word.now) text.now)) }
{
    text.strip_prefix(word)
}

/// What is after this byte at the front.
#[tactic(auto, unfolding(khepri_types::specs::ReadingConditions::after_byte))]
pub fn read_mark(text: &[u8], mark: u8) -> Result<&[u8], TextFault>
    ensures value { IfOk result (λ x. after_byte mark text.now ≡ Some x.now) }
    ensures bad { result ≡ Err TextFault.Bad → after_byte mark text.now ≡ None }
{
    match text {
        [first, rest @ ..] => {
            if *first == mark {
                return Ok(rest);
            }
            Err(TextFault::Bad)
        }
        [] => Err(TextFault::Bad),
    }
}
