// The words and numbers of a line.
ghost use Rattle.std.specs.Prelude.{◌≡◌, ◌++◌, length, take, OnOk, MatchOption, Some, None};
ghost use Rattle.std.specs.Fmt.{decimal};
ghost use Rattle.khepri_types.specs.Reading.{is_word};
ghost use Rattle.khepri_types.specs.ReadingOut.{after_word, number_before, three_before, spelled_number};

use condition_text::words::append_number;
use khepri_terms::numbers::read_number;
use khepri_types::limits::MAX_NUMBER;
use std::alloc::AllocError;

/// Appends two words, each with a number behind it.
pub(crate) fn append_numbers(
    first: &[u8],
    a: u64,
    second: &[u8],
    b: u64,
    out: &mut Vec<u8>,
) -> Result<(), AllocError>
    ensures ok { OnOk result (out.new.items ≡ out.old.items ++ (first.now ++ decimal a ++ second.now ++ decimal b)) }
    ensures front { take (length out.old.items) out.new.items ≡ out.old.items }
{
    append_number(first, a, out)?;
    append_number(second, b, out)
}

/// The whole text is this word.
pub(crate) fn is_word(text: &[u8], word: &[u8]) -> bool
    ensures { result ≡ is_word word.now text.now }
{
    text == word
}

/// What is after this word at the front.
#[tactic(auto, unfolding(khepri_types::specs::ReadingOut::after_word))]
pub(crate) fn after<'a>(text: &'a [u8], word: &[u8]) -> Option<&'a [u8]>
    ensures { MatchOption result (after_word word.now text.now ≡ None) (λ x. after_word word.now text.now ≡ Some x.now) }
{
    text.strip_prefix(word)
}

/// The number at the front that this word follows, and what is after the word.
#[tactic(auto, unfolding(khepri_types::specs::ReadingOut::number_before))]
pub(crate) fn read_number_before<'a>(text: &'a [u8], word: &[u8]) -> Option<(u64, &'a [u8])>
    ensures { MatchOption result (number_before word.now text.now ≡ None) (λ x. number_before word.now text.now ≡ Some (x.0, x.1.now)) }
{
    let (number, rest) = read_number(text, MAX_NUMBER)?;
    let rest = after(rest, word)?;
    Some((number, rest))
}

/// The three numbers at the front that a space follows each, and what is after them.
#[tactic(auto, unfolding(khepri_types::specs::ReadingOut::three_before))]
pub(crate) fn read_three(text: &[u8]) -> Option<(u64, u64, u64, &[u8])>
    ensures { MatchOption result (three_before text.now ≡ None) (λ x. three_before text.now ≡ Some (x.0, x.1, x.2, x.3.now)) }
{
    let (first, rest) = read_number_before(text, b" ")?;
    let (second, rest) = read_number_before(rest, b" ")?;
    let (third, rest) = read_number_before(rest, b" ")?;
    Some((first, second, third, rest))
}

/// The number that the whole text spells.
#[tactic(auto, unfolding(khepri_types::specs::ReadingOut::spelled_number))]
pub(crate) fn read_whole_number(text: &[u8]) -> Option<u64>
    ensures { MatchOption result (spelled_number text.now ≡ None) (λ n. spelled_number text.now ≡ Some n) }
{
    let (number, behind) = read_number(text, MAX_NUMBER)?;
    match behind {
        [] => Some(number),
        [_, ..] => None,
    }
}
