//! The forms of numbers.
ghost use Rattle.std.specs.Prelude.{◌≡◌, Some, None, MatchOption, IfSome, ◌≤◌};
ghost use Rattle.khepri_terms.specs.Numbers.{number_from, number_at, int_at};

// The number so far and the digits at the front, none past the greatest, and what is after them.
#[tactic(auto, unfolding(crate::specs::Numbers::number_from))]
fn number_on(text: &[u8], start: u64, greatest: u64) -> Option<(u64, &[u8])>
    requires { start ≤ greatest }
    ensures high { IfSome result (λ x. x.0 ≤ greatest) }
    ensures value { MatchOption result (number_from greatest start text.now ≡ None) (λ x. number_from greatest start text.now ≡ Some (x.0, x.1.now)) }
{
    let mut number = start;
    let mut rest = text;
    'digits: while let [digit @ b'0'..=b'9', after @ ..] = rest {
        let more = number.checked_mul(10)?.checked_add((*digit - b'0') as u64)?;
        if more > greatest {
            return None;
        }
        number = more;
        rest = after;
    }
    Some((number, rest))
}

/// The number at the front, none past `greatest`, and what is after it.
#[tactic(auto, unfolding(crate::specs::Numbers::number_at))]
pub fn read_number(text: &[u8], greatest: u64) -> Option<(u64, &[u8])>
    requires { 9 ≤ greatest }
    ensures high { IfSome result (λ x. x.0 ≤ greatest) }
    ensures value { MatchOption result (number_at greatest text.now ≡ None) (λ x. number_at greatest text.now ≡ Some (x.0, x.1.now)) }
{
    match text {
        [b'0', rest @ ..] => Some((0, rest)),
        [digit @ b'1'..=b'9', rest @ ..] => number_on(rest, (*digit - b'0') as u64, greatest),
        _ => None,
    }
}

/// The integer of 64 bits at the front, and what is after it.
#[tactic(auto, unfolding(crate::specs::Numbers::int_at))]
pub fn read_int(text: &[u8]) -> Option<(i64, &[u8])>
    ensures { MatchOption result (int_at text.now ≡ None) (λ x. int_at text.now ≡ Some (x.0, x.1.now)) }
{
    match text {
        [b'-', digits @ ..] => {
            let (size, rest) = read_number(digits, 1 << 63)?;
            if size == 0 {
                return None;
            }
            Some((-1 - (size - 1) as i64, rest))
        }
        [_, ..] => {
            let (number, rest) = read_number(text, (1 << 63) - 1)?;
            Some((number as i64, rest))
        }
        [] => None,
    }
}
