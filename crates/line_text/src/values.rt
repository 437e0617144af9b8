// The reply of a script that ran to its end.
ghost use Rattle.std.specs.Prelude.{◌≡◌, IfOk, Err, Some, None};
ghost use Rattle.khepri_terms.specs.Many.{many};
ghost use Rattle.khepri_types.specs.ReadingOut.{done_at};

use condition_text::many::{Item, read_many};
use condition_text::words::read_mark;
use khepri_terms::TextFault;
use khepri_terms::numbers::read_number;
use khepri_types::limits::MAX_NUMBER;
use khepri_types::{Reply, Value};
use script_text::read_value;
use sqlite_items::Items;
use std::alloc::Global;

/// How many nodes settling removed, and the values, as the whole text spells them behind `done `.
#[tactic(auto, unfolding(khepri_types::specs::ReadingOut::done_at))]
pub(crate) fn read_done(alloc: Global, text: &[u8]) -> Result<Reply, TextFault>
    ensures value { IfOk result (λ x. done_at text.now ≡ Some x) }
    ensures bad { result ≡ Err TextFault.Bad → done_at text.now ≡ None }
{
    let Some((gone, rest)) = read_number(text, MAX_NUMBER) else {
        return Err(TextFault::Bad);
    };
    let (values, rest) = read_many::<ValueItem>(alloc, rest, rest.len())?;
    match rest {
        [] => Ok(Reply::Done {
            gone,
            values: Items::from_vec(values),
        }),
        [_, ..] => Err(TextFault::Bad),
    }
}

struct ValueItem;

impl Item for ValueItem {
    ghost use Rattle.khepri_types.specs.ReadingOut.{spaced_value_at};

    type Value = Value;

    ghost item_at = { spaced_value_at };

    #[tactic(auto, unfolding(khepri_types::specs::ReadingOut::spaced_value_at))]
    fn read_item(alloc: Global, text: &[u8]) -> Result<(Value, &[u8]), TextFault> {
        let rest = read_mark(text, b' ')?;
        read_value(alloc, rest)
    }
}
