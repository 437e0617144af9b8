// The rows that a read shows.
ghost use Rattle.std.specs.Prelude.{◌≡◌, ◌++◌, ◌∷◌, ℕ, List, Option, length, take, [], codes, IfOk, OnOk, Err, Some, None};
ghost use Rattle.std.specs.List.{flat_map};
ghost use Rattle.khepri_terms.specs.Many.{many};
ghost use Rattle.khepri_types.specs.ProjectionTexts.{scalars_text};
ghost use Rattle.khepri_types.specs.RowTexts.{shown_row_text, shown_rows_text, found_text, shown_row_at, counted, spelled_shown_rows, spelled_found};
ghost use Rattle.khepri_types.specs.Words.{is_word};
ghost use Rattle.table_text.specs.TableGrammar.{SpellsFound, IsNothingFound};

use crate::scalars::{append_scalars, read_row_value};
use condition_text::many::{Item, read_many};
use condition_text::words::{append_number, append_word, read_mark};
use khepri_terms::numbers::read_number;
use khepri_terms::{Path, TextFault};
use khepri_types::limits::MAX_NUMBER;
use khepri_types::{Key, ShownRow};
use sqlite_items::Items;
use std::alloc::{AllocError, Global};

/// Appends what a read shows: `none` where there is no such table, else the number of rows and the rows.
#[tactic(auto, unfolding(khepri_types::specs::RowTexts::found_text))]
pub fn append_found(rows: &Option<Items<ShownRow>>, out: &mut Vec<u8>) -> Result<(), AllocError>
    ensures ok { OnOk result (out.new.items ≡ out.old.items ++ found_text rows.now) }
    ensures front { take (length out.old.items) out.new.items ≡ out.old.items }
{
    match rows {
        None => append_word(b"none", out),
        Some(rows) => append_rows(rows.as_slice(), out),
    }
}

/// Appends the number of rows and the rows.
#[tactic(auto, unfolding(khepri_types::specs::RowTexts::shown_rows_text))]
pub fn append_rows(rows: &[ShownRow], out: &mut Vec<u8>) -> Result<(), AllocError>
    ensures ok { OnOk result (out.new.items ≡ out.old.items ++ shown_rows_text rows.now) }
    ensures front { take (length out.old.items) out.new.items ≡ out.old.items }
{
    append_number(b"", rows.len() as u64, out)?;
    append_each(rows, out)
}

// Appends the rows one after another.
fn append_each(rows: &[ShownRow], out: &mut Vec<u8>) -> Result<(), AllocError>
    ensures ok { OnOk result (out.new.items ≡ out.old.items ++ flat_map shown_row_text rows.now) }
    ensures front { take (length out.old.items) out.new.items ≡ out.old.items }
{
    for row in rows {
        append_row(row, out)?;
    }
    Ok(())
}

// Appends ` PATH LIST`.
#[tactic(auto, unfolding(khepri_types::specs::RowTexts::shown_row_text))]
fn append_row(row: &ShownRow, out: &mut Vec<u8>) -> Result<(), AllocError>
    ensures ok { OnOk result (out.new.items ≡ out.old.items ++ shown_row_text row.now) }
    ensures front { take (length out.old.items) out.new.items ≡ out.old.items }
{
    append_word(b" ", out)?;
    row.path.print(out)?;
    append_value(&row.value, out)
}

// Appends a space and the value.
fn append_value(value: &Key, out: &mut Vec<u8>) -> Result<(), AllocError>
    ensures ok { OnOk result (out.new.items ≡ out.old.items ++ 32 ∷ scalars_text value.now) }
    ensures front { take (length out.old.items) out.new.items ≡ out.old.items }
{
    append_word(b" ", out)?;
    append_scalars(value, out)
}

/// What a read shows by the whole text: `None` where it says that there is no such table. `Bad` says that it is no such text.
#[tactic(auto, using(crate::proofs::Grammar::found_read, crate::proofs::Grammar::found_unread))]
pub fn read_found(alloc: Global, text: &[u8]) -> Result<Option<Items<ShownRow>>, TextFault>
    ensures value { IfOk result (λ x. spelled_found text.now ≡ Some x) }
    ensures bad { result ≡ Err TextFault.Bad → spelled_found text.now ≡ None }
    ensures spelled { IfOk result (λ x. SpellsFound text.now x) }
    ensures none { result ≡ Err TextFault.Bad → IsNothingFound text.now }
{
    match_found(alloc, text)
}

#[tactic(auto, unfolding(khepri_types::specs::RowTexts::spelled_found))]
fn match_found(alloc: Global, text: &[u8]) -> Result<Option<Items<ShownRow>>, TextFault>
    ensures value { IfOk result (λ x. spelled_found text.now ≡ Some x) }
    ensures bad { result ≡ Err TextFault.Bad → spelled_found text.now ≡ None }
{
    if is_none(text) {
        return Ok(None);
    }
    let rows = read_rows(alloc, text)?;
    Ok(Some(rows))
}

// Whether the whole text is `none`.
fn is_none(text: &[u8]) -> bool
    ensures { result ≡ is_word (codes "none") text.now }
{
    text == b"none".as_slice()
}

// The rows that the whole text spells, behind their number.
#[tactic(auto, unfolding(khepri_types::specs::RowTexts::spelled_shown_rows))]
fn read_rows(alloc: Global, text: &[u8]) -> Result<Items<ShownRow>, TextFault>
    ensures value { IfOk result (λ x. spelled_shown_rows text.now ≡ Some x) }
    ensures bad { result ≡ Err TextFault.Bad → spelled_shown_rows text.now ≡ None }
{
    let Some((count, rest)) = read_number(text, MAX_NUMBER) else {
        return Err(TextFault::Bad);
    };
    let (rows, behind) = read_each(alloc, rest)?;
    match behind {
        [] => count_rows(count, rows),
        [_, ..] => Err(TextFault::Bad),
    }
}

// The rows, where there are as many.
fn count_rows(count: u64, rows: Vec<ShownRow>) -> Result<Items<ShownRow>, TextFault>
    ensures value { IfOk result (λ x. counted count (rows.items, []) ≡ Some x) }
    ensures bad { result ≡ Err TextFault.Bad → counted count (rows.items, []) ≡ None }
{
    if rows.len() as u64 == count {
        return Ok(Items::from_vec(rows));
    }
    Err(TextFault::Bad)
}

// As many rows as stand at the front, and what is after them.
fn read_each(alloc: Global, text: &[u8]) -> Result<(Vec<ShownRow>, &[u8]), AllocError>
    ensures { IfOk result (λ x. many shown_row_at (length text.now) text.now ≡ (x.0.items, x.1.now)) }
{
    read_many::<RowItem>(alloc, text, text.len())
}

// The spelling of a row.
struct RowItem;

impl Item for RowItem {
    ghost use Rattle.khepri_types.specs.RowTexts.{shown_row_at};

    type Value = ShownRow;

    ghost item_at = { shown_row_at };

    #[tactic(auto, unfolding(khepri_types::specs::RowTexts::shown_row_at))]
    fn read_item(alloc: Global, text: &[u8]) -> Result<(ShownRow, &[u8]), TextFault> {
        let rest = read_mark(text, b' ')?;
        let (path, rest) = Path::read(alloc, rest)?;
        let rest = read_mark(rest, b' ')?;
        let (value, rest) = read_row_value(alloc, rest)?;
        Ok((ShownRow { path, value }, rest))
    }
}
