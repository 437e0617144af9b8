ghost use Rattle.std.specs.Prelude.{◌≡◌, [], ◌∷◌, ◌++◌, ◌↔◌, IsTrue, ◌-◌, ◌+◌, ◌<◌, ◌≤◌, length, take, drop, IfOk, OnOk, true, false, OnErr, Err, Some, None, MatchOption};
ghost use Rattle.std.proofs.Common.{rules};
ghost use Rattle.std.specs.Cmp.{partial_equiv_from_equiv, po};
ghost use Rattle.std.specs.Ordering.{as_partial_cmp};
ghost use Rattle.std.specs.Hash as fed;
ghost use Rattle.khepri_terms.specs.declared.limits.TheConstants.{MAX_FIELDS, MAX_REC_TEXT};
ghost use Rattle.khepri_terms.specs.Order.{field_cmp, field_eq, field_fed, rec_cmp, rec_eq};
ghost use Rattle.khepri_terms.specs.OrderLaws.{field_equivalence, field_total, field_ties, field_feeds, rec_equivalence, rec_total, rec_ties, rec_feeds};
ghost use Rattle.khepri_terms.specs.Records.{field_text, fields_text, rec_text, keys_rise, value_at, field_at, end_at, fields_at, inner_at, opened_at, rec_at, field_of, with_field, is_small, IsRec, OnlyRec, BeginsNoRec};
ghost use Rattle.khepri_terms.specs.Lengths.{capped};
ghost use Rattle.std.specs.Option.{option_copied};

use crate::bytes::Bytes;
use crate::fault::{RecFault, TextFault};
use crate::limits::{MAX_FIELDS, MAX_REC_TEXT};
use crate::name::{Kind, Name};
use crate::scalar::Scalar;
use crate::texts::{keep_whole, name_len, print_name, read_name};
use std::alloc::{AllocError, Global};
use std::cmp::Ordering;
use std::hash::{Hash, Hasher};
use std::marker::Model;

/// A key, which is the bytes of a Text name, and its value.
#[derive(Drop)]
pub struct Field {
    pub key: Bytes,
    pub value: Scalar,
}

impl Field {
    /// A copy with memory of its own.
    pub fn copy(&self) -> Result<Field, AllocError>
        ensures { IfOk result (λ f. f ≡ self.now) }
    {
        Ok(Field {
            key: self.key.copy()?,
            value: self.value.copy()?,
        })
    }
}

impl PartialEq for Field {
    ghost eq = { field_eq };

    ghost laws = { partial_equiv_from_equiv field_equivalence };

    fn eq(&self, other: &Field) -> bool {
        self.key == other.key && self.value == other.value
    }
}

impl Eq for Field {
    ghost laws = { field_equivalence };
}

impl PartialOrd for Field {
    ghost partial_cmp = { as_partial_cmp field_cmp };

    ghost laws = { po field_total field_ties };

    fn partial_cmp(&self, other: &Field) -> Option<Ordering> {
        Some(self.cmp(other))
    }
}

impl Ord for Field {
    ghost cmp = { field_cmp };

    ghost total = { field_total };

    ghost matches_partial_cmp = { Prim.search rules };

    ghost matches_eq = { field_ties };

    fn cmp(&self, other: &Field) -> Ordering {
        self.key.cmp(&other.key).then(self.value.cmp(&other.value))
    }
}

impl Hash for Field {
    ghost hash_input = { field_fed };

    ghost respects_eq = { field_feeds };

    fn hash<H: Hasher>(&self, state: &mut H) {
        self.key.hash(state);
        self.value.hash(state);
    }
}

/// Fields in rising order of key: at most 64, and at most 4,096 bytes of text.
#[derive(Drop)]
pub struct Rec {
    fields: Vec<Field>,
    alloc: Global,
}

impl Model for Rec {
    ghost use Rattle.std.specs.Prelude.{List};
    ghost use Rattle.khepri_terms.specs.declared.rec.Field.{Field};
    ghost use Rattle.khepri_terms.specs.Records.{IsRec};

    ghost Value = { List Field };

    ghost view = { λ r. r.fields.items };

    ghost invariant = { λ r. IsRec r.fields.items };
}

impl Rec {
    /// The record with no field.
    pub fn empty(alloc: Global) -> Rec
        ensures { result ≡ [] }
    {
        Rec {
            fields: Vec::new(alloc),
            alloc,
        }
    }

    /// The record that is spelled at the front, and what is after it.
    pub fn read(alloc: Global, text: &[u8]) -> Result<(Rec, &[u8]), TextFault>
        ensures value { IfOk result (λ x. rec_at text.now ≡ Some (x.0, x.1.now)) }
        ensures bad { result ≡ Err TextFault.Bad → rec_at text.now ≡ None }
        ensures only { IfOk result (λ x. OnlyRec text.now x.0 x.1.now) }
        ensures none { result ≡ Err TextFault.Bad → BeginsNoRec text.now }
    {
        read_rec(alloc, text)
    }

    /// The record that is spelled at `at`, and where it ends.
    pub fn read_at(alloc: Global, text: &[u8], at: usize) -> Result<(Rec, usize), TextFault>
        requires { at ≤ length text.now }
        ensures value { IfOk result (λ x. rec_at (drop at text.now) ≡ Some (x.0, drop x.1 text.now)) }
        ensures end { IfOk result (λ x. x.1 ≡ at + length (rec_text x.0)) }
        ensures within { IfOk result (λ x. x.1 ≤ length text.now) }
        ensures bad { result ≡ Err TextFault.Bad → rec_at (drop at text.now) ≡ None }
        ensures only { IfOk result (λ x. OnlyRec (drop at text.now) x.0 (drop x.1 text.now)) }
        ensures none { result ≡ Err TextFault.Bad → BeginsNoRec (drop at text.now) }
    {
        let (_, behind) = text.split_at(at);
        let (rec, rest) = Rec::read(alloc, behind)?;
        Ok((rec, text.len() - rest.len()))
    }

    /// How many fields there are.
    pub fn len(&self) -> usize
        ensures len { result ≡ length self.now }
        ensures is { IsRec self.now }
    {
        self.fields.len()
    }

    /// Appends the spelling; where memory is wanting, nothing.
    pub fn print(&self, out: &mut Vec<u8>) -> Result<(), AllocError>
        ensures ok { OnOk result (out.new.items ≡ out.old.items ++ rec_text self.now) }
        ensures err { OnErr result (out.new.items ≡ out.old.items) }
    {
        let len = out.len();
        let printed = print_fields(self.fields.as_slice(), out);
        keep_whole(printed, len, out)
    }

    /// How long the spelling is.
    #[tactic(auto, unfolding(crate::specs::Records::rec_text))]
    pub fn text_len(&self) -> usize
        ensures len { result ≡ length (rec_text self.now) }
        ensures is { IsRec self.now }
        ensures small { result ≤ MAX_REC_TEXT }
    {
        fields_len(self.fields.as_slice()) + 2
    }

    /// The value of a key.
    pub fn field(&self, key: &[u8]) -> Option<&Scalar>
        ensures { option_copied result ≡ field_of key.now self.now }
    {
        find(self.fields.as_slice(), key)
    }

    /// The record with this value at this key. `Full` says that it would have over 64 fields or over 4,096 bytes
    /// of text.
    pub fn with(&self, key: &Name, value: &Scalar) -> Result<Rec, RecFault>
        requires { key.now.kind ≡ Kind.Text }
        ensures ok { IfOk result (λ r. r ≡ with_field (record { key = key.now.bytes; value = value.now }) self.now) }
        ensures fits { OnOk result (is_small (with_field (record { key = key.now.bytes; value = value.now }) self.now) ≡ true) }
        ensures full { result ≡ Err RecFault.Full → is_small (with_field (record { key = key.now.bytes; value = value.now }) self.now) ≡ false }
    {
        let mut fields = Vec::with_capacity(self.alloc, self.fields.len() + 1)?;
        let new = Field {
            key: Bytes::from_slice(self.alloc, key.bytes())?,
            value: value.copy()?,
        };
        put_field(self.fields.as_slice(), new, &mut fields)?;
        if is_small(fields.as_slice()) {
            let alloc = self.alloc;
            return Ok(Rec { fields, alloc });
        }
        Err(RecFault::Full)
    }

    /// A copy with memory of its own.
    pub fn copy(&self) -> Result<Rec, AllocError>
        ensures { IfOk result (λ r. r ≡ self.now) }
    {
        Ok(Rec {
            fields: copy_fields(self.alloc, self.fields.as_slice())?,
            alloc: self.alloc,
        })
    }

    /// Whether all fields are the same.
    pub fn is_same(&self, other: &Rec) -> bool
        ensures { IsTrue result ↔ (self.now ≡ other.now) }
    {
        self == other
    }
}

impl PartialEq for Rec {
    ghost eq = { rec_eq };

    ghost laws = { partial_equiv_from_equiv rec_equivalence };

    fn eq(&self, other: &Rec) -> bool {
        self.fields.as_slice() == other.fields.as_slice()
    }
}

impl Eq for Rec {
    ghost laws = { rec_equivalence };
}

impl PartialOrd for Rec {
    ghost partial_cmp = { as_partial_cmp rec_cmp };

    ghost laws = { po rec_total rec_ties };

    fn partial_cmp(&self, other: &Rec) -> Option<Ordering> {
        Some(self.cmp(other))
    }
}

impl Ord for Rec {
    ghost cmp = { rec_cmp };

    ghost total = { rec_total };

    ghost matches_partial_cmp = { Prim.search rules };

    ghost matches_eq = { rec_ties };

    fn cmp(&self, other: &Rec) -> Ordering {
        self.fields.as_slice().cmp(other.fields.as_slice())
    }
}

impl Hash for Rec {
    ghost hash_input = { fed.slice field_fed };

    ghost respects_eq = { rec_feeds };

    fn hash<H: Hasher>(&self, state: &mut H) {
        self.fields.as_slice().hash(state);
    }
}

fn copy_fields(alloc: Global, fields: &[Field]) -> Result<Vec<Field>, AllocError>
    ensures { IfOk result (λ v. v.items ≡ fields.now) }
{
    let mut copy = Vec::with_capacity(alloc, fields.len())?;
    for field in fields {
        copy.push(field.copy()?)?;
    }
    Ok(copy)
}

// Whether the keys rise strictly by their bytes.
fn keys_rise(fields: &[Field]) -> bool
    ensures { result ≡ keys_rise fields.now }
{
    match fields {
        [first, rest @ ..] => match rest {
            [second, ..] => first.key.cmp(&second.key) == Ordering::Less && keys_rise(rest),
            [] => true,
        },
        [] => true,
    }
}

// The scalar behind a `=`, and what is after it.
#[tactic(auto, unfolding(crate::specs::Records::value_at))]
fn read_value(alloc: Global, text: &[u8]) -> Result<(Scalar, &[u8]), TextFault>
    ensures value { IfOk result (λ x. value_at text.now ≡ Some (x.0, x.1.now)) }
    ensures bad { result ≡ Err TextFault.Bad → value_at text.now ≡ None }
{
    match text {
        [b'=', rest @ ..] => Scalar::read(alloc, rest),
        _ => Err(TextFault::Bad),
    }
}

// The field at the front, and what is after it.
#[tactic(auto, unfolding(crate::specs::Records::field_at))]
fn read_field(alloc: Global, text: &[u8]) -> Result<(Field, &[u8]), TextFault>
    ensures value { IfOk result (λ x. field_at text.now ≡ Some (x.0, x.1.now)) }
    ensures bad { result ≡ Err TextFault.Bad → field_at text.now ≡ None }
{
    let (key, rest) = read_name(alloc, text)?;
    let (value, rest) = read_value(alloc, rest)?;
    Ok((Field { key, value }, rest))
}

// Whether the record ends behind a field or goes on, and what is after that.
#[tactic(auto, unfolding(crate::specs::Records::end_at))]
fn read_end(text: &[u8]) -> Result<(bool, &[u8]), TextFault>
    ensures value { IfOk result (λ x. end_at text.now ≡ Some (x.0, x.1.now)) }
    ensures bad { result ≡ Err TextFault.Bad → end_at text.now ≡ None }
{
    match text {
        [b'}', rest @ ..] => Ok((true, rest)),
        [b',', rest @ ..] => Ok((false, rest)),
        _ => Err(TextFault::Bad),
    }
}

// The fields to the end of the record, at least one, and what is after it.
fn read_fields(alloc: Global, text: &[u8]) -> Result<(Vec<Field>, &[u8]), TextFault>
    ensures value { IfOk result (λ x. fields_at MAX_FIELDS text.now ≡ Some (x.0.items, x.1.now)) }
    ensures bad { result ≡ Err TextFault.Bad → fields_at MAX_FIELDS text.now ≡ None }
{
    let mut fields = Vec::new(alloc);
    let mut rest = text;
    'fields: while fields.len() < MAX_FIELDS {
        let (field, after) = read_field(alloc, rest)?;
        fields.push(field)?;
        let (is_last, next) = read_end(after)?;
        if is_last {
            return Ok((fields, next));
        }
        rest = next;
    }
    Err(TextFault::Bad)
}

// The fields behind a `{` to the end of the record, and what is after it.
#[tactic(auto, unfolding(crate::specs::Records::inner_at))]
fn read_inner(alloc: Global, text: &[u8]) -> Result<(Vec<Field>, &[u8]), TextFault>
    ensures value { IfOk result (λ x. inner_at text.now ≡ Some (x.0.items, x.1.now)) }
    ensures bad { result ≡ Err TextFault.Bad → inner_at text.now ≡ None }
{
    match text {
        [] => Err(TextFault::Bad),
        [b'}', rest @ ..] => Ok((Vec::new(alloc), rest)),
        [_, ..] => read_fields(alloc, text),
    }
}

// The fields from a `{` to the end of the record, and what is after it.
#[tactic(auto, unfolding(crate::specs::Records::opened_at))]
fn read_opened(alloc: Global, text: &[u8]) -> Result<(Vec<Field>, &[u8]), TextFault>
    ensures value { IfOk result (λ x. opened_at text.now ≡ Some (x.0.items, x.1.now)) }
    ensures bad { result ≡ Err TextFault.Bad → opened_at text.now ≡ None }
{
    match text {
        [b'{', inner @ ..] => read_inner(alloc, inner),
        _ => Err(TextFault::Bad),
    }
}

// Appends the key, `=` and the value.
#[tactic(auto, unfolding(crate::specs::Records::field_text), using(crate::proofs::Printing::front_then))]
fn print_field(field: &Field, out: &mut Vec<u8>) -> Result<(), AllocError>
    ensures ok { OnOk result (out.new.items ≡ out.old.items ++ field_text field.now) }
    ensures front { take (length out.old.items) out.new.items ≡ out.old.items }
{
    print_name(field.key.as_slice(), out)?;
    out.push(b'=')?;
    field.value.append(out)
}

// Appends the spelling of a record.
#[tactic(auto, unfolding(crate::specs::Records::rec_text), using(crate::proofs::Printing::front_then))]
fn print_fields(fields: &[Field], out: &mut Vec<u8>) -> Result<(), AllocError>
    ensures ok { OnOk result (out.new.items ≡ out.old.items ++ rec_text fields.now) }
    ensures front { take (length out.old.items) out.new.items ≡ out.old.items }
{
    out.push(b'{')?;
    print_joined(fields, out)?;
    out.push(b'}')?;
    Ok(())
}

// Appends the fields joined by `,`.
#[tactic(auto, unfolding(crate::specs::Records::fields_text), using(crate::proofs::Printing::front_then))]
fn print_joined(fields: &[Field], out: &mut Vec<u8>) -> Result<(), AllocError>
    ensures ok { OnOk result (out.new.items ≡ out.old.items ++ fields_text fields.now) }
    ensures front { take (length out.old.items) out.new.items ≡ out.old.items }
{
    match fields {
        [] => Ok(()),
        [first, rest @ ..] => {
            print_field(first, out)?;
            if rest.len() == 0 {
                return Ok(());
            }
            out.push(b',')?;
            print_joined(rest, out)
        }
    }
}

fn find<'a>(fields: &'a [Field], key: &[u8]) -> Option<&'a Scalar>
    ensures { option_copied result ≡ field_of key.now fields.now }
{
    match fields {
        [] => None,
        [first, rest @ ..] => {
            if key == first.key.as_slice() {
                return Some(&first.value);
            }
            find(rest, key)
        }
    }
}

// Adds copies of the fields.
fn add_fields(fields: &[Field], out: &mut Vec<Field>) -> Result<(), AllocError>
    ensures { OnOk result (out.new.items ≡ out.old.items ++ fields.now) }
{
    for field in fields {
        out.push(field.copy()?)?;
    }
    Ok(())
}

// Adds the new field and copies of the fields behind it.
fn put_before(fields: &[Field], new: Field, out: &mut Vec<Field>) -> Result<(), AllocError>
    ensures { OnOk result (out.new.items ≡ out.old.items ++ new ∷ fields.now) }
{
    out.push(new)?;
    add_fields(fields, out)
}

// Adds copies of the fields with the new one at its place, and at that of its key.
fn put_field(fields: &[Field], new: Field, out: &mut Vec<Field>) -> Result<(), AllocError>
    ensures { OnOk result (out.new.items ≡ out.old.items ++ with_field new fields.now) }
{
    match fields {
        [] => put_before(fields, new, out),
        [first, rest @ ..] => match new.key.cmp(&first.key) {
            Ordering::Less => put_before(fields, new, out),
            Ordering::Equal => put_before(rest, new, out),
            Ordering::Greater => {
                out.push(first.copy()?)?;
                put_field(rest, new, out)
            }
        },
    }
}

// Whether a record may have these fields.
#[tactic(auto, unfolding(crate::specs::Records::is_small, crate::specs::Records::rec_text))]
fn is_small(fields: &[Field]) -> bool
    ensures { result ≡ is_small fields.now }
{
    fields.len() <= MAX_FIELDS && fields_len(fields) <= MAX_REC_TEXT - 2
}

// How long the spelling of a field is.
#[tactic(auto, unfolding(crate::specs::Records::field_text))]
fn field_len(field: &Field) -> usize
    ensures { result ≡ capped (length (field_text field.now)) }
{
    name_len(field.key.as_slice())
        .saturating_add(1)
        .saturating_add(field.value.text_len())
}

// How long the fields joined by `,` are.
#[tactic(auto, unfolding(crate::specs::Records::fields_text))]
fn fields_len(fields: &[Field]) -> usize
    ensures { result ≡ capped (length (fields_text fields.now)) }
{
    match fields {
        [] => 0,
        [first, rest @ ..] => {
            if rest.len() == 0 {
                return field_len(first);
            }
            field_len(first)
                .saturating_add(1)
                .saturating_add(fields_len(rest))
        }
    }
}

// The record that is spelled at the front, and what is after it.
#[tactic(auto, unfolding(crate::specs::Records::rec_at, crate::specs::Records::checked))]
fn read_rec(alloc: Global, text: &[u8]) -> Result<(Rec, &[u8]), TextFault>
    ensures value { IfOk result (λ x. rec_at text.now ≡ Some (x.0, x.1.now)) }
    ensures bad { result ≡ Err TextFault.Bad → rec_at text.now ≡ None }
{
    let (fields, rest) = read_opened(alloc, text)?;
    if !keys_rise(fields.as_slice()) {
        return Err(TextFault::Bad);
    }
    if text.len().saturating_sub(rest.len()) > MAX_REC_TEXT {
        return Err(TextFault::Bad);
    }
    Ok((Rec { fields, alloc }, rest))
}
