// Conditions on a node.
ghost use Rattle.std.specs.Prelude.{◌≡◌, length, IfOk, map};
ghost use Rattle.khepri_terms.specs.Lengths.{capped};
ghost use Rattle.khepri_types.specs.ConditionTexts.{condition_text};
ghost use Rattle.khepri_types.specs.Conditions.{standing, is_payload, is_data, is_script, is_named, is_equal, has_field, holds, all_true, any_true};
ghost use Rattle.std.specs.Option.{option_copied};
ghost use Rattle.khepri_types.specs.Views.{seen_of};

use crate::compare::Compare;
use crate::glob::Glob;
use crate::lengths::condition_len;
use crate::node::Payload;
use crate::view::NodeView;
use khepri_terms::{Name, Rec, Scalar};
use sqlite_items::{Boxed, Items};
use std::alloc::{AllocError, Global};

/// What may be asked of a node. On an absent node `Absent` holds, and no other atom.
#[derive(Drop)]
pub enum Condition {
    /// No node stands.
    Absent,
    /// A node stands.
    Exists,
    /// Its payload is not empty.
    Payload,
    /// Its payload is fields.
    Data,
    /// Its payload is a script.
    Sproc,
    /// Its name fits; the root has none.
    Name(Glob),
    /// Its payload is these fields.
    Is(Rec),
    /// Its payload has a field of this key, which compares so to the scalar.
    Field {
        key: Name,
        op: Compare,
        value: Scalar,
    },
    /// Its payload version compares so.
    Pv(Compare, u64),
    /// Its child-list version compares so.
    Cv(Compare, u64),
    /// The number of its child nodes compares so.
    Kids(Compare, u64),
    Not(Boxed<Condition>),
    /// All of them hold; true where there are none.
    All(Items<Condition>),
    /// One of them holds; false where there are none.
    Any(Items<Condition>),
}

impl Condition {
    /// Whether it holds of the node that is seen, or where none stands.
    pub fn holds(&self, seen: Option<&NodeView>) -> bool
        ensures { result ≡ holds self.now (seen_of (option_copied seen.entry)) }
    {
        holds(self, seen)
    }

    /// The length of its spelling; at `u64::MAX` and beyond, `u64::MAX`.
    pub fn text_len(&self) -> u64
        ensures { result ≡ capped (length (condition_text self.now)) }
    {
        condition_len(self)
    }

    /// A copy with memory of its own.
    pub fn copy(&self, alloc: Global) -> Result<Condition, AllocError>
        ensures { IfOk result (λ c. c ≡ self.now) }
    {
        copy(alloc, self)
    }
}

// Whether the condition holds.
#[cycle(truths)]
fn holds(cond: &Condition, seen: Option<&NodeView>) -> bool
    ensures { result ≡ holds cond.now (seen_of (option_copied seen.entry)) }
{
    match cond {
        Condition::Absent => seen.is_none(),
        Condition::Exists => seen.is_some(),
        Condition::Payload => has_payload(seen),
        Condition::Data => has_data(seen),
        Condition::Sproc => has_script(seen),
        Condition::Name(glob) => is_named(seen, glob),
        Condition::Is(rec) => is_equal(seen, rec),
        Condition::Field { key, op, value } => has_field(seen, key.bytes(), *op, value),
        Condition::Pv(op, n) => match seen {
            Some(node) => op.holds(node.pv.cmp(n)),
            None => false,
        },
        Condition::Cv(op, n) => match seen {
            Some(node) => op.holds(node.cv.cmp(n)),
            None => false,
        },
        Condition::Kids(op, n) => match seen {
            Some(node) => op.holds(node.kids.cmp(n)),
            None => false,
        },
        Condition::Not(inner) => !holds(inner.get(), seen),
        Condition::All(parts) => all_hold(parts.as_slice(), seen),
        Condition::Any(parts) => any_holds(parts.as_slice(), seen),
    }
}

#[cycle(truths)]
fn all_hold(parts: &[Condition], seen: Option<&NodeView>) -> bool
    ensures { result ≡ all_true (map (λ c. holds c (seen_of (option_copied seen.entry))) parts.now) }
{
    for part in parts {
        if !holds(part, seen) {
            return false;
        }
    }
    true
}

#[cycle(truths)]
fn any_holds(parts: &[Condition], seen: Option<&NodeView>) -> bool
    ensures { result ≡ any_true (map (λ c. holds c (seen_of (option_copied seen.entry))) parts.now) }
{
    for part in parts {
        if holds(part, seen) {
            return true;
        }
    }
    false
}

// The payload is not empty.
fn has_payload(seen: Option<&NodeView>) -> bool
    ensures { result ≡ standing (λ s. is_payload s.payload) (seen_of (option_copied seen.entry)) }
{
    match seen {
        Some(node) => match node.payload {
            Payload::Empty => false,
            Payload::Fields(_) => true,
            Payload::Proc(_) => true,
        },
        None => false,
    }
}

// The payload is fields.
fn has_data(seen: Option<&NodeView>) -> bool
    ensures { result ≡ standing (λ s. is_data s.payload) (seen_of (option_copied seen.entry)) }
{
    match seen {
        Some(node) => match node.payload {
            Payload::Empty => false,
            Payload::Fields(_) => true,
            Payload::Proc(_) => false,
        },
        None => false,
    }
}

// The payload is a script.
fn has_script(seen: Option<&NodeView>) -> bool
    ensures { result ≡ standing (λ s. is_script s.payload) (seen_of (option_copied seen.entry)) }
{
    match seen {
        Some(node) => match node.payload {
            Payload::Empty => false,
            Payload::Fields(_) => false,
            Payload::Proc(_) => true,
        },
        None => false,
    }
}

// The name fits; the root has none.
fn is_named(seen: Option<&NodeView>, glob: &Glob) -> bool
    ensures { result ≡ standing (λ s. is_named glob.now s.name) (seen_of (option_copied seen.entry)) }
{
    match seen {
        Some(node) => match node.name {
            Some(name) => glob.fits(name),
            None => false,
        },
        None => false,
    }
}

// The payload is these fields.
fn is_equal(seen: Option<&NodeView>, rec: &Rec) -> bool
    ensures { result ≡ standing (λ s. is_equal rec.now s.payload) (seen_of (option_copied seen.entry)) }
{
    match seen {
        Some(node) => match node.payload {
            Payload::Empty => false,
            Payload::Fields(fields) => rec == fields,
            Payload::Proc(_) => false,
        },
        None => false,
    }
}

// The payload has the field, and it compares so.
fn has_field(seen: Option<&NodeView>, key: &[u8], op: Compare, value: &Scalar) -> bool
    ensures { result ≡ standing (λ s. has_field key.now op value.now s.payload) (seen_of (option_copied seen.entry)) }
{
    match seen {
        Some(node) => match node.payload {
            Payload::Empty => false,
            Payload::Fields(fields) => match fields.field(key) {
                Some(found) => op.holds(found.cmp(value)),
                None => false, // also for `ne`
            },
            Payload::Proc(_) => false,
        },
        None => false,
    }
}

#[cycle(copying)]
fn copy(alloc: Global, cond: &Condition) -> Result<Condition, AllocError>
    ensures { IfOk result (λ c. c ≡ cond.now) }
{
    match cond {
        Condition::Absent => Ok(Condition::Absent),
        Condition::Exists => Ok(Condition::Exists),
        Condition::Payload => Ok(Condition::Payload),
        Condition::Data => Ok(Condition::Data),
        Condition::Sproc => Ok(Condition::Sproc),
        Condition::Name(glob) => Ok(Condition::Name(glob.copy(alloc)?)),
        Condition::Is(rec) => Ok(Condition::Is(rec.copy()?)),
        Condition::Field { key, op, value } => Ok(Condition::Field {
            key: key.copy()?,
            op: *op,
            value: value.copy()?,
        }),
        Condition::Pv(op, n) => Ok(Condition::Pv(*op, *n)),
        Condition::Cv(op, n) => Ok(Condition::Cv(*op, *n)),
        Condition::Kids(op, n) => Ok(Condition::Kids(*op, *n)),
        Condition::Not(inner) => Ok(Condition::Not(Boxed::new(alloc, copy(alloc, inner.get())?)?)),
        Condition::All(parts) => Ok(Condition::All(copies(alloc, parts.as_slice())?)),
        Condition::Any(parts) => Ok(Condition::Any(copies(alloc, parts.as_slice())?)),
    }
}

#[cycle(copying)]
fn copies(alloc: Global, parts: &[Condition]) -> Result<Items<Condition>, AllocError>
    ensures { IfOk result (λ c. c ≡ parts.now) }
{
    let mut all = Items::new(alloc);
    for part in parts {
        all.push(copy(alloc, part)?)?;
    }
    Ok(all)
}
