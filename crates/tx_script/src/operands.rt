// What a value is to the form that takes it.
ghost use Rattle.std.specs.Prelude.{◌≡◌, [], pos};
ghost use Rattle.khepri_types.specs.Values.{number, bytes, path, fields, truth, scalar, emitted};

use khepri_terms::{Bytes, Path, Rec, Scalar};
use khepri_types::{Operand, Value};
use std::alloc::Global;

#[tactic(auto, unfolding(khepri_types::specs::Values::number))]
pub(crate) fn number(v: &Operand) -> i64
    ensures { result ≡ number v.now }
{
    match v {
        Operand::Int(z) => *z,
        Operand::Text(_) => 0,
        Operand::Path(_) => 0,
        Operand::Rec(_) => 0,
        Operand::Bool(_) => 0,
    }
}

#[tactic(auto, unfolding(khepri_types::specs::Values::truth))]
pub(crate) fn truth(v: &Operand) -> bool
    ensures { result ≡ truth v.now }
{
    match v {
        Operand::Bool(b) => *b,
        Operand::Int(_) => false,
        Operand::Text(_) => false,
        Operand::Path(_) => false,
        Operand::Rec(_) => false,
    }
}

#[tactic(auto, unfolding(khepri_types::specs::Values::bytes))]
pub(crate) fn bytes(v: &Operand) -> &[u8]
    ensures { result.now ≡ bytes v.now }
{
    match v {
        Operand::Text(b) => b.as_slice(),
        Operand::Int(_) => &[],
        Operand::Path(_) => &[],
        Operand::Rec(_) => &[],
        Operand::Bool(_) => &[],
    }
}

#[tactic(auto, unfolding(khepri_types::specs::Values::bytes))]
pub(crate) fn into_bytes(alloc: Global, v: Operand) -> Bytes
    ensures { result ≡ bytes v }
{
    match v {
        Operand::Text(b) => b,
        Operand::Int(_) => Bytes::from_vec(alloc, Vec::new(alloc)),
        Operand::Path(_) => Bytes::from_vec(alloc, Vec::new(alloc)),
        Operand::Rec(_) => Bytes::from_vec(alloc, Vec::new(alloc)),
        Operand::Bool(_) => Bytes::from_vec(alloc, Vec::new(alloc)),
    }
}

#[tactic(auto, unfolding(khepri_types::specs::Values::path))]
pub(crate) fn into_path(alloc: Global, v: Operand) -> Path
    ensures { result ≡ path v }
{
    match v {
        Operand::Path(p) => p,
        Operand::Int(_) => Path::root(alloc),
        Operand::Text(_) => Path::root(alloc),
        Operand::Rec(_) => Path::root(alloc),
        Operand::Bool(_) => Path::root(alloc),
    }
}

#[tactic(auto, unfolding(khepri_types::specs::Values::fields))]
pub(crate) fn into_rec(alloc: Global, v: Operand) -> Rec
    ensures { result ≡ fields v }
{
    match v {
        Operand::Rec(f) => f,
        Operand::Int(_) => Rec::empty(alloc),
        Operand::Text(_) => Rec::empty(alloc),
        Operand::Path(_) => Rec::empty(alloc),
        Operand::Bool(_) => Rec::empty(alloc),
    }
}

#[tactic(auto, unfolding(khepri_types::specs::Values::scalar))]
pub(crate) fn into_scalar(v: Operand) -> Scalar
    ensures { result ≡ scalar v }
{
    match v {
        Operand::Int(z) => Scalar::Int(z),
        Operand::Text(b) => Scalar::Text(b),
        Operand::Path(_) => Scalar::Int(0),
        Operand::Rec(_) => Scalar::Int(0),
        Operand::Bool(_) => Scalar::Int(0),
    }
}

#[tactic(auto, unfolding(khepri_types::specs::Values::emitted))]
pub(crate) fn into_value(v: Operand) -> Value
    ensures { result ≡ emitted v }
{
    match v {
        Operand::Int(z) => Value::Int(z),
        Operand::Text(b) => Value::Text(b),
        Operand::Path(p) => Value::Path(p),
        Operand::Rec(f) => Value::Rec(f),
        Operand::Bool(_) => Value::Int(0),
    }
}

pub(crate) fn into_truth(v: Operand) -> bool
    ensures { result ≡ truth v }
{
    truth(&v)
}
