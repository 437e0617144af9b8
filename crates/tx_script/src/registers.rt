// Reading and setting registers.
ghost use Rattle.std.specs.Prelude.{◌≡◌, [], IfOk, slice_get, pos};
ghost use Rattle.khepri_types.specs.Registers.{item_or, set_at, read, assign, opening};

use crate::operands::{into_bytes, into_path, into_rec, number};
use khepri_terms::{Bytes, Path, Rec};
use khepri_types::{Operand, Register, Registers};
use sqlite_items::Items;
use std::alloc::{AllocError, Global};

fn int_at(items: &Items<i64>, n: usize) -> i64
    ensures { result ≡ item_or (pos 0) (slice_get items.now n) }
{
    match items.get(n) {
        Some(z) => *z,
        None => 0,
    }
}

fn text_at(alloc: Global, items: &Items<Bytes>, n: usize) -> Result<Bytes, AllocError>
    ensures { IfOk result (λ x. x ≡ item_or [] (slice_get items.now n)) }
{
    match items.get(n) {
        Some(text) => text.copy(),
        None => Ok(Bytes::from_vec(alloc, Vec::new(alloc))),
    }
}

fn path_at(alloc: Global, items: &Items<Path>, n: usize) -> Result<Path, AllocError>
    ensures { IfOk result (λ x. x ≡ item_or [] (slice_get items.now n)) }
{
    match items.get(n) {
        Some(path) => path.copy(),
        None => Ok(Path::root(alloc)),
    }
}

fn rec_at(alloc: Global, items: &Items<Rec>, n: usize) -> Result<Rec, AllocError>
    ensures { IfOk result (λ x. x ≡ item_or [] (slice_get items.now n)) }
{
    match items.get(n) {
        Some(rec) => rec.copy(),
        None => Ok(Rec::empty(alloc)),
    }
}

/// What a register holds.
pub(crate) fn read(
    alloc: Global,
    reg: Register,
    registers: &Registers,
) -> Result<Operand, AllocError>
    ensures { IfOk result (λ v. v ≡ read reg registers.now) }
{
    match reg {
        Register::Int(n) => Ok(Operand::Int(int_at(&registers.ints, n as usize))),
        Register::Text(n) => Ok(Operand::Text(text_at(alloc, &registers.texts, n as usize)?)),
        Register::Path(n) => Ok(Operand::Path(path_at(alloc, &registers.paths, n as usize)?)),
        Register::Rec(n) => Ok(Operand::Rec(rec_at(alloc, &registers.recs, n as usize)?)),
    }
}

// Puts the item at this place, where it is one.
#[tactic(auto, using(crate::proofs::Places::set_within, crate::proofs::Places::set_beyond))]
fn put_at<X: Drop>(items: &mut Items<X>, n: usize, item: X)
    ensures { items.new ≡ set_at n item items.old }
{
    if n < items.len() {
        items.set(n, item);
    }
}

/// A register takes a value.
pub(crate) fn assign(alloc: Global, reg: Register, v: Operand, registers: &mut Registers)
    ensures { registers.new ≡ assign reg v registers.old }
{
    match reg {
        Register::Int(n) => put_at(&mut registers.ints, n as usize, number(&v)),
        Register::Text(n) => put_at(&mut registers.texts, n as usize, into_bytes(alloc, v)),
        Register::Path(n) => put_at(&mut registers.paths, n as usize, into_path(alloc, v)),
        Register::Rec(n) => put_at(&mut registers.recs, n as usize, into_rec(alloc, v)),
    }
}

fn empty(alloc: Global) -> Bytes
    ensures { result ≡ [] }
{
    Bytes::from_vec(alloc, Vec::new(alloc))
}

/// The registers at the beginning.
pub(crate) fn opening(alloc: Global, args: Rec, at: Path) -> Result<Registers, AllocError>
    ensures { IfOk result (λ r. r ≡ opening args at) }
{
    Ok(Registers {
        ints: Items::from_vec(vec![in alloc; 0, 0, 0, 0, 0, 0, 0, 0]?),
        texts: opening_texts(alloc)?,
        paths: opening_paths(alloc, at)?,
        recs: opening_recs(alloc, args)?,
    })
}

fn opening_texts(alloc: Global) -> Result<Items<Bytes>, AllocError>
    ensures { IfOk result (λ r. r ≡ (opening [] []).texts) }
{
    let texts = vec![in alloc;
        empty(alloc),
        empty(alloc),
        empty(alloc),
        empty(alloc),
        empty(alloc),
        empty(alloc),
        empty(alloc),
        empty(alloc),
    ]?;
    Ok(Items::from_vec(texts))
}

fn opening_paths(alloc: Global, at: Path) -> Result<Items<Path>, AllocError>
    ensures { IfOk result (λ r. r ≡ (opening [] at).paths) }
{
    let paths = vec![in alloc;
        at,
        Path::root(alloc),
        Path::root(alloc),
        Path::root(alloc),
        Path::root(alloc),
        Path::root(alloc),
        Path::root(alloc),
        Path::root(alloc),
    ]?;
    Ok(Items::from_vec(paths))
}

fn opening_recs(alloc: Global, args: Rec) -> Result<Items<Rec>, AllocError>
    ensures { IfOk result (λ r. r ≡ (opening args []).recs) }
{
    let recs = vec![in alloc;
        args,
        Rec::empty(alloc),
        Rec::empty(alloc),
        Rec::empty(alloc),
        Rec::empty(alloc),
        Rec::empty(alloc),
        Rec::empty(alloc),
        Rec::empty(alloc),
    ]?;
    Ok(Items::from_vec(recs))
}
