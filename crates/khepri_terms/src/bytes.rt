ghost use Rattle.std.specs.Prelude.{◌≡◌, nat_eq, IfOk, IfSome, length};
ghost use Rattle.std.proofs.Common.{rules};
ghost use Rattle.std.specs.Cmp.{partial_order_from_own_ties};
ghost use Rattle.std.specs.Cmp.Rules.{comparing, hashing};
ghost use Rattle.std.specs.Cmp.Lexicographic.{pointwise, slice_cmp};
ghost use Rattle.std.specs.Ordering.{nat_cmp, as_partial_cmp};
ghost use Rattle.std.specs.Hash as fed;
ghost use Rattle.khepri_terms.specs.Bytes.{AreBytes};
ghost use Rattle.khepri_terms.specs.Places.{bytes_of, IsWithin};

use std::alloc::{AllocError, Global};
use std::cmp::Ordering;
use std::hash::{Hash, Hasher};
use std::marker::Model;

/// How many bytes lie in the value itself, where they take no memory; most names and texts are as short.
const INLINE: usize = 30;

// Where bytes lie: the first `len` of an array, or memory of their own.
#[derive(Drop)]
enum Place {
    Inline { bytes: [u8; INLINE], len: u8 },
    Heap(Vec<u8>),
}

/// Bytes that contracts see as a list.
#[derive(Drop)]
pub struct Bytes {
    place: Place,
    alloc: Global,
}

impl Model for Bytes {
    ghost use Rattle.std.specs.Prelude.{List, ℕ};
    ghost use Rattle.khepri_terms.specs.Bytes.{AreBytes};
    ghost use Rattle.khepri_terms.specs.Places.{bytes_of, IsWithin};

    ghost Value = { List ℕ };

    ghost view = { λ b. bytes_of b.place };

    ghost invariant = { λ b. IsWithin b.place × AreBytes (bytes_of b.place) };
}

impl Place {
    // A copy of these bytes, where they are few enough to need no memory.
    fn inline(items: &[u8]) -> Option<Place>
        ensures { IfSome result (λ p. IsWithin p × (bytes_of p ≡ items.now)) }
    {
        if items.len() > INLINE {
            return None;
        }
        let mut bytes = [0; INLINE];
        bytes[..items.len()].copy_from_slice(items);
        Some(Place::Inline {
            bytes,
            len: items.len() as u8,
        })
    }

    fn as_slice(&self) -> &[u8]
        requires { IsWithin self.now }
        ensures { result.now ≡ bytes_of self.now }
    {
        match self {
            Place::Inline { bytes, len } => &bytes[..*len as usize],
            Place::Heap(items) => items.as_slice(),
        }
    }
}

impl Bytes {
    /// The bytes of a vector, which is taken over. Copies take their memory from this allocator.
    pub fn from_vec(alloc: Global, items: Vec<u8>) -> Bytes
        ensures { result ≡ items.items }
    {
        match Place::inline(items.as_slice()) {
            Some(place) => Bytes { place, alloc },
            None => Bytes {
                place: Place::Heap(items),
                alloc,
            },
        }
    }

    /// A copy of these bytes.
    pub fn from_slice(alloc: Global, items: &[u8]) -> Result<Bytes, AllocError>
        ensures { IfOk result (λ b. b ≡ items.now) }
    {
        let place = match Place::inline(items) {
            Some(place) => place,
            None => Place::Heap(Vec::from_slice(alloc, items)?),
        };
        Ok(Bytes { place, alloc })
    }

    /// The bytes, lent.
    pub fn as_slice(&self) -> &[u8]
        ensures value { result.now ≡ self.now }
        ensures bytes { AreBytes self.now }
    {
        self.place.as_slice()
    }

    /// How many bytes there are.
    pub fn len(&self) -> usize
        ensures { result ≡ length self.now }
    {
        self.as_slice().len()
    }

    /// A copy with memory of its own.
    pub fn copy(&self) -> Result<Bytes, AllocError>
        ensures value { IfOk result (λ b. b ≡ self.now) }
        ensures bytes { AreBytes self.now }
    {
        Bytes::from_slice(self.alloc, self.as_slice())
    }
}

// Which of two comes first, byte by byte: a search compares names whose first few bytes tell.
fn order(left: &[u8], right: &[u8]) -> Ordering
    ensures { result ≡ slice_cmp nat_cmp left.now right.now }
{
    let mut a = left;
    let mut b = right;
    'bytes: while let [x, rest_a @ ..] = a {
        let [y, rest_b @ ..] = b else {
            return Ordering::Greater;
        };
        if *x != *y {
            return x.cmp(y);
        }
        a = rest_a;
        b = rest_b;
    }
    match b {
        [] => Ordering::Equal,
        [_, ..] => Ordering::Less,
    }
}

impl PartialEq for Bytes {
    ghost eq = { pointwise nat_eq };

    ghost laws = { Prim.search (comparing, rules) };

    fn eq(&self, other: &Bytes) -> bool {
        self.as_slice() == other.as_slice()
    }
}

impl Eq for Bytes {
    ghost laws = { Prim.search (comparing, rules) };
}

impl PartialOrd for Bytes {
    ghost partial_cmp = { as_partial_cmp (slice_cmp nat_cmp) };

    ghost laws = { partial_order_from_own_ties (Prim.search (comparing, rules)) (Prim.search (comparing, rules)) };

    fn partial_cmp(&self, other: &Bytes) -> Option<Ordering> {
        Some(self.cmp(other))
    }
}

impl Ord for Bytes {
    ghost cmp = { slice_cmp nat_cmp };

    ghost total = { Prim.search (comparing, rules) };

    ghost matches_partial_cmp = { Prim.search (comparing, rules) };

    ghost matches_eq = { Prim.search (comparing, rules) };

    fn cmp(&self, other: &Bytes) -> Ordering {
        order(self.as_slice(), other.as_slice())
    }
}

impl Hash for Bytes {
    ghost hash_input = { fed.slice fed.u8 };

    ghost respects_eq = { Prim.search (hashing, rules) };

    fn hash<H: Hasher>(&self, state: &mut H) {
        self.as_slice().hash(state);
    }
}
