// Keys and values of rows.
ghost use Rattle.std.specs.Prelude.{◌≡◌, length, IfOk};
ghost use Rattle.std.proofs.Common.{rules};
ghost use Rattle.std.specs.Cmp.{partial_equiv_from_equiv, po};
ghost use Rattle.std.specs.Ordering.{as_partial_cmp};
ghost use Rattle.khepri_types.specs.Keys.{key_cmp, key_eq, key_ties, key_equivalence, key_total};

use khepri_terms::Scalar;
use std::alloc::{AllocError, Global};
use std::cmp::Ordering;
use std::marker::Model;

/// A list of scalars: what a row is found by, or what it shows.
#[derive(Drop)]
pub struct Key {
    scalars: Vec<Scalar>,
    alloc: Global,
}

impl Model for Key {
    ghost use Rattle.std.specs.Prelude.{List};
    ghost use Rattle.khepri_terms.specs.declared.scalar.Scalar.{Scalar};

    ghost Value = { List Scalar };

    ghost view = { λ k. k.scalars.items };
}

impl Key {
    /// The scalars of a vector, which is taken over. Copies take their memory from this allocator.
    pub fn from_vec(alloc: Global, scalars: Vec<Scalar>) -> Key
        ensures { result ≡ scalars.items }
    {
        Key { scalars, alloc }
    }

    /// The scalars, in their order.
    pub fn as_slice(&self) -> &[Scalar]
        ensures { result.now ≡ self.now }
    {
        self.scalars.as_slice()
    }

    /// A copy with memory of its own.
    pub fn copy(&self) -> Result<Key, AllocError>
        ensures { IfOk result (λ k. k ≡ self.now) }
    {
        let mut scalars = Vec::with_capacity(self.alloc, self.scalars.len())?;
        for scalar in self.scalars.as_slice() {
            scalars.push(scalar.copy()?)?;
        }
        Ok(Key {
            scalars,
            alloc: self.alloc,
        })
    }
}

impl PartialEq for Key {
    ghost eq = { key_eq };

    ghost laws = { partial_equiv_from_equiv key_equivalence };

    fn eq(&self, other: &Key) -> bool {
        self.scalars.as_slice() == other.scalars.as_slice()
    }
}

impl Eq for Key {
    ghost laws = { key_equivalence };
}

impl PartialOrd for Key {
    ghost partial_cmp = { as_partial_cmp key_cmp };

    ghost laws = { po key_total key_ties };

    fn partial_cmp(&self, other: &Key) -> Option<Ordering> {
        Some(self.cmp(other))
    }
}

impl Ord for Key {
    ghost cmp = { key_cmp };

    ghost total = { key_total };

    ghost matches_partial_cmp = { Prim.search rules };

    ghost matches_eq = { key_ties };

    fn cmp(&self, other: &Key) -> Ordering {
        self.scalars.as_slice().cmp(other.scalars.as_slice())
    }
}
