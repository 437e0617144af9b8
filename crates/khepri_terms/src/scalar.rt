ghost use Rattle.std.specs.Prelude.{◌≡◌, ◌++◌, ◌↔◌, IsTrue, length, take, IfOk, OnOk, OnErr, Err, Some, None};
ghost use Rattle.std.proofs.Common.{rules};
ghost use Rattle.std.specs.Cmp.{partial_equiv_from_equiv, po};
ghost use Rattle.std.specs.Ordering.{as_partial_cmp};
ghost use Rattle.std.specs.Hash as fed;
ghost use Rattle.khepri_terms.specs.Order.{scalar_cmp, scalar_eq, scalar_fed};
ghost use Rattle.khepri_terms.specs.OrderLaws.{scalar_equivalence, scalar_total, scalar_ties, scalar_feeds};
ghost use Rattle.khepri_terms.specs.Lengths.{capped};
ghost use Rattle.khepri_terms.specs.Records.{IsValue, scalar_text, scalar_at};

use crate::bytes::Bytes;
use crate::fault::TextFault;
use crate::limits::MAX_TEXT;
use crate::numbers::read_int;
use crate::texts::{bytes_len, keep_whole, print_bytes, read_bytes};
use itoa::Buffer;
use std::alloc::{AllocError, Global};
use std::cmp::Ordering;
use std::hash::{Hash, Hasher};

/// What a field holds.
#[derive(Drop)]
pub enum Scalar {
    Int(i64),
    Text(Bytes),
}

impl Scalar {
    /// The scalar that is spelled at the front, and what is after it.
    #[tactic(auto, unfolding(crate::specs::Records::scalar_at))]
    pub fn read(alloc: Global, text: &[u8]) -> Result<(Scalar, &[u8]), TextFault>
        ensures value { IfOk result (λ x. scalar_at text.now ≡ Some (x.0, x.1.now)) }
        ensures bad { result ≡ Err TextFault.Bad → scalar_at text.now ≡ None }
    {
        match text {
            [] => Err(TextFault::Bad),
            [b'\'', bytes @ ..] => {
                let (bytes, rest) = read_bytes(alloc, bytes, MAX_TEXT)?;
                Ok((Scalar::Text(bytes), rest))
            }
            [_, ..] => match read_int(text) {
                Some((value, rest)) => Ok((Scalar::Int(value), rest)),
                None => Err(TextFault::Bad),
            },
        }
    }

    /// Appends the spelling; where memory is wanting, nothing.
    pub fn print(&self, out: &mut Vec<u8>) -> Result<(), AllocError>
        ensures ok { OnOk result (out.new.items ≡ out.old.items ++ scalar_text self.now) }
        ensures err { OnErr result (out.new.items ≡ out.old.items) }
    {
        let len = out.len();
        let printed = self.append(out);
        keep_whole(printed, len, out)
    }

    // Appends the spelling; after want of memory what was there before still stands at the front.
    #[tactic(auto, unfolding(crate::specs::Records::scalar_text), using(crate::proofs::Printing::front_then))]
    pub(crate) fn append(&self, out: &mut Vec<u8>) -> Result<(), AllocError>
        ensures ok { OnOk result (out.new.items ≡ out.old.items ++ scalar_text self.now) }
        ensures front { take (length out.old.items) out.new.items ≡ out.old.items }
    {
        match self {
            Scalar::Int(value) => {
                let mut digits = Buffer::new();
                out.extend_from_slice(digits.format(*value).as_bytes())
            }
            Scalar::Text(bytes) => {
                out.push(b'\'')?;
                print_bytes(bytes.as_slice(), out)
            }
        }
    }

    /// How long the spelling is, at most `usize::MAX`.
    #[tactic(auto, unfolding(crate::specs::Records::scalar_text))]
    pub fn text_len(&self) -> usize
        ensures len { result ≡ capped (length (scalar_text self.now)) }
        ensures value { IsValue self.now }
    {
        match self {
            Scalar::Int(value) => {
                let mut digits = Buffer::new();
                digits.format(*value).len()
            }
            Scalar::Text(bytes) => bytes_len(bytes.as_slice()).saturating_add(1),
        }
    }

    /// A copy with memory of its own.
    pub fn copy(&self) -> Result<Scalar, AllocError>
        ensures same { IfOk result (λ s. s ≡ self.now) }
        ensures value { IsValue self.now }
    {
        match self {
            Scalar::Int(value) => Ok(Scalar::Int(*value)),
            Scalar::Text(bytes) => Ok(Scalar::Text(bytes.copy()?)),
        }
    }

    /// Whether kind and value are the same.
    pub fn is_same(&self, other: &Scalar) -> bool
        ensures { IsTrue result ↔ (self.now ≡ other.now) }
    {
        self == other
    }

    /// Every Int is before every Text.
    pub fn compare(&self, other: &Scalar) -> Ordering
        ensures { result ≡ scalar_cmp self.now other.now }
    {
        self.cmp(other)
    }
}

impl PartialEq for Scalar {
    ghost eq = { scalar_eq };

    ghost laws = { partial_equiv_from_equiv scalar_equivalence };

    fn eq(&self, other: &Scalar) -> bool {
        match self {
            Scalar::Int(value) => match other {
                Scalar::Int(other) => *value == *other,
                Scalar::Text(_) => false,
            },
            Scalar::Text(bytes) => match other {
                Scalar::Int(_) => false,
                Scalar::Text(other) => bytes == other,
            },
        }
    }
}

impl Eq for Scalar {
    ghost laws = { scalar_equivalence };
}

impl PartialOrd for Scalar {
    ghost partial_cmp = { as_partial_cmp scalar_cmp };

    ghost laws = { po scalar_total scalar_ties };

    fn partial_cmp(&self, other: &Scalar) -> Option<Ordering> {
        Some(self.cmp(other))
    }
}

impl Ord for Scalar {
    ghost cmp = { scalar_cmp };

    ghost total = { scalar_total };

    ghost matches_partial_cmp = { Prim.search rules };

    ghost matches_eq = { scalar_ties };

    fn cmp(&self, other: &Scalar) -> Ordering {
        match self {
            Scalar::Int(value) => match other {
                Scalar::Int(other) => value.cmp(other),
                Scalar::Text(_) => Ordering::Less,
            },
            Scalar::Text(bytes) => match other {
                Scalar::Int(_) => Ordering::Greater,
                Scalar::Text(other) => bytes.cmp(other),
            },
        }
    }
}

impl Hash for Scalar {
    ghost hash_input = { scalar_fed };

    ghost respects_eq = { scalar_feeds };

    fn hash<H: Hasher>(&self, state: &mut H) {
        match self {
            Scalar::Int(value) => {
                0u8.hash(state);
                value.hash(state);
            }
            Scalar::Text(bytes) => {
                1u8.hash(state);
                bytes.hash(state);
            }
        }
    }
}
