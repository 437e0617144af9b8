ghost use Rattle.std.specs.Prelude.{◌≡◌, ◌++◌, ◌<◌, ◌≤◌, ◌↔◌, length, take, IfOk, OnOk, OnErr, IsTrue, Ok, Err, Some, None};
ghost use Rattle.std.proofs.Common.{rules};
ghost use Rattle.std.specs.Cmp.{partial_order_from_own_ties};
ghost use Rattle.std.specs.Cmp.Rules.{comparing, hashing};
ghost use Rattle.std.specs.Ordering.{as_partial_cmp};
ghost use Rattle.std.specs.Hash as fed;
ghost use Rattle.khepri_terms.specs.declared.limits.TheConstants.{MAX_NAME};
ghost use Rattle.khepri_terms.specs.Names.{IsNameBytes, IsName, comp_text, name_at, named, comp_at};
ghost use Rattle.khepri_terms.specs.Order.{rank, name_fed, name_cmp, name_eq};

use crate::bytes::Bytes;
use crate::fault::{NameFault, TextFault};
use crate::limits::MAX_NAME;
use crate::texts::{keep_whole, name_len, print_name, read_name};
use std::alloc::{AllocError, Global};
use std::cmp::Ordering;
use std::hash::{Hash, Hasher};
use std::marker::Model;

/// What a name is written as: a word of the program or a user's text.
#[derive(Clone, Copy, PartialEq, Eq)]
pub enum Kind {
    Atom,
    Text,
}

impl Kind {
    // Atoms come before texts.
    fn rank(self) -> u8
        ensures { result ≡ rank self }
    {
        match self {
            Kind::Atom => 0,
            Kind::Text => 1,
        }
    }
}

/// A kind and 1 to 255 bytes.
#[derive(Drop)]
pub struct Name {
    kind: Kind,
    bytes: Bytes,
}

impl Model for Name {
    ghost use Rattle.khepri_terms.specs.Terms.{NameText};
    ghost use Rattle.khepri_terms.specs.Names.{IsNameBytes};

    ghost Value = { NameText };

    ghost view = { λ n. record { kind = n.kind; bytes = n.bytes } };

    ghost invariant = { λ n. IsNameBytes n.bytes };
}

impl Name {
    /// `Empty` and `Long` say that the bytes are none or over 255.
    pub fn new(alloc: Global, kind: Kind, bytes: &[u8]) -> Result<Name, NameFault>
        ensures ok { IfOk result (λ n. n ≡ record { kind = kind; bytes = bytes.now }) }
        ensures empty { (result ≡ Err NameFault.Empty) ↔ (length bytes.now ≡ 0) }
        ensures long { (result ≡ Err NameFault.Long) ↔ (MAX_NAME < length bytes.now) }
    {
        if bytes.len() == 0 {
            return Err(NameFault::Empty);
        }
        if bytes.len() > MAX_NAME {
            return Err(NameFault::Long);
        }
        let bytes = Bytes::from_slice(alloc, bytes)?;
        Ok(Name { kind, bytes })
    }

    /// The name that is spelled at the front, read as far as it goes, and what is after it. A `:` stands before an atom.
    #[tactic(auto, unfolding(crate::specs::Names::comp_at))]
    pub fn read(alloc: Global, text: &[u8]) -> Result<(Name, &[u8]), TextFault>
        ensures value { IfOk result (λ x. comp_at text.now ≡ Some (x.0, x.1.now)) }
        ensures bad { result ≡ Err TextFault.Bad → comp_at text.now ≡ None }
    {
        match text {
            [] => Err(TextFault::Bad),
            [b':', rest @ ..] => Name::read_kind(alloc, Kind::Atom, rest),
            [_, ..] => Name::read_kind(alloc, Kind::Text, text),
        }
    }

    // The name of this kind whose bytes are spelled at the front, and what is after it.
    fn read_kind(alloc: Global, kind: Kind, text: &[u8]) -> Result<(Name, &[u8]), TextFault>
        ensures value { IfOk result (λ x. named kind (name_at text.now) ≡ Some (x.0, x.1.now)) }
        ensures bad { result ≡ Err TextFault.Bad → named kind (name_at text.now) ≡ None }
    {
        let (bytes, rest) = read_name(alloc, text)?;
        Ok((Name { kind, bytes }, rest))
    }

    /// Whether it is an atom or a text.
    pub fn kind(&self) -> Kind
        ensures { result ≡ self.now.kind }
    {
        self.kind
    }

    /// The bytes themselves, not as they are spelled.
    pub fn bytes(&self) -> &[u8]
        ensures value { result.now ≡ self.now.bytes }
        ensures name { IsNameBytes self.now.bytes }
    {
        self.bytes.as_slice()
    }

    /// Appends the spelling; where memory is wanting, nothing.
    pub fn print(&self, out: &mut Vec<u8>) -> Result<(), AllocError>
        ensures ok { OnOk result (out.new.items ≡ out.old.items ++ comp_text self.now) }
        ensures err { OnErr result (out.new.items ≡ out.old.items) }
    {
        let len = out.len();
        let printed = self.append(out);
        keep_whole(printed, len, out)
    }

    // Appends the spelling; after want of memory what was there before still stands at the front.
    #[tactic(auto, using(crate::proofs::Printing::front_then))]
    pub(crate) fn append(&self, out: &mut Vec<u8>) -> Result<(), AllocError>
        ensures ok { OnOk result (out.new.items ≡ out.old.items ++ comp_text self.now) }
        ensures front { take (length out.old.items) out.new.items ≡ out.old.items }
    {
        match self.kind {
            Kind::Atom => out.push(b':')?,
            Kind::Text => {}
        }
        print_name(self.bytes(), out)
    }

    /// How long the spelling is: 1 to 766 bytes.
    #[tactic(auto, using(crate::proofs::NameLengths::name_short))]
    pub fn text_len(&self) -> usize
        ensures len { result ≡ length (comp_text self.now) }
        ensures name { IsName self.now }
        ensures small { result ≤ 766 }
    {
        let len = name_len(self.bytes());
        match self.kind {
            Kind::Atom => len + 1,
            Kind::Text => len,
        }
    }

    /// A copy with memory of its own.
    pub fn copy(&self) -> Result<Name, AllocError>
        ensures { IfOk result (λ n. n ≡ self.now) }
    {
        Ok(Name {
            kind: self.kind,
            bytes: self.bytes.copy()?,
        })
    }

    /// Whether kind and bytes are the same.
    pub fn is_same(&self, other: &Name) -> bool
        ensures { IsTrue result ↔ (self.now ≡ other.now) }
    {
        self.kind == other.kind && self.bytes() == other.bytes()
    }

    /// Atoms are before texts, and names of one kind go by their bytes.
    pub fn compare(&self, other: &Name) -> Ordering
        ensures { result ≡ name_cmp self.now other.now }
    {
        self.cmp(other)
    }
}

impl PartialEq for Name {
    ghost eq = { name_eq };

    ghost laws = { Prim.search (comparing, rules) };

    fn eq(&self, other: &Name) -> bool {
        self.kind.rank() == other.kind.rank() && self.bytes == other.bytes
    }
}

impl Eq for Name {
    ghost laws = { Prim.search (comparing, rules) };
}

impl PartialOrd for Name {
    ghost partial_cmp = { as_partial_cmp name_cmp };

    ghost laws = { partial_order_from_own_ties (Prim.search (comparing, rules)) (Prim.search (comparing, rules)) };

    fn partial_cmp(&self, other: &Name) -> Option<Ordering> {
        Some(self.cmp(other))
    }
}

impl Ord for Name {
    ghost cmp = { name_cmp };

    ghost total = { Prim.search (comparing, rules) };

    ghost matches_partial_cmp = { Prim.search (comparing, rules) };

    ghost matches_eq = { Prim.search (comparing, rules) };

    fn cmp(&self, other: &Name) -> Ordering {
        self.kind
            .rank()
            .cmp(&other.kind.rank())
            .then(self.bytes.cmp(&other.bytes))
    }
}

impl Hash for Name {
    ghost hash_input = { name_fed };

    ghost respects_eq = { Prim.search (hashing, rules) };

    fn hash<H: Hasher>(&self, state: &mut H) {
        self.kind.rank().hash(state);
        self.bytes.hash(state);
    }
}
