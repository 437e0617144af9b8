ghost use Rattle.std.specs.Prelude.{◌≡◌, ◌∷◌, [], ◌++◌, ◌≤◌, ◌<◌, ◌+◌, ◌||◌, ◌≢◌, ℕ, suc, true, false, List, IsTrue, Some, length};
ghost use Rattle.khepri_terms.specs.Terms.{NameText};
ghost use Rattle.khepri_types.specs.declared.limits.TheConstants.{MAX_PATTERN_PARTS};
ghost use Rattle.khepri_types.specs.Tree.{Tree, stands};
ghost use Rattle.khepri_types.specs.Conditions.{seen_at};
ghost use Rattle.khepri_types.specs.Views.{as_seen};
ghost use Rattle.khepri_types.specs.Patterns.{is_many, matches};
ghost use Rattle.pattern_match.specs.Masks.{has, IsMask};
ghost use Rattle.pattern_match.specs.Steps.{takes_node, part_next, has_next};

use khepri_types::{NodeView, Pattern, PatternPart};

/// For each number of parts, whether that many of the first parts of a pattern take all the names so far. Bit i stands for i parts.
#[derive(Clone, Copy, Default, Drop)]
pub struct Mask {
    bits: u64,
}

impl Mask {
    /// The mask of the root: no part takes no name.
    pub fn start(pattern: &Pattern) -> Mask
        ensures { (T : Tree) → IsMask pattern.now T [] result }
    {
        first_mask()
    }

    /// The mask of a child node, from the mask of its parent.
    pub fn step(self, pattern: &Pattern, node: &NodeView) -> Mask
        ensures { (T : Tree) (p : List NameText) (n : NameText) → seen_at T (p ++ n ∷ []) ≡ Some (as_seen node.now) → IsMask pattern.now T p self → IsMask pattern.now T (p ++ n ∷ []) result }
    {
        next_mask(self, pattern.parts(), node)
    }

    /// Whether the pattern matches the path whose mask this is.
    pub fn accepts(self, pattern: &Pattern) -> bool
        ensures { (T : Tree) (p : List NameText) → IsTrue (stands T p) → IsMask pattern.now T p self → result ≡ matches pattern.now T p }
    {
        self.has(pattern.parts().len())
    }

    // Whether this many parts take the names so far.
    fn has(self, count: usize) -> bool
        requires { count < 64 }
        ensures { result ≡ has self count }
    {
        (self.bits >> count) & 1 == 1
    }

    // The mask with this number of parts too.
    fn with(self, count: usize) -> Mask
        requires { count < 64 }
        ensures same { has result count ≡ true }
        ensures other { (i : ℕ) → i ≢ count → has result i ≡ has self i }
    {
        Mask {
            bits: self.bits | 1 << count,
        }
    }
}

fn is_many(part: &PatternPart) -> bool
    ensures { result ≡ is_many part.now }
{
    match part {
        PatternPart::Name(_) => false,
        PatternPart::One => false,
        PatternPart::Many => true,
        PatternPart::Meets(_) => false,
    }
}

// Whether the part takes the name of the node.
fn takes_node(part: &PatternPart, node: &NodeView) -> bool
    ensures { result ≡ takes_node part.now (as_seen node.now) }
{
    match part {
        PatternPart::Name(name) => match node.name {
            Some(other) => name == other,
            None => false,
        },
        PatternPart::One => true,
        PatternPart::Many => true,
        PatternPart::Meets(cond) => cond.holds(Some(node)),
    }
}

// No part takes no name.
fn first_mask() -> Mask
    ensures no_part { has result 0 ≡ true }
    ensures some_parts { (i : ℕ) → has result (suc i) ≡ false }
{
    Mask { bits: 1 }
}

// Whether the names so far and the node's are taken by the parts up to this one, which stands behind as many as `before`.
fn goes_on(mask: Mask, part: &PatternPart, before: usize, node: &NodeView) -> bool
    requires { before < 63 }
    ensures { result ≡ part_next (as_seen node.now) mask before (Some part.now) }
{
    if mask.has(before) || is_many(part) && mask.has(before + 1) {
        takes_node(part, node)
    } else {
        false
    }
}

// The numbers of parts that take the names so far and the node's.
fn next_mask(mask: Mask, parts: &[PatternPart], node: &NodeView) -> Mask
    requires { length parts.now ≤ MAX_PATTERN_PARTS }
    ensures { (i : ℕ) → i ≤ length parts.now → has result i ≡ has_next parts.now (as_seen node.now) mask i }
{
    let mut next = Mask { bits: 0 };
    for (i, part) in parts.iter().enumerate() {
        if goes_on(mask, part, i, node) {
            next = next.with(i + 1);
        }
    }
    next
}
