ghost use Rattle.std.specs.Prelude.{◌≡◌, ◌++◌, ◌<◌, ◌≤◌, ◌+◌, ◌-◌, ℕ, List, length, take, [], ◌∷◌, slice_get, Some};
ghost use Rattle.khepri_terms.specs.Terms.{NameText};
ghost use Rattle.khepri_types.specs.declared.pattern.PatternPart.{PatternPart};
ghost use Rattle.khepri_types.specs.declared.limits.TheConstants.{MAX_PATH_NAMES};
ghost use Rattle.khepri_types.specs.Tree.{Tree};
ghost use Rattle.khepri_types.specs.Conditions.{seen_at};
ghost use Rattle.khepri_types.specs.Views.{as_seen};
ghost use Rattle.pattern_match.specs.Masks.{IsMask, AreMasks};

use crate::mask::Mask;
use khepri_types::limits::MAX_PATH_NAMES;
use khepri_types::{NodeView, Pattern};
use smallvec::SmallVec;
use std::alloc::Global;
use std::marker::Model;

// Masks of a path of the most names: one for each name, and the root's.
const MAX_MASKS: usize = MAX_PATH_NAMES + 1;

/// The masks of the prefixes of one path of at most 32 names, the root's first. They stand in place.
#[derive(Drop)]
pub struct MaskPath {
    masks: SmallVec<Mask, MAX_MASKS>,
}

impl Model for MaskPath {
    ghost use Rattle.std.specs.Prelude.{◌≡◌, ◌<◌, List, length};
    ghost use Rattle.pattern_match.specs.declared.mask.Mask.{Mask};
    ghost use Rattle.pattern_match.specs.declared.path.TheConstants.{MAX_MASKS};

    ghost Value = { List Mask };

    ghost view = { λ m. m.masks.items };

    ghost invariant = { λ m. (m.masks.capacity ≡ MAX_MASKS) × (0 < length m.masks.items) };
}

impl MaskPath {
    /// The mask of the root.
    pub fn start(alloc: Global, pattern: &Pattern) -> MaskPath
        ensures { (T : Tree) → AreMasks pattern.now T [] [] result }
    {
        let mut masks = SmallVec::new(alloc);
        masks.push_reserved(Mask::start(pattern));
        MaskPath { masks }
    }

    /// Goes on to a child node.
    pub fn enter(&mut self, pattern: &Pattern, node: &NodeView)
        requires { length self.old ≤ MAX_PATH_NAMES }
        ensures masks { (T : Tree) (p : List NameText) (n : NameText) → seen_at T (p ++ n ∷ []) ≡ Some (as_seen node.now) → AreMasks pattern.now T [] p self.old → AreMasks pattern.now T [] (p ++ n ∷ []) self.new }
        ensures kept { take (length self.old) self.new ≡ self.old }
        ensures len { length self.new ≡ length self.old + 1 }
    {
        let next = self.top().step(pattern, node);
        self.masks.push_reserved(next);
    }

    /// Goes back to the parent.
    pub fn leave(&mut self)
        requires { 1 < length self.old }
        ensures masks { (parts : List PatternPart) (T : Tree) (p : List NameText) (n : NameText) → AreMasks parts T [] (p ++ n ∷ []) self.old → AreMasks parts T [] p self.new }
        ensures rest { self.new ≡ take (length self.old - 1) self.old }
    {
        self.masks.pop();
    }

    /// The mask of the whole path.
    pub fn top(&self) -> Mask
        ensures mask { (parts : List PatternPart) (T : Tree) (p : List NameText) → AreMasks parts T [] p self.now → IsMask parts T p result }
        ensures last { slice_get self.now (length self.now - 1) ≡ Some result }
    {
        self.masks.as_slice()[self.masks.len() - 1]
    }
}
