//! Laws of a node's store.
ghost use Rattle.std.specs.Prelude.{◌≡◌, ◌++◌, ◌≤◌, ℕ, List, map, take, Option, Some};
ghost use Rattle.raft_types.specs.declared.event.CoreEvent.{CoreEvent};
ghost use Rattle.raft_types.specs.declared.item.Item.{Item};
ghost use Rattle.raft_types.specs.Core.{CoreParts};
ghost use Rattle.raft_types.specs.Fits.{CoreFits, EventFits};
ghost use Rattle.raft_types.specs.Items.{ItemsForm};
ghost use Rattle.raft_types.specs.Step.{on};
ghost use Rattle.raft_durable.specs.declared.kept.Kept.{Kept};
ghost use Rattle.raft_durable.specs.Bytes.{item_bytes};
ghost use Rattle.raft_durable.specs.Laws.{AllFit, Follow, Spells, after};
ghost use Rattle.raft_durable.specs.Steps.{KeptFits, Based, VoteRises, SaysAfter, TermsRise, kept_after, kept_of, kept_on};
ghost use Rattle.raft_durable.specs.Stores.{read_store, kept_bytes};

/// A list is read exactly where items that follow each other are spelled by it, and it says what they say.
pub fn one_spelling()
    ensures spelled { (bytes : List (List ℕ)) (k : Kept) (s : Spells bytes k) → AllFit s.items → read_store bytes ≡ Some k }
    ensures read { (bytes : List (List ℕ)) (k : Kept) → read_store bytes ≡ Some k → Spells bytes k }
{}

/// Items that a node adds to its store, in the order of a step: the store then says term, vote and log after them. A front of
/// such items is one too, so a stop that keeps a front leaves a store.
pub fn added_items()
    ensures says { (bytes : List (List ℕ)) (k : Kept) (items : List Item) (snapshot : List ℕ) →
        read_store bytes ≡ Some k → Follow k items → read_store (bytes ++ map (item_bytes snapshot) items) ≡ Some (after k items) }
    ensures fronts { (k : Kept) (items : List Item) (n : ℕ) → Follow k items → Follow k (take n items) }
{}

/// What a node keeps within the limits of a store is written anew as a store that says it.
pub fn written_anew()
    ensures { (k : Kept) → KeptFits k → Based k.snapshot k.log → read_store (kept_bytes k) ≡ Some k }
{}

/// Items of each form that a step gives: entries that go on, behind a vote or none, are added to the store, and those that begin
/// with a snapshot stand in its place. The store then says what is kept after them, where that is within the limits of a store.
/// A stop that keeps a front of items that were added leaves a store.
pub fn formed_items()
    ensures { (bytes : List (List ℕ)) (k : Kept) (snapshot : List ℕ) (commit : ℕ) (items : List Item) →
        read_store bytes ≡ Some k → k.log.base ≤ commit → ItemsForm commit k.log items → VoteRises k items →
        KeptFits (kept_after k snapshot items) → SaysAfter bytes snapshot items (kept_after k snapshot items) }
{}

/// The items of a step of a node whose store says what it keeps: the store then says what the node keeps after the step. That
/// the terms of its log do not fall, and none is above its own, is asked of what the step leaves.
pub fn step_items()
    ensures { (bytes : List (List ℕ)) (now : Option (List ℕ)) (snapshot : List ℕ) (c : CoreParts) (event : CoreEvent) →
        read_store bytes ≡ Some (kept_of c now) → CoreFits c → EventFits c event → TermsRise (on c event).core →
        SaysAfter bytes snapshot (on c event).items (kept_on c event now snapshot) }
{}
