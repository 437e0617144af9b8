//! Laws of the step of a node, and of the log that a node keeps.
ghost use Rattle.std.specs.Prelude.{ℕ, ◌≤◌};
ghost use Rattle.raft_types.specs.declared.event.CoreEvent.{CoreEvent};
ghost use Rattle.raft_types.specs.Compaction.{StandsFor};
ghost use Rattle.raft_types.specs.Core.{CoreParts};
ghost use Rattle.raft_types.specs.Fits.{CoreFits, EventFits};
ghost use Rattle.raft_types.specs.Laws.{ItemsTell, StepFits};
ghost use Rattle.raft_types.specs.Log.{LogParts, last_index};

/// All that a node keeps changes through the items that it writes, in every event of every node.
pub fn items_tell()
    ensures { (c : CoreParts) (event : CoreEvent) → ItemsTell c event }
{}

/// An event that fits a fitting node leaves a fitting node, gives items of the form that stores take, and
/// sends only what fits; what is sent and the terms of the log, where the log's terms fit.
pub fn step_fits()
    ensures { (c : CoreParts) (event : CoreEvent) → CoreFits c → EventFits c event → StepFits c event }
{}

/// A compacted log stands for the log that it was made of.
pub fn compaction_keeps()
    ensures { (l : LogParts) (i : ℕ) → l.base ≤ i → i ≤ last_index l → StandsFor l i }
{}
