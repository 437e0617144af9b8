//! What the step of a node has to do with the safety of the log, as laws about definitions: no code runs here. A core is
//! tied to the whole log of its node, every message in flight claims something of the spine, and whatever event a node
//! meets, also where it stops in the middle of it, is a list of the spine's moves of this node. So the laws of the spine
//! (one leader a term, one decided history) hold of every world whose nodes make steps of this definition. Which worlds
//! there are, what is delivered and what is lost, is for the crates above to say.
#![tactic(auto)]

ghost use Rattle.std.specs.Prelude.{ℕ, List, ◌≢◌};
ghost use Rattle.raft_types.specs.declared.entry.LogEntry.{LogEntry};
ghost use Rattle.raft_types.specs.declared.event.CoreEvent.{CoreEvent};
ghost use Rattle.raft_spine.specs.Start.{Start};
ghost use Rattle.raft_spine.specs.Spine.{Spine};
ghost use Rattle.raft_spine.specs.Moves.{Move, moved_all};
ghost use Rattle.raft_spine.specs.Laws.{Grows};
ghost use Rattle.raft_claims.specs.Laws.{Running, Meets, TurnsBy, StopsBy, ClaimsStay, MovesOf, OthersStay, BeginsTied, StoresTie};

/// Every event of a running node is a list of moves of that node (Raft, section 5): where the node ends the event, and
/// wherever it stops in it.
pub fn event_is_moves()
    ensures ends { (n : Running) (sender : List LogEntry) (event : CoreEvent) → Meets n sender event → TurnsBy n sender event }
    ensures stops { (n : Running) (sender : List LogEntry) (event : CoreEvent) (k : ℕ) → Meets n sender event → StopsBy n sender event k }
{}

/// What a message claims stays true whatever happens later, and moves of one node leave what is known of the others.
pub fn claims_stay()
    ensures claims { (b : Start) (len : List LogEntry → ℕ) (s s2 : Spine) → Grows s s2 → ClaimsStay b len s s2 }
    ensures others { (b : Start) (len : List LogEntry → ℕ) (s : Spine) (k : ℕ) (ms : List Move) → MovesOf b s k ms → OthersStay b len s (moved_all ms s) k }
{}

/// Every node begins with a store that is tied to its whole log. It stays so where a node stops, starts with its store, or
/// puts a snapshot in place of what it has committed.
pub fn stores_tie()
    ensures begin { (b : Start) (len : List LogEntry → ℕ) (k : ℕ) → k ≢ 0 → BeginsTied b len k }
    ensures stay { (b : Start) (len : List LogEntry → ℕ) (s : Spine) (whole : List LogEntry) → StoresTie b len s whole }
{}
