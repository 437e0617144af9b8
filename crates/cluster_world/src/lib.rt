//! A world of several nodes, as definitions and laws: no code runs here. The nodes stand on whole logs, messages are in
//! flight between them, and whatever is delivered, lost, repeated, stopped or started, nobody ever sees two histories. The
//! events are those of the step that the running core's contract cites; until hosts run them, no running cluster is meant.
#![tactic(auto)]

ghost use Rattle.std.specs.Prelude.{◌≡◌, ℕ, false, List, [], ◌∷◌};
ghost use Rattle.raft_types.specs.declared.state.Role.TheVariants.{Leader};
ghost use Rattle.raft_spine.specs.Start.{Start};
ghost use Rattle.cluster_world.specs.World.{Machine, node_at, begin_world};
ghost use Rattle.cluster_world.specs.Events.{Event, run};
ghost use Rattle.cluster_world.specs.Runs.{
  three,
  counter,
  elected_world,
  decided_world,
  restarted_world,
  divided_world,
  overruled_world,
  installed_world,
  of_term,
  taken_at,
  AllApplied,
};
ghost use Rattle.cluster_world.specs.Facts.{IsFit, NoTwoLead, LedOnce, TakesDiffer, WholeLogsMatch, OneHistory, HistoryIsLonger, HistoryComesFrom, LeadersHave, StandsForWhole};

/// The facts of every world that a list of events makes of nodes that begin with one and the same store (Raft, section 5:
/// election safety, log matching, state machine safety, leader completeness).
pub fn world_facts()
    ensures one_leader { (b : Start) (m : Machine) (count : ℕ) (es : List Event) → IsFit b m → NoTwoLead b (run b m (begin_world b count) es) }
    ensures led_once { (b : Start) (m : Machine) (count : ℕ) → IsFit b m → LedOnce b m (begin_world b count) }
    ensures logs_match { (b : Start) (m : Machine) (count : ℕ) (es : List Event) → IsFit b m → WholeLogsMatch b (run b m (begin_world b count) es) }
    ensures one_history { (b : Start) (m : Machine) (count : ℕ) (es : List Event) → IsFit b m → OneHistory b (run b m (begin_world b count) es) }
    ensures history_is_longer { (b : Start) (m : Machine) (count : ℕ) (es : List Event) → IsFit b m → HistoryIsLonger b (run b m (begin_world b count) es) }
    ensures stands_for_whole { (b : Start) (m : Machine) (count : ℕ) (es : List Event) → IsFit b m → StandsForWhole b m (run b m (begin_world b count) es) }
    ensures takes_differ { (b : Start) (m : Machine) (count : ℕ) (es : List Event) → IsFit b m → TakesDiffer (run b m (begin_world b count) es) }
    ensures comes_from { (b : Start) (m : Machine) (count : ℕ) (es : List Event) → IsFit b m → HistoryComesFrom b (run b m (begin_world b count) es) }
    ensures leaders_have { (b : Start) (m : Machine) (count : ℕ) (es : List Event) → IsFit b m → LeadersHave b (run b m (begin_world b count) es) }
{}

/// A run of three nodes, computed, in which each kind of event comes at least once: an election with a lost vote, a command that
/// is decided while a node stops inside its append, a restart, a command that is lost to a new leader, and a snapshot that is sent
/// and installed.
pub fn world_runs()
    ensures fit { IsFit three counter }
    ensures elected { ((node_at three elected_world 1).role ≡ Leader) × ((node_at three elected_world 1).term ≡ 1) }
    ensures decided { (decided_world.placed ≡ 1) × (decided_world.history ≡ of_term 1 7 ∷ []) }
    ensures stopped { ((node_at three decided_world 3).up ≡ false) × ((node_at three decided_world 3).term ≡ 1) }
    ensures restarted { AllApplied restarted_world (of_term 1 7 ∷ []) }
    ensures divided { ((node_at three divided_world 1).role ≡ Leader) × ((node_at three divided_world 2).role ≡ Leader) }
    ensures overruled { (node_at three overruled_world 1).whole ≡ of_term 1 7 ∷ of_term 2 9 ∷ [] }
    ensures taken { installed_world.takes ≡ taken_at 3 2 5 ∷ taken_at 2 1 8 ∷ taken_at 1 1 7 ∷ [] }
    ensures fired { installed_world.fires ≡ taken_at 2 2 9 ∷ [] }
    ensures installed { ((node_at three installed_world 1).base ≡ 3) × AllApplied installed_world (of_term 1 7 ∷ of_term 2 9 ∷ of_term 2 5 ∷ []) }
    ensures history { installed_world.history ≡ of_term 1 7 ∷ of_term 2 9 ∷ of_term 2 5 ∷ [] }
{}
