//! The core of the replicated log's safety, as laws about definitions: no code runs here. The spine holds what Raft's
//! safety is about, the terms, votes and whole logs of all nodes and the leader of each term, and seven moves change it,
//! each the sense of one rule of Raft. Whatever list of moves is made, the laws hold. This crate knows the entries of
//! the log, and nothing of messages, roles, commit indexes, snapshots or files: which moves an event of a node makes is
//! said in `raft_claims`.
#![tactic(auto)]

ghost use Rattle.std.specs.Prelude.{◌≡◌, ℕ, List, [], ◌∷◌};
ghost use Rattle.raft_spine.specs.Decided.{IsCommitted, Decided};
ghost use Rattle.raft_spine.specs.Laws.{IsReached, OneLeader, LogsMatch, OneHistory, LeadersHave, ForGood};
ghost use Rattle.raft_spine.specs.Moves.{CanAll, Grants, Leads, Puts};
ghost use Rattle.raft_spine.specs.Runs.{three, entry_of, decide_moves, after_decide, succeed_moves, after_succeed, twice_moves, after_twice, rival_moves, after_rival, ask_moves, after_ask, old_entry_moves, after_old_entry, overwrite_moves, after_overwrite};
ghost use Rattle.raft_spine.specs.Spine.{Spine, begin};
ghost use Rattle.raft_spine.specs.Start.{Start, IsStart};

/// The laws, of every spine that moves reach from nodes that begin with one and the same store (Raft, section 5: election
/// safety, log matching, state machine safety and leader completeness; and that all of it is for good).
pub fn spine_laws()
    ensures one_leader { (b : Start) (s : Spine) → IsReached b s → OneLeader b s }
    ensures logs_match { (b : Start) (s : Spine) → IsReached b s → LogsMatch s }
    ensures one_history { (b : Start) (s : Spine) → IsReached b s → OneHistory b s }
    ensures leaders_have { (b : Start) (s : Spine) → IsReached b s → LeadersHave b s }
    ensures for_good { (b : Start) (s : Spine) → IsReached b s → ForGood b s }
{}

/// A run of three nodes in two parts, computed, so that no premise of a move or of a law is empty: one node is elected, adds
/// an entry and decides it; then a second node is elected in a later term, and has that entry.
pub fn spine_runs()
    ensures start { IsStart three }
    ensures decide { CanAll three (begin three) decide_moves }
    ensures decide_leader { after_decide.leader 2 ≡ 1 }
    ensures decide_logs { (after_decide.log 1 ≡ entry_of 1 10 ∷ entry_of 2 20 ∷ []) × (after_decide.log 2 ≡ after_decide.log 1) × (after_decide.log 3 ≡ entry_of 1 10 ∷ []) }
    ensures decide_committed { IsCommitted three after_decide 2 1 }
    ensures decide_history { Decided three after_decide 2 (entry_of 1 10 ∷ entry_of 2 20 ∷ []) }
    ensures succeed { CanAll three after_decide succeed_moves }
    ensures reached { IsReached three after_succeed }
    ensures succeed_leaders { (after_succeed.leader 2 ≡ 1) × (after_succeed.leader 3 ≡ 2) }
    ensures succeed_logs { (after_succeed.log 1 ≡ entry_of 1 10 ∷ entry_of 2 20 ∷ entry_of 3 30 ∷ []) × (after_succeed.log 2 ≡ after_succeed.log 1) × (after_succeed.log 3 ≡ after_succeed.log 1) }
    ensures succeed_history { Decided three after_succeed 3 (entry_of 1 10 ∷ entry_of 2 20 ∷ entry_of 3 30 ∷ []) }
{}

/// What the premises refuse, computed too: a second vote in one term, a second leader of one term, a vote for a log that
/// lacks a decided entry, an entry of a node that doesn't lead. And an entry of an older term isn't decided because a
/// majority shares it: the last run puts another one in its place (Raft, section 5.4.2, figure 8).
pub fn spine_refusals()
    ensures twice { CanAll three (begin three) twice_moves }
    ensures twice_refused { Grants three after_twice 2 3 → ⊥ }
    ensures put_refused { Puts after_decide 2 → ⊥ }
    ensures rival { CanAll three after_decide rival_moves }
    ensures rival_refused { Leads three after_rival 3 → ⊥ }
    ensures ask { CanAll three after_decide ask_moves }
    ensures ask_refused { Grants three after_ask 2 3 → ⊥ }
    ensures old_entry { CanAll three (begin three) old_entry_moves }
    ensures old_entry_held { (after_old_entry.log 1 ≡ entry_of 1 10 ∷ entry_of 2 20 ∷ []) × (after_old_entry.shared 1 4 ≡ 2) × (after_old_entry.shared 2 4 ≡ 2) }
    ensures old_entry_undecided { (u : ℕ) → Decided three after_old_entry u (entry_of 1 10 ∷ entry_of 2 20 ∷ []) → ⊥ }
    ensures overwrite { CanAll three after_old_entry overwrite_moves }
    ensures overwrite_log { after_overwrite.log 2 ≡ entry_of 1 10 ∷ entry_of 3 30 ∷ [] }
{}
