//! Laws of a state with its projections: what registering and removing one does, what look-ups then show, and that tables which are
//! told of each state follow it. The definitions stand in the crate of the types; no code runs here.
#![tactic(auto)]

ghost use Rattle.std.specs.Prelude.{◌≡◌, ◌↔◌, ◌≤◌, false, IsTrue, List, [], length, Some, None};
ghost use Rattle.std.specs.FinMap.{entries};
ghost use Rattle.khepri_terms.specs.Terms.{NameText};
ghost use Rattle.khepri_terms.specs.declared.scalar.Scalar.{Scalar};
ghost use Rattle.khepri_types.specs.declared.limits.TheConstants.{MAX_PROJECTIONS};
ghost use Rattle.khepri_types.specs.declared.projection.Projection.{Projection};
ghost use Rattle.khepri_types.specs.Exec.{Lookup};
ghost use Rattle.khepri_types.specs.Projecting.{IsInOrder, table, has_projection};
ghost use Rattle.khepri_types.specs.Tables.{TablesAt, rows_at, shown_of, stepped, run};
ghost use Rattle.khepri_types.specs.TableSteps.{rows_fit, TableState, TableEntry, Proj, Unproj, Done, opening_tables, passed, exec_tables, next_tables, run_tables, tables_of, whole_step, steps_of, look_in};
ghost use Rattle.khepri_types.specs.Tree.{Tree};

/// After every history the projections are in order of name, they are few enough, and their rows keep the limit.
pub fn projections_stay_within()
    ensures ordered { (es : List TableEntry) → IsInOrder (run_tables opening_tables es).projections }
    ensures few { (es : List TableEntry) → length (run_tables opening_tables es).projections ≤ MAX_PROJECTIONS }
    ensures rows { (es : List TableEntry) → IsTrue (rows_fit (run_tables opening_tables es).projections (run_tables opening_tables es).state.tree) }
{}

/// The whole step of a state makes exactly its tables, computed from scratch, whatever tables stood before.
pub fn whole_step_makes_the_tables()
    ensures { (S : TableState) (now : TablesAt) → IsInOrder S.projections → stepped (whole_step S) now ≡ tables_of S }
{}

/// Tables that are told of the state after each entry of a history are in the end those of the last state, computed from scratch.
pub fn tables_follow()
    ensures { (es : List TableEntry) → run (steps_of opening_tables es) (tables_of opening_tables) ≡ tables_of (run_tables opening_tables es) }
{}

/// A look-up answers none exactly where no projection has the name.
pub fn none_is_no_projection()
    ensures { (S : TableState) (q : Lookup) → (look_in S q ≡ None) ↔ (has_projection q.name S.projections ≡ false) }
{}

/// Once a projection is registered, a look-up by its name shows the rows of its table over the whole tree as it stands, and look-ups by
/// other names show what they showed.
pub fn registered_table_shows()
    ensures own { (S : TableState) (J : Projection) (k : List Scalar) → (exec_tables S (Proj J)).0 ≡ Done → look_in (next_tables S (Proj J)) (record { name = J.name; key = k }) ≡ Some (shown_of J.bag (rows_at k (entries (table J S.state.tree).rows))) }
    ensures others { (S : TableState) (J : Projection) (q : Lookup) → (q.name ≡ J.name → ⊥) → look_in (next_tables S (Proj J)) q ≡ look_in S q }
{}

/// Once a projection is removed, look-ups by its name answer none, and those by other names show what they showed.
pub fn removed_table_is_gone()
    ensures own { (S : TableState) (n : NameText) (k : List Scalar) → look_in (next_tables S (Unproj n)) (record { name = n; key = k }) ≡ None }
    ensures others { (S : TableState) (n : NameText) (q : Lookup) → (q.name ≡ n → ⊥) → look_in (next_tables S (Unproj n)) q ≡ look_in S q }
{}

/// A read with another number of scalars than the projection has keys shows no row.
pub fn other_keys_show_nothing()
    ensures { (J : Projection) (T : Tree) (k : List Scalar) → (length k ≡ length J.keys → ⊥) → rows_at k (entries (table J T).rows) ≡ [] }
{}

/// A command on projections that is refused changes the position alone.
pub fn refused_command_changes_nothing()
    ensures proj { (S : TableState) (J : Projection) → ((exec_tables S (Proj J)).0 ≡ Done → ⊥) → next_tables S (Proj J) ≡ passed S }
    ensures unproj { (S : TableState) (n : NameText) → ((exec_tables S (Unproj n)).0 ≡ Done → ⊥) → next_tables S (Unproj n) ≡ passed S }
{}
