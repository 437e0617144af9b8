// Laws of tables.
ghost use Rattle.std.specs.Prelude.{◌≡◌, List};
ghost use Rattle.std.specs.FinMap.{empty};
ghost use Rattle.khepri_types.specs.declared.projection.Projection.{Projection};
ghost use Rattle.khepri_types.specs.Projecting.{IsInOrder, tables_over, whole_changes};
ghost use Rattle.khepri_types.specs.Tables.{changes};
ghost use Rattle.khepri_types.specs.Tree.{Tree};

/// The changes of a whole step make exactly the tables of the tree: each projection's, and no other.
pub fn whole_steps()
    ensures { (T : Tree) (Js : List Projection) → IsInOrder Js → changes (whole_changes T Js) empty ≡ tables_over Js T }
{}
