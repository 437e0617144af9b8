//! Laws of the texts of tables: sources, keys and values, projections and the commands on them, reads, and the rows that a read
//! shows. Each is spelled in one way, and what is read was spelled. The definitions stand in the crate of the types; no code runs here.
#![tactic(auto)]

ghost use Rattle.std.specs.Prelude.{◌≡◌, ◌↔◌, ℕ, List, ◌++◌, Option, Some};
ghost use Rattle.khepri_terms.specs.Terms.{NameText};
ghost use Rattle.khepri_terms.specs.declared.scalar.Scalar.{Scalar};
ghost use Rattle.khepri_types.specs.declared.projection.Origin.{Origin};
ghost use Rattle.khepri_types.specs.declared.projection.Projection.{Projection};
ghost use Rattle.khepri_types.specs.declared.shown_row.ShownRow.{ShownRow};
ghost use Rattle.khepri_types.specs.ConditionTexts.{IsKey};
ghost use Rattle.khepri_types.specs.Exec.{Lookup};
ghost use Rattle.khepri_types.specs.ProjectionLines.{projection_text, proj_text, unproj_text, lookup_text, IsProjection, IsLookup, projection_at, spelled_proj, spelled_unproj, spelled_lookup};
ghost use Rattle.khepri_types.specs.ProjectionTexts.{source_text, IsSource, source_at, sources_text, AreKeys, AreValues, keys_at, values_at, scalars_text, IsReadKey, IsRowValue, read_key_at, row_value_at};
ghost use Rattle.khepri_types.specs.RowTexts.{found_text, IsFound, spelled_found};

/// A source is read again from its text, whatever follows it, and whatever is read as a source is spelled so.
pub fn source_spelling()
    ensures again { (o : Origin) (rest : List ℕ) → IsSource o → source_at (source_text o ++ rest) ≡ Some (o, rest) }
    ensures takes { (text : List ℕ) (o : Origin) (rest : List ℕ) → source_at text ≡ Some (o, rest) → (text ≡ source_text o ++ rest) × IsSource o }
{}

/// So are the 1 to 4 sources of a key, and the at most 8 of a value.
pub fn sources_spelling()
    ensures keys_again { (os : List Origin) (rest : List ℕ) → AreKeys os → keys_at (sources_text os ++ rest) ≡ Some (os, rest) }
    ensures keys_take { (text : List ℕ) (os : List Origin) (rest : List ℕ) → keys_at text ≡ Some (os, rest) → (text ≡ sources_text os ++ rest) × AreKeys os }
    ensures values_again { (os : List Origin) (rest : List ℕ) → AreValues os → values_at (sources_text os ++ rest) ≡ Some (os, rest) }
    ensures values_take { (text : List ℕ) (os : List Origin) (rest : List ℕ) → values_at text ≡ Some (os, rest) → (text ≡ sources_text os ++ rest) × AreValues os }
{}

/// So are the 1 to 4 scalars that a read asks for, and the at most 8 that a row shows.
pub fn scalars_spelling()
    ensures key_again { (xs : List Scalar) (rest : List ℕ) → IsReadKey xs → read_key_at (scalars_text xs ++ rest) ≡ Some (xs, rest) }
    ensures key_takes { (text : List ℕ) (xs : List Scalar) (rest : List ℕ) → read_key_at text ≡ Some (xs, rest) → (text ≡ scalars_text xs ++ rest) × IsReadKey xs }
    ensures value_again { (xs : List Scalar) (rest : List ℕ) → IsRowValue xs → row_value_at (scalars_text xs ++ rest) ≡ Some (xs, rest) }
    ensures value_takes { (text : List ℕ) (xs : List Scalar) (rest : List ℕ) → row_value_at text ≡ Some (xs, rest) → (text ≡ scalars_text xs ++ rest) × IsRowValue xs }
{}

/// A projection is read again from its text, whatever follows it, and whatever is read as a projection is spelled so.
pub fn projection_spelling()
    ensures again { (J : Projection) (rest : List ℕ) → IsProjection J → projection_at (projection_text J ++ rest) ≡ Some (J, rest) }
    ensures takes { (text : List ℕ) (J : Projection) (rest : List ℕ) → projection_at text ≡ Some (J, rest) → (text ≡ projection_text J ++ rest) × IsProjection J }
{}

/// A command that registers a projection, or removes one, is read exactly where it is such a command's spelling.
pub fn table_command_spelling()
    ensures proj { (text : List ℕ) (J : Projection) → (spelled_proj text ≡ Some J) ↔ ((text ≡ proj_text J) × IsProjection J) }
    ensures unproj { (text : List ℕ) (n : NameText) → (spelled_unproj text ≡ Some n) ↔ ((text ≡ unproj_text n) × IsKey n) }
{}

/// A read of a table is read exactly where it is a read's spelling.
pub fn lookup_spelling()
    ensures { (text : List ℕ) (q : Lookup) → (spelled_lookup text ≡ Some q) ↔ ((text ≡ lookup_text q) × IsLookup q) }
{}

/// What a read shows is read exactly where it is the spelling of `none`, or of rows with their number before them.
pub fn found_spelling()
    ensures { (text : List ℕ) (x : Option (List ShownRow)) → (spelled_found text ≡ Some x) ↔ ((text ≡ found_text x) × IsFound x) }
{}
