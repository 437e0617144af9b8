//! The laws of the texts, both ways: what is spelled is read again, and what is read was spelled. And that of equality.
ghost use Rattle.std.specs.Prelude.{◌≡◌, ◌++◌, ◌↔◌, IsTrue, ℕ, List, Some};
ghost use Rattle.khepri_terms.specs.Terms.{NameText};
ghost use Rattle.khepri_terms.specs.declared.rec.Field.{Field};
ghost use Rattle.khepri_terms.specs.declared.scalar.Scalar.{Scalar};
ghost use Rattle.khepri_terms.specs.Names.{comp_text, comp_at, IsName, Stops};
ghost use Rattle.khepri_terms.specs.Paths.{path_text, path_at, IsPath, Ends};
ghost use Rattle.khepri_terms.specs.Records.{scalar_text, scalar_at, IsScalar, rec_text, rec_at, IsRec};
ghost use Rattle.khepri_terms.specs.Order.{name_eq, path_eq, scalar_eq, field_eq, rec_eq};

/// A name of either kind is read again from its text, where what follows does not go on with it, and whatever is read
/// as a name is spelled so.
pub fn name_spelling()
    ensures again { (name : NameText) (rest : List ℕ) → IsName name → Stops rest → comp_at (comp_text name ++ rest) ≡ Some (name, rest) }
    ensures takes { (text : List ℕ) (name : NameText) (rest : List ℕ) → comp_at text ≡ Some (name, rest) → (text ≡ comp_text name ++ rest) × IsName name }
{}

/// A scalar is read again from its text, where what follows does not go on with it, and whatever is read as a scalar
/// is spelled so.
pub fn scalar_spelling()
    ensures again { (value : Scalar) (rest : List ℕ) → IsScalar value → Stops rest → scalar_at (scalar_text value ++ rest) ≡ Some (value, rest) }
    ensures takes { (text : List ℕ) (value : Scalar) (rest : List ℕ) → scalar_at text ≡ Some (value, rest) → (text ≡ scalar_text value ++ rest) × IsScalar value }
{}

/// A path is read again from its text, where what follows does not go on with it, and whatever is read as a path
/// is spelled so.
pub fn path_spelling()
    ensures again { (path : List NameText) (rest : List ℕ) → IsPath path → Ends rest → path_at (path_text path ++ rest) ≡ Some (path, rest) }
    ensures takes { (text : List ℕ) (path : List NameText) (rest : List ℕ) → path_at text ≡ Some (path, rest) → (text ≡ path_text path ++ rest) × IsPath path }
{}

/// A record is read again from its text, whatever follows, and whatever is read as a record is spelled so.
pub fn rec_spelling()
    ensures again { (fields : List Field) (rest : List ℕ) → IsRec fields → rec_at (rec_text fields ++ rest) ≡ Some (fields, rest) }
    ensures takes { (text : List ℕ) (fields : List Field) (rest : List ℕ) → rec_at text ≡ Some (fields, rest) → (text ≡ rec_text fields ++ rest) × IsRec fields }
{}

/// Names, paths, scalars, fields and records are equal by `==` exactly where they are the same value.
pub fn equality()
    ensures names { (a b : NameText) → IsTrue (name_eq a b) ↔ (a ≡ b) }
    ensures paths { (a b : List NameText) → IsTrue (path_eq a b) ↔ (a ≡ b) }
    ensures scalars { (a b : Scalar) → IsTrue (scalar_eq a b) ↔ (a ≡ b) }
    ensures fields { (a b : Field) → IsTrue (field_eq a b) ↔ (a ≡ b) }
    ensures records { (a b : List Field) → IsTrue (rec_eq a b) ↔ (a ≡ b) }
{}
