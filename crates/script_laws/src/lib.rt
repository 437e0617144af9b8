//! Laws of scripts: what the typing says of the meaning, and that a script has one spelling. Their definitions stand in the crate of
//! the types; no code runs here.
#![tactic(auto)]

ghost use Rattle.std.specs.Prelude.{◌≡◌, ℕ, List, ◌++◌, true, Some};
ghost use Rattle.khepri_types.specs.declared.register.Registers.{Registers};
ghost use Rattle.khepri_types.specs.declared.script.Expr.{Expr, out-Expr};
ghost use Rattle.khepri_types.specs.declared.script.Statement.{Statement, out-Statement};
ghost use Rattle.khepri_types.specs.declared.value.ValueType.{ValueType};
ghost use Rattle.khepri_types.specs.Expressions.{value_of};
ghost use Rattle.khepri_types.specs.ReadingScripts.{script_at};
ghost use Rattle.khepri_types.specs.ScriptTexts.{script_text, IsScript};
ghost use Rattle.khepri_types.specs.Tree.{Tree};
ghost use Rattle.khepri_types.specs.Typing.{type_of, typed};
ghost use Rattle.khepri_types.specs.ValueTypes.{Suits, IsGiven, IsGivenTo};

/// What an expression comes to is of the type that the typing gives it.
pub fn values_have_their_types()
    ensures { (e : Expr) (R : Registers) (T : Tree) → Suits (type_of e) (value_of e R T) }
{}

/// Where a script is well typed, each form is given values of the types that it takes, and its parts are well typed again. So no
/// form of a well-typed script ever meets the value that stands in for one of another type.
pub fn forms_are_given_their_types()
    ensures expression { (e : Expr) (s : ValueType) (R : Registers) (T : Tree) → type_of e ≡ Some s → IsGiven R T (out-Expr e) }
    ensures statement { (s : Statement) (R : Registers) (T : Tree) → typed s ≡ true → IsGivenTo R T (out-Statement s) }
{}

/// A script is read again from its text, whatever follows it, and whatever is read as a script is spelled so.
pub fn script_spelling()
    ensures again { (s : List Statement) (rest : List ℕ) → IsScript s → script_at (script_text s ++ rest) ≡ Some (s, rest) }
    ensures takes { (text : List ℕ) (s : List Statement) (rest : List ℕ) → script_at text ≡ Some (s, rest) → (text ≡ script_text s ++ rest) × IsScript s }
{}
