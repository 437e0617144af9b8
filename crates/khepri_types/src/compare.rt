// How numbers and fields are compared.
ghost use Rattle.std.specs.Prelude.{◌≡◌};
ghost use Rattle.khepri_types.specs.Compares.{compares};

use std::cmp::Ordering;

/// A comparison that a condition asks for.
#[derive(Clone, Copy, PartialEq, Eq)]
pub enum Compare {
    Eq,
    Ne,
    Lt,
    Le,
    Gt,
    Ge,
}

impl Compare {
    /// Whether two values that are ordered so compare so.
    pub fn holds(self, order: Ordering) -> bool
        ensures { result ≡ compares self order }
    {
        match self {
            Compare::Eq => order.is_eq(),
            Compare::Ne => order.is_ne(),
            Compare::Lt => order.is_lt(),
            Compare::Le => order.is_le(),
            Compare::Gt => order.is_gt(),
            Compare::Ge => order.is_ge(),
        }
    }
}
