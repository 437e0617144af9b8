//! Counts of faults. An object of the outside counts how often it failed; an answer that tells of a fault has to stand beside a count
//! that rose. The crate says what that means, and when the doubles in memory fail. It knows nothing of what the objects do.
#![tactic(auto)]

ghost use Rattle.std.specs.Prelude.{◌≡◌, ◌≤◌, ℕ};
ghost use Rattle.fault_count.specs.Faults.{Rose, counted, is_listed};

/// A count that rose since a moment rose since each earlier one, and has risen ever after. One more is a rise.
pub fn counting()
    ensures rose { (first before now later : ℕ) →
        first ≤ before → Rose before now → now ≤ later → Rose first later }
    ensures one_more { (n : ℕ) → Rose n (counted n) }
{}

/// One call or fault more. At the last value of a u64 the count stays.
pub fn one_more(count: u64) -> u64
    ensures { result ≡ counted count }
{
    count.saturating_add(1)
}

/// Whether the call of this number is one of those that are to fail.
pub fn is_to_fail(fails: &[u64], call: u64) -> bool
    ensures { result ≡ is_listed fails.now call }
{
    fails.contains(&call)
}
