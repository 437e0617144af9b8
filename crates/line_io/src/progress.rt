ghost use Rattle.std.specs.Prelude.{◌≡◌, ◌<◌, ◌≤◌, ◌+◌, ◌++◌, [], ℕ, List, Option, Result, true, false, length, take, Some};
ghost use Rattle.line_io.specs.Lines.{NoLf, lines, whole_lines};
ghost use Rattle.line_io.specs.Shown.{shown, shown_lines, given};
ghost use Rattle.line_io.specs.Reading.{Reading};
ghost use Rattle.line_io.specs.Ahead.{Call};
ghost use Rattle.line_io.specs.Progress.{Progress};
ghost use Rattle.line_io.specs.declared.next.Next.{Next};
ghost use Rattle.line_io.specs.declared.next.LineFault.{LineFault};

/// What a reader of lines has given after any number of calls. A new reader has given nothing, each call adds what it
/// gives, and at each end of the input these are exactly the lines that its bytes have.
pub fn progress_of_calls()
    ensures start { (limit budget : ℕ) (left : Option (List ℕ)) →
        Progress limit budget left left [] (record { limit = limit; unread = []; room = budget + 1; ended = false }) }
    ensures call { (limit budget : ℕ) (first left left' : Option (List ℕ)) (gave : List (Option (List ℕ)))
        (old new : Reading) (before now : ℕ) (result : Result Next LineFault) →
        Progress limit budget first left gave old →
        Call old new left left' before now result →
        Progress limit budget first left' (gave ++ given result) new }

    // No more lines than bytes, and no more bytes than the budget.
    ensures count { (limit budget : ℕ) (first left : Option (List ℕ)) (gave : List (Option (List ℕ))) (r : Reading) →
        Progress limit budget first left gave r → length gave ≤ budget }

    // At the end, all lines of the input.
    ensures end { (limit budget : ℕ) (input : List ℕ) (left : Option (List ℕ)) (gave : List (Option (List ℕ))) (r : Reading) →
        Progress limit budget (Some input) left gave r → r.ended ≡ true → 0 < r.room →
        gave ≡ shown_lines limit (lines input) }

    // At a fault of the source, those that an LF ended among the bytes taken.
    ensures fault { (limit budget : ℕ) (first left : Option (List ℕ)) (gave : List (Option (List ℕ))) (r : Reading)
        (p : Progress limit budget first left gave r) → r.ended ≡ false → 0 < r.room → NoLf r.unread →
        gave ≡ shown_lines limit (whole_lines p.taken) }

    // Past the budget, those that an LF ended among its bytes, and the input has more.
    ensures past { (limit budget : ℕ) (input : List ℕ) (left : Option (List ℕ)) (gave : List (Option (List ℕ))) (r : Reading) →
        Progress limit budget (Some input) left gave r → r.ended ≡ false → r.room ≡ 0 → NoLf r.unread →
        (gave ≡ shown_lines limit (whole_lines (take budget input))) × (budget < length input) }

    // A line is given whole, and is left out exactly where it is longer than the limit.
    ensures line { (limit : ℕ) (line text : List ℕ) →
        shown limit line ≡ Some text → (line ≡ text) × (length text ≤ limit) }
    ensures too_long { (limit : ℕ) (line : List ℕ) → shown limit line ≡ None → limit < length line }
{}
