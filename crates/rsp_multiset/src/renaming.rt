// Rows under a renaming of their values.
ghost use Rattle.std.specs.Prelude.{◌≡◌, Bool, List, Option, ℤ};
ghost use Rattle.std.specs.List.{AllByRecursion};
ghost use Rattle.rsp_multiset.specs.Rows.{row_eq, compatible as are_compatible, shares as share_a_variable, merge};
ghost use Rattle.rsp_multiset.specs.Shown.{shown_row, weight_shown, Passes, IsKnown, AreToldApart};
ghost use Rattle.rsp_multiset.specs.Weights.{weight};

use crate::Cell;

/// The law of rows whose values are renamed, each cell by itself: where known values are told apart, rows of them are compatible
/// and equal exactly where their renamed rows are, and entries hold such a row as often as the renamed ones hold its renamed row.
/// Whether rows share a variable, and what they merge to, goes over by any renaming. It does nothing: the clauses are the law.
pub fn transport<V: Cell, W: Cell>()
    ensures compatible { (known : V → Bool) (shown : V → W) (row other : List (Option V))
        → AreToldApart (Passes known) shown → IsKnown (Passes known) row → IsKnown (Passes known) other
        → are_compatible W.eq (shown_row shown row) (shown_row shown other) ≡ are_compatible V.eq row other }
    ensures shares { (shown : V → W) (row other : List (Option V))
        → share_a_variable (shown_row shown row) (shown_row shown other) ≡ share_a_variable row other }
    ensures merged { (shown : V → W) (row other : List (Option V))
        → merge (shown_row shown row) (shown_row shown other) ≡ shown_row shown (merge row other) }
    ensures equal { (known : V → Bool) (shown : V → W) (row other : List (Option V))
        → AreToldApart (Passes known) shown → IsKnown (Passes known) row → IsKnown (Passes known) other
        → row_eq W.eq (shown_row shown row) (shown_row shown other) ≡ row_eq V.eq row other }
    ensures counts { (known : V → Bool) (shown : V → W) (entries : List (List (Option V) × ℤ)) (row : List (Option V))
        → AreToldApart (Passes known) shown
        → AllByRecursion (λ (entry : List (Option V) × ℤ). IsKnown (Passes known) entry.0) entries → IsKnown (Passes known) row
        → weight_shown (row_eq W.eq) (shown_row shown) entries (shown_row shown row) ≡ weight (row_eq V.eq) entries row }
{}
