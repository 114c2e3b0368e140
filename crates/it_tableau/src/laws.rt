//! Laws of tables.
ghost use Rattle.it_tableau.specs.Laws.{PivotsCombineStart, PivotsKeepInvariants, StartHasInvariants};

/// The start has the invariants of a run: each row is the sum of its entries at the artificial columns times the start's rows, and
/// the others.
pub fn start_has_invariants()
    ensures { StartHasInvariants }
{}

/// A pivot on a smallest ratio, in a column that isn't artificial, keeps these invariants.
pub fn pivots_keep_invariants()
    ensures { PivotsKeepInvariants }
{}

/// After a pivot in any row and column each row is still the sum of its entries at the artificial columns times the start's rows.
pub fn pivots_combine_start()
    ensures { PivotsCombineStart }
{}
