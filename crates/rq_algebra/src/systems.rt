//! The laws of linear systems.
ghost use Rattle.rq_algebra.specs.SystemLaws.{SumIsLinear, DotIsLinearInRow, DotIsLinearInColumn, ProductActsInTurn, AddingKeepsSolutions, ScalingKeepsSolutions, RowOrderKeepsSolutions, ColumnOrderKeepsSolutions, ExchangeIsAnOrder, DeterminedStays, DeterminedByIds, NewSolvesOld, DeterminedHasOneSolution, HomogeneousColumnRefutesDetermined, StackedIsBoth, FewEquationsHaveHomogeneousColumn, FewOnColumnsHaveHomogeneousColumn, DeterminedSquareHasSolution};

/// Over any field: sums are linear; a row's product with a column is linear in the row and in the
/// column; and a product of matrices acts on a column as one does after the other.
pub fn linear()
    ensures sum { SumIsLinear }
    ensures in_row { DotIsLinearInRow }
    ensures in_column { DotIsLinearInColumn }
    ensures product { ProductActsInTurn }
{}

/// Elementary operations keep the solutions.
pub fn elementary_operations()
    ensures adding { AddingKeepsSolutions }
    ensures scaling { ScalingKeepsSolutions }
    ensures row_order { RowOrderKeepsSolutions }
    ensures column_order { ColumnOrderKeepsSolutions }
    ensures exchange { ExchangeIsAnOrder }
{}

/// A determined system stays determined when equations are added, repeated or reordered, and has at
/// most one solution.
pub fn determined()
    ensures stays { DeterminedStays }
    ensures by_ids { DeterminedByIds }
    ensures solves_old { NewSolvesOld }
    ensures one_solution { DeterminedHasOneSolution }
    ensures refuted { HomogeneousColumnRefutesDetermined }
{}

/// Fewer equations than unknowns never determine.
pub fn few_equations()
    ensures of_all { FewEquationsHaveHomogeneousColumn }
    ensures on_columns { FewOnColumnsHaveHomogeneousColumn }
{}

/// As many equations as unknowns that determine have a solution, whatever the values.
pub fn square()
    ensures { DeterminedSquareHasSolution }
{}

/// A column solves two systems that stand one below the other where it solves both.
pub fn stacked()
    ensures { StackedIsBoth }
{}
