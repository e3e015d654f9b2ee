//! What the definitions mean, and why the laws have their premises, in small systems over the field
//! of two elements.
ghost use Rattle.rq_algebra.specs.Examples.{TriangleIsSolved, TriangleIsDetermined, RepeatedHasHomogeneousColumn, RepeatedIsNotDetermined, RowsStack, PlacesAreExchanged, OperationsRun, PlacesAreReadThroughTheOrder, OrdersAreReplaced, SymbolsAreAdded, OneValueIsNotAdded, RepeatsCancel, TurnedIsFound, AddingNeedsTwoRows, ScalingNeedsNonzero, OneEquationIsTooFew, SquareNeedsDetermined, FoundNeedsAsManyEquations, SumNeedsIndicesAndElements};

/// Two equations that are determined, and two that are not.
pub fn equations()
    ensures solved { TriangleIsSolved }
    ensures determined { TriangleIsDetermined }
    ensures homogeneous_column { RepeatedHasHomogeneousColumn }
    ensures not_determined { RepeatedIsNotDetermined }
{}

/// Rows and places that are put together anew.
pub fn places()
    ensures stacked { RowsStack }
    ensures exchanged { PlacesAreExchanged }
{}

/// Operations and reading orders.
pub fn runs()
    ensures run { OperationsRun }
    ensures through { PlacesAreReadThroughTheOrder }
    ensures replaced { OrdersAreReplaced }
    ensures symbols { SymbolsAreAdded }
    ensures allowed { OneValueIsNotAdded }
{}

/// An equation whose indices repeat.
pub fn repeats()
    ensures { RepeatsCancel }
{}

/// Operations that find the column.
pub fn found()
    ensures { TurnedIsFound }
{}

/// What goes wrong without a premise of a law.
pub fn premises()
    ensures two_rows { AddingNeedsTwoRows }
    ensures nonzero { ScalingNeedsNonzero }
    ensures few { OneEquationIsTooFew }
    ensures determined { SquareNeedsDetermined }
    ensures square { FoundNeedsAsManyEquations }
    ensures listed { SumNeedsIndicesAndElements }
{}
