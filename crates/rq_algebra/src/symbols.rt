//! The laws of symbols, and of equations as lists of indices.
ghost use Rattle.rq_algebra.specs.SymbolLaws.{OperationsActPlacewise, OperationsKeepSymbols, FoundInSymbols, DeterminedSquareHasSolutionInSymbols, DeterminedHasOneSolutionInSymbols, StackedIsBothInSymbols, SumIsDotOfParities, SymbolSumIsDotOfParities, SumIsSymbol};

/// Operations on symbols are, at each place of a symbol, operations on elements.
pub fn operations()
    ensures placewise { OperationsActPlacewise }
    ensures symbols { OperationsKeepSymbols }
{}

/// Operations that find the column find it in symbols.
pub fn found()
    ensures { FoundInSymbols }
{}

/// A determined system has at most one solution in symbols.
pub fn determined()
    ensures { DeterminedHasOneSolutionInSymbols }
{}

/// As many equations as unknowns that determine have a solution in symbols, whatever the values.
pub fn square()
    ensures { DeterminedSquareHasSolutionInSymbols }
{}

/// An equation as a list of indices that may repeat is the equation of the parities.
pub fn listed_indices()
    ensures elements { SumIsDotOfParities }
    ensures symbols { SymbolSumIsDotOfParities }
    ensures size { SumIsSymbol }
{}

/// A column of symbols solves two systems that stand one below the other where it solves both.
pub fn stacked()
    ensures { StackedIsBothInSymbols }
{}
