//! The laws of recorded operations.
ghost use Rattle.rq_algebra.specs.OperationLaws.{NothingFollows, AddAssignExtends, FmaExtends, MulAssignExtends, HomogeneousColumnGoesBack, FoundIsDetermined, OperationsKeepZeros};

/// An operation that does to the values what was done to the rows keeps what the rows say of a
/// column.
pub fn following()
    ensures nothing { NothingFollows }
    ensures add_assign { AddAssignExtends }
    ensures fma { FmaExtends }
    ensures mul_assign { MulAssignExtends }
    ensures back { HomogeneousColumnGoesBack }
{}

/// Where operations find the column of a system, it is determined.
pub fn found()
    ensures { FoundIsDetermined }
{}

/// Operations make zeros of zeros.
pub fn zeros()
    ensures { OperationsKeepZeros }
{}
