//! `Solved`: what was found, or a column that shows what the equations leave open (RFC 6330, section 5.4.2).
ghost use Rattle.std.specs.Prelude.{◌≡◌};

/// What equations give: what finds the intermediate symbols, or else what shows that they don't
/// determine them.
#[derive(Drop)]
pub enum Solved<Found> {
    /// What finds the intermediate symbols from the values of the equations.
    Determined(Found),
    /// The equations don't determine the intermediate symbols. The column has an octet for each of
    /// these, not all of them zero, and solves the equations with zeros as values. It is `None` where
    /// there was no memory for it.
    Undetermined(Option<Vec<u8>>),
}

impl<Found> Solved<Found> {
    ghost use Rattle.rq_solver.specs.Solved.{found_of};

    /// What finds the intermediate symbols, where the equations determine them.
    pub fn determined(self) -> Option<Found>
        ensures { result ≡ found_of self }
    {
        match self {
            Solved::Determined(found) => Some(found),
            Solved::Undetermined(_) => None,
        }
    }
}
