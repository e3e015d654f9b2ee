//! The laws of the octets.
ghost use Rattle.rq_standard.specs.OctetLaws.{SumsAreAGroup, ProductsAreARing, HasInverses, PowersAdd};
ghost use Rattle.rq_standard.specs.SymbolRows.{SymbolsAreRows};

/// The sums of octets are a group in which each octet is its own opposite.
pub fn sums()
    ensures { SumsAreAGroup }
{}

/// Octets are a field: products are a commutative ring, and each octet but 0 has an inverse.
pub fn products()
    ensures ring { ProductsAreARing }
    ensures inverses { HasInverses }
{}

/// The powers of alpha.
pub fn powers()
    ensures { PowersAdd }
{}

/// Symbols of octets have the sums and multiples of rows of octets.
pub fn rows()
    ensures { SymbolsAreRows }
{}
