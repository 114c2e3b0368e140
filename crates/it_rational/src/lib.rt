//! The rational numbers in lowest terms, and their laws.
#![tactic(auto)]

ghost use Rattle.it_rational.specs.Laws.{InversesCancel, NegationsCancel, OneIsNeutral, OrderIsTotal, ProductsAssociate, ProductsCommute, ProductsDistribute, SumsAssociate, SumsCommute, ZeroIsNeutral};

/// The rational numbers are a commutative ring.
pub fn ring_laws()
    ensures sums_associate { SumsAssociate }
    ensures sums_commute { SumsCommute }
    ensures zero { ZeroIsNeutral }
    ensures negations { NegationsCancel }
    ensures products_associate { ProductsAssociate }
    ensures products_commute { ProductsCommute }
    ensures one { OneIsNeutral }
    ensures distribute { ProductsDistribute }
{}

/// Each rational number but 0 has an inverse.
pub fn inverses()
    ensures { InversesCancel }
{}

/// The order of the rational numbers is total, and ties are equal.
pub fn total_order()
    ensures { OrderIsTotal }
{}
