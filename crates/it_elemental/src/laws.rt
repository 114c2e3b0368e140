//! Theorems about the list, each as the contract of a function.
ghost use Rattle.it_elemental.specs.Indexes.{IndexesAreTold, InequalitiesAreListedOnce};

/// The formula gives the one number that an elemental inequality has in the list.
pub fn indexes_are_told()
    ensures { IndexesAreTold }
{}

/// No elemental inequality is in the list twice.
pub fn inequalities_are_listed_once()
    ensures { InequalitiesAreListedOnce }
{}
