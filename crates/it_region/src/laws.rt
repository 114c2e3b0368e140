//! The theorems on obligations, each as the contract of a function.
ghost use Rattle.it_region.specs.Theorems.{ObligationsContain, PulledPointIsIn};

/// Where the obligations of a substitution hold at the points of a first region, it lies in the second.
pub fn obligations_contain()
    ensures point { PulledPointIsIn }
    ensures contain { ObligationsContain }
{}
