//! Theorems about the definitions, each as the contract of a function.
ghost use Rattle.it_polymatroid.specs.Certificates.{CertificatesProve};
ghost use Rattle.it_polymatroid.specs.Elementals.{ElementalsGenerate};

/// The elemental inequalities generate the axioms of polymatroids over all pairs of sets (Yeung 1997).
pub fn elementals_generate()
    ensures { ElementalsGenerate }
{}

/// A target with a certificate over linear generators is at least 0 wherever the generators are met (Farkas 1902).
pub fn certificates_prove()
    ensures { CertificatesProve }
{}
