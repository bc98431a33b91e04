//! Laws of what there is. Each function here does nothing: its contract is the law.
ghost use Rattle.dcv_quotient.specs.Laws.{SomeCanonicalTable, SomeVerdict, SomeCertificate};

/// Each table automaton has a canonical one, for the behaviours that it accepts.
pub fn some_canonical_table()
    ensures { SomeCanonicalTable }
{}

/// Each set with a canonical table has a verdict.
pub fn some_verdict()
    ensures { SomeVerdict }
{}

/// Each canonical table has a certificate: suffixes that tell its access words apart.
pub fn some_certificate()
    ensures { SomeCertificate }
{}
