//! Laws over the definitions alone: each function does nothing, and its contract is the law.
ghost use Rattle.certificate_laws.specs.PrintableLaws.{FewRelationsAreRefuted, FewTracesAreKept};
ghost use Rattle.certificate_laws.specs.PrintableLaws.{KeptTracesArePrintable};
ghost use Rattle.certificate_laws.specs.ReadingLaws.{ACertificateIsRead};
ghost use Rattle.certificate_laws.specs.SurvivingLaws.{WhatHasNoLineSurvives};
ghost use Rattle.certificate_laws.specs.VerifyingLaws.{APrintedCertificateVerifies};
ghost use Rattle.certificate_laws.specs.WhyLaws.{WhatWhyPrintsVerifies};

use trace_types::laws::names_are_totally_ordered;
use trace_types::{NameText, Text};

/// The printed certificate of printable traces is read as one claim for each refuted relation, in
/// order, and the traces show each.
pub fn a_certificate_is_read()
    ensures { ACertificateIsRead }
{}

/// A check of a printed certificate, over the traces that it was printed of, prints that each claim
/// is shown.
pub fn a_printed_certificate_verifies()
    ensures { APrintedCertificateVerifies }
{}

/// A relation that has no line in the certificate of traces survives them.
pub fn what_has_no_line_survives()
    ensures { WhatHasNoLineSurvives }
{
    names_are_totally_ordered::<NameText>();
}

/// The traces that a session keeps of an input are printable, and there are no more of them than
/// lines.
pub fn kept_traces_are_printable()
    ensures printable { KeptTracesArePrintable }
    ensures few { FewTracesAreKept }
{}

/// The traces that a session keeps of an input refute fewer than 2^32 relations: each is between
/// names or tasks that the session knows, and these are at most 512 and 64.
pub fn few_relations_are_refuted()
    ensures { FewRelationsAreRefuted }
{
    names_are_totally_ordered::<NameText>();
    names_are_totally_ordered::<Text>();
}

/// What `why` prints of an input of fewer than 2^32 lines is read as claims, and a check of them
/// over the same kept traces prints that each relation is shown.
pub fn what_why_prints_verifies()
    ensures { WhatWhyPrintsVerifies }
{
    kept_traces_are_printable();
    few_relations_are_refuted();
    a_certificate_is_read();
    a_printed_certificate_verifies();
}
