//! Laws over the definitions alone: each function does nothing, and its contract is the law.
ghost use Rattle.certificate_rows.specs.CertificateLaws.{ClaimsHaveVerdicts, RefutationsAreListed};
ghost use Rattle.certificate_rows.specs.inner.ClaimsShown.{ClaimsAreShown};
ghost use Rattle.certificate_rows.specs.inner.Wholes.{CertificateIsShown};

use session_rules::KeptTrace;
use trace_types::laws::{
    a_list_is_told_in_one_way, numbering_is_one_to_one, relations_are_symmetric,
    renamed_trace_refutes_alike,
};
use trace_types::{NameText, NamedSegment, NamedTrace, Segment, Text};

/// The relations that kept traces refute can be listed.
pub fn refutations_are_listed()
    ensures { RefutationsAreListed }
{}

/// Each claim is shown by kept traces or not.
pub fn claims_have_verdicts()
    ensures { ClaimsHaveVerdicts }
{}

/// The certificate of a book's traces by number is that of the kept traces.
pub(crate) fn certificate_is_shown()
    ensures { CertificateIsShown }
{
    numbering_is_one_to_one::<NameText>();
    numbering_is_one_to_one::<Text>();
    a_list_is_told_in_one_way::<(NameText, NameText)>();
    a_list_is_told_in_one_way::<(Text, Text)>();
    relations_are_symmetric::<NamedTrace, NamedSegment, u32, u32, u32>();
    renamed_trace_refutes_alike::<
        NamedTrace,
        NamedSegment,
        u32,
        u32,
        u32,
        KeptTrace,
        Segment,
        NameText,
        Text,
        Text,
    >();
}

/// A book shows a claim exactly where the kept traces do.
pub(crate) fn claims_are_shown()
    ensures { ClaimsAreShown }
{
    numbering_is_one_to_one::<NameText>();
    numbering_is_one_to_one::<Text>();
    relations_are_symmetric::<NamedTrace, NamedSegment, u32, u32, u32>();
    renamed_trace_refutes_alike::<
        NamedTrace,
        NamedSegment,
        u32,
        u32,
        u32,
        KeptTrace,
        Segment,
        NameText,
        Text,
        Text,
    >();
}
