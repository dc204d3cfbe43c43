use crate::Reason;
use certificates::ClaimList;
use digest_text::DigestTable;

/// What the bytes of a preface say.
#[derive(Debug, Drop)]
pub(crate) enum Preface {
    /// They are the texts of the digests that are given, with these tables, or they make these
    /// claims.
    Said {
        tables: Vec<DigestTable>,
        claims: ClaimList,
    },
    /// The line with this number is the first one outside the form.
    Bad {
        line: u32,
        why: Reason,
    },
}
