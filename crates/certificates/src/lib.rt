//! Certificates: the printed counterexamples of relations, read again line by line as the claims
//! that they make.
#![tactic(auto)]

mod cert_fault;
mod claim;
mod claim_lines;
mod claim_list;
mod fields;
mod headers;
mod matter;
mod reading;
mod texts;
mod trace_place;

pub use cert_fault::CertFault;
pub use claim::Claim;
pub use claim_list::ClaimList;
pub use matter::Matter;
pub use reading::read_certificate;
