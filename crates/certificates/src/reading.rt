ghost use Rattle.std.specs.Prelude.{◌≡◌, ◌+◌, ◌≤◌, ◌<◌, ◌^◌, length, vec_len, IfErr, IfOk};
ghost use Rattle.std.specs.Prelude.{Ok, option_copied};
ghost use Rattle.certificates.specs.Certificates.{IsCertFault, certificate_said};
ghost use Rattle.certificates.specs.Certificates.{claims_of_lines};
ghost use Rattle.step_core.specs.LinesLeft.{lines_left, room_left};

use crate::claim_lines::read_claim;
use crate::headers::is_header;
use crate::{CertFault, Claim};
use std::alloc::Global;
use step_core::next_line;

/// Reads the claims of the lines that are left, of which the first has this number.
fn read_claims(alloc: Global, number: u32, rest: Option<&[u8]>) -> Result<Vec<Claim>, CertFault>
    requires { number + room_left (option_copied rest) < 2 ^ 32 }
    ensures read { IfOk result (λ claims.
        claims_of_lines (lines_left number (option_copied rest.entry)) ≡ Ok claims.items) }
    ensures bad { IfErr result
        (IsCertFault (claims_of_lines (lines_left number (option_copied rest.entry)))) }
    ensures few { IfOk result (λ claims. vec_len claims ≤ room_left (option_copied rest.entry)) }
{
    let mut claims = Vec::new(alloc);
    let mut number = number;
    let mut left = rest;
    'lines: while let Some(next) = next_line(number, left) {
        let Some(claim) = read_claim(alloc, next.number, next.line)? else {
            return Err(CertFault::Bad { line: next.number });
        };
        claims.push(claim)?;
        number = next.number + 1;
        left = next.rest;
    }
    Ok(claims)
}

/// Reads a certificate of at most 67,108,864 bytes. The first line that is not blank has the fields
/// of the header, `why`, `traces=N` and `refuted=N`, with a tab between two; each other one makes a
/// claim, and these are given in order. A certificate whose lines are all blank makes none.
///
/// The errors are `Memory`, and `Bad` with the number of the first line outside the form.
pub fn read_certificate(alloc: Global, bytes: &[u8]) -> Result<Vec<Claim>, CertFault>
    requires { length bytes.now ≤ 67108864 }
    ensures read { IfOk result (λ claims. certificate_said bytes.now ≡ Ok claims.items) }
    ensures first_bad { IfErr result (IsCertFault (certificate_said bytes.now)) }
    ensures few { IfOk result (λ claims. length claims.items ≤ length bytes.now) }
{
    let Some(first) = next_line(1, Some(bytes)) else {
        return Ok(Vec::new(alloc));
    };
    if !is_header(alloc, first.line)? {
        return Err(CertFault::Bad { line: first.number });
    }
    read_claims(alloc, first.number + 1, first.rest)
}
