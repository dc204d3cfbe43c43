ghost use Rattle.std.specs.Prelude.{◌≡◌, ◌<◌};
ghost use Rattle.line_split.specs.Parts.{part_of};

use crate::command_line::CommandLine;
use byteorder::{BigEndian, ByteOrder};
use sha2::{Digest, Sha256};

/// Tells which part a request belongs to, counted from 0.
pub(crate) fn part_of(call: CommandLine<'_>, request: &str) -> u32
    requires { 0 < call.parts }
    ensures part { result ≡ part_of call.entry.parts call.entry.seed.now request.now }
    ensures within { result < call.entry.parts }
{
    let mut hasher = Sha256::new();
    hasher.update(call.seed.as_str());
    hasher.update(request);
    let digest = hasher.finalize();
    (BigEndian::read_u64(&digest) % u64::from(call.parts)) as u32
}
