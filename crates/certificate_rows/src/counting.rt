ghost use Rattle.std.specs.Prelude.{◌≡◌, ◌<◌, ◌≤◌, All, length};
ghost use Rattle.certificate_rows.specs.inner.Numbered.{kind_count};
ghost use Rattle.certificate_rows.specs.inner.Pairs.{pairs_with, refuted_pairs};
ghost use Rattle.certificate_rows.specs.inner.Sources.{IsSource, count_of};

use crate::kind::Kind;
use crate::source::Source;

/// Counts the refuted relations of a kind between a number and others.
fn count_from(source: &Source<'_>, kind: Kind, one: u32, others: &[u32]) -> u64
    requires source { IsSource source.now }
    requires one { one < count_of source.now.book.now.known kind }
    requires others { All (λ n. n < count_of source.now.book.now.known kind) others.now }
    requires few { length others.now ≤ 512 }
    ensures counted { result ≡ length (refuted_pairs source.now.refuters.now kind
        (pairs_with one others.now)) }
    ensures few { result ≤ 512 }
{
    let mut count = 0;
    'others: for other in others {
        if source.refuter(kind, one, *other).is_some() {
            count += 1;
        }
    }
    count
}

/// Counts the refuted relations of a kind between numbers.
pub(crate) fn count_refuted(source: &Source<'_>, kind: Kind, numbers: &[u32]) -> u64
    requires source { IsSource source.now }
    requires numbers { All (λ n. n < count_of source.now.book.now.known kind) numbers.now }
    requires few { length numbers.now ≤ 512 }
    ensures counted { result ≡ kind_count source.now.refuters.now kind numbers.now }
    ensures few { result ≤ 262144 }
{
    let mut count = 0;
    'firsts: for at in 0..numbers.len() {
        count += count_from(source, kind, numbers[at], kind.seconds(numbers, at));
    }
    count
}
