ghost use Rattle.std.specs.Prelude.{◌≢◌, ◌<◌, ◌++◌, ◌∷◌, [], List, ℕ, All, MatchOption};
ghost use Rattle.std.specs.List.{Contains};
ghost use Rattle.pipeline_tests.specs.declared.stays.Stay.{Stay};
ghost use Rattle.pipeline_tests.specs.inner.Meetings.{AreMeetings, IsSharing, IsStayOf, Meeting};
ghost use Rattle.pipeline_tests.specs.inner.Stays.{ElementsDiffer, StaysRise};

use crate::stays::Stay;
use refute_tests::starts_early;

/// What two tasks refute by the elements that both handle.
#[derive(Clone, Copy)]
pub(crate) struct Sharing {
    /// Both handle some element.
    pub shared: bool,
    /// They start on two elements in different orders.
    pub turned: bool,
    /// The higher task takes an element before the lower is done with it, by more than the grace.
    pub upward: bool,
    /// The lower task takes an element before the higher is done with it, by more than the grace.
    pub downward: bool,
    /// The greatest index at which the higher task starts on an element so far, or 0.
    latest: usize,
}

impl Sharing {
    /// Begins with no element.
    fn none() -> Sharing
        ensures { (grace : ℕ) → IsSharing grace [] result }
    {
        Sharing {
            shared: false,
            turned: false,
            upward: false,
            downward: false,
            latest: 0,
        }
    }

    /// Adds an element, on which the lower task starts after those before.
    fn add(&mut self, low: &Stay, high: &Stay, grace: u64)
        ensures { (met : List Meeting) → IsSharing grace met self.old
            → ((m : Meeting) → Contains met m → m.low.begin < low.now.begin)
            → IsSharing grace (met ++ record { low = low.now; high = high.now } ∷ []) self.new }
    {
        self.shared = true;
        self.turned |= high.begin < self.latest;
        self.upward |= starts_early(&low.last, &high.first, grace);
        self.downward |= starts_early(&high.last, &low.first, grace);
        self.latest = self.latest.max(high.begin);
    }
}

/// Finds the stay of an element, and looks at this index first.
fn find_stay(stays: &[Stay], element: u32, first: usize) -> Option<usize>
    ensures { MatchOption result (All (λ (s : Stay). s.element ≢ element) stays.now)
        (λ k. IsStayOf stays.now element k) }
{
    if first < stays.len() && stays[first].element == element {
        return Some(first);
    }
    stays.iter().position(|stay| stay.element == element)
}

/// Compares how two tasks handle the elements of both. Most often both start on them in the same
/// order, so the stay behind the one found last is looked at first.
pub(crate) fn compare(low: &[Stay], high: &[Stay], grace: u64) -> Sharing
    requires rise { StaysRise low.now }
    requires differ { ElementsDiffer high.now }
    ensures { (met : List Meeting) × AreMeetings low.now high.now met × IsSharing grace met result }
{
    let mut sharing = Sharing::none();
    let mut next = 0;
    for stay in low {
        if let Some(at) = find_stay(high, stay.element, next) {
            sharing.add(stay, &high[at], grace);
            next = at + 1;
        }
    }
    sharing
}
