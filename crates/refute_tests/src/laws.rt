//! Laws over the definitions alone: each function does nothing, and its contract is the law.
ghost use Rattle.std.specs.Prelude.{◌≡◌, ◌↔◌, true};
ghost use Rattle.refute_tests.specs.Clearing.{starts_early};
ghost use Rattle.trace_types.specs.Parts.{by_number};
ghost use Rattle.trace_types.specs.Refuting.{StartsEarly};
ghost use Rattle.trace_types.specs.declared.named_segment.NamedSegment.{NamedSegment};
ghost use Rattle.trace_types.specs.declared.named_trace.NamedTrace.{NamedTrace};

/// With a trace's own grace the test tells whether one segment starts early for another.
pub fn starts_early_tells()
    ensures { (trace : NamedTrace) (t s : NamedSegment)
        → (starts_early trace.grace t s ≡ true) ↔ StartsEarly by_number trace t s }
{}
