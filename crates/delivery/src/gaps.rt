//! Gaps between neighbouring samples.
ghost use Rattle.std.specs.Prelude.{◌-◌, ◌<◌, ◌⊎◌, Decides};
ghost use Rattle.figure.specs.Defects.{Shares, Gapped};

use crate::spans::Spans;
use figure::span::Span;
use recording::sample::Sample;

// Whether two samples share more than an instant with a window.
fn shares(a: Sample, b: Sample, span: Span) -> bool
    ensures { Decides result (Shares a b span) }
{
    (a.time as i64).max(span.start) < (b.time as i64).min(span.end)
}

// Whether two samples are further apart than the widest gap.
fn is_wide(a: Sample, b: Sample, widest: u32) -> bool
    ensures { Decides result (widest < b.time - a.time) }
{
    widest < b.time.saturating_sub(a.time)
}

// Whether two samples are further apart than the widest gap and share more than an instant with one
// of two windows.
fn is_gap(a: Sample, b: Sample, spans: Spans) -> bool
    ensures { Decides result ((spans.widest_gap < b.time - a.time) × (Shares a b spans.first ⊎ Shares a b spans.second)) }
{
    is_wide(a, b, spans.widest_gap) && (shares(a, b, spans.first) || shares(a, b, spans.second))
}

// Whether neighbouring samples in one of two windows are further apart than the widest gap. One
// pass over the samples.
pub(crate) fn is_gapped(samples: &[Sample], spans: Spans) -> bool
    ensures { Decides result (Gapped samples.now spans.widest_gap spans.first
        ⊎ Gapped samples.now spans.widest_gap spans.second) }
{
    samples
        .windows(2)
        .any(|pair| is_gap(pair[0], pair[1], spans))
}
