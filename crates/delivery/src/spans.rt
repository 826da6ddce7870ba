//! Windows on the clock of the record.
ghost use Rattle.std.specs.Prelude.{◌≡◌, ◌^◌, pos, ◌≤ℤ◌, Decides, int_le};
ghost use Rattle.exact.specs.Limits.{Within};
ghost use Rattle.recording.specs.Samples.{latest};
ghost use Rattle.figure.specs.Windows.{cut_at, placed as placed_at, on_clock};
ghost use Rattle.figure.specs.Defects.{Beyond};
ghost use Rattle.delivery.specs.Limits.{widest_shift};

use disturbance::trace::Trace;
use figure::span::Span;
use response::group::{Row, Window};

// The two windows of a service, and the widest gap between neighbouring samples in them, in ms.
#[derive(Clone, Copy)]
pub(crate) struct Spans {
    pub(crate) first: Span,
    pub(crate) second: Span,
    pub(crate) widest_gap: u32,
}

// The earlier of a time and any recovery.
fn cut(recovery: Option<u32>, time: i64) -> i64
    ensures { result ≡ cut_at recovery time }
{
    recovery.map_or(time, |end| time.min(end as i64))
}

// A window after the shift, cut at recovery.
fn placed(disturbance: u32, shift: i64, recovery: Option<u32>, window: Window) -> Span
    requires { Within widest_shift shift }
    ensures { result ≡ placed_at disturbance shift recovery window }
{
    let from = disturbance as i64 + shift;
    Span {
        start: from + window.start as i64,
        end: cut(recovery, from + window.end as i64),
        multiplier: window.multiplier,
    }
}

// The windows of a row after the shift, cut at recovery.
pub(crate) fn placed_row(disturbance: u32, shift: i64, recovery: Option<u32>, row: Row) -> Spans
    requires { Within widest_shift shift }
    ensures first { result.first ≡ placed_at disturbance shift recovery row.first }
    ensures second { result.second ≡ placed_at disturbance shift recovery row.second }
    ensures widest { result.widest_gap ≡ row.widest_gap }
{
    Spans {
        first: placed(disturbance, shift, recovery, row.first),
        second: placed(disturbance, shift, recovery, row.second),
        widest_gap: row.widest_gap,
    }
}

// Whether a window is empty.
pub(crate) fn is_empty(span: Span) -> bool
    ensures { result ≡ int_le span.end span.start }
{
    span.end <= span.start
}

// A window with both ends within the times of a record.
pub(crate) fn on_clock(span: Span) -> Window
    requires { (pos 0 ≤ℤ span.start) × ((span.start ≤ℤ pos latest)
        × ((pos 0 ≤ℤ span.end) × (span.end ≤ℤ pos latest))) }
    ensures { result ≡ on_clock span }
{
    Window {
        start: span.start as u32,
        end: span.end as u32,
        multiplier: span.multiplier,
    }
}

// Whether a window that is not empty begins before the first sample or ends after the last.
pub(crate) fn is_beyond(trace: Trace, span: Span) -> bool
    ensures { Decides result (Beyond trace.entry.samples.now span) }
{
    if is_empty(span) {
        return false;
    }
    let (Some(first), Some(last)) = (trace.samples.first(), trace.samples.last()) else {
        return true;
    };
    span.start < first.time as i64 || (last.time as i64) < span.end
}
