//! Trials of a base window, and every way out of one.
ghost use Rattle.std.specs.Prelude.{◌≡◌, ℕ, ◌≤◌};
ghost use Rattle.response_tests.specs.Spans.{span_of};

use recording::refusal::{Reason, Refusal};
use response::base::BaseWindow;
use response::settings::Settings;
use response::task::Task;
use response::trial::Trial;

// The length of the base window, which is refused from 10,000 on.
#[derive(Clone, Copy)]
struct Span;

impl Task for Span {
    type Answer = u32;

    ghost gives = { λ _. span_of };

    fn run(&self, settings: &Settings) -> Result<u32, Refusal> {
        let base = settings.base();
        if base.begin - base.end >= 10_000 {
            return Err(Reason::NoBaseSample.into());
        }
        Ok(base.begin - base.end)
    }
}

// The refusal of the task for a window that is too long. Written out, since a constant cannot call
// a function.
const TOO_LONG: Refusal = Refusal {
    reason: Reason::NoBaseSample,
    place: 0,
    position: 0,
};

// The window of the plain settings, in place again after each trial.
const PLAIN: BaseWindow = BaseWindow {
    begin: 20_000,
    end: 8_000,
};

// The length of the window in a trial that a refusal ends by `?`.
fn span_in_trial(settings: &mut Settings, window: BaseWindow) -> Result<u32, Refusal> {
    let trial = Trial::begin(settings, window);
    let span = Span.run(trial.settings())?;
    Ok(span)
}

#[test]
fn left_by_the_end_and_by_a_refusal(rt: HostRuntime) {
    let mut settings = Settings::plain();
    let short = BaseWindow {
        begin: 5_000,
        end: 1_000,
    };
    let long = BaseWindow {
        begin: 50_000,
        end: 1_000,
    };
    let longest_accepted = BaseWindow {
        begin: 9_999,
        end: 0,
    };
    assert_eq!(rt; span_in_trial(&mut settings, short), Ok(4_000));
    assert_eq!(rt; settings.base(), PLAIN);
    assert_eq!(rt; span_in_trial(&mut settings, long), Err(TOO_LONG));
    assert_eq!(rt; settings.base(), PLAIN);
    assert_eq!(rt; settings.in_trial(longest_accepted, &Span), Ok(9_999));
    assert_eq!(rt; settings.base(), PLAIN);
}

#[test]
fn left_early(rt: HostRuntime) {
    let mut settings = Settings::plain();
    let wide = BaseWindow {
        begin: 20_000,
        end: 10_000,
    };
    let short = BaseWindow {
        begin: 20_000,
        end: 10_001,
    };
    let least = BaseWindow { begin: 1, end: 0 };
    assert_eq!(rt; settings.first_accepted(short, least, &Span), Ok(9_999));
    assert_eq!(rt; settings.base(), PLAIN);
    assert_eq!(rt; settings.first_accepted(wide, least, &Span), Ok(1));
    assert_eq!(rt; settings.base(), PLAIN);
    assert_eq!(rt; settings.first_accepted(wide, wide, &Span), Err(TOO_LONG));
    assert_eq!(rt; settings.base(), PLAIN);
}

#[test]
fn inside_a_trial(rt: HostRuntime) {
    let mut settings = Settings::plain();
    {
        let window = BaseWindow {
            begin: 7_000,
            end: 0,
        };
        let mut trial = Trial::begin(&mut settings, window);
        assert_eq!(rt; trial.tried_inside(30, 10, &Span), Ok(20));
        assert_eq!(rt; trial.settings().base(), window);
        assert_eq!(rt;
            trial.tried_inside(30, 30, &Span),
            Err(Reason::SettingOutside.into())
        );
        assert_eq!(rt; trial.settings().base(), window);
    }
    assert_eq!(rt; settings.base(), PLAIN);
    let inner = BaseWindow { begin: 3, end: 1 };
    let outer = BaseWindow {
        begin: 300,
        end: 100,
    };
    assert_eq!(rt; settings.both_nested(inner, outer, &Span), Ok((2, 200)));
    assert_eq!(rt; settings.base(), PLAIN);
}

#[test]
fn a_window_outside_the_limits(rt: HostRuntime) {
    let mut settings = Settings::plain();
    let outside = Refusal::from(Reason::SettingOutside);
    assert_eq!(rt; settings.tried(60_001, 60_000, &Span), Err(outside));
    assert_eq!(rt; outside.number(), 17);
    assert_eq!(rt; settings.base(), PLAIN);
    assert_eq!(rt; settings.tried(60_000, 59_999, &Span), Ok(1));
    assert_eq!(rt; settings.base(), PLAIN);
}
