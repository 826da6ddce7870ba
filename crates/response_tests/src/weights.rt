//! Weights of both response rules.
ghost use Rattle.response.specs.Limits.{IsOffset};
ghost use Rattle.std.specs.Prelude.{pos, negsuc, ◌≤ℤ◌};

use response::rule::ResponseRule;
use response::settings::Settings;
use response::setup::{Rate, Trigger};
use response::switching::Switching;
use response::variable::Variable;
use response::weighing::{Dip, Offset};
use std::test::Fail;

fn plain() -> Variable {
    let response = Settings::plain().response;
    Variable {
        response,
        rate: response.rate,
    }
}

// The rule's weight at a dip in mHz and an offset in ms, as n and d, since a `Weight` cannot be
// compared.
fn weighed<R: ResponseRule>(rule: &R, mhz: i32, ms: u32) -> (u32, u32)
    requires low { negsuc 2999 ≤ℤ mhz }
    requires high { mhz ≤ℤ pos 3000 }
    requires within { IsOffset ms }
{
    let weight = rule.weight(Dip { mhz }, Offset { ms });
    (weight.n, weight.d)
}

#[test]
fn around_the_dead_band(rt: HostRuntime) {
    let rule = plain();
    assert_eq!(rt; weighed(&rule, 150, 2_000), (1, 1));
    assert_eq!(rt; weighed(&rule, 151, 2_000), (3_000, 1_000));
    assert_eq!(rt; weighed(&rule, 0, 2_000), (1, 1));
    assert_eq!(rt; weighed(&rule, -1, 2_000), (1, 1));
    assert_eq!(rt; weighed(&rule, -3_000, 1_200_000), (1, 1));
}

#[test]
fn between_one_and_three(rt: HostRuntime) {
    let rule = plain();
    assert_eq!(rt; weighed(&rule, 200, 2_000), (150_000, 50_000));
    assert_eq!(rt; weighed(&rule, 233, 2_000), (249_000, 83_000));
    assert_eq!(rt; weighed(&rule, 234, 2_000), (250_000, 84_000));
    assert_eq!(rt; weighed(&rule, 300, 2_000), (250_000, 150_000));
    assert_eq!(rt; weighed(&rule, 400, 2_000), (250_000, 250_000));
    assert_eq!(rt; weighed(&rule, 401, 2_000), (251_000, 251_000));
    assert_eq!(rt; weighed(&rule, 450, 2_000), (300_000, 300_000));
    assert_eq!(rt; weighed(&rule, 3_000, 2_000), (2_850_000, 2_850_000));
}

#[test]
fn where_the_ramp_meets_the_reference(rt: HostRuntime) {
    let rule = plain();
    assert_eq!(rt; weighed(&rule, 300, 0), (150_000, 150_000));
    assert_eq!(rt; weighed(&rule, 300, 2_799), (349_875, 150_000));
    assert_eq!(rt; weighed(&rule, 300, 2_800), (350_000, 150_000));
    assert_eq!(rt; weighed(&rule, 300, 2_801), (350_000, 150_000));
    assert_eq!(rt; weighed(&rule, 500, 2_800), (350_000, 350_000));
    assert_eq!(rt; weighed(&rule, 499, 2_800), (350_000, 349_000));
    assert_eq!(rt; weighed(&rule, 300, 1_200_000), (350_000, 150_000));
}

#[test]
fn another_rate(rt: HostRuntime) -> Result<(), Fail> {
    let rate = Rate::new(10_000)?;
    let rule = Variable { rate, ..plain() };
    assert_eq!(rt; weighed(&rule, 300, 10), (150_000, 150_000));
    assert_eq!(rt; weighed(&rule, 300, 20), (200_000, 150_000));
    assert_eq!(rt; weighed(&rule, 300, 35), (350_000, 150_000));
    assert_eq!(rt; weighed(&rule, 300, 1_200_000), (350_000, 150_000));
    assert_eq!(rt; rule.trigger(), None);
    Ok(())
}

#[test]
fn switching(rt: HostRuntime) {
    let rule = Switching {
        response: Settings::plain().response,
    };
    assert_eq!(rt; rule.trigger(), Some(Trigger { dip: 200 }));
    assert_eq!(rt; weighed(&rule, 200, 2_000), (1, 1));
    assert_eq!(rt; weighed(&rule, 3_000, 0), (1, 1));
    assert_eq!(rt; weighed(&rule, -1, 5), (1, 1));
}
