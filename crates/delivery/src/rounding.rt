//! Half-up and areas in whole numbers, wide enough that nothing overflows.
ghost use Rattle.std.specs.Prelude.{◌≡◌, ℕ, ◌^◌, ◌<◌, ◌≤◌, pos, ◌+ℤ◌, ◌*ℤ◌};
ghost use Rattle.exact.specs.Fractions.{frac, whole};
ghost use Rattle.exact.specs.Limits.{Within};
ghost use Rattle.exact.specs.Lines.{straight};
ghost use Rattle.exact.specs.Rounding.{half_up};
ghost use Rattle.delivery.specs.Limits.{widest_dividend, widest_response};

// Half-up of n / d.
pub(crate) fn half_up(n: i128, d: u64) -> i128
    requires { (0 < d) × (Within widest_dividend n) }
    ensures { result ≡ half_up (frac n d) }
{
    (2 * n + d as i128).div_euclid(2 * d as i128)
}

// Half-up of the straight line from v at t to w at s, at the time u.
pub(crate) fn straight_half_up(t: u32, v: i128, s: u32, w: i128, u: u32) -> i128
    requires { (t < s) × ((t ≤ u) × ((u ≤ s) × ((Within widest_response v) × (Within widest_response w)))) }
    ensures is { result ≡ half_up (straight t (whole v) s (whole w) u) }
    ensures within { (A : ℕ) → Within A v → Within A w → Within A result }
{
    let gap = s - t;
    half_up(v * gap as i128 + (w - v) * (u - t) as i128, gap as u64)
}

// Twice the area of one trapezoid.
pub(crate) fn strip(v: i128, w: i128, gap: u32) -> i128
    requires { (Within widest_response v) × (Within widest_response w) }
    ensures { result ≡ (v +ℤ w) *ℤ pos gap }
{
    (v + w) * gap as i128
}
