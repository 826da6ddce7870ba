//! What a response rule is asked, and what it answers, all within limits.
ghost use Rattle.std.specs.Prelude.{ℕ, ◌*◌, ◌≤◌, pos, negsuc, ◌≤ℤ◌};
ghost use Rattle.response.specs.Limits.{Within, IsOffset};

/// How far the frequency is from nominal on the side of the disturbance.
#[derive(Clone, Copy)]
pub struct Dip {
    /// In mHz, from -3,000 to 3,000.
    pub mhz: i32,
    ghost low: { negsuc 2999 ≤ℤ mhz },
    ghost high: { mhz ≤ℤ pos 3000 },
}

/// The time since the disturbance time.
#[derive(Clone, Copy)]
pub struct Offset {
    /// In ms, from 0 to 1,200,000.
    pub ms: u32,
    ghost within: { IsOffset ms },
}

/// What a response is multiplied by: the fraction `n` over `d`, from 1 to 3.
#[derive(Clone, Copy)]
pub struct Weight {
    /// From `d` to 3 times `d`.
    pub n: u32,
    /// From 1 to 3,000,000.
    pub d: u32,
    ghost bottom: { Within 1 3000000 d },
    ghost top: { Within d (3 * d) n },
}
