//! Numbers that look random, the same for the same seed.

/// A generator by shifts and exclusive ors, whose state is never 0 (Marsaglia's xorshift).
#[derive(Clone, Copy)]
pub(crate) struct Random {
    state: u64,
}

impl Random {
    pub(crate) fn of(seed: u32) -> Random {
        let spread = (u64::from(seed) + 1).wrapping_mul(0x9e37_79b9_7f4a_7c15);
        Random { state: spread | 1 }
    }

    pub(crate) fn next(&mut self) -> u64 {
        let mut x = self.state;
        x ^= x << 13;
        x ^= x >> 7;
        x ^= x << 17;
        self.state = x;
        x
    }

    /// A number below the bound.
    pub(crate) fn below(&mut self, bound: u32) -> u32 {
        let high = (self.next() >> 32) as u32;
        high.checked_rem(bound).unwrap_or(0)
    }

    /// A number from `2^least` nanoseconds on, below `2^most`, spread evenly over its logarithm.
    pub(crate) fn interval(&mut self, least: u32, most: u32) -> u32 {
        let power = least.saturating_add(self.below(most.saturating_sub(least)));
        let whole = 1_u32.wrapping_shl(power);
        whole.saturating_add(self.below(whole))
    }
}
