//! A digest of numbers and bytes.

/// What was added so far, in the order in which it was added.
#[derive(Clone, Copy)]
pub(crate) struct Digest {
    state: u64,
}

impl Digest {
    pub(crate) fn new() -> Digest {
        Digest {
            state: 0xcbf2_9ce4_8422_2325,
        }
    }

    /// Adds a number.
    pub(crate) fn add(&mut self, number: u64) {
        let mixed = (self.state ^ number).wrapping_mul(0x0000_0100_0000_01b3);
        self.state = mixed ^ (mixed >> 29);
    }

    /// Adds the low and the high half of a number.
    pub(crate) fn add_wide(&mut self, number: u128) {
        self.add((number & u128::from(u64::MAX)) as u64);
        self.add((number >> 64) as u64);
    }

    /// Adds bytes.
    pub(crate) fn add_bytes(&mut self, bytes: &[u8]) {
        for byte in bytes {
            self.add(u64::from(*byte));
        }
    }

    pub(crate) fn number(&self) -> u64 {
        self.state
    }
}
