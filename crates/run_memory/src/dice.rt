// Numbers that look random.

/// Numbers that look random: those of a seed are the same each time.
#[derive(Drop)]
pub struct Dice {
    state: u64,
}

impl Dice {
    /// The numbers of a seed.
    pub fn new(seed: u64) -> Dice {
        Dice { state: seed }
    }

    /// A number from 0 up to one less than the end.
    pub fn below(&mut self, end: u64) -> u64 {
        let next = self.state.wrapping_mul(6364136223846793005);
        self.state = next.wrapping_add(1442695040888963407);
        (self.state / 4294967296).checked_rem(end).unwrap_or(0)
    }

    /// One of some letters.
    pub fn letter(&mut self, letters: &[u8]) -> u8 {
        let place = self.below(letters.len() as u64);
        letters.get(place as usize).copied().unwrap_or(b'0')
    }
}
