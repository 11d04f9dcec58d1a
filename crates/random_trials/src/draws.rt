// Numbers drawn one after the other: the same from the same seed.
#[derive(Drop)]
pub struct Draws {
    state: u64,
}

impl Draws {
    pub fn new(seed: u64) -> Draws {
        Draws { state: seed }
    }

    // A linear congruential generator with the usual constants for 64 bits; its low bits are poor, so the high ones are given.
    fn draw(&mut self) -> u64 {
        self.state = self
            .state
            .wrapping_mul(6364136223846793005)
            .wrapping_add(1442695040888963407);
        self.state >> 33
    }

    // A number below n; 0 where there is none.
    pub fn below(&mut self, n: u64) -> u64 {
        if n == 0 {
            return 0;
        }
        self.draw() % n
    }

    // A number from one on, and at most another.
    pub fn between(&mut self, least: u64, most: u64) -> u64 {
        let width = most.saturating_sub(least).saturating_add(1);
        least.saturating_add(self.below(width))
    }

    // One of the choices, if there are any.
    pub fn one_of<T: Copy>(&mut self, choices: &[T]) -> Option<T> {
        let k = self.below(choices.len() as u64) as usize;
        choices.get(k).copied()
    }

    pub fn byte(&mut self) -> u8 {
        (self.draw() % 256) as u8
    }
}
