// The lists' generator of numbers.
ghost use Rattle.std.specs.Prelude.{◌≡◌, ◌/◌, ◌^◌};
ghost use Rattle.vector_parts.specs.Draws.{next_state};

#[derive(Drop)]
pub struct Draws {
    pub x: u64,
}

impl Draws {
    pub fn new(seed: u64) -> Draws
        ensures { result.x ≡ seed }
    {
        Draws { x: seed }
    }

    // The next number: the state behind this one, without its 16 lowest bits.
    pub fn draw(&mut self) -> u64
        ensures { (self.new.x ≡ next_state self.old.x) × (result ≡ self.new.x / 2 ^ 16) }
    {
        self.x = self.x.wrapping_mul(1103515245).wrapping_add(12345) % (1 << 31);
        self.x / 65536
    }
}
