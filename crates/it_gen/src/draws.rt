//! Drawn numbers.
ghost use Rattle.std.specs.Prelude.{◌≡◌, ◌<◌};
ghost use Rattle.it_gen.specs.Draws.{draw, next_state};

/// Numbers that are drawn one after the other: the state between two draws.
#[derive(Debug, Drop)]
pub struct Draws {
    pub state: u32,
}

impl Draws {
    /// Draws the next number, which is less than `below`.
    pub fn draw(&mut self, below: u32) -> u32
        requires some { 0 < below }
        ensures drawn { result ≡ draw 1 below self.old.state }
        ensures within { result < below }
        ensures state { self.new.state ≡ next_state self.old.state }
    {
        self.state = next_state(self.state);
        self.state / 65536 % below
    }
}

/// The state after one draw.
#[tactic(auto, unfolding(crate::specs::Draws::next_state))]
fn next_state(state: u32) -> u32
    ensures { result ≡ next_state state }
{
    ((1_103_515_245 * state as u64 + 12345) % (1 << 31)) as u32
}
