// The generator of the staircase codes' construction, xorshift on 64 bits, proved to draw what `specs/Draw.antt` says.
#![tactic(auto)]

ghost use Rattle.std.specs.Prelude.{◌≡◌, ◌<◌};
ghost use Rattle.xorshift.specs.Draw.{left, draw};

// The left shift that drops whatever passes bit 63.
fn shift_left(x: u64, n: u32) -> u64
    requires { n < 64 }
    ensures { result ≡ left n x }
{
    x << n
}

// One draw by value: the state after it.
pub fn draw(state: u64) -> u64
    ensures { result ≡ draw state }
{
    let a = state ^ shift_left(state, 13);
    let b = a ^ (a >> 7);
    b ^ shift_left(b, 17)
}

// The generator: its state is lent, and advanced once per pick.
#[derive(Clone, Copy, PartialEq, Eq)]
pub struct Xorshift {
    pub state: u64,
}

impl Xorshift {
    // The next draw, which is the state from then on.
    pub fn next(&mut self) -> u64
        ensures { (result ≡ draw self.old.state) × (self.new.state ≡ result) }
    {
        self.state = draw(self.state);
        self.state
    }
}
