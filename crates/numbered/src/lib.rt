// The four codes: an enum, each case with its number, and its sizes. A caller's number becomes a case, and any above 3 is refused.
#![tactic(auto)]

ghost use Rattle.std.specs.Prelude.{◌≡◌, ◌<◌};
ghost use Rattle.numbered.specs.Codes.{size_n, size_k};
ghost use Rattle.numbered.specs.Numbers.{code_number, numbers, found_by};

use refusal::Refusal;

// "Code 0 to 2 as above, 3 is (174,91)."
#[derive(Clone, Copy, Debug, PartialEq, Eq)]
pub enum Code {
    N512R12 = 0,
    N576R23 = 1,
    N512R34 = 2,
    Ft8 = 3,
}

impl Code {
    // The code with that number, for a caller that has tested it.
    pub fn of_number(number: u32) -> Code
        requires { number < 4 }
        ensures { code_number result ≡ number }
    {
        match number {
            0 => Code::N512R12,
            1 => Code::N576R23,
            2 => Code::N512R34,
            _ => Code::Ft8,
        }
    }

    // The bits of a word, which are the values of a frame.
    #[tactic(auto, unfolding(crate::specs::Codes::size_n))]
    pub fn n(self) -> usize
        ensures { result ≡ size_n (code_number self) }
    {
        match self {
            Code::N512R12 | Code::N512R34 => 512,
            Code::N576R23 => 576,
            Code::Ft8 => 174,
        }
    }

    // The message bits of a word.
    #[tactic(auto, unfolding(crate::specs::Codes::size_k))]
    pub fn k(self) -> usize
        ensures { result ≡ size_k (code_number self) }
    {
        match self {
            Code::N512R12 => 256,
            Code::N576R23 | Code::N512R34 => 384,
            Code::Ft8 => 91,
        }
    }
}

// The code with a number from outside.
impl TryFrom<u32> for Code {
    type Error = Refusal;

    ghost try_from_gives = { found_by };

    fn try_from(number: u32) -> Result<Code, Refusal> {
        match number {
            0..=3 => Ok(Code::of_number(number)),
            _ => Err(Refusal::UnknownCode),
        }
    }
}

// The code's number.
impl From<Code> for u32 {
    ghost from_gives = { numbers };

    fn from(code: Code) -> u32 {
        code as u32
    }
}
