// The fragments in the words of the scope document, how a rule lays them out, and the answer of a call, for contracts and proofs.
#![tactic(auto)]

ghost use Rattle.std.specs.Prelude.{◌≡◌};
ghost use Rattle.layouts.specs.Numbers.{refusal_number};

// Why nothing was written.
#[derive(Clone, Copy, Debug, PartialEq, Eq)]
pub enum Refusal {
    // Lent columns differ in length.
    Sizes,
    // The base's start is above its stop.
    Backwards,
    // A record has its start above its stop, does not overlap the base, or starts before the one ahead.
    Records,
    // More fragments or pieces than lent slots.
    Room,
}

impl Refusal {
    // The refusal's number in the scope document.
    pub fn number(self) -> u64
        ensures { result ≡ refusal_number self }
    {
        match self {
            Refusal::Sizes => 1,
            Refusal::Backwards => 6,
            Refusal::Records => 13,
            Refusal::Room => 14,
        }
    }
}

// How many fragments and how many pieces were written. An answer is these counts or a refusal.
#[derive(Clone, Copy, Debug, PartialEq, Eq)]
pub struct Written {
    pub fragments: usize,
    pub pieces: usize,
}
