// 01's causes of refusal, and the number of each.
#![tactic(auto)]

ghost use Rattle.std.specs.Prelude.{◌≡◌};
ghost use Rattle.refusals.specs.Refusals.{number_of};

#[derive(Clone, Copy, PartialEq, Eq)]
pub enum Refusal {
    StateRange,
    WordRange,
    RowRange,
    SampleRange,
    NoWord,
    Unlisted,
    NotAnOption,
    NoDeck,
    Mnemonic,
    Operand,
    Address,
    Memory,
    NoReply,
    NoMarking,
}

impl Refusal {
    pub fn number(self) -> u8
        ensures { result ≡ number_of self }
    {
        match self {
            Refusal::StateRange => 1,
            Refusal::WordRange => 2,
            Refusal::RowRange => 3,
            Refusal::SampleRange => 4,
            Refusal::NoWord => 5,
            Refusal::Unlisted => 6,
            Refusal::NotAnOption => 8,
            Refusal::NoDeck => 9,
            Refusal::Mnemonic => 10,
            Refusal::Operand => 11,
            Refusal::Address => 12,
            Refusal::Memory => 16,
            Refusal::NoReply => 17,
            Refusal::NoMarking => 24,
        }
    }
}
