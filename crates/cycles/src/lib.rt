// What an instruction's byte cycles do: one for a byte, two for a word, the second reading what the first wrote.
#![tactic(auto)]

ghost use Rattle.std.specs.Prelude.{◌≡◌};
ghost use Rattle.cycles.specs.Cycles.{operand_of};

use alu::Kind;

// What a cycle takes for an operand: Ra, Rb, or a byte of a number, its low byte in a low cycle.
#[derive(Clone, Copy, Debug, PartialEq, Eq)]
pub enum Operand {
    A,
    B,
    Number(u16),
}

// What an instruction's cycles do: the kind, Ra's side and Rb's side, the first carry in, and whether Ra is written.
#[derive(Clone, Copy, Debug, PartialEq, Eq)]
pub struct Plan {
    pub kind: Kind,
    pub p: Operand,
    pub q: Operand,
    pub carry: bool,
    pub stores: bool,
}

// The designators of one cycle.
#[derive(Clone, Copy, Debug, PartialEq, Eq)]
pub struct Designators {
    pub a: u8,
    pub b: u8,
}

#[tactic(auto, unfolding(crate::specs::Cycles::operand_of))]
pub fn operand_of(o: Operand, ra: u8, rb: u8, high: bool) -> u8
    ensures { result ≡ operand_of o ra rb high }
{
    match o {
        Operand::A => ra,
        Operand::B => rb,
        Operand::Number(n) if high => (n / 256) as u8,
        Operand::Number(n) => (n % 256) as u8,
    }
}
