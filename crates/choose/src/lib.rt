// Choices by ranges of a number, and tests over many numbers at once: definitions and laws. The code is a bool as a number.
#![tactic(auto)]

ghost use Rattle.std.specs.Prelude.{◌≡◌, ◌≤◌};
ghost use Rattle.choose.specs.Ranged.{bit};

pub fn bit_of(b: bool) -> u8
    ensures { (result ≡ bit b) × (result ≤ 1) }
{
    u8::from(b)
}
