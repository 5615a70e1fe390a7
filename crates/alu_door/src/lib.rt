// The byte adder's door for tests in other languages.
#![tactic(auto)]

ghost use Rattle.std.specs.Prelude.{◌≡◌};
ghost use Rattle.alu.specs.Cycle.{add_of, subtract_of};

use alu::Cycle;

#[unsafe(no_mangle)]
pub extern "C" fn alu_add(p: u8, q: u8, carry: bool) -> Cycle
    ensures { result ≡ add_of p q carry }
{
    alu::add(p, q, carry)
}

#[unsafe(no_mangle)]
pub extern "C" fn alu_subtract(p: u8, q: u8, carry: bool) -> Cycle
    ensures { result ≡ subtract_of p q carry }
{
    alu::subtract(p, q, carry)
}
