// What the cycles of each register code do: 80-DF of manual 5.3.2, as 01 reads it.
#![tactic(auto)]

ghost use Rattle.std.specs.Prelude.{◌≡◌};
ghost use Rattle.plan.specs.Plan.{plan_with, plan_of, condition_met};

use alu::{Flags, Kind};
use cycles::{Operand, Plan};

// Shorter than a struct literal on each line of the table.
fn plan_with(kind: Kind, p: Operand, q: Operand, carry: bool, stores: bool) -> Plan
    ensures { result ≡ plan_with kind p q carry stores }
{
    Plan {
        kind,
        p,
        q,
        carry,
        stores,
    }
}

// Four codes for each, its byte and word forms. A plan is data, and no closure: definitions and laws read its parts, and the compiler makes a jump of the line and what its cycle does.
#[tactic(auto, unfolding(crate::specs::Plan::plan_of, choose::specs::Ranged::ranged))]
pub fn plan(code: u8, f: Flags) -> Plan
    ensures { result ≡ plan_of code f }
{
    match code / 4 {
        0x00..=0x21 => plan_with(Kind::Move, Operand::A, Operand::B, false, true),
        0x22 => plan_with(Kind::Left, Operand::A, Operand::B, f.c, true),
        0x23 => plan_with(Kind::Left, Operand::A, Operand::B, false, true),
        0x24 => plan_with(Kind::Add, Operand::B, Operand::Number(1), false, true),
        0x25 => plan_with(Kind::Add, Operand::B, Operand::Number(2), false, true),
        0x26 => plan_with(Kind::Subtract, Operand::Number(0), Operand::B, true, true),
        0x27 => plan_with(Kind::Ones, Operand::A, Operand::B, false, true),
        0x28 | 0x29 => plan_with(Kind::Add, Operand::A, Operand::B, false, true),
        0x2A => plan_with(Kind::Add, Operand::A, Operand::B, f.c, true),
        0x2B => plan_with(Kind::Add, Operand::A, Operand::B, false, true),
        0x2C => plan_with(Kind::Subtract, Operand::A, Operand::B, true, true),
        0x2D => plan_with(Kind::Subtract, Operand::A, Operand::B, true, false),
        0x2E => plan_with(Kind::Subtract, Operand::A, Operand::B, !f.c, true),
        0x2F => plan_with(Kind::Subtract, Operand::B, Operand::Number(1), true, true),
        0x30 => plan_with(Kind::And, Operand::A, Operand::B, false, true),
        0x31 => plan_with(Kind::And, Operand::A, Operand::B, false, false),
        0x32 => plan_with(Kind::Or, Operand::A, Operand::B, false, true),
        0x33 => plan_with(Kind::Exclusive, Operand::A, Operand::B, false, true),
        0x34 | 0x35 => plan_with(Kind::AndNot, Operand::A, Operand::B, false, true),
        0x36 => plan_with(Kind::Right, Operand::A, Operand::B, f.c, true),
        _ => plan_with(Kind::Right, Operand::A, Operand::B, false, true),
    }
}

// Whether a condition lets the code work: C for CMB, CMW, CAB and CAW, ICS for CAWI.
#[tactic(auto, unfolding(crate::specs::Plan::condition_met, choose::specs::Ranged::ranged))]
pub fn condition_met(code: u8, c: bool, ics: bool) -> bool
    ensures { result ≡ condition_met code c ics }
{
    match code / 2 {
        0x42 | 0x43 | 0x52 | 0x53 => c,
        0x57 => ics,
        _ => true,
    }
}
