// The state: the register file, lent, and all the rest by value, in parts that an attempt writes one by one.
#![tactic(auto)]

ghost use Rattle.std.specs.Prelude.{◌≡◌, ◌<◌, ◌≤◌};
ghost use Rattle.state.specs.File.{slot_of, high_of, register_of, written_of};
ghost use Rattle.state.specs.FlagByte.{nibble_of, flag_byte_of, flags_of};
ghost use Rattle.state.specs.Marking.{is_marking, marking_of, marking_in};

use alu::Flags;
use choose::bit_of;
use refusals::Refusal;

// What tells the next word: location counter, return register, translation state register.
#[derive(Clone, Copy, Debug, PartialEq, Eq)]
pub struct Address {
    pub lc: u16,
    pub rr: u16,
    pub tsr: u8,
}

// What stands on the bus: M, SYNC and IACK.
#[derive(Clone, Copy, Debug, PartialEq, Eq)]
pub struct Bus {
    pub m: u16,
    pub sync: bool,
    pub iack: bool,
}

// What else the instructions load: G, TR, ICS, the internal interrupts I4-I6 and the waiting modification, 0 when unmarked.
// Mark and number stand apart, as in the state's bytes: of any 42 bytes, also of a number without its mark, both are promised back.
#[derive(Clone, Copy, Debug, PartialEq, Eq)]
pub struct Latches {
    pub modification: u16,
    pub marked: bool,
    pub ics: bool,
    pub tr: u16,
    pub g: u8,
    pub interrupts: u8,
}

// What is printed on the control chip: CP1661B is the base, CP1621B has Q1.
#[derive(Clone, Copy, Debug, PartialEq, Eq)]
pub enum Marking {
    CP1661B,
    CP1621B,
}

// The outputs are the user's four, bits 18-21 of the last executed word. The marking is the set's own: a run names it, and no attempt changes it.
#[derive(Clone, Copy, Debug, PartialEq, Eq)]
pub struct Core {
    pub flags: Flags,
    pub address: Address,
    pub bus: Bus,
    pub latches: Latches,
    pub outputs: u8,
    pub marking: Marking,
}

// The numbers are those that are printed on the chips.
#[tactic(auto, unfolding(crate::specs::Marking::marking_of))]
impl TryFrom<u32> for Marking {
    type Error = Refusal;

    ghost try_from_gives = { λ number result. result ≡ marking_in number };

    fn try_from(number: u32) -> Result<Self, Refusal> {
        match number {
            1661 => Ok(Marking::CP1661B),
            1621 => Ok(Marking::CP1621B),
            _ => Err(Refusal::NoMarking),
        }
    }
}

pub fn is_marking(number: u32) -> bool
    ensures { result ≡ is_marking number }
{
    Marking::try_from(number).is_ok()
}

// The marking of a number that is one, for who knows that it is: a number that is none counts as the base's, so this cannot fail.
#[tactic(auto, unfolding(crate::specs::Marking::marking_of))]
pub fn marking_of(number: u32) -> Marking
    ensures { result ≡ marking_of number }
{
    Marking::try_from(number).unwrap_or(Marking::CP1661B)
}

// The lines as one attempt samples them; interrupts are I0-I3.
#[derive(Clone, Copy, Debug, PartialEq, Eq)]
pub struct Sample {
    pub reply: bool,
    pub dal: u16,
    pub busy: bool,
    pub compute: bool,
    pub reset: bool,
    pub ics: bool,
    pub interrupts: u8,
}

// The place of designator d in the file: G0-GB stand first, then R2-RF, of which RC-RF are GC-GF too.
#[tactic(auto, unfolding(crate::specs::File::slot_of))]
pub fn slot(g: u8, d: u8) -> usize
    ensures { (result ≡ slot_of g d) × (result < 26) }
{
    let x = d % 16;
    if 2 <= x {
        return 10 + x as usize;
    }
    let j = g % 8 * 2 + x;
    if j < 12 {
        return j as usize;
    }
    10 + j as usize
}

// The designator of a pair's high byte: the low one's with its lowest bit inverted.
#[tactic(auto, unfolding(crate::specs::File::high_of))]
pub fn high(d: u8) -> u8
    ensures { result ≡ high_of d }
{
    d % 16 ^ 1
}

// G stands beside the file, in no struct with it: a struct that held the lent file would have each function promise besides that it keeps the loan.
#[tactic(auto, unfolding(crate::specs::File::register_of))]
pub fn register(file: &[u8; 26], g: u8, d: u8) -> u8
    ensures { result ≡ register_of file.now g d }
{
    let i = slot(g, d);
    file[i]
}

#[tactic(auto, unfolding(crate::specs::File::written_of))]
pub fn write(file: &mut [u8; 26], g: u8, d: u8, value: u8)
    ensures { file.new ≡ written_of file.old g d value }
{
    let i = slot(g, d);
    file[i] = value;
}

#[tactic(auto, unfolding(crate::specs::FlagByte::nibble_of))]
pub fn nibble(a: bool, b: bool, c: bool, d: bool) -> u8
    ensures { (result ≡ nibble_of a b c d) × (result ≤ 15) }
{
    bit_of(a) * 8 + bit_of(b) * 4 + bit_of(c) * 2 + bit_of(d)
}

// By a name and not as From: the flag byte is the state's, and From of the flags would have to stand in crate alu.
#[tactic(auto, unfolding(crate::specs::FlagByte::flag_byte_of))]
pub fn flag_byte(f: Flags) -> u8
    ensures { result ≡ flag_byte_of f }
{
    let conditions = nibble(f.n, f.z, f.v, f.c);
    let status = nibble(f.nb, f.zb, f.c4, f.c8);
    conditions * 16 + status
}

#[tactic(auto, unfolding(crate::specs::FlagByte::flags_of))]
pub fn flags_in(byte: u8) -> Flags
    ensures { result ≡ flags_of byte }
{
    Flags {
        n: byte / 128 == 1,
        z: byte / 64 % 2 == 1,
        v: byte / 32 % 2 == 1,
        c: byte / 16 % 2 == 1,
        nb: byte / 8 % 2 == 1,
        zb: byte / 4 % 2 == 1,
        c4: byte / 2 % 2 == 1,
        c8: byte % 2 == 1,
    }
}
