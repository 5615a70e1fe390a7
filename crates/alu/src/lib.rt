// One byte cycle of the data chip, and the flags that one or two of them leave.
#![tactic(auto)]

ghost use Rattle.std.specs.Prelude.{◌≡◌};
ghost use Rattle.alu.specs.Cycle.{add_of, subtract_of, kept_of, ones_of, left_of, right_of, cycle_of, high_first_of};
ghost use Rattle.alu.specs.Marks.{after_of, after_byte_of, after_word_of};

use choose::bit_of;

// What a byte cycle gives: the result, the carries out of positions 3 and 7, V, and what C becomes.
#[repr(C)]
#[derive(Clone, Copy, Debug, PartialEq, Eq)]
pub struct Cycle {
    pub result: u8,
    pub c4: bool,
    pub c8: bool,
    pub v: bool,
    pub c: bool,
}

// Condition flags N Z V C and status flags NB ZB C4 C8, in the order of the flag byte.
#[derive(Clone, Copy, Debug, Default, PartialEq, Eq)]
pub struct Flags {
    pub n: bool,
    pub z: bool,
    pub v: bool,
    pub c: bool,
    pub nb: bool,
    pub zb: bool,
    pub c4: bool,
    pub c8: bool,
}

// What a byte cycle does with its operands.
#[derive(Clone, Copy, Debug, PartialEq, Eq)]
pub enum Kind {
    Add,
    Subtract,
    And,
    AndNot,
    Or,
    Exclusive,
    Move,
    Ones,
    Left,
    Right,
}

// The one adder, of sums, differences, complements, increments and decrements: bit i of `nets` is the carry into position i.
pub fn add(p: u8, q: u8, carry: bool) -> Cycle
    ensures { result ≡ add_of p q carry }
{
    let sum = p as u16 + q as u16 + bit_of(carry) as u16;
    let nets = p as u16 ^ q as u16 ^ sum;
    let into_4 = (nets >> 4 & 1) == 1;
    let into_7 = (nets >> 7 & 1) == 1;
    let out = (nets >> 8 & 1) == 1;
    Cycle {
        result: (sum % 256) as u8,
        c4: into_4,
        c8: out,
        v: into_7 != out,
        c: out,
    }
}

#[tactic(auto, unfolding(crate::specs::Cycle::subtract_of))]
pub fn subtract(p: u8, q: u8, carry: bool) -> Cycle
    ensures { result ≡ subtract_of p q carry }
{
    let y = add(p, 255 - q, carry);
    Cycle { c: !y.c8, ..y }
}

// A cycle without carries: C4, C8 and C stay as they were.
#[tactic(auto, unfolding(crate::specs::Cycle::kept_of))]
pub fn kept(res: u8, f: Flags) -> Cycle
    ensures { result ≡ kept_of res f }
{
    Cycle {
        result: res,
        c4: f.c4,
        c8: f.c8,
        v: false,
        c: f.c,
    }
}

// 0 less q and a borrow: the inverted operand alone, so that no net is high.
#[tactic(auto, unfolding(crate::specs::Cycle::subtract_of, crate::specs::Cycle::ones_of), using(crate::proofs::Nets::alone))]
fn ones(q: u8) -> Cycle
    ensures { result ≡ ones_of q }
{
    subtract(0, q, false)
}

#[tactic(auto, unfolding(crate::specs::Cycle::left_of))]
fn left(q: u8, carry: bool) -> Cycle
    ensures { result ≡ left_of q carry }
{
    let into = 64 <= q % 128;
    let out = 128 <= q;
    Cycle {
        result: (q as u16 * 2 % 256 + bit_of(carry) as u16) as u8,
        c4: q / 8 % 2 == 1,
        c8: out,
        v: into != out,
        c: out,
    }
}

#[tactic(auto, unfolding(crate::specs::Cycle::right_of))]
fn right(q: u8, carry: bool) -> Cycle
    ensures { result ≡ right_of q carry }
{
    let off = q % 2 == 1;
    Cycle {
        result: (q as u16 / 2 + 128 * bit_of(carry) as u16) as u8,
        c4: false,
        c8: off,
        v: false,
        c: off,
    }
}

#[tactic(auto, unfolding(crate::specs::Cycle::cycle_of))]
pub fn byte_cycle(kind: Kind, p: u8, q: u8, carry: bool, f: Flags) -> Cycle
    ensures { result ≡ cycle_of kind p q carry f }
{
    match kind {
        Kind::Add => add(p, q, carry),
        Kind::Subtract => subtract(p, q, carry),
        Kind::And => kept(p & q, f),
        Kind::AndNot => kept(p & (255 - q), f),
        Kind::Or => kept(p | q, f),
        Kind::Exclusive => kept(p ^ q, f),
        Kind::Move => kept(q, f),
        Kind::Ones => ones(q),
        Kind::Left => left(q, carry),
        Kind::Right => right(q, carry),
    }
}

// Which byte of a word a kind of cycle begins with.
pub fn high_first(kind: Kind) -> bool
    ensures { result ≡ high_first_of kind }
{
    matches!(kind, Kind::Right)
}

// The flags after a last cycle: the status always, the conditions where the code is odd.
#[tactic(auto, unfolding(crate::specs::Marks::after_of))]
pub fn after(f: Flags, last: Cycle, zero: bool, odd: bool) -> Flags
    ensures { result ≡ after_of f last zero odd }
{
    let negative = 128 <= last.result;
    let status = Flags {
        nb: negative,
        zb: zero,
        c4: last.c4,
        c8: last.c8,
        ..f
    };
    if odd {
        Flags {
            n: negative,
            z: zero,
            v: last.v,
            c: last.c,
            ..status
        }
    } else {
        status
    }
}

#[tactic(auto, unfolding(crate::specs::Marks::after_byte_of))]
pub fn after_byte(f: Flags, only: Cycle, odd: bool) -> Flags
    ensures { result ≡ after_byte_of f only odd }
{
    let zero = only.result == 0;
    after(f, only, zero, odd)
}

#[tactic(auto, unfolding(crate::specs::Marks::after_word_of))]
pub fn after_word(f: Flags, first: Cycle, second: Cycle, odd: bool) -> Flags
    ensures { result ≡ after_word_of f first second odd }
{
    let zero = (first.result == 0) & (second.result == 0);
    after(f, second, zero, odd)
}
