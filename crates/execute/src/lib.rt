// What each executed instruction does to the registers and the flags.
#![tactic(auto, unfolding(alu::specs::Cycle::cycle_of, choose::specs::Ranged::ranged, cycles::specs::Cycles::one_cycle_of, cycles::specs::Cycles::operand_of, cycles::specs::Cycles::step_of, cycles::specs::Cycles::two_cycles_of, plan::specs::Plan::literal_plan_of, state::specs::File::register_of, state::specs::File::written_of, crate::specs::Execute::access_of, crate::specs::Execute::codes70_to77_of, crate::specs::Execute::compared_of, crate::specs::Execute::conditioned_of, crate::specs::Execute::copied_of, crate::specs::Execute::input_of, crate::specs::Execute::literal_of, crate::specs::Execute::loaded_of, crate::specs::Execute::selected_of, crate::specs::Execute::stepped_by_of, crate::specs::Execute::upper_of))]

ghost use Rattle.std.specs.Prelude.{◌≡◌, ◌<◌, ltb, set, unwrap_or};
ghost use Rattle.alu.specs.Marks.{after_byte_of};
ghost use Rattle.choose.specs.Ranged.{pick};
ghost use Rattle.cycles.specs.Cycles.{step_of};
ghost use Rattle.execute.specs.Execute.{designators, literal_of, loaded_of, stepped_by_of, copied_of, codes70_to77_of, operation_of, conditioned_of, upper_of, selected_of, input_of, gain_of, access_of};
ghost use Rattle.plan.specs.Plan.{plan_of};
ghost use Rattle.state.specs.File.{leaves, high_of};

use alu::{Cycle, Flags};
use cycles::Designators;

fn stored(file: &mut [u8; 26], i: usize, f: Flags, y: Cycle, odd: bool) -> Flags
    requires { i < 26 }
    ensures { leaves file.new result ≡ leaves (set file.old i y.result) (after_byte_of f y odd) }
{
    file[i] = y.result;
    alu::after_byte(f, y, odd)
}

// 20-6F: AL CL NL TL LL. CL is a subtract that writes no register and leaves C4 and C8.
pub fn literal(file: &mut [u8; 26], g: u8, f: Flags, code: u8, value: u8, a: u8) -> Flags
    ensures { leaves file.new result ≡ literal_of file.old g f code value a }
{
    let i = state::slot(g, a);
    let ra = file[i];
    match code {
        0x00..=0x2F => stored(file, i, f, alu::add(ra, value, false), false),
        0x30..=0x3F => {
            let y = alu::subtract(ra, value, true);
            alu::after_byte(f, alu::kept(y.result, f), false)
        }
        0x40..=0x4F => stored(file, i, f, alu::kept(ra & value, f), false),
        0x50..=0x5F => alu::after_byte(f, alu::kept(ra & value, f), false),
        _ => stored(file, i, f, alu::kept(value, f), false),
    }
}

// LCF: N Z V C from bits 7-4 of Ra, where b's bits 3-0 are 1.
fn loaded(f: Flags, ra: u8, b: u8) -> Flags
    ensures { result ≡ loaded_of f ra b }
{
    let t = state::flags_in(ra);
    Flags {
        n: if b / 8 % 2 == 1 { t.n } else { f.n },
        z: if b / 4 % 2 == 1 { t.z } else { f.z },
        v: if b / 2 % 2 == 1 { t.v } else { f.v },
        c: if b % 2 == 1 { t.c } else { f.c },
        ..f
    }
}

// CIB and CDB: C8 is added, to 0 or to 255.
fn stepped_by(file: &mut [u8; 26], g: u8, f: Flags, a: u8, by: u8) -> Flags
    ensures { leaves file.new result ≡ stepped_by_of file.old g f a by }
{
    let i = state::slot(g, a);
    let y = alu::add(file[i], by, f.c8);
    stored(file, i, f, y, false)
}

fn copied(file: &mut [u8; 26], g: u8, f: Flags, a: u8) -> Flags
    ensures { leaves file.new result ≡ copied_of file.old g f a }
{
    let byte = state::flag_byte(f);
    state::write(file, g, a, byte);
    f
}

// 70-77: CCF, LCF, CIB and CDB; the others leave registers and flags.
pub fn codes_70_to_77(file: &mut [u8; 26], g: u8, f: Flags, code: u8, at: Designators) -> Flags
    ensures { leaves file.new result ≡ codes70_to77_of file.old g f code at.b at.a }
{
    match code {
        0x00..=0x71 => f,
        0x72 => copied(file, g, f, at.a),
        0x73 => {
            let ra = state::register(file, g, at.a);
            loaded(f, ra, at.b)
        }
        0x74..=0x75 => f,
        0x76 => stepped_by(file, g, f, at.a, 0),
        _ => stepped_by(file, g, f, at.a, 255),
    }
}

// One cycle of 80-DF, the first with the plan's own carry. The plan is asked for here, where it is used: the compiler makes one jump of its line and what the cycle then does.
fn step(
    file: &mut [u8; 26],
    g: u8,
    f: Flags,
    code: u8,
    at: Designators,
    carry: Option<bool>,
    high: bool,
) -> Cycle
    ensures { leaves file.new result ≡ step_of file.old g f (plan_of code f) at (unwrap_or carry (plan_of code f).carry) high }
{
    let i = state::slot(g, at.a);
    let j = state::slot(g, at.b);
    let ra = file[i];
    let rb = file[j];
    let plan = plan::plan(code, f);
    let p = cycles::operand_of(plan.p, ra, rb, high);
    let q = cycles::operand_of(plan.q, ra, rb, high);
    let y = alu::byte_cycle(plan.kind, p, q, carry.unwrap_or(plan.carry), f);
    if plan.stores {
        file[i] = y.result;
    }
    y
}

// The designators of a cycle: those of the word, or of the pairs' high bytes.
fn designators(at: Designators, high: bool) -> Designators
    ensures { result ≡ pick high (designators (high_of at.a) (high_of at.b)) at }
{
    if high {
        Designators {
            a: state::high(at.a),
            b: state::high(at.b),
        }
    } else {
        at
    }
}

// 80-DF: one cycle, or two on the pairs, those of right shifts from the high byte.
fn operation(file: &mut [u8; 26], g: u8, f: Flags, code: u8, at: Designators) -> Flags
    ensures { leaves file.new result ≡ operation_of file.old g f code at.b at.a }
{
    let n = 1 + code / 2 % 2;
    let mut high = (0xD8 <= code) & (n == 2);
    let mut carry = None;
    let mut zero = true;
    let mut y = alu::kept(0, f);
    for _ in 0..n {
        y = step(file, g, f, code, designators(at, high), carry, high);
        carry = Some(y.c8);
        zero &= y.result == 0;
        high = !high;
    }
    alu::after(f, y, zero, code % 2 == 1)
}

pub fn conditioned(
    file: &mut [u8; 26],
    g: u8,
    f: Flags,
    ics: bool,
    code: u8,
    at: Designators,
) -> Flags
    ensures { leaves file.new result ≡ conditioned_of file.old g f ics code at.b at.a }
{
    if plan::condition_met(code, f.c, ics) {
        operation(file, g, f, code, at)
    } else {
        f
    }
}

// Which byte IB and ISB take, by b mod 4: the upper, the lower, the one that M bit 0 names, or the other one.
fn upper(m: u16, b: u8) -> bool
    ensures { result ≡ upper_of m b }
{
    match b % 4 {
        0 => true,
        1 => false,
        2 => m % 2 == 1,
        _ => m % 2 == 0,
    }
}

fn selected(dal: u16, m: u16, b: u8) -> u8
    ensures { result ≡ selected_of dal m b }
{
    if upper(m, b) {
        (dal / 256) as u8
    } else {
        (dal % 256) as u8
    }
}

// E0-E7: a byte into Ra, or a word into its pair.
pub fn input(
    file: &mut [u8; 26],
    g: u8,
    f: Flags,
    code: u8,
    dal: u16,
    m: u16,
    at: Designators,
) -> Flags
    ensures { leaves file.new result ≡ input_of file.old g f code dal m at.b at.a }
{
    let odd = code % 2 == 1;
    let i = state::slot(g, at.a);
    if code / 2 % 2 == 0 {
        return stored(file, i, f, alu::kept(selected(dal, m, at.b), f), odd);
    }
    let low = alu::kept((dal % 256) as u8, f);
    file[i] = low.result;
    let high = alu::kept((dal / 256) as u8, f);
    let j = state::slot(g, state::high(at.a));
    file[j] = high.result;
    alu::after_word(f, low, high, odd)
}

fn gain(code: u8) -> u8
    ensures { result ≡ gain_of code }
{
    if code / 4 % 2 == 0 { 1 } else { 2 }
}

// F0-F7: Ra gains 1 or 2; the word codes add the carry to Rb.
fn gained(file: &mut [u8; 26], g: u8, f: Flags, code: u8, at: Designators) -> Flags
    ensures { leaves file.new result ≡ access_of file.old g f code at.b at.a }
{
    let i = state::slot(g, at.a);
    let low = alu::add(file[i], gain(code), false);
    file[i] = low.result;
    if code / 2 % 2 == 0 {
        return alu::after_byte(f, low, false);
    }
    let j = state::slot(g, at.b);
    let high = alu::add(file[j], 0, low.c8);
    file[j] = high.result;
    alu::after_word(f, low, high, false)
}

// F0-FF; F8-FF leave registers and flags.
pub fn access(file: &mut [u8; 26], g: u8, f: Flags, code: u8, at: Designators) -> Flags
    ensures { leaves file.new result ≡ pick (ltb code 0xF8) (access_of file.old g f code at.b at.a) (leaves file.old f) }
{
    if code < 0xF8 {
        gained(file, g, f, code, at)
    } else {
        f
    }
}
