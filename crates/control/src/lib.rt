// What an executed instruction does outside the register file: bus, request, latches, and the next address.
#![tactic(auto)]

ghost use Rattle.std.specs.Prelude.{◌≡◌, false};
ghost use Rattle.control.specs.Bus.{bus_with, q1_of, rmw_of, after_input, bus_after, placed, request_of};
ghost use Rattle.control.specs.Latches.{used, input_latches_of};
ghost use Rattle.control.specs.Parts.{latches_after70_to77, latches_after_input, latches_after_load};
ghost use Rattle.control.specs.Next.{condition_of, jump_taken, within_page, way_of, tr_byte_of, inputs_of, plus_one, onward_of, next_of, rr_of, tsr_of, address_after};

use alu::Flags;
use rows::{Inputs, Outputs};
use state::{Address, Bus, Core, Latches, Marking, Sample};

// Of bits 14 to 6 of TR.
#[tactic(auto, unfolding(crate::specs::Bus::q1_of))]
pub fn q1(tr: u16) -> bool
    ensures { result ≡ q1_of tr }
{
    let tr14 = tr / 0x4000 % 2 == 1;
    let tr13 = tr / 0x2000 % 2 == 1;
    let tr12 = tr / 0x1000 % 2 == 1;
    let tr11 = tr / 0x800 % 2 == 1;
    let tr10 = tr / 0x400 % 2 == 1;
    let tr9 = tr / 0x200 % 2 == 1;
    let tr8 = tr / 0x100 % 2 == 1;
    let tr7 = tr / 0x80 % 2 == 1;
    let tr6 = tr / 0x40 % 2 == 1;
    (!tr14 & tr13) | (!tr14 & !tr12 & tr11 & !tr10 & tr9 & tr8 & tr7 & tr6)
}

// IB and IW: b 4-7 is RMW, with CP1621B only while Q1 is false.
#[tactic(auto, unfolding(crate::specs::Bus::rmw_of))]
pub fn rmw(marking: Marking, tr: u16, b: u8) -> bool
    ensures { result ≡ rmw_of marking tr b }
{
    let asked = b / 4 % 2 == 1;
    match marking {
        Marking::CP1661B => asked,
        Marking::CP1621B => asked & !q1(tr),
    }
}

// SYNC and IACK drop, M stays.
fn dropped(held: Bus) -> Bus
    ensures { result ≡ bus_with held.m false false }
{
    Bus {
        sync: false,
        iack: false,
        ..held
    }
}

// RMW keeps the bus.
#[tactic(auto, unfolding(crate::specs::Bus::after_input))]
fn after_input(held: Bus, rmw: bool) -> Bus
    ensures { result ≡ after_input held rmw }
{
    if rmw { held } else { dropped(held) }
}

#[tactic(auto, unfolding(crate::specs::Bus::bus_after, choose::specs::Ranged::ranged))]
pub fn bus_after(held: Bus, code: u8, rmw: bool, pair: u16) -> Bus
    ensures { result ≡ bus_after held code rmw pair }
{
    let put = Bus { m: pair, ..held };
    match code {
        0x00..=0xDF => held,
        0xE0..=0xE3 => after_input(held, rmw),
        0xE4..=0xEF => held,
        0xF0..=0xF9 => Bus { sync: true, ..put },
        0xFA..=0xFB => Bus {
            sync: true,
            iack: true,
            ..put
        },
        0xFC..=0xFD => dropped(put),
        0xFE => put,
        _ => held,
    }
}

// A request of a kind with its value.
pub fn placed(kind: u8, value: u16) -> u32
    ensures { result ≡ placed kind value }
{
    kind as u32 * 65536 + value as u32
}

#[tactic(auto, unfolding(crate::specs::Bus::request_of, choose::specs::Ranged::ranged))]
pub fn request(code: u8, pair: u16, dal: u16) -> u32
    ensures { result ≡ request_of code pair dal }
{
    match code {
        0x00..=0xDF => 0,
        0xE0..=0xE3 => placed(5, dal),
        0xE4..=0xE7 => placed(9, dal),
        0xE8..=0xEF => 0,
        0xF0..=0xF9 => placed(1 + code % 2, pair),
        0xFA..=0xFB => placed(3 + code % 2, pair),
        0xFC..=0xFD => placed(7 - code % 2, pair),
        0xFE => placed(8, pair),
        _ => 0,
    }
}

// The modification is used up by every execution.
pub fn used(l: Latches) -> Latches
    ensures { result ≡ used l }
{
    Latches {
        marked: false,
        modification: 0,
        ..l
    }
}

#[tactic(auto, unfolding(crate::specs::Latches::input_latches_of, choose::specs::Ranged::ranged))]
fn input_latches(l: Latches, b: u8, dal: u16, ics: bool) -> Latches
    ensures { result ≡ input_latches_of l b dal ics }
{
    let loaded = Latches {
        tr: dal,
        ics,
        ..used(l)
    };
    match b % 4 {
        0 => used(l),
        1 => Latches {
            g: (dal / 16 % 8) as u8,
            ..loaded
        },
        2 => Latches {
            g: (dal / 64 % 8) as u8,
            ..loaded
        },
        _ => loaded,
    }
}

#[tactic(auto, unfolding(crate::specs::Parts::latches_after70_to77, choose::specs::Ranged::ranged))]
pub fn latches_after_70_to_77(l: Latches, code: u8, b: u8, ra: u8) -> Latches
    ensures { result ≡ latches_after70_to77 l code b ra }
{
    match code {
        0x70 => Latches {
            interrupts: l.interrupts & (7 - b % 8),
            ..used(l)
        },
        0x71 => Latches {
            interrupts: l.interrupts | b % 8,
            ..used(l)
        },
        0x75 => Latches {
            g: ra % 8,
            ..used(l)
        },
        _ => used(l),
    }
}

#[tactic(auto, unfolding(crate::specs::Parts::latches_after_input, choose::specs::Ranged::ranged))]
pub fn latches_after_input(l: Latches, code: u8, b: u8, sample: Sample) -> Latches
    ensures { result ≡ latches_after_input l code b sample }
{
    match code {
        0xE2..=0xE3 => input_latches(l, b, sample.dal, sample.ics),
        _ => used(l),
    }
}

// MI: the modification of the next word waits, marked.
#[tactic(auto, unfolding(crate::specs::Parts::latches_after_load, choose::specs::Ranged::ranged))]
pub fn latches_after_load(l: Latches, code: u8, pair: u16) -> Latches
    ensures { result ≡ latches_after_load l code pair }
{
    match code {
        0xEC..=0xED => Latches {
            marked: true,
            modification: pair,
            ..l
        },
        0xEE..=0xEF => Latches {
            tr: pair,
            ..used(l)
        },
        _ => used(l),
    }
}

// Where an instruction goes: a taken jump, the return from a subroutine, or on, by the rows or to the next word.
#[derive(Clone, Copy)]
pub enum Way {
    Jump(u16),
    Return,
    Onward,
}

#[tactic(auto, unfolding(crate::specs::Next::condition_of, choose::specs::Ranged::ranged))]
fn condition(code: u8, f: Flags, ics: bool) -> bool
    ensures { result ≡ condition_of code f ics }
{
    match code {
        0x00..=0x11 => f.zb,
        0x12..=0x13 => f.c8,
        0x14..=0x15 => ics,
        0x16..=0x17 => f.nb,
        0x18..=0x19 => f.z,
        0x1A..=0x1B => f.c,
        0x1C..=0x1D => f.v,
        _ => f.n,
    }
}

// Odd codes jump where the condition is true, even ones where it is false.
#[tactic(auto, unfolding(crate::specs::Next::jump_taken))]
fn jump_taken(code: u8, f: Flags, ics: bool) -> bool
    ensures { result ≡ jump_taken code f ics }
{
    condition(code, f, ics) == (code % 2 == 1)
}

fn within_page(lc: u16, n: u16, jumps: bool) -> Way
    ensures { result ≡ within_page lc n jumps }
{
    if jumps {
        Way::Jump(lc / 256 * 256 + n % 256)
    } else {
        Way::Onward
    }
}

#[tactic(auto, unfolding(crate::specs::Next::way_of, choose::specs::Ranged::ranged))]
pub fn way_of(lc: u16, code: u8, n: u16, f: Flags, ics: bool) -> Way
    ensures { result ≡ way_of lc code n f ics }
{
    match code {
        0x00..=0x07 => Way::Jump(n),
        0x08..=0x0F => Way::Return,
        0x10..=0x1F => within_page(lc, n, jump_taken(code, f, ics)),
        _ => Way::Onward,
    }
}

// The byte of TR that the rows see.
#[tactic(auto, unfolding(crate::specs::Next::tr_byte_of))]
fn tr_byte(tr: u16, tsr: u8) -> u8
    ensures { result ≡ tr_byte_of tr tsr }
{
    if tsr / 4 % 2 == 1 {
        (tr % 256) as u8
    } else {
        (tr / 256) as u8
    }
}

#[tactic(auto, unfolding(crate::specs::Next::inputs_of))]
pub fn inputs(core: Core, rni: bool, sample: Sample) -> Inputs
    ensures { result ≡ inputs_of core rni sample }
{
    let a = core.address;
    let l = core.latches;
    let tr = tr_byte(l.tr, a.tsr);
    Inputs {
        lc: a.lc,
        rni: rni as u8,
        tr,
        tsr: a.tsr % 4,
        interrupts: sample.interrupts % 16 + l.interrupts % 8 * 16,
    }
}

fn plus_one(lc: u16) -> u16
    ensures { result ≡ plus_one lc }
{
    (lc % 2048 + 1) % 2048
}

// With no jump: LRA, else LTA, else the next word.
#[tactic(auto, unfolding(crate::specs::Next::onward_of))]
fn onward(a: Address, o: Outputs) -> u16
    ensures { result ≡ onward_of a o }
{
    if rows::lra(o) {
        a.rr
    } else if rows::lta(o) {
        o.address
    } else {
        plus_one(a.lc)
    }
}

#[tactic(auto, unfolding(crate::specs::Next::next_of))]
fn next(a: Address, way: Way, o: Outputs) -> u16
    ensures { result ≡ next_of a way o }
{
    match way {
        Way::Jump(to) => to,
        Way::Return => a.rr,
        Way::Onward => onward(a, o),
    }
}

#[tactic(auto, unfolding(crate::specs::Next::rr_of))]
fn rr_after(a: Address, loads: bool) -> u16
    ensures { result ≡ rr_of a loads }
{
    if loads { plus_one(a.lc) } else { a.rr }
}

// RTSR clears TSR and wins over LTSR.
#[tactic(auto, unfolding(crate::specs::Next::tsr_of))]
fn tsr_after(tsr: u8, code: u8, o: Outputs) -> u8
    ensures { result ≡ tsr_of tsr code o }
{
    if code == 0x74 {
        0
    } else if rows::ltsr(o) {
        o.new_tsr
    } else {
        tsr
    }
}

// Where no row puts a line out, nothing of the rows is looked at.
#[tactic(auto, unfolding(crate::specs::Next::next_of, crate::specs::Next::onward_of, crate::specs::Next::tsr_of, crate::specs::Next::address_after))]
pub fn address_after(a: Address, way: Way, code: u8, loads: bool, o: Outputs) -> Address
    ensures { result ≡ address_after a way code loads o }
{
    let rr = rr_after(a, loads);
    if o.lines == 0 {
        let none = rows::none();
        let lc = next(a, way, none);
        let tsr = tsr_after(a.tsr, code, none);
        return Address { lc, rr, tsr };
    }
    let lc = next(a, way, o);
    let tsr = tsr_after(a.tsr, code, o);
    Address { lc, rr, tsr }
}
