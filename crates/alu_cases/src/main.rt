// The byte and word cases of 01, "Checked by hand", that need no state: each is run, and its result and flags printed.
#![tactic(auto)]

use alu::{Flags, Kind};
use std::{fmt, io};

// The flags that the cases are about, by name.
#[derive(Clone, Copy)]
struct Named(Flags);

impl fmt::Display for Named {
    fn fmt<W: fmt::Write>(&self, f: &mut fmt::Formatter<W>) -> fmt::Result {
        let flags = self.0;
        write!(f, "C4 {} C8 {} ", flags.c4 as u8, flags.c8 as u8)?;
        write!(f, "N {} Z {} ", flags.n as u8, flags.z as u8)?;
        write!(f, "V {} C {}", flags.v as u8, flags.c as u8)
    }
}

fn byte(rt: &impl Print, title: &str, kind: Kind, p: u8, q: u8, carry: bool) -> io::Result<()> {
    let only = alu::byte_cycle(kind, p, q, carry, Flags::default());
    let flags = Named(alu::after_byte(Flags::default(), only, true));
    println!(rt; "{title}: {:02x} {flags}", only.result)
}

// Two cycles with C8 between them, in the order of the kind.
fn word(rt: &impl Print, title: &str, kind: Kind, p: u16, q: u16, carry: bool) -> io::Result<()> {
    let (p, q) = (p.to_le_bytes(), q.to_le_bytes());
    let (i, j) = if alu::high_first(kind) {
        (1, 0)
    } else {
        (0, 1)
    };
    let first = alu::byte_cycle(kind, p[i], q[i], carry, Flags::default());
    let second = alu::byte_cycle(kind, p[j], q[j], first.c8, Flags::default());
    let flags = Named(alu::after_word(Flags::default(), first, second, true));
    let mut result = [0; 2];
    result[i] = first.result;
    result[j] = second.result;
    println!(rt; "{title}: {:04x} {flags}", u16::from_le_bytes(result))
}

fn main(rt: HostRuntime) -> io::Result<()> {
    byte(&rt, "7F+01", Kind::Add, 0x7F, 0x01, false)?;
    byte(&rt, "00-01", Kind::Subtract, 0x00, 0x01, true)?;
    byte(&rt, "80-01", Kind::Subtract, 0x80, 0x01, true)?;
    byte(&rt, "00-FF with C 1", Kind::Subtract, 0x00, 0xFF, false)?;
    byte(&rt, "Complement of 80", Kind::Subtract, 0x00, 0x80, true)?;
    byte(&rt, "Complement of 00", Kind::Subtract, 0x00, 0x00, true)?;
    word(&rt, "Word 00FF+0001", Kind::Add, 0x00FF, 0x0001, false)?;
    word(&rt, "Word 7FFF+0001", Kind::Add, 0x7FFF, 0x0001, false)?;
    word(&rt, "SRW of 0101", Kind::Right, 0, 0x0101, false)?;
    byte(&rt, "SLB of 40", Kind::Left, 0, 0x40, false)
}
