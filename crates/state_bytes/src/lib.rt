// The state between its bytes and the register file with the core, and the range of each.
#![tactic(auto)]

ghost use Rattle.std.specs.Prelude.{◌≡◌};
ghost use Rattle.state_bytes.specs.Bytes.{address_of, bus_of, latches_of, core_of, Loaded, tail_of, stored_of};
ghost use Rattle.state_bytes.specs.Range.{address_in_range, latches_in_range, core_in_range, state_in_range};

use state::{Address, Bus, Core, Latches, Marking};

// How many bytes a state has, in a deck and in the host's buffer.
pub const STATE_BYTES: usize = 42;

#[tactic(auto, unfolding(crate::specs::Bytes::address_of))]
fn address_in(s: &[u8]) -> Address
    ensures { result ≡ address_of s.now }
{
    Address {
        lc: numbers::pair_at(s, 28),
        rr: numbers::pair_at(s, 30),
        tsr: numbers::byte_at(s, 36),
    }
}

#[tactic(auto, unfolding(crate::specs::Bytes::bus_of))]
fn bus_in(s: &[u8]) -> Bus
    ensures { result ≡ bus_of s.now }
{
    let marks = numbers::byte_at(s, 37);
    Bus {
        m: numbers::pair_at(s, 34),
        sync: marks / 2 % 2 == 1,
        iack: marks / 4 % 2 == 1,
    }
}

#[tactic(auto, unfolding(crate::specs::Bytes::latches_of))]
fn latches_in(s: &[u8]) -> Latches
    ensures { result ≡ latches_of s.now }
{
    let marks = numbers::byte_at(s, 37);
    Latches {
        g: numbers::byte_at(s, 26),
        tr: numbers::pair_at(s, 32),
        ics: marks % 2 == 1,
        interrupts: numbers::byte_at(s, 38),
        marked: marks / 8 % 2 == 1,
        modification: numbers::pair_at(s, 39),
    }
}

#[tactic(auto, unfolding(crate::specs::Bytes::core_of))]
fn core_in(s: &[u8], marking: Marking) -> Core
    ensures { result ≡ core_of s.now marking }
{
    let flags = state::flags_in(numbers::byte_at(s, 27));
    let address = address_in(s);
    let bus = bus_in(s);
    let latches = latches_in(s);
    Core {
        flags,
        address,
        bus,
        latches,
        outputs: numbers::byte_at(s, 41),
        marking,
    }
}

// The core of a state's bytes, in a set of this marking; the registers go into the file.
pub fn load(s: &[u8], marking: Marking, file: &mut [u8; 26]) -> Core
    ensures { Loaded s.now marking result file.new }
{
    for i in 0..26 {
        file[i] = numbers::byte_at(s, i);
    }
    core_in(s, marking)
}

// The bytes after the registers, one to a line as 01 lists them; by to_le_bytes each number would be named once more before the list.
#[tactic(auto, unfolding(crate::specs::Bytes::tail_of))]
fn tail(core: Core) -> [u8; 16]
    ensures { result ≡ tail_of core }
{
    let flags = core.flags;
    let a = core.address;
    let b = core.bus;
    let l = core.latches;
    [
        l.g,
        state::flag_byte(flags),
        (a.lc % 256) as u8,
        (a.lc / 256) as u8,
        (a.rr % 256) as u8,
        (a.rr / 256) as u8,
        (l.tr % 256) as u8,
        (l.tr / 256) as u8,
        (b.m % 256) as u8,
        (b.m / 256) as u8,
        a.tsr,
        state::nibble(l.marked, b.iack, b.sync, l.ics),
        l.interrupts,
        (l.modification % 256) as u8,
        (l.modification / 256) as u8,
        core.outputs,
    ]
}

// A buffer of another length than a state's is left as found.
pub fn store(core: Core, file: &[u8; 26], out: &mut [u8])
    ensures { out.new ≡ stored_of file.now core out.old }
{
    if out.len() == STATE_BYTES {
        let (registers, rest) = out.split_at_mut(file.len());
        registers.copy_from_slice(file);
        rest.copy_from_slice(&tail(core));
    }
}

#[tactic(auto, unfolding(crate::specs::Range::address_in_range))]
fn address_in_range(a: Address) -> bool
    ensures { result ≡ address_in_range a }
{
    (a.lc <= 2047) & (a.rr <= 2047) & (a.tsr <= 7)
}

#[tactic(auto, unfolding(crate::specs::Range::latches_in_range))]
fn latches_in_range(l: Latches) -> bool
    ensures { result ≡ latches_in_range l }
{
    (l.g <= 7) & (l.interrupts <= 7) & (l.marked | (l.modification == 0))
}

#[tactic(auto, unfolding(crate::specs::Range::core_in_range))]
fn core_in_range(core: Core) -> bool
    ensures { result ≡ core_in_range core }
{
    let a = core.address;
    let l = core.latches;
    address_in_range(a) & latches_in_range(l) & (core.outputs <= 15)
}

// The unused bits of marks are tested apart: the core does not hold them. Every marking has the same range.
#[tactic(auto, unfolding(crate::specs::Range::state_in_range))]
pub fn in_range(s: &[u8]) -> bool
    ensures { result ≡ state_in_range s.now }
{
    (s.len() == STATE_BYTES)
        & (numbers::byte_at(s, 37) <= 15)
        & core_in_range(core_in(s, Marking::CP1661B))
}
