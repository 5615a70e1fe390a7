// A memory on the bus, one attempt at a time: the bytes are lent, and what is kept between attempts goes by value.
#![tactic(auto)]

ghost use Rattle.std.specs.Prelude.{◌≡◌, ◌+◌, ◌-◌, min, true, false, set};
ghost use Rattle.refusals.specs.Refusals.{answer_of};
ghost use Rattle.bus_memory.specs.Memory.{nothing_kept, kept_address, accesses, takes_in, transfers, word_in, reply_of, data_of, lines_with, stored_in, transfer_waits, waits_after, kept_after, stuck_of, memory_refusal_of};

use refusals::Refusal;
use state::Sample;

// The address of the last read or write that was accepted, if there was one, how many attempts are still to see REPLY low, and
// how many waits of IB, IW, OB and OW have come in a row, up to 32.
#[derive(Clone, Copy)]
pub struct Kept {
    pub access: Option<u16>,
    pub low: u8,
    pub waits: u8,
}

// Before the first access.
pub fn nothing() -> Kept
    ensures { result ≡ nothing_kept }
{
    Kept {
        access: None,
        low: 0,
        waits: 0,
    }
}

// 16 or none.
#[tactic(auto, unfolding(crate::specs::Memory::memory_refusal_of))]
pub fn refusal(size: usize, delay: u32) -> Option<Refusal>
    ensures { answer_of result ≡ memory_refusal_of size delay }
{
    if (size % 2 == 0) & (size <= 65536) & (delay <= 15) {
        return None;
    }
    Some(Refusal::Memory)
}

// Requests 1-4 are reads and writes.
#[tactic(auto, unfolding(crate::specs::Memory::accesses, choose::specs::Ranged::ranged))]
fn accesses(request: u32) -> bool
    ensures { result ≡ accesses request }
{
    matches!(request / 0x1_0000, 1..=4)
}

// IB and IW.
#[tactic(auto, unfolding(crate::specs::Memory::takes_in, choose::specs::Ranged::ranged))]
fn takes_in(code: u8) -> bool
    ensures { result ≡ takes_in code }
{
    matches!(code, 0xE0..=0xE3)
}

// IB, IW, OB and OW.
#[tactic(auto, unfolding(crate::specs::Memory::transfers, choose::specs::Ranged::ranged))]
pub fn transfers(code: u8) -> bool
    ensures { result ≡ transfers code }
{
    matches!(code, 0xE0..=0xE3 | 0xFC..=0xFD)
}

// The word at an address, whose lowest bit is ignored.
fn word(memory: &[u8], address: u16) -> u16
    ensures { result ≡ word_in memory.now address }
{
    numbers::pair_at(memory, address as usize / 2 * 2)
}

// 0 before the first access.
fn address_in(kept: Kept) -> u16
    ensures { result ≡ kept_address kept }
{
    kept.access.unwrap_or(0)
}

// REPLY of the next attempt, with SYNC as it is before it.
#[tactic(auto, unfolding(crate::specs::Memory::reply_of))]
pub fn replies(kept: Kept, size: usize, sync: bool) -> bool
    ensures { result ≡ reply_of kept size sync }
{
    sync & (kept.low == 0) & matches!(kept.access, Some(address) if (address as usize) < size)
}

// The data that the code at LC sees where the memory replies: IB and IW its word, all others the external ones.
#[tactic(auto, unfolding(crate::specs::Memory::data_of))]
fn data(memory: &[u8], address: u16, code: u8, external: u16) -> u16
    ensures { result ≡ data_of memory.now address true code external }
{
    if takes_in(code) {
        return word(memory, address);
    }
    external
}

fn lines_with(external: Sample, reply: bool, dal: u16) -> Sample
    ensures { result ≡ lines_with external reply dal }
{
    Sample {
        reply,
        dal,
        ..external
    }
}

// The lines that the next attempt sees in the place of the external ones where the memory replies, with the code at LC.
pub fn answered(memory: &[u8], kept: Kept, code: u8, external: Sample) -> Sample
    ensures { result ≡ lines_with external true (data_of memory.now (kept_address kept) true code external.dal) }
{
    let dal = data(memory, address_in(kept), code, external.dal);
    lines_with(external, true, dal)
}

// The lines that it sees where the memory does not reply: whatever the code, the external data.
pub fn silent(external: Sample) -> Sample
    ensures { result ≡ lines_with external false external.dal }
{
    lines_with(external, false, external.dal)
}

// Beyond the memory nothing is put. By its index: of a slice's `get_mut` only the length is promised.
fn put(memory: &mut [u8], at: usize, byte: u8)
    ensures { memory.new ≡ set memory.old at byte }
{
    if at < memory.len() {
        memory[at] = byte;
    }
}

// What an attempt's request stores.
#[tactic(auto, unfolding(crate::specs::Memory::stored_in))]
pub fn store(memory: &mut [u8], kept: Kept, request: u32)
    ensures { memory.new ≡ stored_in memory.old kept request }
{
    let at = address_in(kept) as usize;
    let low = (request % 0x100) as u8;
    let high = (request / 0x100 % 0x100) as u8;
    let kind = request / 0x1_0000;
    if kind == 6 {
        put(memory, at / 2 * 2, low);
        put(memory, at / 2 * 2 + 1, high);
    } else if kind == 7 {
        if at % 2 == 0 {
            put(memory, at, low);
        } else {
            put(memory, at, high);
        }
    }
}

// A wait, by a code that transfers.
#[tactic(auto, unfolding(crate::specs::Memory::transfer_waits))]
fn transfer_waits(transfer: bool, request: u32) -> bool
    ensures { result ≡ transfer_waits transfer request }
{
    (request / 0x1_0000 == 10) & transfer
}

// The waits in a row, with this attempt, counted up to the 32 that a 17 asks for.
#[tactic(auto, unfolding(crate::specs::Memory::waits_after))]
fn waits_after(waits: u8, transfer: bool, request: u32) -> u8
    ensures { result ≡ waits_after waits transfer request }
{
    if transfer_waits(transfer, request) {
        return waits.min(31) + 1;
    }
    0
}

// What is kept after an attempt that made this request; `transfer` says of a wait that its code is one of IB, IW, OB and OW. Most attempts
// make no request while there is nothing to count.
#[tactic(auto, using(crate::proofs::Laws::rests), unfolding(crate::specs::Memory::kept_after))]
pub fn after(delay: u8, kept: Kept, transfer: bool, request: u32) -> Kept
    ensures { result ≡ kept_after delay kept transfer request }
{
    if (request == 0) & (kept.low == 0) & (kept.waits == 0) {
        return kept;
    }
    if accesses(request) {
        return Kept {
            access: Some((request % 0x1_0000) as u16),
            low: delay,
            waits: 0,
        };
    }
    Kept {
        access: kept.access,
        low: kept.low.saturating_sub(1),
        waits: waits_after(kept.waits, transfer, request),
    }
}

// This wait is refused by 17.
#[tactic(auto, unfolding(crate::specs::Memory::stuck_of))]
pub fn stuck(size: usize, kept: Kept, transfer: bool, request: u32) -> bool
    ensures { result ≡ stuck_of size kept transfer request }
{
    transfer_waits(transfer, request)
        & (32 <= kept.waits)
        & matches!(kept.access, Some(address) if size <= address as usize)
}
