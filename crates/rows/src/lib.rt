// Translation rows: a rows section made a table, the range test of a row, and the outputs of all rows that match.
#![tactic(auto)]

ghost use Rattle.std.specs.Prelude.{◌≡◌, ◌≤◌, length};
ghost use Rattle.rows.specs.Scan.{none, lta, lra, ltsr};
ghost use Rattle.rows.specs.Section.{row_from};
ghost use Rattle.rows.specs.Packing.{side_by_side, key_of, packed_of, matched_in, merged_in, outputs_in, scan_in};
ghost use Rattle.rows.specs.Table.{whole_rows, table_of};
ghost use Rattle.rows.specs.Range.{masks_fit, outputs_fit, values_in_masks, row_in_range};

// What rows are matched against, all as before the attempt: rni is bit 17 of the word, tr the selected TR byte,
// tsr TSR bits 1-0, and interrupts has I0-I6 in bits 0-6.
#[derive(Clone, Copy)]
pub struct Inputs {
    pub lc: u16,
    pub rni: u8,
    pub tr: u8,
    pub tsr: u8,
    pub interrupts: u8,
}

// What the matching rows give: the address for LTA, the lines (bit 0 LTA, 1 LRA, 2 LTSR), the new TSR for LTSR. They stay numbers, a line's bit
// beside its value, since 01 ORs the outputs of all matching rows: the address of a row without LTA counts too.
#[derive(Clone, Copy)]
pub struct Outputs {
    pub address: u16,
    pub lines: u8,
    pub new_tsr: u8,
}

// A row: it matches inputs that equal its values under its masks, and then gives its outputs.
#[derive(Clone, Copy)]
pub struct Row {
    pub mask: Inputs,
    pub value: Inputs,
    pub outputs: Outputs,
}

// A row made ready for matching: its masks side by side in one number, its values in another, its outputs in a third.
#[derive(Clone, Copy)]
pub struct Packed {
    pub mask: u32,
    pub value: u32,
    pub outputs: u32,
}

// LC in bits 0-10, RNI in 11, TSR bits 1-0 in 12-13, I0-I6 in 14-20, the TR byte above them.
#[tactic(auto, unfolding(crate::specs::Packing::side_by_side))]
fn side_by_side(i: Inputs) -> u32
    ensures { result ≡ side_by_side i }
{
    i.lc as u32 % 0x800
        + 0x800 * (i.rni as u32 % 2)
        + 0x1000 * (i.tsr as u32 % 4)
        + 0x4000 * (i.interrupts as u32 % 128)
        + 0x20_0000 * (i.tr as u32)
}

pub fn key(i: Inputs) -> u32
    ensures { result ≡ key_of i }
{
    side_by_side(i)
}

#[tactic(auto, unfolding(crate::specs::Packing::packed_of))]
fn pack(row: Row) -> Packed
    ensures { result ≡ packed_of row }
{
    let o = row.outputs;
    Packed {
        mask: side_by_side(row.mask),
        value: side_by_side(row.value),
        outputs: o.address as u32 + 0x1_0000 * (o.lines as u32) + 0x100_0000 * (o.new_tsr as u32),
    }
}

// One AND and one comparison: no value has a bit outside its mask.
#[tactic(auto, unfolding(crate::specs::Packing::matched_in))]
pub fn matched(row: Packed, key: u32) -> bool
    ensures { result ≡ matched_in row key }
{
    (key & row.mask) == row.value
}

// The outputs so far, with those of one more row if it matches.
#[tactic(auto, unfolding(crate::specs::Packing::merged_in))]
pub fn merged(o: u32, row: Packed, key: u32) -> u32
    ensures { result ≡ merged_in o row key }
{
    if matched(row, key) {
        o | row.outputs
    } else {
        o
    }
}

// A function and no constant, which could not promise that it is the paper's.
pub fn none() -> Outputs
    ensures { result ≡ none }
{
    Outputs {
        address: 0,
        lines: 0,
        new_tsr: 0,
    }
}

// Outputs as a packed row holds them, each by itself again.
pub fn unpacked(o: u32) -> Outputs
    ensures { result ≡ outputs_in o }
{
    Outputs {
        address: (o % 0x1_0000) as u16,
        lines: (o / 0x1_0000 % 0x100) as u8,
        new_tsr: (o / 0x100_0000) as u8,
    }
}

// The outputs of all matching rows, ORed. The rows stay the caller's.
#[tactic(auto, using(crate::proofs::Steps::scan_step))]
pub fn scan(rows: &[Packed], i: Inputs) -> Outputs
    ensures { result ≡ scan_in rows.now i }
{
    let key = key(i);
    let mut o = 0;
    for row in rows {
        o = merged(o, *row, key);
    }
    unpacked(o)
}

// How many whole rows of a section a table holds.
pub fn whole(s: &[u8]) -> usize
    ensures { result ≡ whole_rows s.now }
{
    (s.len() / 16).min(128)
}

// Three functions for three bits: one that took the bit's number would be longer at each call, and ask that the number is below 8.
pub fn lta(o: Outputs) -> bool
    ensures { result ≡ lta o }
{
    o.lines % 2 == 1
}

pub fn lra(o: Outputs) -> bool
    ensures { result ≡ lra o }
{
    o.lines / 2 % 2 == 1
}

pub fn ltsr(o: Outputs) -> bool
    ensures { result ≡ ltsr o }
{
    o.lines / 4 % 2 == 1
}

// No mask has an unused bit.
#[tactic(auto, unfolding(crate::specs::Range::masks_fit))]
fn masks_fit(m: Inputs) -> bool
    ensures { result ≡ masks_fit m }
{
    (m.lc <= 2047) & (m.rni <= 1) & (m.tsr <= 3) & (m.interrupts <= 127)
}

// No output has an unused bit.
#[tactic(auto, unfolding(crate::specs::Range::outputs_fit))]
fn outputs_fit(o: Outputs) -> bool
    ensures { result ≡ outputs_fit o }
{
    (o.address <= 2047) & (o.lines <= 7) & (o.new_tsr <= 7)
}

// No value of the row has a bit outside its mask.
#[tactic(auto, unfolding(crate::specs::Range::values_in_masks))]
fn values_in_masks(row: Row) -> bool
    ensures { result ≡ values_in_masks row }
{
    let m = row.mask;
    let v = row.value;
    ((v.lc & m.lc) == v.lc)
        & ((v.rni & m.rni) == v.rni)
        & ((v.tr & m.tr) == v.tr)
        & ((v.tsr & m.tsr) == v.tsr)
        & ((v.interrupts & m.interrupts) == v.interrupts)
}

#[tactic(auto, unfolding(crate::specs::Range::row_in_range))]
pub fn in_range(row: Row) -> bool
    ensures { result ≡ row_in_range row }
{
    masks_fit(row.mask) & outputs_fit(row.outputs) & values_in_masks(row)
}

// Masks and values alternate, and the outputs stand last. It runs once for a row, and two callers share it.
#[inline(never)]
#[tactic(auto, unfolding(crate::specs::Section::row_from))]
fn row_from(s: &[u8], a: usize) -> Row
    requires { a ≤ length s.now }
    ensures { result ≡ row_from s.now a }
{
    Row {
        mask: Inputs {
            lc: numbers::pair_at(s, a),
            rni: numbers::byte_at(s, a + 4),
            tr: numbers::byte_at(s, a + 6),
            tsr: numbers::byte_at(s, a + 8),
            interrupts: numbers::byte_at(s, a + 10),
        },
        value: Inputs {
            lc: numbers::pair_at(s, a + 2),
            rni: numbers::byte_at(s, a + 5),
            tr: numbers::byte_at(s, a + 7),
            tsr: numbers::byte_at(s, a + 9),
            interrupts: numbers::byte_at(s, a + 11),
        },
        outputs: Outputs {
            address: numbers::pair_at(s, a + 12),
            lines: numbers::byte_at(s, a + 14),
            new_tsr: numbers::byte_at(s, a + 15),
        },
    }
}

// The row that begins at byte a of a rows section. What is missing reads as 0, so every place past the end gives what the end gives.
#[tactic(auto, using(crate::proofs::Steps::row_past))]
pub fn row_at(s: &[u8], a: usize) -> Row
    ensures { result ≡ row_from s.now a }
{
    row_from(s, a.min(s.len()))
}

// A rows section made a table: its whole rows, at most 128, each packed, and empty rows after them.
#[tactic(auto, using(crate::proofs::Steps::filled_none, crate::proofs::Steps::filled_more))]
pub fn load(s: &[u8]) -> [Packed; 128]
    ensures { result ≡ table_of s.now }
{
    let empty = Packed {
        mask: 0,
        value: 0,
        outputs: 0,
    };
    let mut table = [empty; 128];
    for filled in 0..whole(s) {
        table[filled] = pack(row_at(s, filled * 16));
    }
    table
}
