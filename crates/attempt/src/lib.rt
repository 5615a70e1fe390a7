// One attempt: from the sample to what it leaves.
#![tactic(auto, unfolding(choose::specs::Ranged::ranged, control::specs::Bus::bus_after, control::specs::Bus::request_of, control::specs::Latches::latches_after, control::specs::Parts::latches_after70_to77, control::specs::Parts::latches_after_input, control::specs::Parts::latches_after_load, execute::specs::Execute::registers_of, numbers::specs::Numbers::word_at, crate::specs::Attempt::modified_of, crate::specs::Attempt::reset_of, crate::specs::Effect::jumped_of, crate::specs::Effect::literal_effect, crate::specs::Effect::register_effect, crate::specs::Lent::attempt_by, crate::specs::Lent::checked_kind, crate::specs::Lent::checked_two_by, crate::specs::Lent::done_by, crate::specs::Lent::fetched_by, crate::specs::Lent::inputs_by, crate::specs::Lent::two_by, crate::specs::Lent::word_by))]

ghost use Rattle.std.specs.Prelude.{◌≡◌, ◌≤◌};
ghost use Rattle.attempt.specs.Effect.{used_up, jumped_of, literal_effect, register_effect};
ghost use Rattle.attempt.specs.Attempt.{reset_of, modified_of};
ghost use Rattle.attempt.specs.Outcome.{outcome_of, unrefused, outcome};
ghost use Rattle.attempt.specs.Lent.{done_by, two_by, checked_two_by, checked_by, fetched_by, inputs_by, attempt_by};
ghost use Rattle.control.specs.Bus.{placed};
ghost use Rattle.state.specs.File.{leaves};

use alu::Flags;
use code::{CodeRow, Fields, Operands};
use control::Way;
use cycles::Designators;
use refusals::Refusal;
use rows::{Inputs, Outputs};
use state::{Address, Bus, Core, Latches, Sample};

// What an executed instruction does, but for the next address.
#[derive(Clone, Copy)]
pub struct Effect {
    pub flags: Flags,
    pub bus: Bus,
    pub latches: Latches,
    pub way: Way,
    pub request: u32,
}

// What an attempt that is not refused leaves besides the file: the rest of the state, its request and microcycles.
#[derive(Clone, Copy)]
pub struct Done {
    pub core: Core,
    pub request: u32,
    pub cycles: u8,
}

// The modification is used up, and all else stays.
fn used_up(core: Core) -> Effect
    ensures { result ≡ used_up core }
{
    Effect {
        flags: core.flags,
        bus: core.bus,
        latches: control::used(core.latches),
        way: Way::Onward,
        request: 0,
    }
}

fn jumped(core: Core, code: u8, n: u16) -> Effect
    ensures { result ≡ jumped_of core code n }
{
    let way = control::way_of(core.address.lc, code, n, core.flags, core.latches.ics);
    Effect {
        way,
        ..used_up(core)
    }
}

fn literal(file: &mut [u8; 26], core: Core, code: u8, value: u8, reg: u8) -> Effect
    ensures { leaves file.new result ≡ literal_effect file.old core code value reg }
{
    let flags = execute::literal(file, core.latches.g, core.flags, code, value, reg);
    Effect {
        flags,
        ..used_up(core)
    }
}

// 70-77 leave the bus and make no request.
fn codes_70_to_77(
    file: &mut [u8; 26],
    core: Core,
    code: u8,
    at: Designators,
    sample: Sample,
) -> Effect
    requires { code ≤ 0x7F }
    ensures { leaves file.new result ≡ register_effect file.old core code at.b at.a sample }
{
    let l = core.latches;
    let ra = state::register(file, l.g, at.a);
    let latches = control::latches_after_70_to_77(l, code, at.b, ra);
    let flags = execute::codes_70_to_77(file, l.g, core.flags, code, at);
    Effect {
        flags,
        latches,
        ..used_up(core)
    }
}

// 80-DF leave the bus and the latches.
fn operation(file: &mut [u8; 26], core: Core, code: u8, at: Designators, sample: Sample) -> Effect
    requires { (0x80 ≤ code) × (code ≤ 0xDF) }
    ensures { leaves file.new result ≡ register_effect file.old core code at.b at.a sample }
{
    let l = core.latches;
    let flags = execute::conditioned(file, l.g, core.flags, l.ics, code, at);
    Effect {
        flags,
        ..used_up(core)
    }
}

// E0-E7 take nothing from the registers.
fn input(file: &mut [u8; 26], core: Core, code: u8, at: Designators, sample: Sample) -> Effect
    requires { (0xE0 ≤ code) × (code ≤ 0xE7) }
    ensures { leaves file.new result ≡ register_effect file.old core code at.b at.a sample }
{
    let l = core.latches;
    let dal = sample.dal;
    let bus = control::bus_after(core.bus, code, control::rmw(core.marking, l.tr, at.b), 0);
    let latches = control::latches_after_input(l, code, at.b, sample);
    let request = control::request(code, 0, dal);
    let flags = execute::input(file, l.g, core.flags, code, dal, core.bus.m, at);
    Effect {
        flags,
        bus,
        latches,
        request,
        ..used_up(core)
    }
}

// E8-EF: MI and LTR leave the bus.
fn load(file: &[u8; 26], core: Core, code: u8, at: Designators, sample: Sample) -> Effect
    requires { (0xE8 ≤ code) × (code ≤ 0xEF) }
    ensures { leaves file.now result ≡ register_effect file.now core code at.b at.a sample }
{
    let l = core.latches;
    let ra = state::register(file, l.g, at.a);
    let rb = state::register(file, l.g, at.b);
    let latches = control::latches_after_load(l, code, numbers::pair(ra, rb));
    Effect {
        latches,
        ..used_up(core)
    }
}

// F0-FF: reads and writes leave the latches, and only an input is RMW.
fn access(file: &mut [u8; 26], core: Core, code: u8, at: Designators, sample: Sample) -> Effect
    requires { 0xF0 ≤ code }
    ensures { leaves file.new result ≡ register_effect file.old core code at.b at.a sample }
{
    let l = core.latches;
    let ra = state::register(file, l.g, at.a);
    let rb = state::register(file, l.g, at.b);
    let value = numbers::pair(ra, rb);
    let bus = control::bus_after(core.bus, code, false, value);
    let request = control::request(code, value, sample.dal);
    let flags = execute::access(file, l.g, core.flags, code, at);
    Effect {
        flags,
        bus,
        request,
        ..used_up(core)
    }
}

// An executed word: its effect, the next address, its user bits, and the cycles that its row gives.
fn executed(row: CodeRow, core: Core, fields: Fields, e: Effect, o: Outputs) -> Done
    ensures { unrefused result ≡ done_by row core fields e o }
{
    let before = core.address;
    let address = control::address_after(before, e.way, fields.code, fields.load_rr, o);
    Done {
        core: Core {
            flags: e.flags,
            address,
            bus: e.bus,
            latches: e.latches,
            outputs: fields.user,
            ..core
        },
        request: e.request,
        cycles: row.cycles,
    }
}

// E0-FF. Each kind of instruction ends by itself: what they leave is then nowhere brought together.
fn bus_codes(
    row: CodeRow,
    file: &mut [u8; 26],
    core: Core,
    fields: Fields,
    at: Designators,
    sample: Sample,
    o: Outputs,
) -> Done
    requires { 0xE0 ≤ fields.code }
    ensures { leaves file.new (unrefused result) ≡ two_by row file.old core fields at.b at.a sample o }
{
    let code = fields.code;
    match code {
        0x00..=0xE7 => {
            let e = input(file, core, code, at, sample);
            executed(row, core, fields, e, o)
        }
        0xE8..=0xEF => {
            let e = load(file, core, code, at, sample);
            executed(row, core, fields, e, o)
        }
        _ => {
            let e = access(file, core, code, at, sample);
            executed(row, core, fields, e, o)
        }
    }
}

fn two(
    row: CodeRow,
    file: &mut [u8; 26],
    core: Core,
    fields: Fields,
    at: Designators,
    sample: Sample,
    o: Outputs,
) -> Done
    ensures { leaves file.new (unrefused result) ≡ two_by row file.old core fields at.b at.a sample o }
{
    let code = fields.code;
    match code {
        0x00..=0x7F => {
            let e = codes_70_to_77(file, core, code, at, sample);
            executed(row, core, fields, e, o)
        }
        0x80..=0xDF => {
            let e = operation(file, core, code, at, sample);
            executed(row, core, fields, e, o)
        }
        _ => bus_codes(row, file, core, fields, at, sample, o),
    }
}

// An attempt that only makes a request of this kind, in one microcycle: a wait, RESET, or COMPUTE low.
fn idle(core: Core, kind: u8) -> Done
    ensures { unrefused result ≡ outcome_of core (placed kind 0) 1 0 }
{
    Done {
        core,
        request: control::placed(kind, 0),
        cycles: 1,
    }
}

// Two designators: refusals, then waiting, then execution.
fn checked_two(
    row: CodeRow,
    file: &mut [u8; 26],
    core: Core,
    fields: Fields,
    at: Designators,
    sample: Sample,
    o: Outputs,
) -> Result<Done, Refusal>
    ensures { leaves file.new (outcome core result) ≡ checked_two_by row file.old core fields at.b at.a sample o }
{
    if let Some(refusal) = checks::refusal(row, fields.code, at.b) {
        return Err(refusal);
    }
    if checks::waiting(row, fields.code, sample) {
        return Ok(idle(core, 10));
    }
    Ok(two(row, file, core, fields, at, sample, o))
}

// A jump or a literal is executed at once. What is handed on here goes by itself and not in a struct: that was tried, by value and
// lent, and an attempt took 1.03 and 1.13 times the interpreter's time, which may be 1.0 (docs/SPEED.md).
fn checked(
    row: CodeRow,
    file: &mut [u8; 26],
    core: Core,
    fields: Fields,
    sample: Sample,
    o: Outputs,
) -> Result<Done, Refusal>
    ensures { leaves file.new (outcome core result) ≡ checked_by row file.old core fields sample o }
{
    match fields.operands {
        Operands::Jump(n) => {
            let e = jumped(core, fields.code, n);
            Ok(executed(row, core, fields, e, o))
        }
        Operands::Literal { value, reg } => {
            let e = literal(file, core, fields.code, value, reg);
            Ok(executed(row, core, fields, e, o))
        }
        Operands::Two { b, a } => checked_two(
            row,
            file,
            core,
            fields,
            Designators { a, b },
            sample,
            o,
        ),
    }
}

fn reset(core: Core) -> Core
    ensures { result ≡ reset_of core }
{
    let latches = control::used(core.latches);
    Core {
        address: Address {
            lc: 1,
            ..core.address
        },
        bus: Bus {
            sync: false,
            iack: false,
            ..core.bus
        },
        latches,
        ..core
    }
}

// The waiting modification is ORed into the low 16 bits.
pub fn modified(word: u32, l: Latches) -> u32
    ensures { result ≡ modified_of word l }
{
    if l.marked {
        word / 0x1_0000 * 0x1_0000 + (word % 0x1_0000 | l.modification as u32)
    } else {
        word
    }
}

// What rows are matched against, with bit 17 of the word at LC.
pub fn inputs(words: &[u8], core: Core, sample: Sample) -> Inputs
    ensures { result ≡ inputs_by words.now core sample }
{
    let stored = numbers::quad_at(words, core.address.lc as usize * 4);
    control::inputs(core, stored / 0x2_0000 % 2 == 1, sample)
}

// With RESET low and COMPUTE high: the word at LC is taken, the modification goes in, and the row of its top byte is read.
fn fetched(
    codes: &[u32; 256],
    words: &[u8],
    o: Outputs,
    file: &mut [u8; 26],
    core: Core,
    sample: Sample,
) -> Result<Done, Refusal>
    ensures { leaves file.new (outcome core result) ≡ fetched_by codes.now words.now o file.old core sample }
{
    let at = core.address.lc as usize;
    if words.len() / 4 <= at {
        return Err(Refusal::NoWord);
    }
    let stored = numbers::quad(
        words[at * 4],
        words[at * 4 + 1],
        words[at * 4 + 2],
        words[at * 4 + 3],
    );
    let word = modified(stored, core.latches);
    let row = code::row_in(codes, (word / 0x100 % 0x100) as u8);
    let fields = code::taken_apart_as(row.class, word)?;
    checked(row, file, core, fields, sample, o)
}

// By the table of top bytes that is lent, and by what the translation rows put out.
pub fn attempt(
    codes: &[u32; 256],
    words: &[u8],
    o: Outputs,
    file: &mut [u8; 26],
    core: Core,
    sample: Sample,
) -> Result<Done, Refusal>
    ensures { leaves file.new (outcome core result) ≡ attempt_by codes.now words.now o file.old core sample }
{
    if sample.reset {
        return Ok(idle(reset(core), 11));
    }
    if sample.compute {
        return fetched(codes, words, o, file, core, sample);
    }
    Ok(idle(core, 12))
}
