// The run with a memory on the bus, and the bench host's entry to it.
#![tactic(auto)]

ghost use Rattle.std.specs.Prelude.{◌≡◌, ◌*◌, ◌+◌, ◌≤◌, length};
ghost use Rattle.attempt.specs.Lent.{attempt_by};
ghost use Rattle.attempt.specs.Outcome.{outcome};
ghost use Rattle.bus_memory.specs.Memory.{nothing_kept, seen_of};
ghost use Rattle.deck.specs.Elements.{sample_at};
ghost use Rattle.engine.specs.Host.{hosted};
ghost use Rattle.engine.specs.Run.{world, put4_of, samples_from};
ghost use Rattle.engine.specs.RunEnds.{lent_rows};
ghost use Rattle.memory.specs.Host.{remembered, host_with};
ghost use Rattle.memory.specs.Lent.{transfer_of, with_17, together_of, attempts_by};
ghost use Rattle.memory.specs.Run.{code_at, together, run_by};
ghost use Rattle.state.specs.File.{leaves};

use attempt::Done;
use bus_memory::Kept;
use engine::{Report, RunEnd};
use refusals::Refusal;
use rows::Outputs;
use state::{Core, Sample};

// What a run with a memory leaves besides the registers, the places and the memory's bytes.
#[derive(Clone, Copy)]
pub struct Ran {
    pub end: RunEnd,
    pub kept: Kept,
}

// As the engine's own, and so is `sample`: they ask of their caller that the place is there, so neither is public (B5), and a test in
// its place would cost each attempt.
#[tactic(auto, unfolding(engine::specs::Run::put4_of))]
fn put4(b: &mut [u8], at: usize, x: u32)
    requires { at + 4 ≤ length b.old }
    ensures { b.new ≡ put4_of b.old at x }
{
    b[at] = (x % 256) as u8;
    b[at + 1] = (x / 256 % 256) as u8;
    b[at + 2] = (x / 65536 % 256) as u8;
    b[at + 3] = (x / 16777216 % 256) as u8;
}

fn sample(samples: &[u8], i: usize) -> Sample
    requires { i * 4 + 4 ≤ length samples.now }
    ensures { result ≡ sample_at samples.now i }
{
    deck::sample(
        samples[i * 4],
        samples[i * 4 + 1],
        samples[i * 4 + 2],
        samples[i * 4 + 3],
    )
}

// The code of the word at LC, with a waiting modification.
#[tactic(auto, unfolding(crate::specs::Run::code_at, numbers::specs::Numbers::word_at))]
fn code_at(words: &[u8], core: Core) -> u8
    ensures { result ≡ code_at words.now core }
{
    let stored = numbers::quad_at(words, core.address.lc as usize * 4);
    let word = attempt::modified(stored, core.latches);
    (word / 0x100 % 0x100) as u8
}

// The lines that the next attempt sees. Only where the memory replies is the code looked at.
#[tactic(auto, unfolding(bus_memory::specs::Memory::seen_of, bus_memory::specs::Memory::data_of))]
fn seen(words: &[u8], memory: &[u8], kept: Kept, core: Core, external: Sample) -> Sample
    ensures { result ≡ seen_of memory.now kept core.bus.sync (code_at words.now core) external }
{
    if bus_memory::replies(kept, memory.len(), core.bus.sync) {
        return bus_memory::answered(memory, kept, code_at(words, core), external);
    }
    bus_memory::silent(external)
}

// Of a wait, whether its code transfers. Only of a wait is the code looked at.
#[tactic(auto, unfolding(crate::specs::Lent::transfer_of))]
fn transfer(words: &[u8], core: Core, request: u32) -> bool
    ensures { result ≡ transfer_of words.now core request }
{
    if request / 0x1_0000 == 10 {
        return bus_memory::transfers(code_at(words, core));
    }
    false
}

// An attempt with the memory's lines, refused by 17 too.
#[tactic(auto, unfolding(crate::specs::Lent::with_17))]
fn attempted(
    codes: &[u32; 256],
    words: &[u8],
    o: Outputs,
    memory: &[u8],
    kept: Kept,
    file: &mut [u8; 26],
    core: Core,
    external: Sample,
) -> Result<Done, Refusal>
    ensures { leaves file.new (outcome core result) ≡ with_17 words.now (length memory.now) kept core file.old (attempt_by codes.now words.now o file.old core (seen_of memory.now kept core.bus.sync (code_at words.now core) external)) }
{
    let seen = seen(words, memory, kept, core, external);
    let done = match attempt::attempt(codes, words, o, file, core, seen) {
        Ok(done) => done,
        Err(refusal) => return Err(refusal),
    };
    let transfer = transfer(words, core, done.request);
    if bus_memory::stuck(memory.len(), kept, transfer, done.request) {
        return Err(Refusal::NoReply);
    }
    Ok(done)
}

// An attempt for each of n samples, until one is refused; the memory takes the request of each that counts.
fn attempts(
    codes: &[u32; 256],
    words: &[u8],
    part: &[u8],
    samples: &[u8],
    delay: u8,
    memory: &mut [u8],
    requests: &mut [u8],
    file: &mut [u8; 26],
    first: Core,
    n: usize,
) -> Ran
    requires { (n ≤ 65535) × (n * 4 ≤ length requests.old) × (n * 4 ≤ length samples.now) }
    ensures { together_of result file.new requests.new memory.new ≡ run_by (attempts_by codes.now words.now (lent_rows part.now)) words.now delay (samples_from samples.now 0 n) (together (world file.old first 0 0 0 requests.old) memory.old nothing_kept) }
{
    let table = rows::load(part);
    let m = rows::whole(part);
    let mut core = first;
    let mut microcycles: u32 = 0;
    let mut kept = bus_memory::nothing();
    for i in 0..n {
        let external = sample(samples, i);
        let o = rows::scan(&table[..m], engine::inputs(words, core, external, m));
        let done = match attempted(codes, words, o, memory, kept, file, core, external) {
            Ok(done) => done,
            Err(refusal) => {
                let end = RunEnd {
                    core,
                    answer: Some(refusal),
                    attempts: i as u32,
                    microcycles,
                };
                return Ran { end, kept };
            }
        };
        let transfer = transfer(words, core, done.request);
        bus_memory::store(memory, kept, done.request);
        put4(requests, i * 4, done.request);
        kept = bus_memory::after(delay, kept, transfer, done.request);
        core = done.core;
        microcycles += done.cycles as u32;
    }
    let end = RunEnd {
        core,
        answer: None,
        attempts: n as u32,
        microcycles,
    };
    Ran { end, kept }
}

// The bench host's entry with a memory on the bus: beside what a run takes, the memory's bytes and how many attempts after an
// access see REPLY low. The samples are the external lines.
pub fn run_with_memory(
    deck: &[u8],
    memory: &mut [u8],
    delay: u32,
    requests: &mut [u8],
    state: &mut [u8],
    marking: u32,
) -> Report
    ensures { remembered (hosted result requests.new state.new) memory.new ≡ host_with deck.now memory.old delay requests.old state.old marking }
{
    let opened = match deck::open(deck, requests.len(), state.len(), marking) {
        Ok(opened) => opened,
        Err(refusal) => return Report::from(refusal),
    };
    let parts = opened.deck;
    if let Some(refusal) = bus_memory::refusal(memory.len(), delay) {
        return Report::from(refusal);
    }
    let mut file = [0u8; 26];
    let core = state_bytes::load(parts.state, opened.marking, &mut file);
    let codes = code::rows();
    let n = parts.samples.len() / 4;
    let ran = attempts(
        &codes,
        parts.words,
        parts.rows,
        parts.samples,
        delay as u8,
        memory,
        requests,
        &mut file,
        core,
        n,
    );
    state_bytes::store(ran.end.core, &file, state);
    Report::from(ran.end)
}
