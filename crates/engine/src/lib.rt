// The run, and the bench host's entry.
#![tactic(auto)]

ghost use Rattle.std.specs.Prelude.{◌≡◌, ◌*◌, ◌+◌, ◌<◌, ◌≤◌, length};
ghost use Rattle.deck.specs.Elements.{sample_at};
ghost use Rattle.engine.specs.Run.{world, put4_of, samples_from};
ghost use Rattle.engine.specs.RunEnds.{world_of, inputs_for, lent_rows, run_by};
ghost use Rattle.engine.specs.Host.{hosted, reported, host_of};
ghost use Rattle.refusals.specs.Refusals.{number_of, answer_of};

use refusals::Refusal;
use rows::Inputs;
use state::{Core, Sample};

#[tactic(auto, unfolding(crate::specs::Run::put4_of))]
fn put4(b: &mut [u8], at: usize, x: u32)
    requires { at + 4 ≤ length b.old }
    ensures { b.new ≡ put4_of b.old at x }
{
    b[at] = (x % 256) as u8;
    b[at + 1] = (x / 256 % 256) as u8;
    b[at + 2] = (x / 65536 % 256) as u8;
    b[at + 3] = (x / 16777216 % 256) as u8;
}

// What a run leaves besides the registers and the places.
#[derive(Clone, Copy)]
pub struct RunEnd {
    pub core: Core,
    pub answer: Option<Refusal>,
    pub attempts: u32,
    pub microcycles: u32,
}

fn sample(samples: &[u8], i: usize) -> Sample
    requires { i * 4 + 4 ≤ length samples.now }
    ensures { result ≡ sample_at samples.now i }
{
    deck::sample(
        samples[i * 4],
        samples[i * 4 + 1],
        samples[i * 4 + 2],
        samples[i * 4 + 3],
    )
}

// What m rows are matched against. Without rows nothing is looked at.
#[tactic(auto, unfolding(crate::specs::RunEnds::inputs_for))]
pub fn inputs(words: &[u8], core: Core, sample: Sample, m: usize) -> Inputs
    ensures { result ≡ inputs_for m words.now core sample }
{
    if m == 0 {
        return Inputs {
            lc: 0,
            rni: 0,
            tr: 0,
            tsr: 0,
            interrupts: 0,
        };
    }
    attempt::inputs(words, core, sample)
}

// An attempt for each of n samples, until one is refused. The rows are made a table once, and its whole rows are lent to each attempt.
fn attempts(
    codes: &[u32; 256],
    words: &[u8],
    part: &[u8],
    samples: &[u8],
    requests: &mut [u8],
    file: &mut [u8; 26],
    first: Core,
    n: usize,
) -> RunEnd
    requires { (n ≤ 65535) × (n * 4 ≤ length requests.old) × (n * 4 ≤ length samples.now) }
    ensures { world_of result file.new requests.new ≡ run_by codes.now words.now (lent_rows part.now) (samples_from samples.now 0 n) (world file.old first 0 0 0 requests.old) }
{
    let table = rows::load(part);
    let m = rows::whole(part);
    let mut core = first;
    let mut microcycles: u32 = 0;
    for i in 0..n {
        let sample = sample(samples, i);
        let o = rows::scan(&table[..m], inputs(words, core, sample, m));
        let done = match attempt::attempt(codes, words, o, file, core, sample) {
            Ok(done) => done,
            Err(refusal) => {
                return RunEnd {
                    core,
                    answer: Some(refusal),
                    attempts: i as u32,
                    microcycles,
                };
            }
        };
        put4(requests, i * 4, done.request);
        core = done.core;
        microcycles += done.cycles as u32;
    }
    RunEnd {
        core,
        answer: None,
        attempts: n as u32,
        microcycles,
    }
}

#[repr(C)]
#[derive(Clone, Copy)]
pub struct Report {
    pub answer: u32,
    pub attempts: u32,
    pub microcycles: u32,
}

// 01's number of an answer: 0 where nothing was refused.
fn number(answer: Option<Refusal>) -> u8
    ensures { result ≡ answer_of answer }
{
    match answer {
        Some(refusal) => refusal.number(),
        None => 0,
    }
}

// Refused before the first attempt.
impl From<Refusal> for Report {
    ghost from_gives = { λ refusal report. report ≡ reported (number_of refusal) 0 0 };

    fn from(refusal: Refusal) -> Report {
        Report {
            answer: refusal.number() as u32,
            attempts: 0,
            microcycles: 0,
        }
    }
}

impl From<RunEnd> for Report {
    ghost from_gives = { λ end report. report ≡ reported (answer_of end.answer) end.attempts end.microcycles };

    fn from(end: RunEnd) -> Report {
        Report {
            answer: number(end.answer) as u32,
            attempts: end.attempts,
            microcycles: end.microcycles,
        }
    }
}

// The bench host's entry: a deck's bytes, a place of four bytes for each sample, a state's bytes for the state returned, and the chip's marking.
pub fn run(deck: &[u8], requests: &mut [u8], state: &mut [u8], marking: u32) -> Report
    ensures { hosted result requests.new state.new ≡ host_of deck.now requests.old state.old marking }
{
    let opened = match deck::open(deck, requests.len(), state.len(), marking) {
        Ok(opened) => opened,
        Err(refusal) => return Report::from(refusal),
    };
    let parts = opened.deck;
    let mut file = [0u8; 26];
    let core = state_bytes::load(parts.state, opened.marking, &mut file);
    let codes = code::rows();
    let n = parts.samples.len() / 4;
    let ran = attempts(
        &codes,
        parts.words,
        parts.rows,
        parts.samples,
        requests,
        &mut file,
        core,
        n,
    );
    state_bytes::store(ran.core, &file, state);
    Report::from(ran)
}
