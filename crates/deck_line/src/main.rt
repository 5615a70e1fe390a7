// Reads a deck from standard input and prints one line: answer, attempts, microcycles, LC, flag byte; for 9 only the first three.
// Its argument is the control chip's marking, in decimal; without one it is 1661.
#![tactic(auto)]

use state_bytes::STATE_BYTES;
use std::env::FillError;
use std::io;
use std::rt::Env;

// LC and the flag byte of a state's bytes.
fn lc_and_flags(state: &[u8]) -> (u16, u8) {
    (numbers::pair_at(state, 28), numbers::byte_at(state, 27))
}

// A deck of 65,536 bytes has fewer samples than the places here. On 1-4 and 24 there is no other state than the deck's own.
fn line(rt: &impl Print, deck: &[u8], marking: u32) -> io::Result<()> {
    let mut requests = [0u8; 65_536];
    let mut state = [0u8; STATE_BYTES];
    let r = engine::run(deck, &mut requests, &mut state, marking);
    let (answer, attempts, microcycles) = (r.answer, r.attempts, r.microcycles);
    print!(rt; "{answer} {attempts} {microcycles}")?;
    if answer == 9 {
        return println!(rt);
    }
    let (lc, flags) = match answer {
        1..=4 | 24 => lc_and_flags(deck::sections(deck).state),
        _ => lc_and_flags(&state),
    };
    println!(rt; " {lc} {flags}")
}

// Digits alone; a word without digits comes to 0, which is no marking either.
fn decimal(word: &[u8]) -> Option<u32> {
    word.iter().try_fold(0u32, |n, c| {
        let digit = char::from(*c).to_digit(10)?;
        n.checked_mul(10)?.checked_add(digit)
    })
}

// What the arguments name; a word that is longer than its place names nothing.
fn marking(rt: &impl Env) -> Option<u32> {
    if !matches!(rt.arg(2, &mut []), Err(FillError::NotPresent)) {
        return None;
    }
    let mut word = [0u8; 10];
    match rt.arg(1, &mut word) {
        Ok(n) => decimal(&word[..n]),
        Err(FillError::TooLong) => None,
        Err(FillError::NotPresent) => Some(1661),
    }
}

// One byte more than the longest deck, so that a longer one is seen to be longer. An input that cannot be read is an empty one.
// No chip has 0 as its marking.
fn main(rt: HostRuntime) -> io::Result<()> {
    let mut buffer = [0u8; 65_537];
    let n = input::read_full(&mut rt.stdin(), &mut buffer).unwrap_or(0);
    line(&rt, &buffer[..n], marking(&rt).unwrap_or(0))
}
