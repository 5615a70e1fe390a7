// Holds words to the service profile, those of a deck on standard input or the words themselves: writes `accepted`, or to standard
// error what is refused.
#![tactic(auto)]

use profile::Unfit;
use refusals::Refusal;
use state_bytes::STATE_BYTES;
use std::{io, str};

// What is typed for a word. No line gives one that is unlisted, so it stands as a number. What is spelled is ASCII.
fn line(rt: &impl Eprint, address: u32, word: u32) -> io::Result<()> {
    match code::taken_apart(word) {
        Ok(f) => {
            let line = spelling::spelled(address, f);
            rt.eprint(str::from_utf8(line.as_bytes()).unwrap_or_default())
        }
        _ => eprintln!(rt; "{address:03X} {word:06X} unlisted"),
    }
}

fn refuse(rt: &impl Eprint, words: &[u8], unfit: Unfit) -> io::Result<()> {
    eprintln!(rt; "{unfit}")?;
    match unfit {
        Unfit::Broken { address, .. } => line(
            rt,
            address as u32,
            numbers::quad_at(words, 4 * (address as usize)),
        ),
        Unfit::Range(_) => Ok(()),
    }
}

fn accepted(rt: &(impl Print + Eprint)) -> io::Result<()> {
    if println!(rt; "accepted").is_err() {
        eprintln!(rt; "the answer cannot be written")?;
    }
    Ok(())
}

fn check(rt: &(impl Print + Eprint), words: &[u8]) -> io::Result<()> {
    match profile::profile(words) {
        Ok(_) => accepted(rt),
        Err(unfit) => refuse(rt, words, unfit),
    }
}

// What is no whole deck is words. Nothing is both: the length of a deck is 2 modulo 4, that of words 0.
fn words_of(input: &[u8]) -> &[u8] {
    match deck::open(input, 0, STATE_BYTES, 1661) {
        Err(Refusal::NoDeck) => input,
        _ => deck::sections(input).words,
    }
}

// One byte more than the longest deck, so that a longer input is seen to be longer.
fn main(rt: HostRuntime) -> io::Result<()> {
    let mut buffer = [0u8; 65_537];
    match input::read_full(&mut rt.stdin(), &mut buffer) {
        Ok(n) => check(&rt, words_of(&buffer[..n])),
        Err(_) => eprintln!(rt; "the words cannot be read"),
    }
}
