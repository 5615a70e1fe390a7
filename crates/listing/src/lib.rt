// The assembler and the lister, for hosts.
#![tactic(auto)]

ghost use Rattle.std.specs.Prelude.{◌≡◌, ◌==◌, ◌*◌, ◌-◌, ◌≤◌, [], ◌∷◌, length, replicate, Err, IfErr};
ghost use Rattle.std.proofs.lemmas.List.Edits.{sets};
ghost use Rattle.pieces.specs.Parts.{lines_of};
ghost use Rattle.choose.specs.Below.{firsts};
ghost use Rattle.numbers.specs.Numbers.{word_at};
ghost use Rattle.code.specs.Word.{apart_of, number_of};
ghost use Rattle.spelling.specs.Line.{text_of};
ghost use Rattle.listing.specs.Laid.{Laid};
ghost use Rattle.listing.specs.Assembled.{report_of, bytes_of, words_from, refusal_from};
ghost use Rattle.listing.specs.Assembled.{assembled_of, assembled_into, text_report, assembled_report};
ghost use Rattle.listing.specs.Listed.{word_count, place_below, first_with, word_line, listing_from};
ghost use Rattle.listing.specs.Listed.{listed_of, listed_into, words_report, listed_report, IsAmong};

use code::Unread;
use refusals::Refusal;
use spelling::Line;
use std::fmt;

const NOP: u32 = 0xFF00;

// The number; the line for 10-12, the word's address for 2 and 6, else 0; the bytes written, or with 27 needed, else 0.
#[repr(C)]
#[derive(Clone, Copy)]
pub struct Report {
    pub answer: u32,
    pub at: u32,
    pub length: u32,
}

// Why a text is not assembled.
#[derive(Clone, Copy)]
pub enum TextRefused {
    // The first bad line, counted from 1.
    Line { number: u32, why: Refusal },
    // The bytes that there is no room for.
    Room { needed: u32 },
}

impl From<TextRefused> for Report {
    ghost from_gives = { λ refused report. report ≡ text_report refused };

    fn from(refused: TextRefused) -> Report {
        match refused {
            TextRefused::Line { number, why } => told(why.number() as u32, number, 0),
            TextRefused::Room { needed } => told(27, 0, needed),
        }
    }
}

// Why words have no listing.
#[derive(Clone, Copy)]
pub enum WordsRefused {
    // The first word that is no listed one.
    Word { address: u16, why: Unread },
    // Over 2,048 words, or a length that is no multiple of 4.
    Length,
    // The bytes that there is no room for.
    Room { needed: u32 },
}

impl WordsRefused {
    // Whether it is the lister's 2.
    pub fn is_range(self) -> bool
        ensures { result ≡ ((words_report self).answer == 2) }
    {
        match self {
            WordsRefused::Word { why, .. } => why == Unread::OutOfRange,
            WordsRefused::Length => true,
            WordsRefused::Room { .. } => false,
        }
    }
}

impl fmt::Display for WordsRefused {
    fn fmt<W: fmt::Write>(&self, f: &mut fmt::Formatter<W>) -> fmt::Result {
        match *self {
            WordsRefused::Word {
                address,
                why: Unread::OutOfRange,
            } => write!(f, "word {address:03X}: 2 word of 2^22 or more"),
            WordsRefused::Word {
                address,
                why: Unread::Unlisted,
            } => write!(f, "word {address:03X}: 6 code unlisted"),
            WordsRefused::Length => write!(
                f,
                "2 over 2,048 words, or a length that is no multiple of 4"
            ),
            WordsRefused::Room { needed } => write!(f, "27 {needed} bytes needed"),
        }
    }
}

impl From<WordsRefused> for Report {
    ghost from_gives = { λ refused report. report ≡ words_report refused };

    fn from(refused: WordsRefused) -> Report {
        match refused {
            WordsRefused::Word {
                address,
                why: Unread::OutOfRange,
            } => told(2, address as u32, 0),
            WordsRefused::Word {
                address,
                why: Unread::Unlisted,
            } => told(6, address as u32, 0),
            WordsRefused::Length => told(2, 2048, 0),
            WordsRefused::Room { needed } => told(27, 0, needed),
        }
    }
}

fn told(answer: u32, at: u32, length: u32) -> Report
    ensures { result ≡ report_of answer at length }
{
    Report { answer, at, length }
}

// Bytes into an output, as far as there is room. One by one, since a copy of part of a slice has a host's archive ask for memcpy.
fn put(out: &mut [u8], at: usize, bytes: &[u8])
    ensures { out.new ≡ sets out.old at bytes.now }
{
    if at < out.len() {
        for i in 0..bytes.len() {
            if at + i < out.len() {
                out[at + i] = bytes[i];
            }
        }
    }
}

#[tactic(auto, unfolding(crate::specs::Assembled::bytes_of))]
fn put_word(words: &mut [u8], address: u32, word: u32)
    ensures { words.new ≡ sets words.old (4 * address) (bytes_of (word ∷ [])) }
{
    put(words, 4 * (address as usize), &word.to_le_bytes());
}

// The gap before an address.
fn fill(words: &mut [u8], next: u32, address: u32)
    ensures { words.new ≡ sets words.old (4 * next) (bytes_of (replicate (address - next) 0xFF00)) }
{
    for at in next..address {
        put_word(words, at, NOP);
    }
}

// Assembles a text up to its end or its first bad line, as far as there is room. The length of all words.
fn assembled(text: &[u8], words: &mut [u8]) -> Result<u32, TextRefused>
    ensures { (assembled_report result ≡ refusal_from 1 0 (lines_of text.now)) × (words.new ≡ sets words.old 0 (bytes_of (words_from 0 (lines_of text.now)))) }
{
    let mut number: u32 = 1;
    let mut next: u32 = 0;
    let mut left = text;
    while let Some((line, rest)) = pieces::first_line(left) {
        match line::line_of(line, next) {
            Err(why) => return Err(TextRefused::Line { number, why }),
            Ok(placed) => {
                fill(words, next, placed.address);
                put_word(words, placed.address, placed.word);
                next = placed.address + 1;
            }
        }
        number += 1;
        left = rest;
    }
    Ok(4 * next)
}

// Nothing is written before the whole text is known to be good and to have its room. The length that is written.
pub fn assemble(text: &[u8], words: &mut [u8]) -> Result<u32, TextRefused>
    ensures { (assembled_report result ≡ assembled_of text.now (length words.old)) × (words.new ≡ assembled_into text.now words.old) }
{
    let mut scratch = [0u8; 1];
    let needed = assembled(text, &mut scratch)?;
    if words.len() < needed as usize {
        return Err(TextRefused::Room { needed });
    }
    assembled(text, words)
}

// How many words are looked at.
fn count(words: &[u8]) -> u16
    ensures { (result ≡ word_count words.now) × (result ≤ 2048) }
{
    (words.len() / 4).min(2048) as u16
}

#[tactic(auto, unfolding(numbers::specs::Numbers::word_at))]
fn word(words: &[u8], i: u16) -> u32
    ensures { result ≡ word_at words.now i }
{
    numbers::quad_at(words, i as usize * 4)
}

// Whether a word is no listed one, and for this reason.
fn is_unread(word: u32, why: Unread) -> bool
    ensures { result ≡ (number_of (apart_of word) == number_of (Err why)) }
{
    match code::taken_apart(word) {
        Ok(_) => false,
        Err(e) => e == why,
    }
}

// The first of n words that is no listed one for this reason.
fn first_with(words: &[u8], n: u16, why: Unread) -> Option<u16>
    ensures { result ≡ place_below n (first_with (number_of (Err why)) 0 (firsts (word_at words.now) 0 n)) }
{
    for i in 0..n {
        if is_unread(word(words, i), why) {
            return Some(i);
        }
    }
    None
}

// The line of one word; no byte for one that isn't listed.
fn word_line(address: u16, word: u32) -> Line
    ensures { text_of result ≡ word_line address word }
{
    match code::taken_apart(word) {
        Ok(f) => spelling::spelled(address as u32, f),
        Err(_) => Line::new(),
    }
}

// The lines of n words, as far as there is room, and their length.
fn listed(words: &[u8], n: u16, text: &mut [u8]) -> u32
    ensures { Laid text.old 0 (listing_from 0 (firsts (word_at words.now) 0 n)) (40 * n) text.new result }
{
    let mut at = 0;
    for address in 0..n {
        let line = word_line(address, word(words, address));
        let bytes = line.as_bytes();
        put(text, at as usize, bytes);
        at += bytes.len() as u32;
    }
    at
}

// Nothing is written before all words are known to be listed and to have their room. The length that is written.
pub fn list_words(words: &[u8], text: &mut [u8]) -> Result<u32, WordsRefused>
    ensures told { (listed_report result ≡ listed_of words.now (length text.old)) × (text.new ≡ listed_into words.now text.old) }
    ensures among { IfErr result (IsAmong words.now) }
{
    let n = count(words);
    if let Some(address) = first_with(words, n, Unread::OutOfRange) {
        return Err(WordsRefused::Word {
            address,
            why: Unread::OutOfRange,
        });
    }
    if !((words.len() % 4 == 0) & (words.len() <= 8192)) {
        return Err(WordsRefused::Length);
    }
    if let Some(address) = first_with(words, n, Unread::Unlisted) {
        return Err(WordsRefused::Word {
            address,
            why: Unread::Unlisted,
        });
    }
    let mut scratch = [0u8; 1];
    let needed = listed(words, n, &mut scratch);
    if text.len() < needed as usize {
        return Err(WordsRefused::Room { needed });
    }
    listed(words, n, text);
    Ok(needed)
}
