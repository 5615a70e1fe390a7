// A deck's bytes: its four sections, each handed back as that part of the deck, what they hold, and the refusals before the first attempt.
#![tactic(auto)]

ghost use Rattle.std.specs.Prelude.{◌≡◌, ◌+◌, ◌*◌, ◌<◌, ◌≤◌, false, true, length, drop, IfOk, MatchOption, MatchResult};
ghost use Rattle.refusals.specs.Refusals.{refused_by};
ghost use Rattle.state.specs.Marking.{marking_of};
ghost use Rattle.state_bytes.specs.Bytes.{state_bytes};
ghost use Rattle.deck.specs.Sections.{section_end, layout_of, part_of, whole_of};
ghost use Rattle.deck.specs.Layouts.{between};
ghost use Rattle.deck.specs.Parts.{IsCut};
ghost use Rattle.deck.specs.Elements.{sample_of};
ghost use Rattle.deck.specs.Ranges.{words_in_range, rows_part_in_range, samples_in_range, deck_refusal_of};
ghost use Rattle.deck.specs.Quads.{every_quad};

use refusals::Refusal;
use state::{Marking, Sample};
use state_bytes::STATE_BYTES;

// A deck's four sections, without their counts, each that part of the deck itself.
#[derive(Clone, Copy, Default)]
pub struct Deck<'a> {
    pub words: &'a [u8],
    pub rows: &'a [u8],
    pub state: &'a [u8],
    pub samples: &'a [u8],
}

// The section that bytes start with, of elements of so many bytes each, and what comes after it.
#[tactic(auto, unfolding(crate::specs::Sections::section_end))]
fn section(bytes: &[u8], size: usize) -> Option<(&[u8], &[u8])>
    requires { size ≤ state_bytes }
    ensures { MatchOption result (length bytes.now < section_end bytes.now 0 size) (λ p. (section_end bytes.now 0 size ≤ length bytes.now) × (p.0.now ≡ part_of bytes.now 0 size) × (p.1.now ≡ drop (section_end bytes.now 0 size) bytes.now)) }
{
    let (&[low, high], after) = bytes.split_first_chunk::<2>()?;
    let n = size * numbers::pair(low, high) as usize;
    if n <= after.len() {
        Some(after.split_at(n))
    } else {
        None
    }
}

// A deck is as long as its counts say and no longer than a deck may be, and it has one state.
fn cut(deck: &[u8]) -> Option<Deck>
    ensures { MatchOption result (whole_of deck.now ≡ false) (λ d. (whole_of deck.now ≡ true) × IsCut d deck.now) }
{
    let (words, rest) = section(deck, 4)?;
    let (rows, rest) = section(rest, 16)?;
    let (state, rest) = section(rest, STATE_BYTES)?;
    let (samples, rest) = section(rest, 4)?;
    let whole = (deck.len() <= 65536) & (state.len() == STATE_BYTES) & rest.is_empty();
    let parts = Deck {
        words,
        rows,
        state,
        samples,
    };
    whole.then_some(parts)
}

// What is no whole deck has no sections: each is empty.
pub fn sections(deck: &[u8]) -> Deck
    ensures { IsCut result deck.now }
{
    cut(deck).unwrap_or_default()
}

// Where the sections after the words start, each at its count, and where the last one ends.
#[derive(Clone, Copy)]
pub struct Layout {
    pub rows: usize,
    pub state: usize,
    pub samples: usize,
    pub end: usize,
}

// Where the section that starts at byte a ends, which has elements of size bytes: the next one starts there.
#[tactic(auto, unfolding(crate::specs::Sections::section_end))]
fn section_end(deck: &[u8], a: usize, size: usize) -> usize
    requires { (a ≤ 16777216) × (size ≤ state_bytes) }
    ensures { (result ≡ section_end deck.now a size) × (result ≤ a + 2 + state_bytes * 65535) }
{
    let count = numbers::pair_at(deck, a) as usize;
    a + 2 + size * count
}

// Bytes of any length have a layout, those of no whole deck too: it tells where a damaged deck's sections would be.
#[tactic(auto, unfolding(crate::specs::Sections::layout_of))]
pub fn layout_of(deck: &[u8]) -> Layout
    ensures { result ≡ layout_of deck.now }
{
    let rows = section_end(deck, 0, 4);
    let state = section_end(deck, rows, 16);
    let samples = section_end(deck, state, STATE_BYTES);
    let end = section_end(deck, samples, 4);
    Layout {
        rows: rows,
        state: state,
        samples: samples,
        end: end,
    }
}

// The section whose count is at byte a and which ends before byte end; the empty part where the deck has none such.
#[tactic(auto, unfolding(crate::specs::Layouts::between))]
fn between(deck: &[u8], a: usize, end: usize) -> &[u8]
    ensures { result.now ≡ between deck.now a end }
{
    if (end <= deck.len()) & (a <= end) {
        let from = a + 2;
        if from <= end {
            return &deck[from..end];
        }
    }
    &deck[0..0]
}

pub fn words(deck: &[u8], l: Layout) -> &[u8]
    ensures { result.now ≡ between deck.now 0 l.rows }
{
    between(deck, 0, l.rows)
}

pub fn rows(deck: &[u8], l: Layout) -> &[u8]
    ensures { result.now ≡ between deck.now l.rows l.state }
{
    between(deck, l.rows, l.state)
}

pub fn state(deck: &[u8], l: Layout) -> &[u8]
    ensures { result.now ≡ between deck.now l.state l.samples }
{
    between(deck, l.state, l.samples)
}

pub fn samples(deck: &[u8], l: Layout) -> &[u8]
    ensures { result.now ≡ between deck.now l.samples l.end }
{
    between(deck, l.samples, l.end)
}

// The sample that four bytes hold. An array of them would be taken apart into these names again.
pub fn sample(low: u8, high: u8, lines: u8, interrupts: u8) -> Sample
    ensures { result ≡ sample_of low high lines interrupts }
{
    Sample {
        reply: lines % 2 == 1,
        dal: numbers::pair(low, high),
        busy: lines / 2 % 2 == 1,
        compute: lines / 4 % 2 == 1,
        reset: lines / 8 % 2 == 1,
        ics: lines / 16 % 2 == 1,
        interrupts,
    }
}

// Words and samples alike, four bytes each: none has one of the unused bits. All are looked at, so that several go at once.
#[tactic(auto, unfolding(crate::specs::Quads::every_quad))]
fn every_quad(part: &[u8], unused: u32) -> bool
    ensures { result ≡ every_quad part.now unused }
{
    let mut seen = 0;
    for &[b0, b1, b2, b3] in part.as_chunks::<4>().0 {
        seen |= numbers::quad(b0, b1, b2, b3) & unused;
    }
    seen == 0
}

// 22 bits. Words and samples share the loop: one function with both limits as const parameters would be no shorter.
pub fn words_in_range(part: &[u8]) -> bool
    ensures { result ≡ words_in_range part.now }
{
    (part.len() / 4 <= 2048) & every_quad(part, 0xFFC0_0000)
}

// 16 bits of data, five lines and four interrupts.
pub fn samples_in_range(part: &[u8]) -> bool
    ensures { result ≡ samples_in_range part.now }
{
    (part.len() / 4 <= 65535) & every_quad(part, 0xF0E0_0000)
}

// More than 128 rows are refused unread: a table has room for no more.
#[inline(always)]
#[tactic(auto, unfolding(crate::specs::Ranges::rows_part_in_range))]
pub fn rows_in_range(part: &[u8]) -> bool
    ensures { result ≡ rows_part_in_range part.now }
{
    let n = part.len() / 16;
    if 128 < n {
        return false;
    }
    for i in 0..n {
        if !rows::in_range(rows::row_at(part, i * 16)) {
            return false;
        }
    }
    true
}

// A deck that is not refused before its first attempt, and the chip's marking.
#[derive(Clone, Copy)]
pub struct Opened<'a> {
    pub deck: Deck<'a>,
    pub marking: Marking,
}

fn unless(test: bool, refusal: Refusal) -> Result<(), Refusal>
    ensures { MatchResult result (λ _. test ≡ true) (λ r. (test ≡ false) × (r ≡ refusal)) }
{
    if test { Ok(()) } else { Err(refusal) }
}

// The lengths are those of the host's two buffers, in bytes.
#[tactic(auto, unfolding(crate::specs::Ranges::deck_refusal_of))]
pub fn open(
    deck: &[u8],
    requests_len: usize,
    state_len: usize,
    marking: u32,
) -> Result<Opened, Refusal>
    ensures refusal { refused_by result ≡ deck_refusal_of deck.now requests_len state_len marking }
    ensures opened { IfOk result (λ o. IsCut o.deck deck.now × (o.marking ≡ marking_of marking)) }
{
    let parts = cut(deck).ok_or(Refusal::NoDeck)?;
    unless(state_len == STATE_BYTES, Refusal::NoDeck)?;
    let marking = Marking::try_from(marking)?;
    unless(state_bytes::in_range(parts.state), Refusal::StateRange)?;
    unless(words_in_range(parts.words), Refusal::WordRange)?;
    unless(rows_in_range(parts.rows), Refusal::RowRange)?;
    unless(samples_in_range(parts.samples), Refusal::SampleRange)?;
    let places = requests_len / 4;
    unless(parts.samples.len() / 4 <= places, Refusal::SampleRange)?;
    Ok(Opened {
        deck: parts,
        marking,
    })
}
