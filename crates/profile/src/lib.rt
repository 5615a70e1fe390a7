// The service profile of plants' microcode: four rules, over the bytes of words.
#![tactic(auto)]

ghost use Rattle.std.specs.Prelude.{◌≡◌, ◌==◌, IfErr};
ghost use Rattle.choose.specs.Below.{firsts};
ghost use Rattle.choose.specs.Ranged.{pick};
ghost use Rattle.numbers.specs.Numbers.{word_at};
ghost use Rattle.listing.specs.Listed.{listed_of};
ghost use Rattle.profile.specs.Profile.{report_of, within, no_run, rule_of, broken_from, profile_of};
ghost use Rattle.profile.specs.Told.{rule_number, number_of_rule, unfit_report, profile_report, RangeIsAmong};

use listing::WordsRefused;
use std::fmt;

// The answer is 0, 2 with the lister's address, or 25 with the first offending address and the first rule broken there; address and rule are otherwise 0.
#[repr(C)]
#[derive(Clone, Copy)]
pub struct Report {
    pub answer: u32,
    pub address: u32,
    pub rule: u32,
}

// The rules, in the order in which they are held.
#[derive(Clone, Copy, PartialEq, Eq)]
pub enum Rule {
    NoMi,
    RrByJumps,
    FirstWord,
    Runs,
}

impl Rule {
    pub fn number(self) -> u32
        ensures { result ≡ rule_number self }
    {
        match self {
            Rule::NoMi => 1,
            Rule::RrByJumps => 2,
            Rule::FirstWord => 3,
            Rule::Runs => 4,
        }
    }
}

impl fmt::Display for Rule {
    fn fmt<W: fmt::Write>(&self, f: &mut fmt::Formatter<W>) -> fmt::Result {
        match self {
            Rule::NoMi => write!(f, "1: no MI"),
            Rule::RrByJumps => write!(f, "2: RR loaded only by JMP or a conditional jump"),
            Rule::FirstWord => write!(f, "3: no word at address 0 but NOP or JMP"),
            Rule::Runs => write!(f, "4: no unlisted code and no CAD"),
        }
    }
}

// Why words are not accepted: the lister's 2, or the first offending address and the first rule broken there.
#[derive(Clone, Copy)]
pub enum Unfit {
    Range(WordsRefused),
    Broken { address: u16, rule: Rule },
}

impl fmt::Display for Unfit {
    fn fmt<W: fmt::Write>(&self, f: &mut fmt::Formatter<W>) -> fmt::Result {
        match *self {
            Unfit::Range(refused) => write!(f, "{refused}"),
            Unfit::Broken { address, rule } => write!(
                f,
                "word {address:03X}: 25 profile broken, rule {rule}"
            ),
        }
    }
}

impl From<Unfit> for Report {
    ghost from_gives = { λ unfit report. report ≡ unfit_report unfit };

    fn from(unfit: Unfit) -> Report {
        match unfit {
            Unfit::Range(refused) => Report {
                answer: 2,
                address: listing::Report::from(refused).at,
                rule: 0,
            },
            Unfit::Broken { address, rule } => Report {
                answer: 25,
                address: address as u32,
                rule: rule.number(),
            },
        }
    }
}

fn within(first: u8, last: u8, top: u8) -> bool
    ensures { result ≡ within first last top }
{
    (first..=last).contains(&top)
}

// An unlisted code, and CAD.
#[tactic(auto, unfolding(crate::specs::Profile::no_run))]
fn no_run(top: u8) -> bool
    ensures { result ≡ no_run top }
{
    !code::is_listed(code::class_of(top)) | (top == 0xAC)
}

// The first rule that a word at an address breaks.
#[tactic(auto, unfolding(crate::specs::Profile::rule_of))]
pub fn rule_broken(address: u32, word: u32) -> Option<Rule>
    ensures { number_of_rule result ≡ rule_of address word }
{
    let top = (word / 0x100 % 0x100) as u8;
    let jmp = within(0x00, 0x07, top);
    if within(0xEC, 0xED, top) {
        return Some(Rule::NoMi);
    }
    if (word / 0x1_0000 % 2 == 1) & !(jmp | within(0x10, 0x1F, top)) {
        return Some(Rule::RrByJumps);
    }
    if (address == 0) & !((top == 0xFF) | jmp) {
        return Some(Rule::FirstWord);
    }
    if no_run(top) {
        return Some(Rule::Runs);
    }
    None
}

#[tactic(auto, unfolding(numbers::specs::Numbers::word_at))]
fn word(words: &[u8], i: u16) -> u32
    ensures { result ≡ word_at words.now i }
{
    numbers::quad_at(words, i as usize * 4)
}

// The lowest address of n words that breaks a rule.
fn first_broken(words: &[u8], n: u16) -> Result<(), Unfit>
    ensures { profile_report result ≡ broken_from 0 (firsts (word_at words.now) 0 n) }
{
    for address in 0..n {
        if let Some(rule) = rule_broken(address as u32, word(words, address)) {
            return Err(Unfit::Broken { address, rule });
        }
    }
    Ok(())
}

// 2 is the lister's own.
fn in_range(words: &[u8]) -> Result<(), Unfit>
    ensures told { profile_report result ≡
        pick ((listed_of words.now 1).answer == 2) (report_of 2 (listed_of words.now 1).at 0) (report_of 0 0 0) }
    ensures among { IfErr result (RangeIsAmong words.now) }
{
    let mut scratch = [0u8; 1];
    match listing::list_words(words, &mut scratch) {
        Ok(_) => Ok(()),
        Err(refused) => {
            if refused.is_range() {
                return Err(Unfit::Range(refused));
            }
            Ok(())
        }
    }
}

pub fn profile(words: &[u8]) -> Result<(), Unfit>
    ensures told { profile_report result ≡ profile_of words.now }
    ensures among { IfErr result (RangeIsAmong words.now) }
{
    in_range(words)?;
    first_broken(words, (words.len() / 4) as u16)
}
