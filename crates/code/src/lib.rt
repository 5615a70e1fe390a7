// The word taken apart and put together, and what its top byte alone decides.
#![tactic(auto)]

ghost use Rattle.std.specs.Prelude.{◌≡◌, ◌<◌, get_or};
ghost use Rattle.code.specs.CodeRows.{class_of, listed, row_of};
ghost use Rattle.code.specs.Entries.{class_at, waits_at, stores_at, row_of_entry, entries};
ghost use Rattle.code.specs.Word.{refusal_for, code_in, last_in, target_in, operands_in, apart_as, apart_of, reach_of, fits_in};
ghost use Rattle.code.specs.Word.{well_formed, low_of, together_of};

use choose::bit_of;
use refusals::Refusal;

mod table;

// Manual 5.2's four classes of instruction, which are its formats.
#[derive(Clone, Copy, PartialEq, Eq)]
pub enum Class {
    Unlisted,
    Jump,
    Conditional,
    Literal,
    Register,
}

// The lines while which an instruction waits.
#[derive(Clone, Copy, PartialEq, Eq)]
pub enum Waits {
    Never,
    ReplyOrBusyHigh,
    ReplyLow,
}

// The registers that an instruction writes. Ra's pair is Ra and its high byte.
#[derive(Clone, Copy, PartialEq, Eq)]
pub enum Stores {
    Nothing,
    Ra,
    RaPair,
    RaAndRb,
}

// What the top byte alone decides. An unlisted one has no cycles, options or flags, never waits and writes nothing.
#[derive(Clone, Copy)]
pub struct CodeRow {
    pub class: Class,
    pub cycles: u8,
    pub waits: Waits,
    // The highest b that is listed.
    pub options: u8,
    // The flags that it may write, as bits of the flag byte N Z V C NB ZB C4 C8.
    pub flags: u8,
    pub stores: Stores,
}

// What stands in the places of the format: an address, a literal with a register, or two designators.
#[derive(Clone, Copy)]
pub enum Operands {
    Jump(u16),
    Literal { value: u8, reg: u8 },
    Two { b: u8, a: u8 },
}

// A listed word. The code is the instruction's first top byte: 00 JMP, 08 RFS, 20 AL, 30 CL, 40 NL, 50 TL, 60 LL; all others have one only.
#[derive(Clone, Copy)]
pub struct Fields {
    pub code: u8,
    pub class: Class,
    pub operands: Operands,
    pub load_rr: bool,
    pub rni: bool,
    pub user: u8,
}

// Why a word has no fields: it is 2^22 or more, or its top byte is unlisted.
#[derive(Clone, Copy, PartialEq, Eq)]
pub enum Unread {
    OutOfRange,
    Unlisted,
}

impl From<Unread> for Refusal {
    ghost from_gives = { λ unread refusal. refusal ≡ refusal_for unread };

    fn from(unread: Unread) -> Refusal {
        match unread {
            Unread::OutOfRange => Refusal::WordRange,
            Unread::Unlisted => Refusal::Unlisted,
        }
    }
}

// The class of a top byte.
#[tactic(auto, unfolding(crate::specs::CodeRows::class_of, choose::specs::Ranged::ranged))]
pub fn class_of(top: u8) -> Class
    ensures { result ≡ class_of top }
{
    match top {
        0x00..=0x0F => Class::Jump,
        0x10..=0x1F => Class::Conditional,
        0x20..=0x6F => Class::Literal,
        0x70..=0x77 => Class::Register,
        0x78..=0x7F => Class::Unlisted,
        0x80..=0xAC => Class::Register,
        0xAD => Class::Unlisted,
        0xAE..=0xD3 => Class::Register,
        0xD4..=0xD7 => Class::Unlisted,
        0xD8..=0xE7 => Class::Register,
        0xE8..=0xEB => Class::Unlisted,
        _ => Class::Register,
    }
}

// The table. Each call writes it out anew, so who asks for many rows keeps it and reads it by `row_in`.
#[tactic(auto, unfolding(crate::specs::Entries::entries, crate::specs::CodeRows::row_of, crate::specs::CodeRows::class_of, crate::specs::CodeRows::cycles_of, crate::specs::CodeRows::waits_of, crate::specs::CodeRows::options_of, crate::specs::CodeRows::status_flags_of, crate::specs::CodeRows::condition_flags_of, crate::specs::CodeRows::stores_of, choose::specs::Ranged::ranged))]
pub fn rows() -> [u32; 256]
    ensures { result ≡ entries }
{
    table::ROWS
}

// A digit of the table. No TryFrom here and below: each number has an answer, so that whatever table is lent has rows.
#[tactic(auto, unfolding(crate::specs::Entries::class_at, choose::specs::Ranged::ranged))]
fn class_at(n: u32) -> Class
    ensures { result ≡ class_at n }
{
    match n {
        0 => Class::Unlisted,
        1 => Class::Jump,
        2 => Class::Conditional,
        3 => Class::Literal,
        _ => Class::Register,
    }
}

// For who has the number of a row, whatever it is: one over the last counts as the last, here and below.
#[tactic(auto, unfolding(crate::specs::Entries::waits_at, choose::specs::Ranged::ranged))]
pub fn waits_at(n: u32) -> Waits
    ensures { result ≡ waits_at n }
{
    match n {
        0 => Waits::Never,
        1 => Waits::ReplyOrBusyHigh,
        _ => Waits::ReplyLow,
    }
}

#[tactic(auto, unfolding(crate::specs::Entries::stores_at, choose::specs::Ranged::ranged))]
pub fn stores_at(n: u32) -> Stores
    ensures { result ≡ stores_at n }
{
    match n {
        0 => Stores::Nothing,
        1 => Stores::Ra,
        2 => Stores::RaPair,
        _ => Stores::RaAndRb,
    }
}

// The row of a top byte in the table that `rows` gave.
#[tactic(auto, unfolding(crate::specs::Entries::row_of_entry))]
pub fn row_in(rows: &[u32; 256], top: u8) -> CodeRow
    ensures { result ≡ row_of_entry (get_or rows.now top 0) }
{
    let i = top as usize;
    let n = rows[i];
    let class = class_at(n % 0x10);
    let waits = waits_at(n / 0x100 % 0x10);
    let stores = stores_at(n / 0x100_0000 % 0x10);
    CodeRow {
        class,
        cycles: (n / 0x10 % 0x10) as u8,
        waits,
        options: (n / 0x1000 % 0x10) as u8,
        flags: (n / 0x1_0000 % 0x100) as u8,
        stores,
    }
}

#[tactic(auto, using(crate::proofs::Digits::row_at))]
pub fn row_of(top: u8) -> CodeRow
    ensures { result ≡ row_of top }
{
    let table = rows();
    row_in(&table, top)
}

pub fn is_listed(class: Class) -> bool
    ensures { result ≡ listed class }
{
    class != Class::Unlisted
}

// Tests and no match here and below: a table of jumps, which the compiler would make of five classes, is guessed worse than two tests.
fn code_in(class: Class, top: u8) -> u8
    ensures { result ≡ code_in class top }
{
    if class == Class::Register {
        return top;
    }
    if class == Class::Literal {
        return top / 0x10 * 0x10;
    }
    if class == Class::Jump {
        return top / 8 * 8;
    }
    top
}

// The last top byte of the instruction that has this one.
pub fn last_code(class: Class, top: u8) -> u8
    ensures { result ≡ last_in class top }
{
    match class {
        Class::Jump => top / 8 * 8 + 7,
        Class::Literal => top / 0x10 * 0x10 + 0xF,
        _ => top,
    }
}

fn target_in(class: Class, word: u32) -> u16
    ensures { result ≡ target_in class word }
{
    match class {
        Class::Jump => (word % 0x800) as u16,
        Class::Conditional => (word % 0x100) as u16,
        _ => 0,
    }
}

// Quotients and no bytes here and below: most of a word's fields are no whole bytes.
#[tactic(auto, unfolding(crate::specs::Word::operands_in))]
pub fn operands_in(class: Class, word: u32) -> Operands
    ensures { result ≡ operands_in class word }
{
    if class == Class::Register {
        return Operands::Two {
            b: (word / 0x10 % 0x10) as u8,
            a: (word % 0x10) as u8,
        };
    }
    if class == Class::Literal {
        return Operands::Literal {
            value: (word / 0x10 % 0x100) as u8,
            reg: (word % 0x10) as u8,
        };
    }
    Operands::Jump(target_in(class, word))
}

// A word taken apart whose top byte is of this class.
#[tactic(auto, unfolding(crate::specs::Word::apart_as, crate::specs::Word::fields_in))]
pub fn taken_apart_as(class: Class, word: u32) -> Result<Fields, Unread>
    ensures { result ≡ apart_as class word }
{
    if 0x40_0000 <= word {
        return Err(Unread::OutOfRange);
    }
    if !is_listed(class) {
        return Err(Unread::Unlisted);
    }
    let top = (word / 0x100 % 0x100) as u8;
    let code = code_in(class, top);
    let operands = operands_in(class, word);
    Ok(Fields {
        code,
        class,
        operands,
        load_rr: word / 0x1_0000 % 2 == 1,
        rni: word / 0x2_0000 % 2 == 1,
        user: (word / 0x4_0000 % 0x10) as u8,
    })
}

#[tactic(auto, unfolding(crate::specs::Word::apart_as, crate::specs::Word::apart_of))]
pub fn taken_apart(word: u32) -> Result<Fields, Unread>
    ensures { result ≡ apart_of word }
{
    let top = (word / 0x100 % 0x100) as u8;
    let class = class_of(top);
    taken_apart_as(class, word)
}

fn reach(class: Class) -> u16
    ensures { result ≡ reach_of class }
{
    match class {
        Class::Unlisted => 0,
        Class::Jump => 0x800,
        Class::Conditional => 0x100,
        Class::Literal => 0,
        Class::Register => 0,
    }
}

#[tactic(auto, unfolding(crate::specs::Word::fits_in))]
fn fits(class: Class, operands: Operands) -> bool
    ensures { result ≡ fits_in class operands }
{
    match operands {
        Operands::Jump(n) => n < reach(class),
        Operands::Literal { value: _, reg } => (reg < 0x10) & (class == Class::Literal),
        Operands::Two { b, a } => (b < 0x10) & (a < 0x10) & (class == Class::Register),
    }
}

#[tactic(auto, unfolding(crate::specs::Word::well_formed))]
fn is_well_formed(f: Fields) -> bool
    ensures { result ≡ well_formed f }
{
    let code = f.code;
    let class = f.class;
    let operands = f.operands;
    let own = class_of(code);
    (class == own) & (code_in(class, code) == code) & fits(class, operands) & (f.user < 0x10)
}

pub fn low_of(operands: Operands) -> u32
    ensures { (result ≡ low_of operands) × (result < 0x1_0000) }
{
    match operands {
        Operands::Jump(n) => n as u32,
        Operands::Literal { value, reg } => value as u32 * 0x10 + reg as u32,
        Operands::Two { b, a } => b as u32 * 0x10 + a as u32,
    }
}

// None: no listed word has these fields.
#[tactic(auto, unfolding(crate::specs::Word::together_of, crate::specs::Word::word_of))]
pub fn put_together(f: Fields) -> Option<u32>
    ensures { result ≡ together_of f }
{
    if !is_well_formed(f) {
        return None;
    }
    let operands = f.operands;
    let low = low_of(operands);
    let load_rr = bit_of(f.load_rr) as u32;
    let rni = bit_of(f.rni) as u32;
    Some(
        low + f.code as u32 * 0x100
            + load_rr * 0x1_0000
            + rni * 0x2_0000
            + f.user as u32 * 0x4_0000,
    )
}
