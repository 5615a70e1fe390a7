// The line of a listed word, in the fixed spelling.
#![tactic(auto)]

ghost use Rattle.std.specs.Prelude.{◌≡◌, ◌≤◌, [], ◌∷◌, length};
ghost use Rattle.spelling.specs.Line.{text_of, Adds};
ghost use Rattle.spelling.specs.Spelling.{hex_digit, digit_in, digits_of, letter_if, letters_of, operand_in, operands_of, mark_in, user_name, marks_of, spelled_of};

use code::Fields;
use forms::{Form, ODD, RNI, RR};

mod line;

pub use line::Line;

impl Line {
    pub fn new() -> Line
        ensures { text_of result ≡ [] }
    {
        Line {
            bytes: [0; 40],
            length: 0,
        }
    }

    pub fn as_bytes(&self) -> &[u8]
        ensures text { result.now ≡ text_of self.now }
        ensures short { length result.now ≤ 40 }
    {
        &self.bytes[..self.length]
    }

    // No line has more bytes than there is room for.
    fn push(&mut self, b: u8)
        ensures { Adds self.old (b ∷ []) 1 self.new }
    {
        if self.length < 40 {
            self.bytes[self.length] = b;
            self.length += 1;
        }
    }

    fn digit(&mut self, d: Option<u32>)
        ensures { Adds self.old (digit_in d) 1 self.new }
    {
        if let Some(d) = d {
            self.push(hex_digit(d));
        }
    }

    // The last digits of a number, three at most.
    fn number(&mut self, digits: u8, n: u32)
        ensures { Adds self.old (digits_of digits n) 3 self.new }
    {
        self.digit((2 < digits).then_some(n / 0x100));
        self.digit((1 < digits).then_some(n / 0x10));
        self.digit((0 < digits).then_some(n));
    }

    fn letter(&mut self, c: u32)
        ensures { Adds self.old (letter_if c) 1 self.new }
    {
        let c = (c % 0x100) as u8;
        if c != b' ' {
            self.push(c);
        }
    }

    // The letters of a name; a name has no space between two.
    fn letters(&mut self, name: u32)
        ensures { Adds self.old (letters_of name) 4 self.new }
    {
        self.letter(name / 0x100_0000);
        self.letter(name / 0x1_0000);
        self.letter(name / 0x100);
        self.letter(name);
    }

    fn operand(&mut self, digits: u8, n: Option<u32>)
        ensures { Adds self.old (operand_in digits n) 4 self.new }
    {
        if let Some(n) = n {
            self.push(b' ');
            self.number(digits, n);
        }
    }

    // The operands that are needed, and the don't-care one when it isn't zero.
    fn operands(&mut self, form: Form, low: u32)
        ensures { Adds self.old (operands_of form low) 8 self.new }
    {
        let first = forms::first_of(form, low);
        let second = forms::second_of(form, low);
        self.operand(
            form.first,
            ((0 < form.needed) | (first != 0)).then_some(first),
        );
        self.operand(
            form.second,
            ((1 < form.needed) | (second != 0)).then_some(second),
        );
    }

    fn mark(&mut self, name: Option<u32>)
        ensures { Adds self.old (mark_in name) 5 self.new }
    {
        if let Some(name) = name {
            self.push(b' ');
            self.letters(name);
        }
    }

    fn marks(&mut self, f: Fields)
        ensures { Adds self.old (marks_of f) 20 self.new }
    {
        self.mark(forms::is_odd(f.code).then_some(ODD));
        self.mark(f.load_rr.then_some(RR));
        self.mark(f.rni.then_some(RNI));
        self.mark((f.user != 0).then_some(user_name(f.user)));
    }
}

// The last digit of a number.
#[tactic(auto, unfolding(crate::specs::Spelling::hex_digit))]
pub fn hex_digit(d: u32) -> u8
    ensures { result ≡ hex_digit d }
{
    let d = (d % 0x10) as u8;
    if d < 10 { 0x30 + d } else { 0x37 + d }
}

#[tactic(auto, unfolding(crate::specs::Spelling::user_name))]
fn user_name(user: u8) -> u32
    ensures { result ≡ user_name user }
{
    0x5500_2020 + hex_digit(user as u32) as u32 * 0x1_0000
}

// The line of a word's fields at an address.
pub fn spelled(address: u32, f: Fields) -> Line
    ensures text { text_of result ≡ spelled_of address f }
    ensures short { length (spelled_of address f) ≤ 37 }
{
    let mut line = Line::new();
    line.number(3, address);
    line.push(b' ');
    line.letters(names::mnemonic_of(f.code));
    let operands_of = f.operands;
    line.operands(forms::form_of(f.code), code::low_of(operands_of));
    line.marks(f);
    line.push(b'\n');
    line
}
