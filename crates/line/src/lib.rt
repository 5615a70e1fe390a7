// A line taken apart: its address and its word, or why it is refused.
#![tactic(auto)]

ghost use Rattle.std.specs.Prelude.{◌≡◌, ◌<◌, ◌≤◌, MatchOption, SomeIff};
ghost use Rattle.pieces.specs.Parts.{pieces_of};
ghost use Rattle.pieces.specs.Read.{value_of};
ghost use Rattle.line.specs.Marks.{no_marks, user_in, with_user, with_mark, marks_from};
ghost use Rattle.line.specs.Line.{tail_of, fits_form, word_for, line_of};
ghost use Rattle.line.specs.Coded.{marks_as, AreMarks, tail_as, IsTail, NoNumber, FirstNumber, Nameless, Named, line_as};

use choose::bit_of;
use code::Fields;
use forms::{Form, ODD, RNI, RR};
use refusals::Refusal;

// The marks of a line, each of which stands there once; `user` is U's digit.
#[derive(Clone, Copy)]
pub struct Marks {
    pub odd: bool,
    pub load_rr: bool,
    pub rni: bool,
    pub user: Option<u8>,
}

// What stands after a mnemonic: two operands at most, and marks.
#[derive(Clone, Copy)]
pub struct Tail {
    pub first: Option<u16>,
    pub second: Option<u16>,
    pub marks: Marks,
}

// A word, and the address where it stands.
#[derive(Clone, Copy)]
pub struct Placed {
    pub address: u32,
    pub word: u32,
}

// The digit of a U that has one.
#[tactic(auto, unfolding(crate::specs::Marks::user_in))]
fn user_in(name: u32) -> Option<u8>
    ensures { SomeIff result (user_in name < 0x10) (user_in name) }
{
    match name.to_be_bytes() {
        [b'U', digit, b' ', b' '] => pieces::digit_of(digit),
        _ => None,
    }
}

#[tactic(auto, unfolding(crate::specs::Marks::with_user))]
fn with_user(m: Marks, user: u8) -> Option<Marks>
    requires { user < 0x10 }
    ensures { AreMarks result (with_user (marks_as m) user) }
{
    if m.user.is_some() {
        return None;
    }
    Some(Marks {
        user: Some(user),
        ..m
    })
}

// One mark more, where it is one and the first of its kind.
#[tactic(auto, unfolding(crate::specs::Marks::with_mark, crate::specs::Marks::with_user))]
fn with_mark(m: Marks, name: u32) -> Option<Marks>
    ensures { AreMarks result (with_mark (marks_as m) name) }
{
    match name {
        ODD => (!m.odd).then_some(Marks { odd: true, ..m }),
        RR => (!m.load_rr).then_some(Marks { load_rr: true, ..m }),
        RNI => (!m.rni).then_some(Marks { rni: true, ..m }),
        _ => with_user(m, user_in(name)?),
    }
}

// The marks of a line with nothing else.
fn marks_of(line: &[u8]) -> Option<Marks>
    ensures { AreMarks result (marks_from no_marks (pieces_of line.now)) }
{
    let mut m = Marks {
        odd: false,
        load_rr: false,
        rni: false,
        user: None,
    };
    let mut left = line;
    while let Some((piece, rest)) = pieces::first_piece(left) {
        m = with_mark(m, pieces::name_of(piece)?)?;
        left = rest;
    }
    Some(m)
}

// A number, and the line after it.
fn operand(line: &[u8]) -> Option<(u16, &[u8])>
    ensures { MatchOption result (NoNumber (pieces_of line.now)) (λ p. FirstNumber (pieces_of line.now) p.0 (pieces_of p.1.now)) }
{
    let (piece, rest) = pieces::first_piece(line)?;
    let n = pieces::number_of(piece)?;
    Some((n, rest))
}

fn tail_of(line: &[u8]) -> Option<Tail>
    ensures { IsTail result (tail_of (pieces_of line.now)) }
{
    let Some((first, after)) = operand(line) else {
        let marks = marks_of(line)?;
        return Some(Tail {
            first: None,
            second: None,
            marks,
        });
    };
    let Some((second, last)) = operand(after) else {
        let marks = marks_of(after)?;
        return Some(Tail {
            first: Some(first),
            second: None,
            marks,
        });
    };
    let marks = marks_of(last)?;
    Some(Tail {
        first: Some(first),
        second: Some(second),
        marks,
    })
}

#[tactic(auto, unfolding(crate::specs::Line::fits_form))]
fn fits(form: Form, t: Tail) -> bool
    ensures { result ≡ fits_form form (tail_as t) }
{
    let count = bit_of(t.first.is_some()) + bit_of(t.second.is_some());
    form.needed <= count
        && count as u32 <= 1 + form.second as u32
        && t.first.unwrap_or(0) < forms::limit(form.first)
        && t.second.unwrap_or(0) < forms::limit(form.second)
}

// The word of an instruction with these operands and marks.
fn made(top: u8, t: Tail) -> Option<u32>
    ensures { result ≡ word_for top (tail_as t) }
{
    let form = forms::form_of(top);
    if !fits(form, t) {
        return None;
    }
    let marks = t.marks;
    if marks.odd & !forms::has_twin(top) {
        return None;
    }
    let class = code::class_of(top);
    let low = forms::joined(form, t.first.unwrap_or(0), t.second.unwrap_or(0));
    code::put_together(Fields {
        code: top + bit_of(marks.odd),
        class,
        operands: code::operands_in(class, low),
        load_rr: marks.load_rr,
        rni: marks.rni,
        user: marks.user.unwrap_or(0) % 0x10,
    })
}

fn word_for(top: u8, line: &[u8]) -> Option<u32>
    ensures { result ≡ word_for top (tail_of (pieces_of line.now)) }
{
    let t = tail_of(line)?;
    made(top, t)
}

// A line's address, the top byte that its mnemonic names, and the line after that.
fn parted(line: &[u8]) -> Option<(&[u8], u8, &[u8])>
    ensures { MatchOption result (Nameless (pieces_of line.now)) (λ p. Named (pieces_of line.now) p.0.now p.1 (pieces_of p.2.now)) }
{
    let (address, rest) = pieces::first_piece(line)?;
    let (mnemonic, rest) = pieces::first_piece(rest)?;
    let name = pieces::name_of(mnemonic)?;
    let top = forms::top_named(name)?;
    Some((address, top, rest))
}

// An address that is `next` or more.
fn rising(next: u32, address: &[u8]) -> Option<u32>
    ensures { SomeIff result ((value_of address.now < 0x800) × (next ≤ value_of address.now)) (value_of address.now) }
{
    let address = pieces::number_of(address)? as u32;
    if address < next {
        return None;
    }
    Some(address)
}

// A line whose address has to be `next` or more.
pub fn line_of(line: &[u8], next: u32) -> Result<Placed, Refusal>
    ensures { line_as result ≡ line_of next (pieces_of line.now) }
{
    let (address, top, rest) = parted(line).ok_or(Refusal::Mnemonic)?;
    let word = word_for(top, rest).ok_or(Refusal::Operand)?;
    let address = rising(next, address).ok_or(Refusal::Address)?;
    Ok(Placed { address, word })
}
