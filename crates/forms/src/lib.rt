// What operands an instruction has in a listing, and which top byte a mnemonic names.
#![tactic(auto)]

ghost use Rattle.std.specs.Prelude.{◌≡◌, ◌==◌, ◌<◌, SomeIff};
ghost use Rattle.std.specs.List.{position};
ghost use Rattle.names.specs.Mnemonics.{all_mnemonics};
ghost use Rattle.forms.specs.Forms.{spare_of, register_form, form_in, form_of, limit_of, joined_of, first_of, second_of};
ghost use Rattle.forms.specs.Named.{top_named, twinned, odd_of};

use choose::bit_of;
use code::Class;

const BLANK: u32 = 0x2020_2020;

// The marks as names, as `names` has the mnemonics.
pub const ODD: u32 = 0x4F_44_44_20;

pub const RR: u32 = 0x52_52_20_20;

pub const RNI: u32 = 0x52_4E_49_20;

// The operands of an instruction, as they are typed.
#[derive(Clone, Copy)]
pub struct Form {
    // How many digits the first has: 3 for 11 bits, 2 for 8, 1 for 4.
    pub first: u8,
    // How many digits the second has: 1, or 0 where there is none.
    pub second: u8,
    // How many have to be there. One more is the don't-care operand.
    pub needed: u8,
    // Whether a stands before b.
    pub a_first: bool,
}

const NO_OPERANDS: Form = Form {
    first: 0,
    second: 0,
    needed: 0,
    a_first: false,
};

// The bits that the summary marks x.
#[tactic(auto, unfolding(crate::specs::Forms::spare_of, choose::specs::Ranged::ranged))]
fn spare(top: u8) -> u16
    ensures { result ≡ spare_of top }
{
    match top {
        0x00..=0x07 => 0,
        0x08..=0x0F => 0x7FF,
        0x10..=0x6F => 0,
        0x70..=0x71 => 0x0F,
        0x72 => 0xF0,
        0x73 => 0,
        0x74 => 0xFF,
        0x75..=0x77 => 0xF0,
        0x78..=0xE5 => 0,
        0xE6..=0xE7 => 0xF0,
        0xE8..=0xFE => 0,
        _ => 0xFF,
    }
}

fn register_form(spare: u16) -> Form
    ensures { result ≡ register_form spare }
{
    if spare == 0xFF {
        return Form {
            first: 2,
            ..NO_OPERANDS
        };
    }
    Form {
        first: 1,
        second: 1,
        needed: 1 + bit_of(spare == 0),
        a_first: spare == 0xF0,
    }
}

fn form_in(class: Class, spare: u16) -> Form
    ensures { result ≡ form_in class spare }
{
    match class {
        Class::Unlisted => NO_OPERANDS,
        Class::Jump => Form {
            first: 3,
            needed: bit_of(spare == 0),
            ..NO_OPERANDS
        },
        Class::Conditional => Form {
            first: 2,
            needed: 1,
            ..NO_OPERANDS
        },
        Class::Literal => Form {
            first: 2,
            second: 1,
            needed: 2,
            ..NO_OPERANDS
        },
        Class::Register => register_form(spare),
    }
}

#[tactic(auto, unfolding(crate::specs::Forms::form_of))]
pub fn form_of(top: u8) -> Form
    ensures { result ≡ form_of top }
{
    form_in(code::class_of(top), spare(top))
}

// How many values an operand of so many digits has.
#[tactic(auto, unfolding(crate::specs::Forms::limit_of, choose::specs::Ranged::ranged))]
pub fn limit(digits: u8) -> u16
    ensures { result ≡ limit_of digits }
{
    match digits {
        0 => 1,
        1 => 0x10,
        2 => 0x100,
        _ => 0x800,
    }
}

// The typed operands as the word's low bits.
#[tactic(auto, unfolding(crate::specs::Forms::joined_of))]
pub fn joined(form: Form, first: u16, second: u16) -> u32
    ensures { result ≡ joined_of form first second }
{
    if form.second == 0 {
        first as u32
    } else if form.a_first {
        second as u32 * 0x10 + first as u32
    } else {
        first as u32 * 0x10 + second as u32
    }
}

// The operands to type for a word's low bits.
#[tactic(auto, unfolding(crate::specs::Forms::first_of))]
pub fn first_of(form: Form, low: u32) -> u32
    ensures { result ≡ first_of form low }
{
    if form.second == 0 {
        low
    } else if form.a_first {
        low % 0x10
    } else {
        low / 0x10
    }
}

#[tactic(auto, unfolding(crate::specs::Forms::second_of))]
pub fn second_of(form: Form, low: u32) -> u32
    ensures { result ≡ second_of form low }
{
    if form.second == 0 {
        0
    } else if form.a_first {
        low / 0x10
    } else {
        low % 0x10
    }
}

// Where a name first stands among the mnemonics.
fn place_of(name: u32) -> Option<usize>
    ensures { result ≡ position (λ mnemonic. mnemonic == name) all_mnemonics }
{
    let names = names::names();
    names.iter().position(|mnemonic| *mnemonic == name)
}

// The first top byte of a mnemonic.
#[tactic(auto, unfolding(crate::specs::Named::top_named))]
pub fn top_named(name: u32) -> Option<u8>
    ensures { SomeIff result (top_named name < 0x100) (top_named name) }
{
    if name == BLANK {
        return None;
    }
    let top = place_of(name)?;
    Some(top as u8)
}

// Whether the code after this one has the same mnemonic, and is its odd twin.
#[tactic(auto, unfolding(crate::specs::Named::twinned))]
pub fn has_twin(top: u8) -> bool
    ensures { result ≡ twinned top }
{
    top < 0xFF
        && matches!(code::class_of(top), Class::Register)
        && names::mnemonic_of(top + 1) == names::mnemonic_of(top)
}

// Whether a code is the odd one of a pair.
#[tactic(auto, unfolding(crate::specs::Named::odd_of))]
pub fn is_odd(code: u8) -> bool
    ensures { result ≡ odd_of code }
{
    code % 2 == 1 && has_twin(code - 1)
}
