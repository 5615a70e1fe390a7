// The mnemonic of each top byte: four letters, the first in the highest byte, spaces at the end.
#![tactic(auto)]

ghost use Rattle.std.specs.Prelude.{◌≡◌};
ghost use Rattle.names.specs.Mnemonics.{mnemonic_of, all_mnemonics};

use code::Class;
use std::fmt;
use std::fmt::Write;

mod table;

// A name as it is typed: no space stands between two letters.
#[derive(Clone, Copy)]
pub struct Mnemonic(pub u32);

impl fmt::Display for Mnemonic {
    fn fmt<W: fmt::Write>(&self, f: &mut fmt::Formatter<W>) -> fmt::Result {
        let name = self.0;
        for letter in name.to_be_bytes() {
            if letter != b' ' {
                f.write_char(char::from(letter))?;
            }
        }
        Ok(())
    }
}

// The top bytes of the instruction whose first this is: JMP and RFS have 8 and each literal instruction 16, "when literals and jump
// addresses are not told apart".
#[derive(Clone, Copy)]
pub struct Codes {
    pub class: Class,
    pub top: u8,
}

impl fmt::Display for Codes {
    fn fmt<W: fmt::Write>(&self, f: &mut fmt::Formatter<W>) -> fmt::Result {
        let top = self.top;
        let last = code::last_code(self.class, top);
        if last == top {
            write!(f, "{top:02X}")
        } else {
            write!(f, "{top:02X}-{last:02X}")
        }
    }
}

#[tactic(auto, unfolding(crate::specs::Mnemonics::all_mnemonics, crate::specs::Mnemonics::mnemonic_of, choose::specs::Ranged::ranged))]
pub fn names() -> [u32; 256]
    ensures { result ≡ all_mnemonics }
{
    table::NAMES
}

pub fn mnemonic_of(top: u8) -> u32
    ensures { result ≡ mnemonic_of top }
{
    let all = names();
    all[top as usize]
}
