// Assembles the listing on standard input and writes the words' bytes, or one line to standard error. Tabs, carriage
// returns and comments are taken off first, and so are lines with nothing else in them.
#![tactic(auto)]

ghost use Rattle.std.specs.Prelude.{◌≡◌, length};
ghost use Rattle.std.specs.Counts.{IsPrefixLen};

use listing::TextRefused;
use refusals::Refusal;
use std::io;

// The numbers, in the file, of the lines that stay; place 0 is not used. The assembler refuses none after the 2,049th:
// each good line before it has an address of its own.
#[derive(Drop)]
struct Kept {
    numbers: [usize; 2050],
    next: usize,
}

impl Kept {
    fn add(&mut self, number: usize) {
        if let Some(place) = self.numbers.get_mut(self.next) {
            *place = number;
            self.next += 1;
        }
    }

    fn number(&self, line: u32) -> usize {
        self.numbers.get(line as usize).copied().unwrap_or(0)
    }
}

// A tab, a carriage return and a byte of a comment as a space.
fn plain(c: u8, comment: bool) -> u8 {
    if comment || matches!(c, b'\t' | b'\r') {
        b' '
    } else {
        c
    }
}

// Clears every line. The newline of one that has nothing becomes a space, which joins it to the next as leading spaces.
// Answers where the last line that has something ends.
fn lines_cleared(text: &mut [u8], kept: &mut Kept) -> usize
    ensures { IsPrefixLen result text.new }
{
    let mut last = 0;
    let mut number = 1;
    let mut comment = false;
    let mut filled = false;
    for i in 0..text.len() {
        if text[i] != b'\n' {
            comment |= text[i] == b'#';
            text[i] = plain(text[i], comment);
            filled |= text[i] != b' ';
        } else {
            if filled {
                kept.add(number);
                last = i;
            } else {
                text[i] = b' ';
            }
            number += 1;
            comment = false;
            filled = false;
        }
    }
    if filled {
        kept.add(number);
        last = text.len();
    }
    last
}

fn why(refusal: Refusal) -> &'static str {
    match refusal {
        Refusal::Mnemonic => "10 unknown or absent mnemonic",
        Refusal::Operand => "11 operand or mark missing, extra or out of range",
        _ => "12 address not hexadecimal, not rising or over 2,047",
    }
}

// There is room for 2,048 words, so the assembler never answers 27.
fn assemble(rt: &(impl Print + Eprint), text: &mut [u8]) -> io::Result<()> {
    let mut kept = Kept {
        numbers: [0; 2050],
        next: 1,
    };
    let mut words = [0u8; 8192];
    let length = lines_cleared(text, &mut kept);
    match listing::assemble(&text[..length], &mut words) {
        Ok(length) => {
            let n = words.len().min(length as usize);
            if rt.write_all(&words[..n]).is_err() {
                eprintln!(rt; "the words cannot be written")?;
            }
            Ok(())
        }
        Err(
            TextRefused::Line {
                number,
                why: refusal,
            },
        ) => eprintln!(rt; "line {}: {}", kept.number(number), why(refusal)),
        Err(TextRefused::Room { needed }) => eprintln!(rt; "27 {needed} bytes needed"),
    }
}

// One byte more than the longest text, so that a longer one is seen to be longer.
fn room() -> [u8; 1048577]
    ensures { 1048577 ≡ length result }
{
    [0; 1048577]
}

fn main(rt: HostRuntime) -> io::Result<()> {
    let mut text = room();
    match input::read_full(&mut rt.stdin(), &mut text) {
        Err(_) => eprintln!(rt; "the text cannot be read"),
        Ok(1048577) => eprintln!(rt; "the text is over 1,048,576 bytes"),
        Ok(n) => assemble(&rt, &mut text[..n]),
    }
}
