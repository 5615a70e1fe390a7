// Writes docs/REQUIREMENTS.md: one requirement for each listed instruction, from the proved table. Standard input gives
// the number of vectors of each top byte, 256 bytes.
#![tactic(auto)]

use code::{Class, CodeRow, Stores, Unread, Waits};
use names::{Codes, Mnemonic};
use refusals::Refusal;
use state::Bus;
use std::io::{self, Read};

const HEAD: &str = "\
# Requirements

One requirement for each of the 150 listed instructions, then one for each of the 17 unlisted codes. The program `requirements`
writes this page from the table that the engine is proved to follow (`make requirements`); no line of a table is typed.

";

const COLUMNS: &str = "\
- **Key**: top byte and mnemonic as 01 corrects it (B6 and B7 are CW, BC to BF DB1 and DW1). It is no running number: it lasts.
- **Codes**: the top bytes, bits 15-8 of the word.
- **Format**: a jump has its address in bits 10-0, a conditional jump in bits 7-0, a literal instruction the literal in bits 11-4
  and register a in bits 3-0, a register instruction b in bits 7-4 and a in bits 3-0.
- **Microcycles** of a completed attempt. A wait, RESET and COMPUTE low cost 1, a refusal none.
- **Status**, **Condition**: the flags that it may write. It leaves the others as they were; a failed condition writes none.
- **Registers** that it may write, by a and b of the word; a failed condition writes none. The others of the 26 stay as they were.
  Ra's pair is Ra, its low byte, and the register whose designator is a with its lowest bit inverted, its high byte.
- **Waits** while these lines are so.
- **CP1621B**: what is other with a control chip of this marking. All else on this page is of both, CP1661B and CP1621B.
- **Refusals** that can come, with their cause. An attempt that fetches is refused with 5 where LC has no word.
  7 is no longer given: it was the answer to an odd designator where a pair is needed, which is now executed.
- **Vectors** that check it: how many, and the file.
";

const OUTPUTS: &str = "
Every completed attempt, one with a failed condition too, also loads the user's outputs with bits 18-21 of its word. A wait, RESET,
COMPUTE low and a refusal keep them.
";

const Q1: &str = "
IB and IW with b 0-3 drop SYNC and IACK; with b 4-7 they ask to keep them, for the write of a read-modify-write (RMW). With CP1661B
they keep them always. With CP1621B they keep them only if Q1 is false, and else drop them too. Q1 is read from TR before the instruction:

    Q1 = (not TR14 and TR13) or (not TR14, not TR12, TR11, not TR10, TR9, TR8, TR7 and TR6 together)
";

const TABLE: &str = "
| Key | Codes | Format | Microcycles | Status | Condition | Registers | Waits | CP1621B | Refusals | Vectors |
|---|---|---|---|---|---|---|---|---|---|---|
";

const UNLISTED: &str = "
## Unlisted codes

| Key | Code | Refusals | Vectors |
|---|---|---|---|
";

fn format(class: Class) -> &'static str {
    match class {
        Class::Unlisted => "none",
        Class::Jump => "jump",
        Class::Conditional => "conditional jump",
        Class::Literal => "literal",
        Class::Register => "register",
    }
}

const STATUS: [(u8, &str); 4] = [(0x08, "NB "), (0x04, "ZB "), (0x02, "C4 "), (0x01, "C8 ")];

const CONDITION: [(u8, &str); 4] = [(0x80, "N "), (0x40, "Z "), (0x20, "V "), (0x10, "C ")];

// Those of the flags that are in the set, each with a space after it.
fn flags(rt: &impl Print, set: u8, names: [(u8, &str); 4]) -> io::Result<()> {
    let mut none = true;
    for (bit, name) in names {
        if set & bit != 0 {
            rt.print(name)?;
            none = false;
        }
    }
    if none {
        print!(rt; "none ")?;
    }
    Ok(())
}

fn stores(stores: Stores) -> &'static str {
    match stores {
        Stores::Nothing => "none",
        Stores::Ra => "Ra",
        Stores::RaPair => "Ra's pair",
        Stores::RaAndRb => "Ra and Rb",
    }
}

fn waits(waits: Waits) -> &'static str {
    match waits {
        Waits::Never => "never",
        Waits::ReplyOrBusyHigh => "REPLY or BUSY high",
        Waits::ReplyLow => "REPLY low",
    }
}

// Whether SYNC is other after a code where RMW happens: the marking decides only on that.
fn asks_for_rmw(code: u8) -> bool {
    let held = Bus {
        m: 0,
        sync: true,
        iack: true,
    };
    let kept = control::bus_after(held, code, true, 0);
    let dropped = control::bus_after(held, code, false, 0);
    kept.sync & !dropped.sync
}

fn with_q1(code: u8) -> &'static str {
    if asks_for_rmw(code) {
        "b 4-7: SYNC and IACK kept only if Q1 is false"
    } else {
        "the same"
    }
}

fn refusals(rt: &impl Print, options: u8) -> io::Result<()> {
    match options {
        15 => print!(rt; "none "),
        _ => print!(rt; "8: b over {options}. "),
    }
}

fn facts(rt: &impl Print, top: u8, row: CodeRow) -> io::Result<()> {
    print!(rt; "{} | ", row.cycles)?;
    flags(rt, row.flags, STATUS)?;
    print!(rt; "| ")?;
    flags(rt, row.flags, CONDITION)?;
    print!(rt;
        "| {} | {} | {} | ",
        stores(row.stores),
        waits(row.waits),
        with_q1(top)
    )?;
    refusals(rt, row.options)
}

fn key(rt: &impl Print, top: u8) -> io::Result<()> {
    print!(rt; "{top:02X}-")?;
    match code::class_of(top) {
        Class::Unlisted => print!(rt; "unlisted"),
        _ => rt.print(Mnemonic(names::mnemonic_of(top))),
    }
}

// The last cell: how many vectors, and where they are.
fn checked(rt: &impl Print, top: u8, vectors: u8) -> io::Result<()> {
    print!(rt; "| [{vectors}](../vectors/")?;
    key(rt, top)?;
    println!(rt; ".txt) |")
}

// Designators 0 and the first option are refused by 6 only: that is CAD, which never completes.
fn requirement(
    rt: &impl Print,
    top: u8,
    row: CodeRow,
    refusal: Option<Refusal>,
    vectors: u8,
) -> io::Result<()> {
    print!(rt; "| ")?;
    key(rt, top)?;
    let class = row.class;
    print!(rt; " | {} | {} | ", Codes { class, top }, format(class))?;
    match refusal {
        None => facts(rt, top, row)?,
        Some(_) => print!(rt; "| | | | | | 6: the engine always refuses it. ")?,
    }
    checked(rt, top, vectors)
}

fn unlisted(rt: &impl Print, top: u8, vectors: u8) -> io::Result<()> {
    print!(rt; "| ")?;
    key(rt, top)?;
    print!(rt; " | {top:02X} | 6: code unlisted. ")?;
    checked(rt, top, vectors)
}

// A line at an instruction's first top byte, or at an unlisted one, where it is of the table asked for.
fn line(rt: &impl Print, top: u8, listed: bool, vectors: u8) -> io::Result<()> {
    match code::taken_apart(top as u32 * 0x100) {
        Ok(f) if listed && f.code == top => {
            let row = code::row_of(top);
            requirement(rt, top, row, checks::refusal(row, top, 0), vectors)
        }
        Err(Unread::Unlisted) if !listed => unlisted(rt, top, vectors),
        _ => Ok(()),
    }
}

fn lines(rt: &impl Print, listed: bool, vectors: &[u8; 256]) -> io::Result<()> {
    for top in 0..=u8::MAX {
        line(rt, top, listed, vectors[top as usize])?;
    }
    Ok(())
}

fn document(rt: &impl Print, vectors: &[u8; 256]) -> io::Result<()> {
    for text in [HEAD, COLUMNS, OUTPUTS, Q1, TABLE] {
        rt.print(text)?;
    }
    lines(rt, true, vectors)?;
    rt.print(UNLISTED)?;
    lines(rt, false, vectors)
}

fn main(rt: HostRuntime) -> io::Result<()> {
    let mut vectors = [0u8; 256];
    if rt.stdin().read_exact(&mut vectors).is_err() {
        return println!(rt;
            "standard input has to be 256 bytes: the number of vectors of each top byte"
        );
    }
    document(&rt, &vectors)
}
