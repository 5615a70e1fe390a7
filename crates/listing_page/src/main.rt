// Writes the table of docs/LISTING.md: a line for each mnemonic, with its codes and its operands, from the proved tables.
#![tactic(auto)]

use code::Class;
use forms::Form;
use names::{Codes, Mnemonic};
use std::io;

// Both designators, in the order in which they are typed, or one and the don't-care one.
fn designators(form: Form) -> &'static str {
    if form.second == 0 {
        "[bits 7-0]"
    } else if form.a_first {
        "a [b]"
    } else if form.needed == 1 {
        "b [a]"
    } else {
        "b a"
    }
}

fn operands(class: Class, form: Form) -> &'static str {
    match class {
        Class::Unlisted => "",
        Class::Jump if form.needed == 0 => "[bits 10-0]",
        Class::Jump => "address",
        Class::Conditional => "address in the page",
        Class::Literal => "literal a",
        Class::Register => designators(form),
    }
}

fn odd_code(rt: &impl Print, top: u8) -> io::Result<()> {
    if top != 0xFF && forms::has_twin(top) {
        print!(rt; "{:02X}", top + 1)?;
    }
    Ok(())
}

// A line at a mnemonic's first top byte.
fn line(rt: &impl Print, top: u8) -> io::Result<()> {
    let name = names::mnemonic_of(top);
    if forms::top_named(name) != Some(top) {
        return Ok(());
    }
    let class = code::class_of(top);
    print!(rt;
        "| {} | {} | {} | ",
        Mnemonic(name),
        Codes { class, top },
        operands(class, forms::form_of(top))
    )?;
    odd_code(rt, top)?;
    println!(rt; " |")
}

fn main(rt: HostRuntime) -> io::Result<()> {
    println!(rt; "| Mnemonic | Code | Operands | Code with ODD |")?;
    println!(rt; "|---|---|---|---|")?;
    for top in 0..=u8::MAX {
        line(&rt, top)?;
    }
    Ok(())
}
