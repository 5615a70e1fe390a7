// Lists the words whose bytes are on standard input, or writes one line to standard error.
#![tactic(auto)]

use std::io;

// No listing of 2,048 words is longer than 81,920 bytes, so the lister never answers 27.
fn list(rt: &(impl Print + Eprint), words: &[u8]) -> io::Result<()> {
    let mut text = [0u8; 81_920];
    match listing::list_words(words, &mut text) {
        Ok(length) => {
            let n = text.len().min(length as usize);
            if rt.write_all(&text[..n]).is_err() {
                eprintln!(rt; "the listing cannot be written")?;
            }
            Ok(())
        }
        Err(refused) => eprintln!(rt; "{refused}"),
    }
}

// One byte more than 2,048 words have, so that a longer input is seen to be longer.
fn main(rt: HostRuntime) -> io::Result<()> {
    let mut buffer = [0u8; 8193];
    match input::read_full(&mut rt.stdin(), &mut buffer) {
        Ok(n) => list(&rt, &buffer[..n]),
        Err(_) => eprintln!(rt; "the words cannot be read"),
    }
}
