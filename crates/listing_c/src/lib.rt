// The bench host's door to the assembler and the lister, for C.
#![tactic(auto)]

ghost use Rattle.std.specs.Prelude.{◌≡◌, length};
ghost use Rattle.listing.specs.Assembled.{assembled_of, assembled_into};
ghost use Rattle.listing.specs.Listed.{listed_of, listed_into};

use listing::Report;

#[unsafe(no_mangle)]
pub extern "C" fn assemble(text: &[u8], words: &mut [u8]) -> Report
    ensures { (result ≡ assembled_of text.now (length words.old)) × (words.new ≡ assembled_into text.now words.old) }
{
    match listing::assemble(text, words) {
        Ok(length) => Report {
            answer: 0,
            at: 0,
            length,
        },
        Err(refused) => Report::from(refused),
    }
}

#[unsafe(no_mangle)]
pub extern "C" fn list_words(words: &[u8], text: &mut [u8]) -> Report
    ensures { (result ≡ listed_of words.now (length text.old)) × (text.new ≡ listed_into words.now text.old) }
{
    match listing::list_words(words, text) {
        Ok(length) => Report {
            answer: 0,
            at: 0,
            length,
        },
        Err(refused) => Report::from(refused),
    }
}
