// A text in parts, and a part read as a name or as a number.
#![tactic(auto)]

ghost use Rattle.std.specs.Prelude.{◌≡◌, ◌==◌, not, ◌+◌, ◌<◌, ◌≤◌, [], ◌∷◌, length, drop, IfSome, MatchOption, SomeIff};
ghost use Rattle.std.specs.List.{position, position_or_len};
ghost use Rattle.pieces.specs.Parts.{lines_of, pieces_of};
ghost use Rattle.pieces.specs.Counted.{length_to, spaces_of, PieceAt};
ghost use Rattle.pieces.specs.Read.{letter_of, name_of, digit_of, value_of};

// Where the first mark stands.
fn place_of(text: &[u8], mark: u8) -> Option<usize>
    ensures { result ≡ position (λ c. c == mark) text.now }
{
    text.iter().position(|c| *c == mark)
}

// How many bytes stand before the first mark; all of them where there is none.
fn length_to(text: &[u8], mark: u8) -> usize
    ensures before { result ≡ position_or_len (λ c. c == mark) text.now }
    ensures within { result ≤ length text.now }
{
    place_of(text, mark).unwrap_or(text.len())
}

// The first mark at `at` or after it, or the end.
pub fn part_end(text: &[u8], at: usize, mark: u8) -> usize
    ensures { result ≡ at + length_to mark (drop at text.now) }
{
    if text.len() <= at {
        return at;
    }
    at + length_to(&text[at..], mark)
}

// The first line of a text, and the text after its newline.
pub fn first_line(text: &[u8]) -> Option<(&[u8], &[u8])>
    ensures first { MatchOption result (lines_of text.now ≡ []) (λ p. lines_of text.now ≡ p.0.now ∷ lines_of p.1.now) }
    ensures after { IfSome result (λ p. p.1.now ≡ drop (length p.0.now + 1) text.now) }
    ensures shorter { IfSome result (λ p. length p.1.now < length text.now) }
{
    if text.is_empty() {
        return None;
    }
    match place_of(text, b'\n') {
        Some(end) => Some((&text[..end], &text[end + 1..])),
        None => Some((text, &[])),
    }
}

// Where the first piece of a line begins.
fn start(line: &[u8]) -> Option<usize>
    ensures { result ≡ position (λ c. not (c == 32)) line.now }
{
    line.iter().position(|c| *c != b' ')
}

// The first piece of a line, and the line after it.
pub fn first_piece(line: &[u8]) -> Option<(&[u8], &[u8])>
    ensures first { MatchOption result (pieces_of line.now ≡ []) (λ p. pieces_of line.now ≡ p.0.now ∷ pieces_of p.1.now) }
    ensures after { IfSome result (λ p. p.1.now ≡ drop (spaces_of line.now + length p.0.now) line.now) }
    ensures shorter { IfSome result (λ p. length p.1.now < length line.now) }
{
    let filled = &line[start(line)?..];
    Some(filled.split_at(length_to(filled, b' ')))
}

// A piece is line[from..to]; where there is none both are the line's end.
#[derive(Clone, Copy)]
pub struct Piece {
    pub from: usize,
    pub to: usize,
}

// The first piece at `at` or after it.
pub fn piece_at(line: &[u8], at: usize) -> Piece
    ensures { PieceAt line.now at result.from result.to }
{
    let end = line.len();
    if end <= at {
        return Piece { from: end, to: end };
    }
    let from = at + start(&line[at..]).unwrap_or(end - at);
    let to = part_end(line, from, b' ');
    Piece { from, to }
}

// Letter i of a name, a space where the piece has ended.
#[tactic(auto, unfolding(crate::specs::Read::upper_of, choose::specs::Ranged::ranged))]
fn letter(piece: &[u8], i: usize) -> u8
    ensures { result ≡ letter_of piece.now i }
{
    piece.get(i).map_or(b' ', u8::to_ascii_uppercase)
}

// A piece as a name: four letters, the first in the highest byte, spaces at the end.
#[tactic(auto, unfolding(crate::specs::Read::name_of))]
pub fn name_of(piece: &[u8]) -> Option<u32>
    ensures { SomeIff result (length piece.now ≤ 4) (name_of piece.now) }
{
    if 4 < piece.len() {
        return None;
    }
    Some(u32::from_be_bytes([
        letter(piece, 0),
        letter(piece, 1),
        letter(piece, 2),
        letter(piece, 3),
    ]))
}

// A hexadecimal digit's value.
#[tactic(auto, unfolding(crate::specs::Read::digit_of, choose::specs::Ranged::ranged))]
pub fn digit_of(c: u8) -> Option<u8>
    ensures { SomeIff result (digit_of c < 0x10) (digit_of c) }
{
    (c as char).to_digit(16).map(|digit| digit as u8)
}

// A piece as a hexadecimal number, where it is one that some field holds.
pub fn number_of(piece: &[u8]) -> Option<u16>
    ensures { SomeIff result (value_of piece.now < 0x800) (value_of piece.now) }
{
    if piece.is_empty() {
        return None;
    }
    let mut n = 0;
    for c in piece {
        n = n * 0x10 + digit_of(*c)? as u16;
        if 0x800 <= n {
            return None;
        }
    }
    Some(n)
}
