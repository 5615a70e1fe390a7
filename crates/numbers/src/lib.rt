// Numbers in bytes, the low byte first. A byte past the end reads as 0, so that a place asks nothing of its reader.
#![tactic(auto)]

ghost use Rattle.std.specs.Prelude.{◌≡◌};
ghost use Rattle.numbers.specs.Numbers.{byte_at, pair_of, quad_of, pair_at, quad_at};

pub fn byte_at(s: &[u8], a: usize) -> u8
    ensures { result ≡ byte_at s.now a }
{
    s.get(a).copied().unwrap_or(0)
}

pub fn pair(low: u8, high: u8) -> u16
    ensures { result ≡ pair_of low high }
{
    u16::from_le_bytes([low, high])
}

// The compiler makes one load of it.
pub fn quad(b0: u8, b1: u8, b2: u8, b3: u8) -> u32
    ensures { result ≡ quad_of b0 b1 b2 b3 }
{
    u32::from_le_bytes([b0, b1, b2, b3])
}

// The test, here and below, keeps `a + 1` in a usize; `get` of the first byte would be the same test.
pub fn pair_at(s: &[u8], a: usize) -> u16
    ensures { result ≡ pair_at s.now a }
{
    if a < s.len() {
        return pair(s[a], byte_at(s, a + 1));
    }
    0
}

pub fn quad_at(s: &[u8], a: usize) -> u32
    ensures { result ≡ quad_at s.now a }
{
    if a < s.len() {
        return pair_at(s, a) as u32 + 65536 * (pair_at(s, a + 2) as u32);
    }
    0
}
