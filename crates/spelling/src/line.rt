ghost use Rattle.std.specs.Prelude.{◌≤◌};

// The bytes of a line, 40 at most.
#[derive(Clone, Copy)]
pub struct Line {
    pub(crate) bytes: [u8; 40],
    pub(crate) length: usize,
    ghost fits: { length ≤ 40 },
}
