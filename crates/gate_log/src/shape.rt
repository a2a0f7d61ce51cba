//! How large a store is.
ghost use Rattle.std.specs.Prelude.{◌≤◌, ◌^◌, ◌≡◌};
ghost use Rattle.gate_log.specs.Text.{begin};

/// The bytes of a cell in front of its body: the gate and the length.
pub const CELL_HEAD: u64 = 5;

/// The size of a store: how many bytes each of its two banks has, and how many a body may have.
#[derive(Clone, Copy, Debug, PartialEq, Eq)]
pub struct Shape {
    /// The bytes of a bank, from 1 to 2^62.
    pub bank: u64,

    /// The bytes of the longest body.
    pub largest: u32,
}

/// Where a bank begins.
pub(crate) fn begin(shape: Shape, second: bool) -> u64
    requires { shape.bank ≤ 2 ^ 62 }
    ensures { result ≡ begin shape second }
{
    if second { 8 + shape.bank } else { 8 }
}
