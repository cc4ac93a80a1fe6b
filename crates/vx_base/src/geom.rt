//! The sizes of a layout.
ghost use Rattle.std.specs.Prelude.{◌≡◌, ◌^◌};

/// The sizes that a disk layout fixes (docs/LAYOUT.md).
#[derive(Clone, Copy, Debug, PartialEq, Eq)]
pub struct Geom {
    /// Bytes in a block.
    pub block: u32,
    /// Data blocks in an allocation unit.
    pub per_unit: u32,
    /// The most map blocks that a file may have.
    pub maps: u32,
    /// The most blocks that a directory may have.
    pub dirs: u32,
    /// The most bytes that a file may have.
    pub limit: u64,
}

impl Geom {
    /// Layout 1: blocks of 1,024 bytes and files of up to 64 MiB.
    pub fn layout1() -> Self
        ensures { result ≡ record { block = 1024; per_unit = 4063; maps = 64; dirs = 64; limit = 2 ^ 26 } }
    {
        Geom {
            block: 1024,
            per_unit: 4063,
            maps: 64,
            dirs: 64,
            limit: 1 << 26,
        }
    }
}
