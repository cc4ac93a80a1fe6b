//! The rules of a file's attributes.
ghost use Rattle.std.specs.Prelude.{◌≡◌};
ghost use Rattle.vx_base.specs.declared.call.ExtAttrs.{ExtAttrs};
ghost use Rattle.vx_inode.specs.Attributes.{attr_check, reserves_too_much, has_flag, layout1};

use vx_base::{ExtAttrs, Geom};

const ALIGN: u8 = 1;

const CONTIG: u8 = 2;

const NORESERVE: u8 = 8;

const CHGSIZE: u8 = 32;

/// Attributes break a rule:
///
/// 1. the fixed extent size is at most the data blocks of a unit;
/// 2. the reservation is at most 65,536 blocks, and at most the largest file;
/// 3. align needs a fixed extent size;
/// 4. contig needs a reservation;
/// 5. contig needs a file without blocks;
/// 6. noreserve needs a file without blocks, and doesn't stand with chgsize.
#[derive(Clone, Copy, Debug, PartialEq, Eq)]
pub struct BadAttr {
    /// The number of the lowest broken rule, from 1.
    pub which: u32,
}

/// Whether attributes may be given to a file, which has blocks or none. The lowest broken rule is answered.
pub trait CheckAttrs {
    ghost attrs: { Self → ExtAttrs };

    /// Checks attributes for layout 1.
    fn check(&self, has_blocks: bool) -> Result<(), BadAttr>
        ensures { result ≡ attr_check layout1 has_blocks (attrs self.now) };

    /// Checks attributes for a layout of these sizes.
    fn check_with(&self, has_blocks: bool, g: &Geom) -> Result<(), BadAttr>
        ensures { result ≡ attr_check g.now has_blocks (attrs self.now) };
}

impl CheckAttrs for ExtAttrs {
    ghost attrs = { λ a. a };

    fn check(&self, has_blocks: bool) -> Result<(), BadAttr> {
        self.check_with(has_blocks, &Geom::layout1())
    }

    fn check_with(&self, has_blocks: bool, g: &Geom) -> Result<(), BadAttr> {
        if self.fixed > g.per_unit {
            Err(BadAttr { which: 1 })
        } else if reserves_too_much(self, g) {
            Err(BadAttr { which: 2 })
        } else if has_flag(self, ALIGN) && self.fixed == 0 {
            Err(BadAttr { which: 3 })
        } else if has_flag(self, CONTIG) && self.reserve == 0 {
            Err(BadAttr { which: 4 })
        } else if has_flag(self, CONTIG) && has_blocks {
            Err(BadAttr { which: 5 })
        } else if has_flag(self, NORESERVE) && (has_flag(self, CHGSIZE) || has_blocks) {
            Err(BadAttr { which: 6 })
        } else {
            Ok(())
        }
    }
}

fn has_flag(attrs: &ExtAttrs, flag: u8) -> bool
    ensures { result ≡ has_flag attrs.now flag }
{
    attrs.flags & flag != 0
}

fn reserves_too_much(attrs: &ExtAttrs, g: &Geom) -> bool
    ensures { result ≡ reserves_too_much g.now attrs.now }
{
    attrs.reserve > 65536 || u64::from(attrs.reserve) * u64::from(g.block) > g.limit
}
