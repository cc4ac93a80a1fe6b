//! What stays where the blocks of one file change.
ghost use Rattle.vx_blockmaps.specs.Elsewhere.{Others};

/// Where the blocks of one file change, every other inode has what it had.
pub fn others()
    ensures { Others }
{}
