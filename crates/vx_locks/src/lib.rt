//! The locks of inodes.
#![tactic(auto)]

ghost use Rattle.std.specs.Prelude.{◌≡◌, ◌≢◌, ◌⊎◌, ◌<◌, length, replicate, OnOk, OnErr, IfOk, IfErr, Some, None, slice_get, slice_set};

use std::alloc::{AllocError, Global};
use std::marker::Model;
use vx_base::Ino;

/// Which session holds the lock of each inode.
#[derive(Debug, Drop)]
pub struct LockTable {
    holders: Vec<Option<u8>>,
}

/// Another session holds the lock.
#[derive(Clone, Copy, Debug, PartialEq, Eq)]
pub struct Held {
    pub ino: Ino,
    pub holder: u8,
}

impl Model for LockTable {
    ghost use Rattle.std.specs.Prelude.{List, Option, ℕ};

    ghost Value = { List (Option ℕ) };

    ghost view = { λ table. table.holders.items };
}

impl LockTable {
    /// The locks of the inodes below `n`, none of them held.
    pub fn new(alloc: Global, n: u32) -> Result<Self, AllocError>
        ensures { IfOk result (λ table. table ≡ replicate n None) }
    {
        let holders = vec![in alloc; None; n as usize]?;
        Ok(LockTable { holders })
    }

    /// The session that holds an inode's lock.
    pub fn holder(&self, ino: Ino) -> Option<u8>
        requires { ino < length self.now }
        ensures { slice_get self.now ino ≡ Some result }
    {
        self.holders[ino.get() as usize]
    }

    /// Gives an inode's lock to a session, which may hold it already; unchanged where another one holds it.
    pub fn take(&mut self, ino: Ino, session: u8) -> Result<(), Held>
        requires { ino < length self.old }
        ensures taken { OnOk result (self.new ≡ slice_set self.old ino (Some session)) }
        ensures free { OnOk result ((slice_get self.old ino ≡ Some None) ⊎ (slice_get self.old ino ≡ Some (Some session))) }
        ensures held { IfErr result (λ held. (held.ino ≡ ino) × (held.holder ≢ session) × (slice_get self.old ino ≡ Some (Some held.holder))) }
        ensures unchanged { OnErr result (self.new ≡ self.old) }
    {
        match self.holder(ino) {
            Some(holder) if holder != session => Err(Held { ino, holder }),
            _ => {
                self.holders[ino.get() as usize] = Some(session);
                Ok(())
            }
        }
    }

    /// Frees an inode's lock.
    pub fn give(&mut self, ino: Ino)
        requires { ino < length self.old }
        ensures { self.new ≡ slice_set self.old ino None }
    {
        self.holders[ino.get() as usize] = None;
    }
}

#[cfg(test)]
mod tests {
    use super::*;
    use std::test::Fail;

    #[test]
    fn one_holder(rt: HostRuntime) -> Result<(), Fail> {
        let mut table = LockTable::new(rt.alloc(), 128)?;
        let ino = Ino::new(3);
        assert!(rt; table.take(ino, 0).is_ok());
        assert!(rt; matches!(table.take(ino, 1), Err(held) if held == Held { ino, holder: 0 }));
        assert_eq!(rt; table.holder(ino), Some(0));
        table.give(ino);
        assert_eq!(rt; table.holder(ino), None);
        Ok(())
    }
}
