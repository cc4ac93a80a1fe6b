//! How many names each inode has.
ghost use Rattle.std.specs.Prelude.{◌≡◌, ◌+◌, ◌<◌, ℕ, IfOk, length, get_or};
ghost use Rattle.vx_check.specs.Reaching.{children_of};
ghost use Rattle.vx_check.specs.Links.{AreCounts, count_of, names_in};

use crate::reaching::Targets;
use std::alloc::{AllocError, Global};

/// Counts each of the numbers once more.
fn bump(counts: &mut Vec<u32>, targets: &[u32])
    requires inside { (j : ℕ) → j < length targets.now → get_or targets.now j 0 < length counts.old.items }
    ensures length { length counts.new.items ≡ length counts.old.items }
    ensures counts { (f : ℕ → ℕ) → AreCounts counts.old.items f → AreCounts counts.new.items (λ n. f n + count_of targets.now n) }
{
    for n in targets {
        let at = *n as usize;
        let count = counts[at];
        counts[at] = count.saturating_add(1);
    }
}

/// How often each number is named.
pub(crate) fn count_names(alloc: Global, children: &[Targets]) -> Result<Vec<u32>, AllocError>
    requires inside { (d j : ℕ) → j < length (children_of children.now d) → get_or (children_of children.now d) j 0 < length children.now }
    ensures length { IfOk result (λ c. length c.items ≡ length children.now) }
    ensures counts { IfOk result (λ c. AreCounts c.items (names_in children.now)) }
{
    let mut counts = vec![in alloc; 0u32; children.len()]?;
    for targets in children {
        bump(&mut counts, targets.as_slice());
    }
    Ok(counts)
}
