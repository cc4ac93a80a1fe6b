//! Walking along a path.
ghost use Rattle.std.specs.Prelude.{◌≡◌, ℕ, Ok, Err, Some, None, IfOk, IfErr, false};
ghost use Rattle.vx_model.specs.Legal.{is_any_time};
ghost use Rattle.vx_model.specs.State.{State};
ghost use Rattle.vx_model.specs.Walks.{root, walk, step_to, directory_at};
ghost use Rattle.vx_txn.specs.Metas.{Stands, directory_of};

use crate::directory::Directory;
use crate::meta::Meta;
use vx_base::{Ino, Name, Refusal};

const ROOT: u32 = 2;

/// The directory of an inode number, or why there is none.
pub fn directory_of(meta: &Meta, ino: Ino) -> Result<&Directory, Refusal>
    ensures found { IfOk result (λ d. directory_of meta.now ino ≡ Some d.now) }
    ensures refused { (s : State) → Stands meta.now s → IfErr result (λ why. directory_at s.tree.nodes ino ≡ Err why) }
    ensures refusal { IfErr result (λ why. is_any_time why ≡ false) }
{
    match meta.inodes.get(ino) {
        None => Err(Refusal::NoEnt),
        Some(_) => match meta.directory(ino) {
            Some(directory) => Ok(directory),
            None => Err(Refusal::NotDir),
        },
    }
}

/// The inode that a name of a directory means.
pub fn step_to(meta: &Meta, at: Ino, name: &Name) -> Result<Ino, Refusal>
    ensures step { (s : State) → Stands meta.now s → result ≡ step_to s.tree.nodes at name.now }
    ensures refusal { IfErr result (λ why. is_any_time why ≡ false) }
{
    match directory_of(meta, at) {
        Ok(directory) => match directory.names().find(name) {
            Some(ino) => Ok(ino),
            None => Err(Refusal::NoEnt),
        },
        Err(why) => Err(why),
    }
}

/// The inode at the end of these names.
pub fn walk(meta: &Meta, names: &[Name]) -> Result<Ino, Refusal>
    ensures walk { (s : State) → Stands meta.now s → result ≡ walk s.tree.nodes root names.now }
    ensures refusal { IfErr result (λ why. is_any_time why ≡ false) }
{
    let mut at = Ino::new(ROOT);
    for name in names {
        match step_to(meta, at, name) {
            Ok(next) => at = next,
            Err(why) => return Err(why),
        }
    }
    Ok(at)
}
