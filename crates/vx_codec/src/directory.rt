//! Directory blocks.
ghost use Rattle.std.specs.Prelude.{◌≡◌, ◌⊎◌, ℕ, List, Some, None, Ok, Err, IfOk, ◌+◌, ◌-◌, ◌≤◌, ◌<◌, ◌^◌, ◌++◌, length, drop, All};
ghost use Rattle.std.specs.Str.{bytes_eq};
ghost use Rattle.vx_base.specs.declared.inode.DirEntry.{DirEntry};
ghost use Rattle.vx_layout.specs.Dirs.{entry_bytes, entries_bytes, dir_bytes, entry_at, dir_at, IsEntry, IsDir};
ghost use Rattle.vx_codec.specs.declared.directory.DirReadRefusal.TheVariants.{Bad, NoMemory};

use std::alloc::{AllocError, Global};
use vx_base::{DirEntry, DirValue, Ino, Name};
use vx_layout::Sheet;
use vx_layout::fields::{u16_at, u32_at};

/// Bytes before the first entry.
const HEAD: usize = 4;

/// Bytes that an entry takes before its name.
const ENTRY_HEAD: usize = 5;

/// Why a directory block is not read.
#[derive(Clone, Copy, Debug, PartialEq, Eq)]
pub enum DirReadRefusal {
    /// No list of entries is spelled so.
    Bad,
    NoMemory,
}

impl From<AllocError> for DirReadRefusal {
    ghost use Rattle.std.specs.Prelude.{◌≡◌};
    ghost use Rattle.vx_codec.specs.declared.directory.DirReadRefusal.TheVariants.{NoMemory};

    ghost from_gives = { λ _ why. why ≡ NoMemory };

    fn from(_: AllocError) -> DirReadRefusal {
        DirReadRefusal::NoMemory
    }
}

/// The one spelling of a directory block of `N` bytes.
#[tactic(auto, unfolding(vx_layout::specs::Dirs::dir_bytes))]
pub fn write_dir<const N: usize>(entries: &[DirEntry]) -> [u8; N]
    requires size { N ≤ 65536 }
    requires short { All (λ e. length e.name < 256) entries.now }
    requires room { 4 + length (entries_bytes entries.now) ≤ N }
    ensures { result ≡ dir_bytes N entries.now }
{
    let mut sheet = Sheet::<N>::new();
    sheet.put_u16(entries.len() as u16);
    sheet.put_u16(used_by(entries) as u16);
    for entry in entries {
        put_entry(&mut sheet, entry);
    }
    sheet.finish()
}

/// The entries of a directory block of `N` bytes.
///
/// That their names are distinct and of legal form is not looked at.
pub fn read_dir<const N: usize>(alloc: Global, block: &[u8; N]) -> Result<DirValue, DirReadRefusal>
    requires low { 4 ≤ N }
    requires high { N ≤ 65536 }
    // What is read is spelled so.
    ensures found { IfOk result (λ v. IsDir N v × (block.now ≡ dir_bytes N v)) }
    // What is spelled so is read, unless memory is short.
    ensures only { (v : List DirEntry) → IsDir N v → block.now ≡ dir_bytes N v → (result ≡ Ok v) ⊎ (result ≡ Err NoMemory) }
{
    let value = entries_of(alloc, block)?;
    if is_spelling::<N>(value.as_slice(), block) {
        Ok(value)
    } else {
        Err(DirReadRefusal::Bad)
    }
}

/// What is spelled as a directory block is read again, and so each list of entries has one spelling.
pub fn dir_spelling()
    ensures again { (size : ℕ) (es : List DirEntry) → IsDir size es → dir_at (dir_bytes size es) ≡ Some es }
    ensures unique { (size : ℕ) (xs ys : List DirEntry) → IsDir size xs → IsDir size ys → dir_bytes size xs ≡ dir_bytes size ys → xs ≡ ys }
{}

fn is_spelling<const N: usize>(entries: &[DirEntry], block: &[u8; N]) -> bool
    requires size { N ≤ 65536 }
    requires is { IsDir N entries.now }
    ensures { result ≡ bytes_eq (dir_bytes N entries.now) block.now }
{
    write_dir::<N>(entries).as_slice() == block.as_slice()
}

/// The entries from left to right, as many as the first number says.
fn entries_of(alloc: Global, bytes: &[u8]) -> Result<DirValue, DirReadRefusal>
    requires { 4 ≤ length bytes.now }
    ensures read { IfOk result (λ v. dir_at bytes.now ≡ Some v) }
    ensures is { IfOk result (λ v. IsDir (length bytes.now) v) }
    ensures bad { result ≡ Err Bad → dir_at bytes.now ≡ None }
{
    let count = u16_at(bytes, 0);
    let mut value = DirValue::new(alloc);
    let mut at = HEAD;
    for _ in 0..count {
        let entry = entry_of(alloc, &bytes[at..])?;
        at += ENTRY_HEAD + entry.name.as_slice().len();
        value.push(entry)?;
    }
    Ok(value)
}

/// The first entry of the bytes.
fn entry_of(alloc: Global, bytes: &[u8]) -> Result<DirEntry, DirReadRefusal>
    ensures read { IfOk result (λ e. entry_at bytes.now ≡ Some (e, drop (5 + length e.name) bytes.now)) }
    ensures is { IfOk result (λ e. IsEntry e) }
    ensures within { IfOk result (λ e. 5 + length e.name ≤ length bytes.now) }
    ensures bad { result ≡ Err Bad → entry_at bytes.now ≡ None }
{
    if bytes.len() < ENTRY_HEAD {
        return Err(DirReadRefusal::Bad);
    }
    let end = ENTRY_HEAD + bytes[4] as usize;
    if bytes.len() < end {
        return Err(DirReadRefusal::Bad);
    }
    let name = Name::from_slice(alloc, &bytes[ENTRY_HEAD..end])?;
    Ok(DirEntry {
        ino: Ino::new(u32_at(bytes, 0)),
        name,
    })
}

#[tactic(auto, unfolding(vx_layout::specs::Dirs::entry_bytes))]
fn put_entry<const N: usize>(sheet: &mut Sheet<N>, entry: &DirEntry)
    requires short { length entry.now.name < 256 }
    requires room { length sheet.old + 5 + length entry.now.name ≤ N }
    ensures { sheet.new ≡ sheet.old ++ entry_bytes entry.now }
{
    let name = entry.name.as_slice();
    sheet.put_u32(entry.ino.get());
    sheet.put_u8(name.len() as u8);
    sheet.put(name);
}

/// The bytes that the entries take.
fn used_by(entries: &[DirEntry]) -> usize
    requires { length (entries_bytes entries.now) < 2 ^ 32 }
    ensures { result ≡ length (entries_bytes entries.now) }
{
    let mut used = 0;
    for entry in entries {
        used += 5 + entry.name.as_slice().len();
    }
    used
}

#[cfg(test)]
mod tests {
    use super::*;
    use crate::part::sector_part;
    use std::test::Fail;
    use vx_base::{Ino, Name};

    #[test]
    #[tactic(auto, unfolding(vx_layout::specs::Dirs::entry_bytes))]
    fn block_with_one_name(rt: HostRuntime) -> Result<(), Fail> {
        let alloc = rt.alloc();
        let name = Name::from_slice(alloc, b"a")?;
        let entries = [DirEntry {
            ino: Ino::new(3),
            name,
        }];
        let block = write_dir::<1024>(&entries);
        let sector = sector_part(&block, 0);
        assert!(rt; sector.starts_with(&[1, 0, 6, 0, 3, 0, 0, 0, 1, 0x61]));
        assert!(rt; sector.iter().skip(10).all(|byte| *byte == 0));
        assert!(rt; sector_part(&block, 1).iter().all(|byte| *byte == 0));
        Ok(())
    }

    #[test]
    fn block_read(rt: HostRuntime) {
        let mut block = [0; 1024];
        block[..10].copy_from_slice(&[1, 0, 6, 0, 3, 0, 0, 0, 1, 0x61]);
        match read_dir::<1024>(rt.alloc(), &block) {
            Ok(value) => {
                let entries = value.as_slice();
                assert_eq!(rt; entries.len(), 1);
                assert_eq!(rt; entries[0].ino.get(), 3);
                assert_eq!(rt; entries[0].name.as_slice(), b"a".as_slice());
            }
            Err(refusal) => panic!(rt; "not read: {refusal:?}"),
        }
        block[100] = 1;
        assert!(rt;
            matches!(
                read_dir::<1024>(rt.alloc(), &block),
                Err(DirReadRefusal::Bad)
            )
        );
        block[100] = 0;
        block[2] = 7;
        assert!(rt;
            matches!(
                read_dir::<1024>(rt.alloc(), &block),
                Err(DirReadRefusal::Bad)
            )
        );
    }
}
