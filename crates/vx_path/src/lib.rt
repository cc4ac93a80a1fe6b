//! Paths as lists of names (docs/CALLS.md, "Paths").
#![tactic(auto)]

ghost use Rattle.std.specs.Prelude.{◌≡◌, ◌⊎◌, IfOk, IfErr, Some, None, true, map, nat_eq};
ghost use Rattle.std.specs.List.{slice_split, list_all};
ghost use Rattle.vx_base.specs.Paths.{is_name, split, components_after, if_names};

use std::alloc::{AllocError, Global};
use vx_base::{Name, Names};

const LONGEST_PATH: usize = 1023;

const LONGEST_NAME: usize = 255;

/// Why a path was not split.
#[derive(Clone, Copy, Debug, PartialEq, Eq)]
pub enum SplitRefusal {
    /// It is no path.
    BadName,
    NoMemory,
}

impl From<AllocError> for SplitRefusal {
    ghost use Rattle.std.specs.Prelude.{◌≡◌};
    ghost use Rattle.vx_path.specs.declared.SplitRefusal.TheVariants.{NoMemory};

    ghost from_gives = { λ _ why. why ≡ NoMemory };

    fn from(_: AllocError) -> SplitRefusal {
        SplitRefusal::NoMemory
    }
}

/// The names on a path, none for the root.
pub fn split(alloc: Global, path: &[u8]) -> Result<Names, SplitRefusal>
    ensures ok { IfOk result (λ names. split path.now ≡ Some names) }
    ensures legal { IfOk result (λ names. list_all is_name names ≡ true) }
    ensures err { IfErr result (λ why. (why ≡ SplitRefusal.NoMemory) ⊎ (split path.now ≡ None)) }
{
    if path.len() > LONGEST_PATH {
        return Err(SplitRefusal::BadName);
    }
    match path.split_first() {
        Some((b'/', rest)) => components(alloc, rest),
        _ => Err(SplitRefusal::BadName),
    }
}

fn components(alloc: Global, rest: &[u8]) -> Result<Names, SplitRefusal>
    ensures ok { IfOk result (λ names. components_after rest.now ≡ Some names) }
    ensures legal { IfOk result (λ names. list_all is_name names ≡ true) }
    ensures err { IfErr result (λ why. (why ≡ SplitRefusal.NoMemory) ⊎ (components_after rest.now ≡ None)) }
{
    if rest.is_empty() {
        return Ok(Names::new(alloc));
    }
    let parts = parts(alloc, rest)?;
    names_of(alloc, &parts)
}

fn parts(alloc: Global, rest: &[u8]) -> Result<Vec<&[u8]>, AllocError>
    ensures { IfOk result (λ parts. map (λ part. part.now) parts.items ≡ slice_split (λ c. nat_eq c 47) rest.now) }
{
    rest.split(|b| *b == b'/').collect(alloc)
}

fn names_of(alloc: Global, parts: &[&[u8]]) -> Result<Names, SplitRefusal>
    ensures ok { IfOk result (λ names. if_names (map (λ part. part.now) parts.now) ≡ Some names) }
    ensures legal { IfOk result (λ names. list_all is_name names ≡ true) }
    ensures err { IfErr result (λ why. (why ≡ SplitRefusal.NoMemory) ⊎ (if_names (map (λ part. part.now) parts.now) ≡ None)) }
{
    let mut names = Names::new(alloc);
    for part in parts {
        if !is_name(part) {
            return Err(SplitRefusal::BadName);
        }
        names.push(Name::from_slice(alloc, part)?)?;
    }
    Ok(names)
}

/// Whether it may stand in a directory: 1 to 255 bytes without NUL or slash, and neither `.` nor `..`.
fn is_name(name: &[u8]) -> bool
    ensures { result ≡ is_name name.now }
{
    !name.is_empty()
        && name.len() <= LONGEST_NAME
        && !name.contains(&0)
        && name != b".".as_slice()
        && name != b"..".as_slice()
}

#[cfg(test)]
mod tests {
    use super::*;
    use std::test::Fail;

    #[test]
    fn splits_paths(rt: HostRuntime) -> Result<(), Fail> {
        let alloc = rt.alloc();
        let names = split(alloc, b"/a/bc")?;
        assert_eq!(rt; names.len(), 2);
        assert_eq!(rt; names.get(0).as_slice(), b"a".as_slice());
        assert_eq!(rt; names.get(1).as_slice(), b"bc".as_slice());
        assert_eq!(rt; split(alloc, b"/")?.len(), 0);
        for bad in [
            b"".as_slice(),
            b"a",
            b"//a",
            b"/a/",
            b"/.",
            b"/a/..",
            b"/\x00",
        ] {
            assert!(rt; matches!(split(alloc, bad), Err(SplitRefusal::BadName)));
        }
        Ok(())
    }
}
