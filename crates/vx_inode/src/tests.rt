use super::*;
use std::test::Fail;
use vx_base::{ExtAttrs, FileKind, Geom, Ino, Inode};

#[test]
fn makes_the_lowest(rt: HostRuntime) -> Result<(), Fail> {
    let root = Ino::new(2);
    let mut table = InodeTable::new(rt.alloc(), 1)?;
    assert!(rt; table.get(root).is_none());
    table.put(
        root,
        &Inode {
            kind: FileKind::Directory,
            mode: 0o755,
            nlink: 1,
            size: 0,
            attrs: ExtAttrs {
                fixed: 0,
                reserve: 0,
                flags: 0,
            },
        },
    )?;
    for number in 3..128 {
        assert!(rt; table.get(root).is_some());
        let made = table.make(FileKind::File, 0o644);
        assert!(rt; matches!(made, Ok(ino) if ino.get() == number));
    }
    assert!(rt; table.get(root).is_some());
    let none = table.make(FileKind::File, 0o644);
    assert!(rt; matches!(none, Err(MakeRefusal::NoInodes { in_use: 126 })));
    Ok(())
}

#[test]
fn names_the_lowest_broken_rule(rt: HostRuntime) {
    let mut attrs = ExtAttrs {
        fixed: 8,
        reserve: 16,
        flags: 1,
    };
    assert!(rt; attrs.check(false).is_ok());
    assert!(rt; attrs.check_with(true, &Geom::layout1()).is_ok());
    attrs.fixed = 0;
    assert!(rt; matches!(attrs.check(false), Err(BadAttr { which: 3 })));
}
