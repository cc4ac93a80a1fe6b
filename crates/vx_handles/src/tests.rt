//! What the calls answer on a few handles and on as many as may be open.
use super::*;
use std::test::Fail;
use vx_base::{Flag, Ino};

#[test]
fn opens_a_handle_once(rt: HostRuntime) -> Result<(), Fail> {
    let mut handles = Handles::new(rt.alloc())?;
    let ino = Ino::new(3);
    assert!(rt; handles.add(0, 1, ino, Flag::Plain).is_ok());
    let again = handles.add(0, 1, ino, Flag::Plain);
    assert!(rt; matches!(again, Err(HandleRefusal::BadHandle)));
    assert!(rt; handles.add(1, 1, ino, Flag::Sync).is_ok());
    assert!(rt; matches!(handles.find(1, 1), Some((found, Flag::Sync)) if found == ino));
    assert_eq!(rt; handles.open_on(ino), 2);
    assert_eq!(rt; handles.remove(0, 1), Some(ino));
    assert_eq!(rt; handles.remove(0, 1), None);
    assert!(rt; handles.find(0, 1).is_none());
    assert_eq!(rt; handles.open_on(ino), 1);
    Ok(())
}

#[test]
fn opens_as_many_as_may_be(rt: HostRuntime) -> Result<(), Fail> {
    let mut handles = Handles::new(rt.alloc())?;
    for session in 0..16 {
        for handle in 0..16 {
            assert!(rt;
                handles
                    .add(session, handle, Ino::new(3), Flag::Plain)
                    .is_ok()
            );
        }
    }
    let more = handles.add(0, 16, Ino::new(3), Flag::Plain);
    assert!(rt; matches!(more, Err(HandleRefusal::TooManyOpen { open_now: 256 })));
    let again = handles.add(0, 1, Ino::new(3), Flag::Plain);
    assert!(rt; matches!(again, Err(HandleRefusal::BadHandle)));
    Ok(())
}
