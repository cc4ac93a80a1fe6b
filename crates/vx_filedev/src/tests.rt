use crate::FileDev;
use std::fs::OpenOptions;
use std::test::Fail;
use vx_dev::{BlockDev, DevFault};

#[test]
fn writes_and_reads_a_file(rt: HostRuntime) -> Result<(), Fail> {
    let file = OpenOptions::new()
        .read(true)
        .write(true)
        .create(true)
        .truncate(true)
        .open(&rt, "device")?;
    let mut dev = FileDev::new(rt.alloc(), file, 200)?;
    // two neighbours, the first one again, one far off, and more neighbours than are gathered
    assert_eq!(rt; dev.write(1, &[7; 512]), Ok(()));
    assert_eq!(rt; dev.write(2, &[8; 512]), Ok(()));
    let mut found = [0; 512];
    assert_eq!(rt; dev.read(2, &mut found), Ok(()));
    assert_eq!(rt; found, [8; 512]);
    assert_eq!(rt; dev.write(1, &[9; 512]), Ok(()));
    assert_eq!(rt; dev.write(150, &[6; 512]), Ok(()));
    for s in 20..120 {
        assert_eq!(rt; dev.write(s, &[s as u8; 512]), Ok(()));
    }
    assert_eq!(rt; dev.read(1, &mut found), Ok(()));
    assert_eq!(rt; found, [9; 512]);
    assert_eq!(rt; dev.barrier(), Ok(()));
    assert_eq!(rt; dev.read(0, &mut found), Ok(()));
    assert_eq!(rt; found, [0; 512]);
    assert_eq!(rt; dev.read(1, &mut found), Ok(()));
    assert_eq!(rt; found, [9; 512]);
    assert_eq!(rt; dev.read(2, &mut found), Ok(()));
    assert_eq!(rt; found, [8; 512]);
    assert_eq!(rt; dev.read(20, &mut found), Ok(()));
    assert_eq!(rt; found, [20; 512]);
    assert_eq!(rt; dev.read(84, &mut found), Ok(()));
    assert_eq!(rt; found, [84; 512]);
    assert_eq!(rt; dev.read(119, &mut found), Ok(()));
    assert_eq!(rt; found, [119; 512]);
    assert_eq!(rt; dev.read(150, &mut found), Ok(()));
    assert_eq!(rt; found, [6; 512]);
    assert_eq!(rt; dev.ops(), 105);
    Ok(())
}

#[test]
fn the_end_of_the_file_is_a_fault(rt: HostRuntime) -> Result<(), Fail> {
    let file = OpenOptions::new()
        .read(true)
        .write(true)
        .create(true)
        .truncate(true)
        .open(&rt, "short")?;
    let mut dev = FileDev::new(rt.alloc(), file, 1)?;
    assert_eq!(rt; dev.read(0, &mut [0; 512]), Err(DevFault));
    assert_eq!(rt; dev.read_faults(), 1);
    assert_eq!(rt; dev.write_faults(), 0);
    Ok(())
}

#[test]
fn a_file_for_reading_alone_fails_at_the_barrier(rt: HostRuntime) -> Result<(), Fail> {
    let made = OpenOptions::new()
        .write(true)
        .create(true)
        .open(&rt, "read_only")?;
    drop(made);
    let file = OpenOptions::new().read(true).open(&rt, "read_only")?;
    let mut dev = FileDev::new(rt.alloc(), file, 9)?;
    assert_eq!(rt; dev.write(0, &[1; 512]), Ok(()));
    assert_eq!(rt; dev.barrier(), Err(DevFault));
    assert_eq!(rt; dev.write_faults(), 1);
    assert_eq!(rt; dev.write(5, &[1; 512]), Err(DevFault));
    assert_eq!(rt; dev.write_faults(), 2);
    let mut found = [0; 512];
    assert_eq!(rt; dev.read(0, &mut found), Ok(()));
    assert_eq!(rt; found, [1; 512]);
    Ok(())
}
