//! Writes of one page after the other.
use super::*;
use std::test::Fail;
use vx_alloc::FreeMap;
use vx_base::{Block, Extent, Kind, Page, Refusal};

#[test]
fn two_files_in_turn(rt: HostRuntime) -> Result<(), Fail> {
    let mut free = FreeMap::new(rt.alloc(), Block::new(514), 1)?;
    let mut a = FileMaps::new(rt.alloc());
    let mut b = FileMaps::new(rt.alloc());
    let mut scratch = Scratch::new(rt.alloc());
    for p in 0..100 {
        let first = a.place_write(&mut free, &mut scratch, 8, Page::new(p), 1);
        assert!(rt; first.is_ok());
        let second = b.place_write(&mut free, &mut scratch, 8, Page::new(p), 1);
        assert!(rt; second.is_ok());
    }
    assert!(rt; a.find(Page::new(6)) == Some((Block::new(559), Kind::Data)));
    assert!(rt; a.find(Page::new(7)) == Some((Block::new(563), Kind::Data)));
    assert!(rt; a.find(Page::new(99)) == Some((Block::new(749), Kind::Data)));
    assert_eq!(rt; a.chain().len(), 2);
    assert!(rt; a.chain()[0] == Block::new(560));
    assert!(rt; a.chain()[1] == Block::new(688));
    Ok(())
}

#[test]
fn nothing_changes_where_space_is_short(rt: HostRuntime) -> Result<(), Fail> {
    let mut free = FreeMap::new(rt.alloc(), Block::new(514), 1)?;
    let mut a = FileMaps::new(rt.alloc());
    let mut scratch = Scratch::new(rt.alloc());
    for i in 0..70 {
        let placed = a.place_write(&mut free, &mut scratch, 8, Page::new(58 * i), 58);
        assert!(rt; placed.is_ok());
    }
    let refused = a.place_write(&mut free, &mut scratch, 8, Page::new(4060), 4);
    let want = PlaceRefusal::Refused(Refusal::NoSpace { need: 4, free: 3 });
    assert!(rt; refused == Err(want));
    assert_eq!(rt; free.free(), 3);
    assert!(rt; a.find(Page::new(4060)).is_none());
    Ok(())
}

#[test]
fn extents_and_map_blocks_are_loaded(rt: HostRuntime) -> Result<(), Fail> {
    let mut a = FileMaps::new(rt.alloc());
    let first = Extent {
        page: Page::new(0),
        start: Block::new(600),
        len: 3,
        kind: Kind::Data,
    };
    let second = Extent {
        page: Page::new(3),
        start: Block::new(700),
        len: 2,
        kind: Kind::Data,
    };
    a.load_extent(&first)?;
    a.load_extent(&second)?;
    a.load_map(Block::new(900))?;
    a.load_map(Block::new(555))?;
    assert!(rt; a.find(Page::new(2)) == Some((Block::new(602), Kind::Data)));
    assert!(rt; a.find(Page::new(4)) == Some((Block::new(701), Kind::Data)));
    assert!(rt; a.find(Page::new(5)).is_none());
    assert_eq!(rt; a.present().extents(), 2);
    assert_eq!(rt; a.chain().len(), 2);
    assert!(rt; a.chain()[1] == Block::new(555));
    Ok(())
}
