//! What the calls answer on a few pages and on as many as there is room for.
use super::*;
use std::test::Fail;
use vx_base::{Geom, Ino, Page};

// Puts a page of inode 3, if it is not there.
fn put(cache: &mut PageCache, page: u32, bytes: &[u8]) -> bool {
    let (ino, page) = (Ino::new(3), Page::new(page));
    if cache.block() as usize != bytes.len() || cache.peek(ino, page).is_some() {
        return false;
    }
    cache.put(ino, page, bytes)
}

// Writes one byte into a page of inode 3.
fn write(cache: &mut PageCache, page: u32, from: u32, byte: u8) -> bool {
    from < cache.block() && cache.write(Ino::new(3), Page::new(page), from, &[byte])
}

#[test]
fn a_page_that_is_put(rt: HostRuntime) -> Result<(), Fail> {
    let mut cache = PageCache::new(rt.alloc())?;
    let (ino, first) = (Ino::new(3), Page::new(0));
    assert!(rt; cache.get(ino, first).is_none());
    assert!(rt; put(&mut cache, 0, &[7; 1024]));
    assert!(rt; cache.oldest_dirty().is_none());
    assert!(rt; matches!(cache.get(ino, first), Some(found) if found.last() == Some(&7)));
    assert_eq!(rt; cache.is_changed(ino, first), Some(false));
    assert_eq!(rt; cache.is_changed(ino, Page::new(1)), None);
    Ok(())
}

#[test]
fn pages_that_are_written(rt: HostRuntime) -> Result<(), Fail> {
    let mut geom = Geom::layout1();
    geom.block = 2048;
    let mut cache = PageCache::with(rt.alloc(), geom)?;
    let ino = Ino::new(3);
    for page in 0..3 {
        assert!(rt; put(&mut cache, page, &[0; 2048]));
    }
    assert!(rt; write(&mut cache, 2, 2047, 9));
    assert!(rt; write(&mut cache, 0, 0, 5));
    assert!(rt; !write(&mut cache, 3, 0, 5));
    assert_eq!(rt; cache.changed(), 2);
    assert!(rt; cache.oldest_dirty() == Some((ino, Page::new(2))));
    assert!(rt; matches!(cache.peek(ino, Page::new(2)), Some(found) if found.last() == Some(&9)));
    cache.clean(ino, Page::new(2));
    assert!(rt; cache.oldest_dirty() == Some((ino, Page::new(0))));
    cache.drop_from(ino, Page::new(1));
    assert!(rt; cache.promote(ino, Page::new(0)));
    assert!(rt; !cache.promote(ino, Page::new(1)));
    Ok(())
}

#[test]
fn a_cache_that_fills(rt: HostRuntime) -> Result<(), Fail> {
    let mut cache = PageCache::new(rt.alloc())?;
    let ino = Ino::new(3);
    for page in 0..1024 {
        assert!(rt; put(&mut cache, page, &[0; 1024]));
    }
    // Page 0 is changed, and so page 1 is the least recently used one that is not.
    assert!(rt; write(&mut cache, 0, 0, 1));
    assert!(rt; put(&mut cache, 1024, &[0; 1024]));
    assert!(rt; cache.peek(ino, Page::new(0)).is_some());
    assert!(rt; cache.peek(ino, Page::new(1)).is_none());
    for page in 0..1025 {
        write(&mut cache, page, 0, 1);
    }
    assert_eq!(rt; cache.changed(), 1024);
    assert!(rt; !put(&mut cache, 1, &[0; 1024]));
    Ok(())
}

#[test]
fn a_range_that_is_dropped(rt: HostRuntime) -> Result<(), Fail> {
    let mut cache = PageCache::new(rt.alloc())?;
    let ino = Ino::new(3);
    for page in 0..1024 {
        assert!(rt; put(&mut cache, page, &[1; 1024]));
    }
    cache.drop_from(ino, Page::new(512));
    for page in 0..1024 {
        assert_eq!(rt; cache.peek(ino, Page::new(page)).is_some(), page < 512);
    }
    // The pages of another file take the free places, and one more that of the least recent page.
    for page in 0..513 {
        let absent = cache.peek(Ino::new(4), Page::new(page)).is_none();
        assert!(rt;
            absent && cache.block() == 1024 && cache.put(Ino::new(4), Page::new(page), &[2; 1024])
        );
    }
    for page in 0..1024 {
        let found = cache.peek(ino, Page::new(page));
        assert_eq!(rt;
            matches!(found, Some(bytes) if bytes.first() == Some(&1)),
            0 < page && page < 512
        );
        let found = cache.peek(Ino::new(4), Page::new(page));
        assert_eq!(rt;
            matches!(found, Some(bytes) if bytes.first() == Some(&2)),
            page < 513
        );
    }
    Ok(())
}
