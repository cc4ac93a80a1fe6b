//! A file's maps in memory.
ghost use Rattle.std.specs.Prelude.{◌≡◌, ◌+◌, ◌++◌, ◌∷◌, ◌^◌, ◌<◌, ◌≤◌, IfErr, Ok, OnErr, OnOk, []};
ghost use Rattle.vx_alloc.specs.FreeMaps.{FreeMapView};
ghost use Rattle.vx_extents.specs.Extents.{mapped_at};
ghost use Rattle.vx_extents.specs.Uses.{data_pages};
ghost use Rattle.vx_filemaps.specs.FileMaps.{HasTaken, IsReady, IsRefusal, IsRequest, filling_of, volume_in};
ghost use Rattle.vx_filemaps.specs.Loads.{IsNext, with_extent};
ghost use Rattle.vx_filemaps.specs.Settles.{CanGo, CanWait, none_at, pended, reserved_at, settled_file, surplus_in, without_pages};
ghost use Rattle.vx_space.specs.Leaving.{cut_space};
ghost use Rattle.vx_space.specs.Placing.{Request, place_fill};
ghost use Rattle.vx_space.specs.Space.{no_space};

use crate::place::{PlaceRefusal, give_back, place_all};
use crate::settle::{give_reserved, give_up_pages, pend_chain, settle_pages};
use std::alloc::{AllocError, Global};
use std::marker::Model;
use vx_alloc::FreeMap;
use vx_base::{Block, Extent, Kind, Page};
use vx_extents::{ExtentMap, chain_len};

/// How many extents there is room for while a call places pages: those of the largest file, and two for each of 65 pages.
const CALL_EXTENTS: u32 = 4168;

/// How many pages the largest file has.
const MOST_PAGES: u32 = 65536;

/// Which blocks a file has: its pages as the device says them, its pages as they are now with held blocks, and its map blocks. Beside
/// them stands the size that the device says. There is always memory for the next settle.
#[derive(Drop)]
pub struct FileMaps {
    settled: ExtentMap,
    present: ExtentMap,
    chain: Vec<Block>,
    size: u64,
}

impl Model for FileMaps {
    ghost use Rattle.vx_filemaps.specs.Files.{FileView, IsKept};

    ghost Value = { FileView };

    ghost view = { λ m. record { space = record { settled = m.settled.pages; present = m.present.pages; size = m.size }; maps = m.chain.items } };

    ghost invariant = { λ m. IsKept m.settled m.present };
}

/// What a call that places blocks works on; one serves all files, and holds nothing between calls.
#[derive(Drop)]
pub struct Scratch {
    pages: ExtentMap,
    // The blocks taken so far, in the order in which they were taken.
    taken: Vec<Block>,
}

impl Model for Scratch {
    ghost use Rattle.vx_filemaps.specs.Files.{IsScratch};

    ghost Value = { Unit {0} };

    ghost view = { λ s. tt };

    ghost invariant = { λ s. IsScratch s.pages s.taken.items };
}

impl Scratch {
    pub fn new(alloc: Global) -> Self {
        Scratch {
            pages: ExtentMap::with_limits(alloc, CALL_EXTENTS, MOST_PAGES),
            taken: Vec::new(alloc),
        }
    }
}

impl FileMaps {
    /// A file without a page.
    pub fn new(alloc: Global) -> Self
        ensures { result ≡ record { space = no_space; maps = [] } }
    {
        FileMaps {
            settled: ExtentMap::with_limits(alloc, CALL_EXTENTS, MOST_PAGES),
            present: ExtentMap::with_limits(alloc, CALL_EXTENTS, MOST_PAGES),
            chain: Vec::new(alloc),
            size: 0,
        }
    }

    /// Takes an extent that the device says, behind the pages that are there, as pages that are there now; a settle has the device say
    /// them here too. Unchanged where memory is short.
    pub fn load_extent(&mut self, extent: &Extent) -> Result<(), AllocError>
        requires { IsNext self.old.space.present extent.now }
        ensures ok { OnOk result (self.new ≡ with_extent self.old extent.now) }
        ensures err { OnErr result (self.new ≡ self.old) }
    {
        self.settled.reserve(self.present.extents() + 1)?;
        self.present.reserve(1)?;
        self.present
            .put_run(extent.page, extent.start, extent.len, extent.kind);
        Ok(())
    }

    /// Takes the chain's next map block, as the device says it. Unchanged where memory is short.
    pub fn load_map(&mut self, block: Block) -> Result<(), AllocError>
        ensures ok { OnOk result (self.new ≡ record self.old { maps = self.old.maps ++ block ∷ [] }) }
        ensures err { OnErr result (self.new ≡ self.old) }
    {
        self.chain.push(block)?;
        Ok(())
    }

    /// The block of a page as it is now, and its kind.
    pub fn find(&self, p: Page) -> Option<(Block, Kind)>
        ensures { result ≡ mapped_at self.now.space.present p }
    {
        self.present.find(p)
    }

    /// The pages as the device says them.
    pub fn settled(&self) -> &ExtentMap
        ensures { result.now.pages ≡ self.now.space.settled }
    {
        &self.settled
    }

    /// The pages as they are now.
    pub fn present(&self) -> &ExtentMap
        ensures { result.now.pages ≡ self.now.space.present }
    {
        &self.present
    }

    /// The map blocks. The first ones are on the device, as many as the settled pages need.
    pub fn chain(&self) -> &[Block]
        ensures { result.now ≡ self.now.maps }
    {
        self.chain.as_slice()
    }

    /// The size in bytes that the device says.
    pub fn size(&self) -> u64
        ensures { result ≡ self.now.space.size }
    {
        self.size
    }

    /// Gives each of so many pages a block that holds data, and the file the map blocks that it needs then. `first` is the length of
    /// a file's first extent. Nothing changes where it is refused. For files without a fixed extent size.
    pub fn place_write(
        &mut self,
        free: &mut FreeMap,
        scratch: &mut Scratch,
        first: u32,
        from: Page,
        n: u32,
    ) -> Result<(), PlaceRefusal>
        requires ready { IsReady free.old }
        requires first { 1 ≤ first }
        requires within { from + n ≤ 65536 }
        requires few { n ≤ 65 }
        ensures done { (r : Request) → IsRequest r self.old.space.present free.old first from n → OnOk result (place_fill r self.old.space from n (filling_of free.old self.old) ≡ Ok (filling_of free.new self.new)) }
        ensures refused { (r : Request) → IsRequest r self.old.space.present free.old first from n → IfErr result (IsRefusal (place_fill r self.old.space from n (filling_of free.old self.old))) }
        ensures settled { self.new.space ≡ record self.old.space { present = self.new.space.present } }
        ensures ready { IsReady free.new }
        ensures volume { volume_in free.new ≡ volume_in free.old }
        ensures taken { HasTaken free.old free.new }
        ensures unchanged { OnErr result (self.new ≡ self.old) }
        ensures free { OnErr result (free.new ≡ free.old) }
    {
        let blocks = self.chain.len();
        match place_all(
            &mut self.settled,
            &self.present,
            &mut self.chain,
            free,
            &mut scratch.pages,
            &mut scratch.taken,
            first,
            from,
            n,
        ) {
            Ok(()) => {
                self.present.replace_all(&mut scratch.pages);
                scratch.taken.clear();
                Ok(())
            }
            Err(why) => {
                give_back(free, &mut scratch.taken);
                self.chain.truncate(blocks);
                Err(why)
            }
        }
    }

    /// The pages from one on go, of which there are at most so many, and the size on the device is no larger than this one.
    pub fn cut(&mut self, free: &mut FreeMap, place: u64, from: Page, n: u32, size: u64)
        requires fits { from + n < 2 ^ 32 }
        requires used { CanGo place (mapped_at self.old.space.settled) (mapped_at self.old.space.present) n from free.old }
        ensures cut { self.new ≡ record self.old { space = cut_space from size self.old.space } }
        ensures free { free.new ≡ without_pages place (mapped_at self.old.space.settled) (mapped_at self.old.space.present) n from free.old }
    {
        give_up_pages(&self.settled, &self.present, free, place, from, n);
        self.settled.cut(from);
        self.present.cut(from);
        self.size = self.size.min(size);
    }

    /// Every reserved page goes, of a file whose reserved pages are all held, and that has no page from `n` on.
    pub fn drop_reserved(&mut self, free: &mut FreeMap, n: u32)
        requires { CanGo 0 none_at (reserved_at self.old.space.present) n 0 free.old }
        ensures dropped { self.new ≡ record self.old { space = record self.old.space { present = data_pages self.old.space.present } } }
        ensures free { free.new ≡ without_pages 0 none_at (reserved_at self.old.space.present) n 0 free.old }
    {
        give_reserved(&self.present, free, Page::new(0), n);
        self.present.keep_data();
    }

    /// The device is to say the pages as they are now and this size, and map blocks that are not needed then go.
    pub fn settle(&mut self, free: &mut FreeMap, place: u64, noreserve: bool, size: u64)
        requires { CanWait place (surplus_in noreserve size self.old) free.old }
        ensures settled { self.new ≡ settled_file noreserve size self.old }
        ensures free { free.new ≡ pended place (surplus_in noreserve size self.old) free.old }
    {
        settle_pages(&mut self.settled, &self.present, noreserve);
        let kept = chain_len(self.settled.extents()).max(chain_len(self.present.extents()));
        pend_chain(&mut self.chain, free, place, kept as usize);
        self.size = size;
    }
}
