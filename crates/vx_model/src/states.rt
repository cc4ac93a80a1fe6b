//! What an image of each state says.
ghost use Rattle.std.specs.Prelude.{◌≡◌, false, nat_le, ◌*◌, ◌<◌, ◌≤◌, ℕ, List, is_some, slice_get, Some, None};
ghost use Rattle.std.specs.FinMap as map;
ghost use Rattle.vx_layout.specs.Places.{sectors_of};
ghost use Rattle.vx_layout.specs.Supers.{IsSuper, volume_of};
ghost use Rattle.vx_layout.specs.declared.superblock.Super.{Super};
ghost use Rattle.vx_sound.specs.Reading.{Entries};
ghost use Rattle.vx_model.specs.Tree.{Nodes, Tree, File, empty_root, lowest_unused};
ghost use Rattle.vx_model.specs.Handles.{is_open};
ghost use Rattle.vx_model.specs.Removing.{is_last};
ghost use Rattle.vx_model.specs.State.{State, directory_blocks, fresh_of};
ghost use Rattle.vx_model.specs.Layout.{Claimed, DirectoryBlock, volume, blocks_at, chain_at, claimed_at, claim_of, device_blocks, is_on_device, is_owned, owned};
ghost use Rattle.vx_space.specs.Uses.{uses};
ghost use Rattle.vx_model.specs.Images.{Stands};
ghost use Rattle.vx_model.specs.Reads.{ImageReadsAs};
ghost use Rattle.vx_model.specs.Contents.{parsed_of, IsFormatted};
ghost use Rattle.vx_model.specs.LaidOut.{IsLaidOut, IsPlain, IsPlainHeld, IsOnDevice, IsClosed};
ghost use Rattle.vx_model.specs.Settled.{IsSettledTree};
ghost use Rattle.vx_model.specs.Shapes.{shape};
ghost use Rattle.vx_sound.specs.Said.{block_bytes};
ghost use Rattle.vx_model.specs.Saying.{StateSays};

use vx_sound::decoding_laws;

/// An image that says a state reads as the state's tree with what is settled of its files, and with the bytes that stand there.
pub fn state_reads()
    ensures reads { (s : State) (image : ℕ → List ℕ) (t : Tree) → IsLaidOut s → Stands (volume s.layout) (parsed_of s) image → IsSettledTree s (block_bytes (volume s.layout) image) t
        → ImageReadsAs (volume s.layout) image t }
    // There is such a tree, and its names and attributes are those of the state.
    ensures tree { (s : State) (data_at : ℕ → List ℕ) → IsLaidOut s → (t : Tree) × IsSettledTree s data_at t }
    ensures shape { (s : State) (data_at : ℕ → List ℕ) (t : Tree) → IsSettledTree s data_at t → (n : ℕ) → shape t n ≡ shape s.tree n }
    // Where no file has bytes, it is the state's own, and no other.
    ensures plain { (s : State) (data_at : ℕ → List ℕ) → IsLaidOut s → IsPlain s → IsSettledTree s data_at s.tree }
    ensures own { (s : State) (data_at : ℕ → List ℕ) (t : Tree) → IsLaidOut s → IsPlain s → IsSettledTree s data_at t → t ≡ s.tree }
{
    state_says();
}

/// Where no file has bytes, nothing is held, and no handle is open.
pub fn plain_states()
    ensures held { (s : State) → IsLaidOut s → IsPlain s → (n : ℕ) → IsPlainHeld s.layout n (map.get s.tree.nodes n) }
    ensures on_device { (s : State) → IsLaidOut s → IsPlain s → (n : ℕ) → IsOnDevice s.layout n }
    ensures closed { (s : State) (ino : ℕ) → IsPlain s → IsClosed s.tree ino }
    // So a file goes with its last name.
    ensures last { (s : State) (ino : ℕ) (f : File) → IsPlain s → is_last s.tree ino f ≡ nat_le f.nlink 1 }
{}

/// Whether a handle is open on a file is for the open handles to say.
pub fn handles()
    ensures closed { (t : Tree) (ino : ℕ) → is_open t ino ≡ false → IsClosed t ino }
    ensures unopened { (t : Tree) (ino : ℕ) → IsClosed t ino → is_open t ino ≡ false }
{}

/// A formatted image, of any sizes that a superblock may say, says the fresh state, and so it reads as the root alone.
pub fn fresh_reads()
    ensures laid_out { (v : Super) (limit device_sectors : ℕ) → IsSuper v → limit ≤ directory_blocks → sectors_of (volume_of v) ≤ device_sectors → IsLaidOut (fresh_of v limit device_sectors) }
    ensures plain { (v : Super) (limit device_sectors : ℕ) → IsPlain (fresh_of v limit device_sectors) }
    ensures stands { (v : Super) (limit device_sectors : ℕ) (image : ℕ → List ℕ) → IsSuper v → IsFormatted (volume_of v) image → Stands (volume_of v) (parsed_of (fresh_of v limit device_sectors)) image }
    ensures reads { (v : Super) (image : ℕ → List ℕ) → IsSuper v → IsFormatted (volume_of v) image → ImageReadsAs (volume_of v) image empty_root }
{
    state_reads();
}

/// A block that the device says an inode has is that inode's alone.
pub fn claims()
    ensures claimed { (s : State) (n k : ℕ) (c : Claimed) → IsLaidOut s → slice_get (claimed_at s.layout n) k ≡ Some c → claim_of s.layout c.block ≡ Some (record { ino = n; form = c.form }) }
    ensures block { (s : State) (n i : ℕ) (d : DirectoryBlock) → IsLaidOut s → slice_get (blocks_at s.layout n) i ≡ Some d → claim_of s.layout d.block ≡ Some (record { ino = n; form = Some (Entries d.entries) }) }
    ensures map_block { (s : State) (n k : ℕ) (c : Claimed) → IsLaidOut s → slice_get (chain_at s.layout n) k ≡ Some c → claim_of s.layout c.block ≡ Some (record { ino = n; form = c.form }) }
    // These are the blocks that the device says an inode has, and some of those that it has.
    ensures on_device { (s : State) (b : ℕ) → is_some (claim_of s.layout b) ≡ is_on_device s.layout b }
    ensures within { (s : State) (n b : ℕ) → IsLaidOut s → uses (device_blocks s.layout n) b ≤ uses (owned s.layout n) b }
    // Where nothing is held, they are all.
    ensures owned { (s : State) (b : ℕ) → IsLaidOut s → ((n : ℕ) → IsOnDevice s.layout n) → is_some (claim_of s.layout b) ≡ is_owned s.layout b }
{}

/// What a sound reading finds in an image that says a state: each inode with its extents, blocks, map blocks and entries.
pub fn state_says()
    ensures { StateSays }
{
    claims();
    decoding_laws();
}

/// The lowest unused inode number is unused, if there is one.
pub fn unused_inodes()
    ensures low { (units : ℕ) (nodes : Nodes) → 3 ≤ lowest_unused units nodes }
    ensures unused { (units : ℕ) (nodes : Nodes) → lowest_unused units nodes < 128 * units → map.get nodes (lowest_unused units nodes) ≡ None }
{}
