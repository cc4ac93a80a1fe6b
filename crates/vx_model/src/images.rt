//! What an image says, from one state to the next.
ghost use Rattle.std.specs.Prelude.{◌≡◌, ◌≢◌, ◌⊎◌, ℕ, ◌+◌, ◌*◌, ◌/◌, ◌<◌, List, ◌++◌, Some, IsTrue};
ghost use Rattle.std.specs.Option.{option_map};
ghost use Rattle.vx_layout.specs.Places.{Volume, outside, per_block, block_sector, bitmap_sector, inode_sector, is_data, place_of, IsVolume, sector_part};
ghost use Rattle.vx_layout.specs.Bits.{bits_bytes};
ghost use Rattle.vx_layout.specs.Inodes.{slot_bytes};
ghost use Rattle.vx_layout.specs.LogForms.{AfterImage, overlay, overlay_all, LogState, ReadsAs};
ghost use Rattle.vx_sound.specs.Reading.{form_bytes, used_in};
ghost use Rattle.vx_model.specs.Images.{Parsed, content_at, Stands, is_metadata, contents, IsBatch, Says};

/// What is said stands where each metadata sector has its contents.
pub fn metadata()
    ensures stands { (v : Volume) (p : Parsed) (image : ℕ → List ℕ) → ((s : ℕ) → IsTrue (is_metadata v p s) → image s ≡ contents v p s) → Stands v p image }
    ensures holds { (v : Volume) (p : Parsed) (image : ℕ → List ℕ) → Stands v p image → (s : ℕ) → IsTrue (is_metadata v p s) → image s ≡ contents v p s }
    ensures inside { (v : Volume) (p : Parsed) (s : ℕ) → IsTrue (is_metadata v p s) → place_of v s ≢ outside }
{}

/// An image with a log says what the log stands for, once its records are laid over it; and so with one batch more.
pub fn log_says()
    ensures stands { (n : ℕ) (v : Volume) (p : Parsed) (r : LogState) (image : ℕ → List ℕ) → Says v p r → ReadsAs n r image → Stands v p (λ s. overlay_all r.records s (image s)) }
    ensures next { (v : Volume) (old new : Parsed) (batch : List AfterImage) (r next : LogState) → Says v old r → IsBatch v old new batch
        → ((s : ℕ) → IsTrue (is_metadata v new s) → IsTrue (next.is_metadata s)) → ((s : ℕ) → next.contents s ≡ overlay batch s (r.contents s)) → Says v new next }
    ensures covered { (v : Volume) (old new : Parsed) (batch : List AfterImage) → IsBatch v old new batch
        → (s : ℕ) → IsTrue (is_metadata v new s) → IsTrue (is_metadata v old s) ⊎ ((x y : List ℕ) → overlay batch s x ≡ overlay batch s y) }
{}

/// What the sectors of each thing hold.
pub fn sector_contents()
    ensures bitmap { (v : Volume) (p : Parsed) (u : ℕ) → IsVolume v → u < v.units → content_at v p (bitmap_sector v u) ≡ Some (bits_bytes (used_in v p u)) }
    ensures inodes { (v : Volume) (p : Parsed) (n : ℕ) → IsVolume v → n < 128 * v.units
        → content_at v p (inode_sector v n) ≡ Some (slot_bytes (p.inodes (2 * (n / 2))) ++ slot_bytes (p.inodes (2 * (n / 2) + 1))) }
    ensures parts { (v : Volume) (p : Parsed) (b i : ℕ) → IsVolume v → IsTrue (is_data v b) → i < per_block v
        → content_at v p (block_sector (per_block v) b + i) ≡ option_map (λ x. sector_part i (form_bytes v.block x)) (p.forms b) }
{}
