//! What is spelled alike is the same.
ghost use Rattle.std.specs.Prelude.{◌≡◌, ◌<◌, ◌≤◌, ◌^◌, ℕ, List, length, Ok};
ghost use Rattle.std.specs.Int.{w32, w64};
ghost use Rattle.std.specs.List.{AllByRecursion};
ghost use Rattle.vx_layout.specs.LogForms.{AfterImage, IsRecord, head_sector, descriptor, numbers_at, log_sectors};
ghost use Rattle.vx_layout.specs.Fields.{number_at};
ghost use Rattle.vx_layout.specs.Supers.{IsSuper, super_at, super_bytes};
ghost use Rattle.vx_layout.specs.declared.superblock.Super.{Super};

/// A superblock has one spelling, and is the only one that has it.
pub fn super_spelling()
    ensures unique { (v w : Super) → IsSuper v → IsSuper w → super_bytes v ≡ super_bytes w → v ≡ w }
    ensures again { (v : Super) → IsSuper v → super_at (super_bytes v) ≡ Ok v }
{}

/// A head sector says where the log begins and ends, and what stands there says its records.
pub fn log_spelling()
    ensures head { (serial tail head serial2 tail2 head2 : ℕ) → tail < 2 ^ 64 → head < 2 ^ 64 → tail2 < 2 ^ 64 → head2 < 2 ^ 64
        → head_sector serial tail head ≡ head_sector serial2 tail2 head2 → (tail ≡ tail2) × (head ≡ head2) }
    ensures records { (n size more position : ℕ) (rs qs : List (List AfterImage)) → AllByRecursion (IsRecord n size) rs → AllByRecursion (IsRecord n more) qs → log_sectors position rs ≡ log_sectors position qs → rs ≡ qs }
{}

/// Where the fields of a head sector and of a descriptor stand.
pub fn log_fields()
    ensures serial { (serial tail head : ℕ) → serial < 2 ^ 64 → number_at w64 8 (head_sector serial tail head) ≡ serial }
    ensures tail { (serial tail head : ℕ) → tail < 2 ^ 64 → number_at w64 16 (head_sector serial tail head) ≡ tail }
    ensures head { (serial tail head : ℕ) → head < 2 ^ 64 → number_at w64 24 (head_sector serial tail head) ≡ head }
    ensures count { (position : ℕ) (homes : List ℕ) → length homes ≤ 124 → number_at w32 4 (descriptor position homes) ≡ length homes }
    ensures homes { (position : ℕ) (homes : List ℕ) → AllByRecursion (λ s. s < 2 ^ 32) homes → numbers_at (length homes) 16 (descriptor position homes) ≡ homes }
{}
