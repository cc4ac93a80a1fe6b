//! What a crash leaves of a log, as laws over the device's operations.
ghost use Rattle.std.specs.Prelude.{◌≡◌, ◌≢◌, ◌⊎◌, ◌==◌, ◌<◌, ◌≤◌, ◌+◌, ◌-◌, ◌^◌, ℕ, Bool, IsTrue, List, [], ◌++◌, length, get_or, if◌then◌else◌, slice_range, Contains};
ghost use Rattle.std.specs.List.{AllByRecursion};
ghost use Rattle.std.specs.List.Sorted.{IsStrictlyIncreasing};
ghost use Rattle.vx_dev.specs.Tape.{Tape, State, Did, Failed, Writes, IsImage, did};
ghost use Rattle.vx_dev.specs.declared.device.Operation.{Operation};
ghost use Rattle.vx_dev.specs.declared.device.Operation.TheVariants.{Put, Barrier};
ghost use Rattle.vx_layout.specs.LogForms.{AfterImage, IsNameable, IsRecord, LogState, ReadsAs, log_at, log_sectors, log_length, body_of, records_of, overlay, overlay_all, head_of, head_sector};
ghost use Rattle.vx_log.specs.Batches.{sectors_of, batch_set, IsBatch};
ghost use Rattle.vx_log.specs.Crashes.{IsApart, Holds, Stands, Either, Turns, IsDecided, IsFree, grown, Covers, trimmed, emptied, IsPut, IsCertainBody, IsPutHome, IsStableHome, IsHome, IsHomeBut};
ghost use Rattle.vx_log.specs.Logs.{next_serial};
ghost use Rattle.vx_log.specs.NoteLaws.{NoteLaws};
ghost use Rattle.vx_log.specs.OrderLaws.{OrderLaws};
ghost use Rattle.vx_dev.specs.Moments.{Told, Passed, HoldsOneOf, AreAmong};
ghost use Rattle.vx_dev.specs.RunLaws.{RunLaws};
ghost use Rattle.vx_dev.specs.Runs.{Ran, BrokeOff, puts};
ghost use Rattle.vx_log.specs.Writes.{log_writes};
ghost use Rattle.vx_log.specs.Stages.{IsBodyPut, IsFitting, AreHomes, AreWritten};

use vx_dev::tape_laws;

/// What the after-images of a batch make of a sector.
pub fn batch_laws()
    ensures records { (batch : List AfterImage) (s : ℕ) (x : List ℕ) → overlay_all (records_of batch) s x ≡ overlay batch s x }
    ensures set { (batch : List AfterImage) (u : ℕ) (image : List ℕ) (s : ℕ) (x : List ℕ) → IsBatch batch → overlay (batch_set batch u image) s x ≡ (if u == s then image else overlay batch s x) }
    ensures lacks { (batch : List AfterImage) (s : ℕ) (x : List ℕ) → (Contains (sectors_of batch) s → ⊥) → overlay batch s x ≡ x }
    ensures decides { (batch : List AfterImage) (s : ℕ) → Contains (sectors_of batch) s → IsDecided (records_of batch) s }
    ensures length { (position : ℕ) (batch : List AfterImage) → length (body_of position batch) ≡ log_length (length batch) }
    ensures form { (n size : ℕ) (batch : List AfterImage) → IsStrictlyIncreasing (sectors_of batch) → AllByRecursion (IsNameable n size) (sectors_of batch) → AllByRecursion (IsRecord n size) (records_of batch) }
{}

/// What a list of after-images says of a sector, after a note and after the notes of a batch.
pub fn note_laws()
    ensures { NoteLaws }
{}

/// How after-images stand in the order of their sectors.
pub fn order_laws()
    ensures { OrderLaws }
{}

/// What an image that a crash may leave is read as.
pub fn image_laws()
    ensures stands { (n : ℕ) (r : LogState) (t : Tape) (image : ℕ → List ℕ) → Stands n r t → IsImage t image → ReadsAs n r image }
    ensures either { (n : ℕ) (r r2 : LogState) (t : Tape) (image : ℕ → List ℕ) → Either n r r2 t → IsImage t image → ReadsAs n r image ⊎ ReadsAs n r2 image }
    ensures written { (n : ℕ) (r : LogState) (t : Tape) (op : Operation) (u : ℕ) (bytes : List ℕ) → Writes op u bytes → IsFree n r u → u ≢ 2 → Stands n r t → Stands n r (did op t) }
    ensures barrier { (n : ℕ) (r : LogState) (t : Tape) → Stands n r t → Stands n r (did Barrier t) }
    ensures fewer { (n : ℕ) (r : LogState) (is_metadata : ℕ → Bool) (t : Tape) → ((s : ℕ) → IsTrue (is_metadata s) → IsTrue (r.is_metadata s)) → Stands n r t → Stands n (record r { is_metadata = is_metadata }) t }
{
    tape_laws();
}

/// A batch's log sectors are written, one by one and in stages, and a barrier passes behind them.
pub fn body_laws()
    ensures free { (n : ℕ) (r : LogState) (t : Tape) (k : ℕ) → 0 < n → Holds n r t → r.head + k < r.tail + n → IsFree n r (log_at n (r.head + k)) }
    ensures more { (n position : ℕ) (body : List (List ℕ)) (k : ℕ) (t : Tape) → 0 < n → k < n → IsPut n position body k t → IsPut n position body (k + 1) (did (Put (log_at n (position + k)) (get_or body k [])) t) }
    ensures certain { (n position : ℕ) (body : List (List ℕ)) (t : Tape) → IsPut n position body (length body) t → IsCertainBody n position body (did Barrier t) }
    ensures stage { (n : ℕ) (r : LogState) (batch : List AfterImage) (from end : ℕ) (old new : State) → IsFitting n r batch → from ≤ end → end ≤ length (body_of r.head batch)
        → Ran (puts (log_writes n (r.head + from) (slice_range (body_of r.head batch) from end))) old new
        → Told old (IsBodyPut n r batch from) → Told new (IsBodyPut n r batch end) × Passed (ReadsAs n r) old new }
    ensures broken { (n : ℕ) (r : LogState) (batch : List AfterImage) (from end : ℕ) (old new : State) → IsFitting n r batch → from ≤ end → end ≤ length (body_of r.head batch)
        → BrokeOff (log_writes n (r.head + from) (slice_range (body_of r.head batch) from end)) old new
        → Told old (IsBodyPut n r batch from) → Passed (ReadsAs n r) old new }
{
    tape_laws();
}

/// The head sector with a new batch or a new tail is written, and a barrier passes behind it.
pub fn head_laws()
    ensures grown { (n : ℕ) (r : LogState) (batch : List AfterImage) (is_metadata : ℕ → Bool) (t : Tape) → IsApart n is_metadata → Covers r (records_of batch) is_metadata
        → r.head + log_length (length batch) ≤ r.tail + n → IsCertainBody n r.head (body_of r.head batch) t → Holds n r t → Holds n (grown r (records_of batch) is_metadata) t }
    ensures grown_head { (r : LogState) (batch : List AfterImage) (is_metadata : ℕ → Bool) → head_of (grown r (records_of batch) is_metadata) ≡ head_sector (next_serial r.serial) r.tail (r.head + log_length (length batch)) }
    ensures emptied { (n : ℕ) (r : LogState) (t : Tape) → IsHome r t → Holds n r t → Holds n (emptied r) t }
    ensures trimmed { (n : ℕ) (r : LogState) (front rest : List (List AfterImage)) (tail : ℕ) (t : Tape) → r.records ≡ front ++ rest → tail ≡ r.tail + length (log_sectors r.tail front)
        → IsHomeBut r rest t → Holds n r t → Holds n (trimmed r tail rest) t }
    ensures written { (n : ℕ) (r r2 : LogState) (old new : State) → Did (Put 2 (head_of r2)) old new → Told old (λ t. Stands n r t × Holds n r2 t) → Told new (Turns n r r2) }
    ensures failed { (n : ℕ) (r r2 : LogState) (old new : State) → Failed 2 (head_of r2) old new → Told old (λ t. Stands n r t × Holds n r2 t) → Told new (Either n r r2) }
    ensures passed { (n : ℕ) (r r2 : LogState) (old new : State) → Did Barrier old new → Told old (Turns n r r2) → Told new (Stands n r2) }
{
    tape_laws();
}

/// Committed sectors are written home, one by one and in stages, and a barrier passes behind them.
pub fn home_laws()
    ensures free { (n : ℕ) (r : LogState) (t : Tape) (u : ℕ) → 0 < n → Holds n r t → IsTrue (r.is_metadata u) → IsDecided r.records u → IsFree n r u }
    ensures put { (r : LogState) (s : ℕ) (t : Tape) → IsPutHome r s (did (Put s (r.contents s)) t) }
    ensures stable { (r : LogState) (s : ℕ) (t : Tape) → IsPutHome r s t → IsStableHome r s (did Barrier t) }
    ensures home { (n : ℕ) (r : LogState) (t : Tape) → Holds n r t → ((s : ℕ) → IsTrue (r.is_metadata s) → ((x : List ℕ) → overlay_all r.records s x ≡ x) ⊎ IsStableHome r s t) → IsHome r t }
    ensures stage { (n : ℕ) (r : LogState) (writes : List (ℕ × List ℕ)) (old new : State) → 0 < n → AreHomes r writes → Ran (puts writes) old new
        → Told old (Stands n r) → Told new (AreWritten n r writes) × Passed (ReadsAs n r) old new }
    ensures broken { (n : ℕ) (r : LogState) (writes : List (ℕ × List ℕ)) (old new : State) → 0 < n → AreHomes r writes → BrokeOff writes old new
        → Told old (Stands n r) → Passed (ReadsAs n r) old new }
{
    tape_laws();
}
