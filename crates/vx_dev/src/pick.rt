// What a crash may leave of a disk in memory.
ghost use Rattle.std.specs.Prelude.{◌≡◌, ◌<◌, ◌≤◌, ◌+◌, ◌-◌, ◌∷◌, ◌^◌, [], ℕ, IfOk, List, drop, get_or, length, min, take};
ghost use Rattle.vx_dev.specs.Memory.{state_of, tape_of};
ghost use Rattle.vx_dev.specs.Picks.{IsWithin, picked_value, put_values, value_number};
ghost use Rattle.vx_dev.specs.Tape.{IsImage, now, upto, values};

use crate::{Image, MemDisk, Operation};
use std::alloc::{AllocError, Global};

/// An image that a crash after the first `moment` operations may leave. Seed 0 takes each sector's last value, and 1 its
/// oldest, which it had at the last barrier. Any other seed takes one that the seed and the sector's number decide.
pub fn pick_image(
    alloc: Global,
    disk: &MemDisk,
    moment: u64,
    seed: u64,
) -> Result<Image, AllocError>
    requires { moment ≤ (state_of disk.now).count }
    ensures allowed { IfOk result (λ image. IsImage (upto moment (tape_of disk.now)) (λ s. get_or image s [])) }
    ensures picked { IfOk result (λ image. (s : ℕ) → s < length image → get_or image s [] ≡ picked_value seed s (values (upto moment (tape_of disk.now)) s)) }
    ensures length { IfOk result (λ image. length image ≡ (state_of disk.now).size) }
{
    let ops = &disk.operations()[..moment as usize];
    let (settled, open) = ops.split_at(settled_len(ops));
    let mut image = disk.start().clone()?;
    let mut numbers = put_counts(alloc, open, image.len())?;
    let numbers = numbers.as_mut_slice();
    pick_numbers(seed, numbers);
    replay(&mut image, settled);
    replay_to(&mut image, open, numbers);
    Ok(image)
}

/// The number, from 0, of the one that the seed picks of so many values of the sector.
fn number_of_value(seed: u64, s: u64, count: u64) -> u64
    requires { 0 < count }
    ensures { result ≡ value_number seed s count }
{
    match seed {
        0 => count - 1,
        1 => 0,
        _ => (seed.wrapping_add(s).wrapping_mul(0x9E37_79B9_7F4A_7C15) >> 32) % count,
    }
}

/// Turns the number of writes of each sector into the number of the value that the seed picks of it.
fn pick_numbers(seed: u64, numbers: &mut [u64])
    requires { (s : ℕ) → s < length numbers.old → get_or numbers.old s 0 < 2 ^ 64 - 1 }
    ensures { (s : ℕ) → s < length numbers.new → get_or numbers.new s 0 ≡ value_number seed s (get_or numbers.old s 0 + 1) }
{
    for (s, number) in numbers.iter_mut().enumerate() {
        *number = number_of_value(seed, s as u64, *number + 1);
    }
}

/// The number of operations up to the last barrier, with it.
fn settled_len(ops: &[Operation]) -> usize
    ensures bound { result ≤ length ops.now }
    ensures values { (start : List (List ℕ)) (s : ℕ) → values (record { start = start; ops = ops.now }) s ≡ now (record { start = start; ops = take result ops.now }) s ∷ put_values s (drop result ops.now) }
{
    let mut settled = 0;
    for (i, op) in ops.iter().enumerate() {
        match op {
            Operation::Put(_, _) => {}
            Operation::Barrier => settled = i + 1,
        }
    }
    settled
}

/// How often the operations write each sector.
fn put_counts(alloc: Global, ops: &[Operation], sectors: u64) -> Result<Vec<u64>, AllocError>
    requires { IsWithin sectors ops.now }
    ensures length { IfOk result (λ counts. length counts.items ≡ sectors) }
    ensures counts { IfOk result (λ counts. (s : ℕ) → get_or counts.items s 0 ≡ length (put_values s ops.now)) }
{
    let mut counts = vec![in alloc; 0u64; sectors as usize]?;
    for op in ops {
        match op {
            Operation::Put(s, _) => counts[*s as usize] += 1,
            Operation::Barrier => {}
        }
    }
    Ok(counts)
}

/// Gives each sector the last value that the operations put there.
fn replay(image: &mut Image, ops: &[Operation])
    requires { IsWithin (length image.old) ops.now }
    ensures length { length image.new ≡ length image.old }
    ensures last { (s : ℕ) → get_or image.new s [] ≡ now (record { start = image.old; ops = ops.now }) s }
{
    for op in ops {
        match op {
            Operation::Put(s, bytes) => image.set(*s, bytes),
            Operation::Barrier => {}
        }
    }
}

/// Gives each sector the value that the operations put there at last, but takes no more than its number of them.
fn replay_to(image: &mut Image, ops: &[Operation], numbers: &mut [u64])
    requires within { IsWithin (length image.old) ops.now }
    requires length { length numbers.old ≡ length image.old }
    ensures length { length image.new ≡ length image.old }
    ensures picked { (s : ℕ) → get_or image.new s [] ≡ get_or (get_or image.old s [] ∷ put_values s ops.now) (min (get_or numbers.old s 0) (length (put_values s ops.now))) [] }
{
    for op in ops {
        match op {
            Operation::Put(s, bytes) => {
                let at = *s as usize;
                if numbers[at] > 0 {
                    numbers[at] -= 1;
                    image.set(*s, bytes);
                }
            }
            Operation::Barrier => {}
        }
    }
}
