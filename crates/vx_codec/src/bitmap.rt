//! The bitmap of a unit.
ghost use Rattle.std.specs.Prelude.{◌≡◌, ℕ, ◌+◌, ◌*◌, ◌≤◌, ◌<◌, Bool, false, length, get_or};
ghost use Rattle.vx_layout.specs.Bits.{bit_value, bit_byte, bits_bytes, is_set};

use vx_layout::Sheet;

/// The one spelling of a bitmap's first sector: bit j, the lowest of a byte first, says whether block j of the
/// unit is in use.
#[tactic(auto, unfolding(vx_layout::specs::Bits::bits_from))]
pub fn write_bits(used: &[bool; 4096]) -> [u8; 512]
    ensures { result ≡ bits_bytes (λ j. get_or used.now j false) }
{
    let mut sheet = Sheet::<512>::new();
    for i in 0..512 {
        sheet.put_u8(byte_of(used, 8 * i));
    }
    sheet.finish()
}

/// The bits of a bitmap's first sector.
pub fn read_bits(sector: &[u8; 512]) -> [bool; 4096]
    ensures { sector.now ≡ bits_bytes (λ j. get_or result j false) }
{
    let mut used = [false; 4096];
    for j in 0..4096 {
        used[j] = bit_of(sector, j);
    }
    used
}

/// Bits that differ are spelled by bytes that differ.
pub fn bits_spelling()
    ensures { (f g : ℕ → Bool) → bits_bytes f ≡ bits_bytes g → (j : ℕ) → j < 4096 → f j ≡ g j }
{}

fn bit_of(sector: &[u8; 512], j: usize) -> bool
    requires { j < 4096 }
    ensures { result ≡ is_set sector.now j }
{
    (sector[j / 8] >> (j % 8)) % 2 == 1
}

#[tactic(auto, unfolding(vx_layout::specs::Bits::bit_byte))]
fn byte_of(used: &[bool], at: usize) -> u8
    requires { at + 8 ≤ length used.now }
    ensures { result ≡ bit_byte (λ j. get_or used.now j false) at }
{
    weighed(used[at], 1)
        + weighed(used[at + 1], 2)
        + weighed(used[at + 2], 4)
        + weighed(used[at + 3], 8)
        + weighed(used[at + 4], 16)
        + weighed(used[at + 5], 32)
        + weighed(used[at + 6], 64)
        + weighed(used[at + 7], 128)
}

fn weighed(bit: bool, weight: u8) -> u8
    ensures value { result ≡ weight * bit_value bit }
    ensures bound { result ≤ weight }
{
    if bit { weight } else { 0 }
}

#[cfg(test)]
mod tests {
    use super::*;

    #[test]
    fn first_34_blocks(rt: HostRuntime) {
        let mut used = [false; 4096];
        for j in 0..34 {
            used[j] = true;
        }
        let sector = write_bits(&used);
        assert!(rt; sector.starts_with(&[0xff, 0xff, 0xff, 0xff, 3]));
        assert!(rt; sector.iter().skip(5).all(|byte| *byte == 0));
        let read = read_bits(&sector);
        assert!(rt; read[33]);
        assert!(rt; !read[34]);
    }
}
