ghost use Rattle.std.specs.Prelude.{◌≡◌, ℕ, ◌+◌, ◌*◌, ◌/◌, ◌^◌, ◌<◌, ◌≤◌, length, ◌≢◌, slice_index};
ghost use Rattle.packed.specs.Bits.{bit_in, field, Put};

/// A bit of bytes, the most significant of each byte first.
pub(crate) fn bit_at(bytes: &[u8], i: usize) -> u8
    requires { i < 8 * length bytes.now }
    ensures { result ≡ bit_in 8 bytes.now i }
{
    (bytes[i / 8] >> (7 - i % 8)) % 2
}

// `bit` and `width` stay two numbers: a struct of them would be made at each call, as `Field { bit: 16, width: 9 }` for `16, 9`.
/// The number that `width` bits write, from `bit` on.
pub(crate) fn bits_at(bytes: &[u8], bit: usize, width: usize) -> u16
    requires inside { bit + width ≤ 8 * length bytes.now }
    requires narrow { width ≤ 16 }
    requires fits { bit + width < 2 ^ 64 }
    ensures { result ≡ field (bit_in 8 bytes.now) bit width }
{
    // A loop and no fold: that the value fits is the loop's invariant, and a fold did not prove without one.
    let mut value = 0;
    for k in 0..width {
        value = value * 2 + bit_at(bytes, bit + k) as u16;
    }
    value
}

/// Sets one bit, and leaves the others.
fn put_bit(bytes: &mut [u8], i: usize, b: u8)
    requires inside { i < 8 * length bytes.old }
    requires small { b < 2 }
    ensures there { bit_in 8 bytes.new i ≡ b }
    ensures others { (k : ℕ) → (k ≢ i) → bit_in 8 bytes.new k ≡ bit_in 8 bytes.old k }
    ensures rest { (j : ℕ) → i / 8 < j → slice_index bytes.new j ≡ slice_index bytes.old j }
{
    if bit_at(bytes, i) != b {
        bytes[i / 8] ^= 1 << (7 - i % 8);
    }
}

/// Writes `value` into `width` bits, from `bit` on, and leaves the others.
pub(crate) fn put_bits(bytes: &mut [u8], bit: usize, width: usize, value: u16)
    requires inside { bit + width ≤ 8 * length bytes.old }
    requires narrow { width ≤ 16 }
    requires fits { bit + width < 2 ^ 64 }
    ensures { Put bytes.old bytes.new bit width value }
{
    // k is the place of a bit in the number and in the bytes: there is nothing to iterate over.
    for k in 0..width {
        put_bit(bytes, bit + k, ((value >> (width - 1 - k)) % 2) as u8);
    }
}
