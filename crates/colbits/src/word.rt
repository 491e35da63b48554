//! Eight bytes at a time.

ghost use Rattle.std.specs.Prelude.{◌≡◌, ℕ, ◌+◌, ◌-◌, ◌*◌, ◌<◌, ◌≤◌, length};
ghost use Rattle.colbits.specs.Bit.{bit, bit_in};

/// The 64 bits from bit `shift` of byte `at` on, the first of them least significant.
#[inline(always)]
pub(crate) fn word_from(bytes: &[u8], at: usize, shift: usize) -> u64
    requires shift { shift < 8 }
    requires within { 8 * at + shift + 64 ≤ 8 * length bytes.now }
    ensures { (j : ℕ) → j < 64 → bit_in result j ≡ bit bytes.now (8 * at + shift + j) }
{
    let low = eight_bytes(bytes, at);
    if shift == 0 {
        low
    } else {
        joined(low, bytes[at + 8], shift)
    }
}

/// The bits of eight bytes.
#[inline(always)]
fn eight_bytes(bytes: &[u8], at: usize) -> u64
    requires { at + 8 ≤ length bytes.now }
    ensures { (j : ℕ) → j < 64 → bit_in result j ≡ bit bytes.now (8 * at + j) }
{
    u64::from_le_bytes([
        bytes[at],
        bytes[at + 1],
        bytes[at + 2],
        bytes[at + 3],
        bytes[at + 4],
        bytes[at + 5],
        bytes[at + 6],
        bytes[at + 7],
    ])
}

/// The bits of `low` from bit `shift` on, with the first of `high` behind them.
#[inline(always)]
fn joined(low: u64, high: u8, shift: usize) -> u64
    requires { (0 < shift) × (shift < 8) }
    ensures low { (j : ℕ) → shift + j < 64 → bit_in result j ≡ bit_in low (shift + j) }
    ensures high { (j : ℕ) → j < shift → bit_in result (64 - shift + j) ≡ bit_in high j }
{
    (low >> shift) | (u64::from(high) << (64 - shift))
}
