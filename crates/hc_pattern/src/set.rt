ghost use Rattle.std.specs.Prelude.{◌≡◌, ℕ, ◌<◌, ◌≤◌, ◌-◌, ◌^◌, ◌==◌, ◌||◌, ◌&&◌};
ghost use Rattle.std.specs.Prelude.{Bool, false, nat_le, nat_lt, not};
ghost use Rattle.hc_pattern.specs.Bits.{IsTest, IsTested, has_bit, has_byte, set_where};

/// A set of bytes, each by its bit. The bytes from 128 on have theirs in `high`.
#[derive(Clone, Copy, PartialEq, Eq)]
pub struct ByteSet {
    pub low: u128,
    pub high: u128,
}

fn has_bit(bits: u128, place: u8) -> bool
    requires { place < 128 }
    ensures { result ≡ has_bit bits place }
{
    (bits >> place) & 1 == 1
}

fn with_bit(bits: u128, place: u8) -> u128
    requires { place < 128 }
    ensures { (other : ℕ) → has_bit result other ≡ (has_bit bits other || (other == place)) }
{
    bits | 1 << place
}

// The number with just its so many lowest bits set.
fn ones(count: u8) -> u128
    requires { count ≤ 128 }
    ensures { result ≡ 2 ^ count - 1 }
{
    if count < 128 {
        (1 << count) - 1
    } else {
        u128::MAX
    }
}

// The bits, and those of the places from one on and below another.
fn with_bits(bits: u128, from: u8, below: u8) -> u128
    requires begins { from ≤ 128 }
    requires ends { below ≤ 128 }
    ensures { (place : ℕ) → has_bit result place
        ≡ (has_bit bits place || (nat_le from place && nat_lt place below)) }
{
    bits | ones(below).saturating_sub(ones(from))
}

fn flipped(bits: u128) -> u128
    ensures { (place : ℕ) → place < 128 → has_bit result place ≡ not (has_bit bits place) }
{
    !bits
}

// How many values a byte has.
const BYTE_VALUES: u16 = 256;

/// The set of these bits, which is that of a test where it has just the bytes that meet it.
pub fn of_bits(low: u128, high: u128) -> ByteSet
    ensures { (test : ℕ → Bool) → IsTested (record { low = low; high = high }) test
        → result ≡ set_where test }
{
    ByteSet { low, high }
}

/// The set of the bytes that meet a test.
pub fn set_where<F: Fn(u8) -> bool>(test: F) -> ByteSet
    requires { F.IsAlwaysCallable test }
    ensures { (wanted : ℕ → Bool) → IsTest (F.post test) wanted → IsTested result wanted }
{
    let mut set = ByteSet::empty();
    for number in 0..BYTE_VALUES {
        let byte = number as u8;
        if test(byte) {
            set = set.with(byte);
        }
    }
    set
}

impl ByteSet {
    /// The set of no byte.
    pub fn empty() -> ByteSet
        ensures { (byte : ℕ) → has_byte result byte ≡ false }
    {
        ByteSet { low: 0, high: 0 }
    }

    /// The set with this byte too.
    pub fn with(self, byte: u8) -> ByteSet
        ensures { (other : ℕ) → has_byte result other ≡ (has_byte self other || (other == byte)) }
    {
        if byte < 128 {
            ByteSet {
                low: with_bit(self.low, byte),
                high: self.high,
            }
        } else {
            ByteSet {
                low: self.low,
                high: with_bit(self.high, byte - 128),
            }
        }
    }

    /// The set with the bytes from `from` up to and with `to` too.
    pub fn with_range(self, from: u8, to: u8) -> ByteSet
        ensures { (byte : ℕ) → has_byte result byte
            ≡ (has_byte self byte || (nat_le from byte && nat_le byte to)) }
    {
        ByteSet {
            low: with_bits(self.low, from.min(128), to.min(127) + 1),
            high: with_bits(self.high, from.saturating_sub(128), to.saturating_sub(127)),
        }
    }

    /// The bytes of either set.
    pub fn union(self, other: ByteSet) -> ByteSet
        ensures { (byte : ℕ) → has_byte result byte ≡ (has_byte self byte || has_byte other byte) }
    {
        ByteSet {
            low: self.low | other.low,
            high: self.high | other.high,
        }
    }

    /// The bytes that are not in the set.
    pub fn complement(self) -> ByteSet
        ensures { (byte : ℕ) → byte < 256 → has_byte result byte ≡ not (has_byte self byte) }
    {
        ByteSet {
            low: flipped(self.low),
            high: flipped(self.high),
        }
    }

    pub fn has(self, byte: u8) -> bool
        ensures { result ≡ has_byte self byte }
    {
        if byte < 128 {
            has_bit(self.low, byte)
        } else {
            has_bit(self.high, byte - 128)
        }
    }
}
