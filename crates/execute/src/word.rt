//! Arithmetic on 16-bit words (docs/MACHINE.md, Instructions).
ghost use Rattle.std.specs.Prelude.{◌≡◌, ◌<◌};
ghost use Rattle.execute.specs.Word.{add_word, sub_word, mul_word, has_bit, with_bit, bit, with_low, with_high, sign_extend, bool_and};

/// `a` + `b`, modulo 65,536.
pub fn add(a: u16, b: u16) -> u16
    ensures { result ≡ add_word a b }
{
    a.wrapping_add(b)
}

/// `a` - `b`, modulo 65,536.
pub fn sub(a: u16, b: u16) -> u16
    ensures { result ≡ sub_word a b }
{
    a.wrapping_sub(b)
}

/// `a` * `b`, modulo 65,536.
pub fn wrapping_mul_u16(a: u16, b: u16) -> u16
    ensures { result ≡ mul_word a b }
{
    a.wrapping_mul(b)
}

/// Whether bit `k` of `a` is set.
// Here and below `k` is a number, as shifts take one: a type for a bit's place would be taken apart
// in each.
pub fn has_bit(a: u16, k: u16) -> bool
    requires { k < 16 }
    ensures { result ≡ has_bit a k }
{
    (a >> k) % 2 == 1
}

/// `a` with bit `k` set.
#[tactic(auto, using(crate::proofs::Laws::or_bit))]
pub fn set_bit(a: u16, k: u16) -> u16
    requires { k < 16 }
    ensures { result ≡ with_bit a k 1 }
{
    a | (1 << k)
}

/// `a` with bit `k` cleared.
#[tactic(auto, using(crate::proofs::Laws::and_bit_16))]
pub fn clear_bit(a: u16, k: u16) -> u16
    requires { k < 16 }
    ensures { result ≡ with_bit a k 0 }
{
    a & !(1 << k)
}

/// `a` with bit `k` set if `on`, else cleared.
pub fn put_bit(a: u16, k: u16, on: bool) -> u16
    requires { k < 16 }
    ensures { result ≡ with_bit a k (bit on) }
{
    if on { set_bit(a, k) } else { clear_bit(a, k) }
}

/// `a` with its low byte replaced by `b`.
#[tactic(auto, using(crate::proofs::Laws::low_byte))]
pub fn with_low(a: u16, b: u8) -> u16
    ensures { result ≡ with_low a b }
{
    (a & 0xFF00) | b as u16
}

/// `a` with its high byte replaced by `b`.
pub fn with_high(a: u16, b: u8) -> u16
    ensures { result ≡ with_high a b }
{
    (a & 0x00FF) | ((b as u16) << 8)
}

/// A byte read as -128..127, modulo 65,536.
pub fn sign_extend_u8_to_u16(byte: u8) -> u16
    ensures { result ≡ sign_extend byte }
{
    (byte.cast_signed() as i16).cast_unsigned()
}

/// 1 if both are above 0, else 0.
pub fn bool_and(a: u16, b: u16) -> u16
    ensures { result ≡ bool_and a b }
{
    (a > 0 && b > 0) as u16
}
