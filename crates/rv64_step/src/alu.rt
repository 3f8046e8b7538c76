//! Arithmetic on words of 64 bits: the operations of the chapters "RV32I", "RV64I" and "M" of the RISC-V manual,
//! volume I, each named for its instruction. A shift goes by the low six bits of the second word. The W forms work on the
//! low 32 bits, shift by the low five, and sign extend the result.
ghost use Rattle.std.specs.Prelude.{◌≡◌, ◌%◌, ◌^◌, int_lt, int_le};
ghost use Rattle.rv64_step.specs.Arith.{xor, or, and, sra, slt, sltu, mulh, mulhsu, mulhu, div, divu, rem, remu, addw, subw, sllw, srlw, sraw, mulw, divw, divuw, remw, remuw};
ghost use Rattle.rv64_step.specs.Word.{signed, sext};

/// Bitwise exclusive or.
#[inline(always)]
#[tactic(auto, using(crate::proofs::Digits::xor_is))]
pub fn xor(a: u64, b: u64) -> u64
    ensures { result ≡ xor a b }
{
    a ^ b
}

/// Bitwise or.
#[inline(always)]
#[tactic(auto, using(crate::proofs::Digits::or_is))]
pub fn or(a: u64, b: u64) -> u64
    ensures { result ≡ or a b }
{
    a | b
}

/// Bitwise and.
#[inline(always)]
#[tactic(auto, using(crate::proofs::Digits::and_is))]
pub fn and(a: u64, b: u64) -> u64
    ensures { result ≡ and a b }
{
    a & b
}

/// A shift to the right that keeps the sign.
#[inline(always)]
pub fn sra(a: u64, b: u64) -> u64
    ensures { result ≡ sra a b }
{
    (a.cast_signed() >> (b % 64)).cast_unsigned()
}

/// Whether the first is less, as signed numbers.
#[inline(always)]
pub fn lt(a: u64, b: u64) -> bool
    ensures { result ≡ int_lt (signed a) (signed b) }
{
    a.cast_signed() < b.cast_signed()
}

/// Whether the first is at least the second, as signed numbers.
#[inline(always)]
pub fn ge(a: u64, b: u64) -> bool
    ensures { result ≡ int_le (signed b) (signed a) }
{
    a.cast_signed() >= b.cast_signed()
}

/// 1 where the first is less, as signed numbers, else 0.
#[inline(always)]
pub fn slt(a: u64, b: u64) -> u64
    ensures { result ≡ slt a b }
{
    if lt(a, b) { 1 } else { 0 }
}

/// 1 where the first is less, else 0.
#[inline(always)]
pub fn sltu(a: u64, b: u64) -> u64
    ensures { result ≡ sltu a b }
{
    if a < b { 1 } else { 0 }
}

/// The upper 64 bits of the product of signed numbers.
pub fn mulh(a: u64, b: u64) -> u64
    ensures { result ≡ mulh a b }
{
    let product = a.cast_signed() as i128 * b.cast_signed() as i128;
    (product.cast_unsigned() >> 64) as u64
}

/// The upper 64 bits of the product of a signed number and an unsigned one.
pub fn mulhsu(a: u64, b: u64) -> u64
    ensures { result ≡ mulhsu a b }
{
    let product = a.cast_signed() as i128 * b as i128;
    (product.cast_unsigned() >> 64) as u64
}

/// The upper 64 bits of the product.
pub fn mulhu(a: u64, b: u64) -> u64
    ensures { result ≡ mulhu a b }
{
    let product = a as u128 * b as u128;
    (product >> 64) as u64
}

/// Rounds towards zero. A zero divisor gives all ones; -2^63 by -1 gives -2^63.
pub fn div(a: u64, b: u64) -> u64
    ensures { result ≡ div a b }
{
    if b == 0 {
        u64::MAX
    } else {
        a.cast_signed()
            .wrapping_div(b.cast_signed())
            .cast_unsigned()
    }
}

/// A zero divisor gives all ones.
pub fn divu(a: u64, b: u64) -> u64
    ensures { result ≡ divu a b }
{
    if b == 0 { u64::MAX } else { a / b }
}

/// A zero divisor gives the dividend; -2^63 by -1 gives 0.
pub fn rem(a: u64, b: u64) -> u64
    ensures { result ≡ rem a b }
{
    if b == 0 {
        a
    } else {
        a.cast_signed()
            .wrapping_rem(b.cast_signed())
            .cast_unsigned()
    }
}

/// A zero divisor gives the dividend.
pub fn remu(a: u64, b: u64) -> u64
    ensures { result ≡ remu a b }
{
    if b == 0 { a } else { a % b }
}

// The low 32 bits.
#[inline(always)]
fn low(a: u64) -> u64
    ensures { result ≡ a % 2 ^ 32 }
{
    a & 0xffff_ffff
}

/// The low 32 bits, sign extended.
#[inline(always)]
pub fn sext32(a: u64) -> u64
    ensures { result ≡ sext 32 a }
{
    ((low(a) as u32).cast_signed() as i64).cast_unsigned()
}

/// The low 16 bits, sign extended.
#[inline(always)]
pub fn sext16(a: u64) -> u64
    ensures { result ≡ sext 16 a }
{
    (((a & 0xffff) as u16).cast_signed() as i64).cast_unsigned()
}

/// The low 8 bits, sign extended.
#[inline(always)]
pub fn sext8(a: u64) -> u64
    ensures { result ≡ sext 8 a }
{
    (((a & 0xff) as u8).cast_signed() as i64).cast_unsigned()
}

/// The sum of words of 32 bits.
#[inline(always)]
pub fn addw(a: u64, b: u64) -> u64
    ensures { result ≡ addw a b }
{
    sext32(a.wrapping_add(b))
}

/// The difference of words of 32 bits.
#[inline(always)]
pub fn subw(a: u64, b: u64) -> u64
    ensures { result ≡ subw a b }
{
    sext32(a.wrapping_sub(b))
}

/// A shift of a word of 32 bits to the left.
#[inline(always)]
pub fn sllw(a: u64, b: u64) -> u64
    ensures { result ≡ sllw a b }
{
    sext32(a << (b % 32))
}

/// A shift of a word of 32 bits to the right.
#[inline(always)]
pub fn srlw(a: u64, b: u64) -> u64
    ensures { result ≡ srlw a b }
{
    sext32(low(a) >> (b % 32))
}

/// A shift of a word of 32 bits to the right that keeps the sign.
#[inline(always)]
pub fn sraw(a: u64, b: u64) -> u64
    ensures { result ≡ sraw a b }
{
    (sext32(a).cast_signed() >> (b % 32)).cast_unsigned()
}

/// The product of words of 32 bits.
#[inline(always)]
pub fn mulw(a: u64, b: u64) -> u64
    ensures { result ≡ mulw a b }
{
    sext32(a.wrapping_mul(b))
}

/// `div` on words of 32 bits.
pub fn divw(a: u64, b: u64) -> u64
    ensures { result ≡ divw a b }
{
    sext32(div(sext32(a), sext32(b)))
}

/// `divu` on words of 32 bits.
pub fn divuw(a: u64, b: u64) -> u64
    ensures { result ≡ divuw a b }
{
    sext32(divu(low(a), low(b)))
}

/// `rem` on words of 32 bits.
pub fn remw(a: u64, b: u64) -> u64
    ensures { result ≡ remw a b }
{
    sext32(rem(sext32(a), sext32(b)))
}

/// `remu` on words of 32 bits.
pub fn remuw(a: u64, b: u64) -> u64
    ensures { result ≡ remuw a b }
{
    sext32(remu(low(a), low(b)))
}
