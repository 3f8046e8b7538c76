//! How an instruction lies in its word: fields, formats and immediates.
ghost use Rattle.std.specs.Prelude.{◌≡◌, ◌<◌, ◌≤◌, ◌+◌, ◌-◌, ◌^◌, IsTrue};
ghost use Rattle.rv64_decode.specs.Encoding.{field, sign_extended, immediate};
ghost use Rattle.rv64_decode.specs.Leaves.{format_of, is_top};

use crate::Op;

/// The instruction formats of the RISC-V manual, by their immediates: the R type has none, and the
/// amount of a shift, an I type in the manual, is a format of its own.
#[derive(Clone, Copy)]
pub enum Format {
    RType,
    IType,
    SType,
    BType,
    UType,
    JType,
    /// Six bits.
    Shift,
    /// Five bits, of the shifts on 32 bits.
    ShiftWord,
}

/// The number in `width` bits of a word, from bit `from` up.
#[inline(always)]
pub fn bits(word: u32, from: u32, width: u32) -> u32
    requires inside { from + width ≤ 32 }
    requires narrow { width < 32 }
    requires some { 0 < width }
    ensures value { result ≡ field from width word }
    ensures fits { result < 2 ^ width }
{
    (word >> from) & ((1 << width) - 1)
}

/// The topmost bits of a word, from bit 12, 20, 25 or 31 up, read in two's complement.
#[inline(always)]
fn top(word: u32, from: u32) -> i64
    requires { IsTrue (is_top from) }
    ensures { result ≡ sign_extended (32 - from) (field from (32 - from) word) }
{
    (word.cast_signed() >> from) as i64
}

/// The number of the register that a word names as its destination: bits 11..7.
#[inline(always)]
pub fn rd(word: u32) -> u32
    ensures value { result ≡ field 7 5 word }
    ensures fits { result < 32 }
{
    bits(word, 7, 5)
}

/// The number of the register that a word names as its first source: bits 19..15.
#[inline(always)]
pub fn rs1(word: u32) -> u32
    ensures value { result ≡ field 15 5 word }
    ensures fits { result < 32 }
{
    bits(word, 15, 5)
}

/// The number of the register that a word names as its second source: bits 24..20.
#[inline(always)]
pub fn rs2(word: u32) -> u32
    ensures value { result ≡ field 20 5 word }
    ensures fits { result < 32 }
{
    bits(word, 20, 5)
}

/// The immediate of a word of this format, sign extended; of a shift its amount; 0 where the format has none.
#[inline(always)]
pub fn immediate(word: u32, format: Format) -> i64
    ensures { result ≡ immediate format word }
{
    match format {
        Format::RType => 0,
        Format::IType => top(word, 20),
        Format::SType => top(word, 25) * 32 + bits(word, 7, 5) as i64,
        Format::BType => {
            let low = (bits(word, 8, 4) << 1) + (bits(word, 25, 6) << 5);
            let high = bits(word, 7, 1) << 11;
            top(word, 31) * 4096 + (low + high) as i64
        }
        Format::UType => top(word, 12) * 4096,
        Format::JType => {
            let low = (bits(word, 21, 10) << 1) + (bits(word, 20, 1) << 11);
            let high = bits(word, 12, 8) << 12;
            top(word, 31) * 1_048_576 + (low + high) as i64
        }
        Format::Shift => bits(word, 20, 6) as i64,
        Format::ShiftWord => bits(word, 20, 5) as i64,
    }
}

/// The format of an operation.
pub fn format_of(op: Op) -> Format
    ensures { result ≡ format_of op }
{
    match op {
        Op::Lui | Op::Auipc => Format::UType,
        Op::Jal => Format::JType,
        Op::Beq | Op::Bne | Op::Blt | Op::Bge | Op::Bltu | Op::Bgeu => Format::BType,
        Op::Jalr | Op::Lb | Op::Lh | Op::Lw | Op::Ld | Op::Lbu | Op::Lhu | Op::Lwu => Format::IType,
        Op::Addi | Op::Slti | Op::Sltiu | Op::Xori | Op::Ori | Op::Andi | Op::Addiw =>
            Format::IType,
        Op::Sb | Op::Sh | Op::Sw | Op::Sd => Format::SType,
        Op::Slli | Op::Srli | Op::Srai => Format::Shift,
        Op::Slliw | Op::Srliw | Op::Sraiw => Format::ShiftWord,
        _ => Format::RType,
    }
}
