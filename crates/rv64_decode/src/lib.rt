//! The instructions of RV64IM: which instruction a 32-bit word is, and how it is written.
//!
//! The model is the instruction table in `specs/Table.antt`, one line an instruction, in the words of the
//! RISC-V manual. The promise is that `decode` is that table for every word: the row's operation, registers
//! and immediate where a row has the word, and `None` exactly where none has it. It is stated at `decode`;
//! laws of the table are stated at the functions below it, and the written text at `Display` in `text`.
#![tactic(auto)]

ghost use Rattle.std.specs.Prelude.{◌≡◌, IfSome};
ghost use Rattle.std.specs.Option.{option_map};
ghost use Rattle.rv64_decode.specs.Leaves.{of_word};
ghost use Rattle.rv64_decode.specs.Table.{decoded};
ghost use Rattle.rv64_decode.specs.Laws.{NoTwoShare, RowsDecode, OthersAreNone, FitsByMask, MatchesLieUnderMasks, ImmediatesInRange, HasRegisters};

mod encoding;
mod opcodes;
mod text;

pub use encoding::{Format, immediate, rd, rs1, rs2};
use encoding::{bits, format_of};

/// The operation of an instruction: one for each instruction name of RV64I and M.
#[derive(Clone, Copy, PartialEq, Eq, Debug)]
pub enum Op {
    Lui,
    Auipc,
    Jal,
    Jalr,
    Beq,
    Bne,
    Blt,
    Bge,
    Bltu,
    Bgeu,
    Lb,
    Lh,
    Lw,
    Ld,
    Lbu,
    Lhu,
    Lwu,
    Sb,
    Sh,
    Sw,
    Sd,
    Addi,
    Slti,
    Sltiu,
    Xori,
    Ori,
    Andi,
    Slli,
    Srli,
    Srai,
    Add,
    Sub,
    Sll,
    Slt,
    Sltu,
    Xor,
    Srl,
    Sra,
    Or,
    And,
    Mul,
    Mulh,
    Mulhsu,
    Mulhu,
    Div,
    Divu,
    Rem,
    Remu,
    Addiw,
    Slliw,
    Srliw,
    Sraiw,
    Addw,
    Subw,
    Sllw,
    Srlw,
    Sraw,
    Mulw,
    Divw,
    Divuw,
    Remw,
    Remuw,
    Fence,
    Ecall,
    Ebreak,
}

/// A decoded instruction.
#[derive(Clone, Copy, PartialEq, Eq, Debug)]
pub struct Instr {
    pub op: Op,
    /// Bits 11..7 of the word, 0 to 31, also where the format has no such register.
    pub rd: u8,
    /// Bits 19..15 of the word, 0 to 31, also where the format has no such register.
    pub rs1: u8,
    /// Bits 24..20 of the word, 0 to 31, also where the format has no such register.
    pub rs2: u8,
    /// The immediate, sign extended; of a shift its amount; 0 where the format has none.
    pub imm: i64,
}

/// The instruction that a word is, by the listing in the RISC-V manual, volume I: `None` where the word is
/// no instruction of RV64IM.
pub fn decode(word: u32) -> Option<Instr>
    ensures table { result ≡ decoded word }
    ensures registers { IfSome result HasRegisters }
{
    match operation(word) {
        Some(op) => Some(Instr {
            op,
            rd: rd(word) as u8,
            rs1: rs1(word) as u8,
            rs2: rs2(word) as u8,
            imm: immediate(word, format_of(op)),
        }),
        None => None,
    }
}

/// The operation of the instruction that a word is, for those who read the word's registers and immediate
/// themselves as they need them: `None` where the word is no instruction of RV64IM.
#[inline(always)]
pub fn operation(word: u32) -> Option<Op>
    ensures { option_map (of_word word) result ≡ decoded word }
{
    let funct3 = bits(word, 12, 3);
    match bits(word, 0, 7) {
        0x37 => Some(Op::Lui),
        0x17 => Some(Op::Auipc),
        0x6f => Some(Op::Jal),
        0x67 => opcodes::indirect_jump(funct3),
        0x63 => opcodes::branch(funct3),
        0x03 => opcodes::load(funct3),
        0x23 => opcodes::store(funct3),
        0x13 => match funct3 {
            1 | 5 => opcodes::shift(funct3, bits(word, 26, 6)),
            _ => opcodes::constant(funct3),
        },
        0x33 => opcodes::register(funct3, bits(word, 25, 7)),
        0x1b => match funct3 {
            1 | 5 => opcodes::word_shift(funct3, bits(word, 25, 7)),
            _ => opcodes::word_constant(funct3),
        },
        0x3b => opcodes::word_register(funct3, bits(word, 25, 7)),
        0x0f => opcodes::fence(funct3),
        0x73 => opcodes::system(bits(word, 7, 25)),
        _ => None,
    }
}

/// No word belongs to two rows of the table.
pub fn rows_are_apart()
    ensures { NoTwoShare }
{}

/// Each row decodes all of its words, and a word of no row is no instruction.
pub fn rows_decode_their_words()
    ensures rows { RowsDecode }
    ensures others { OthersAreNone }
{}

/// A word belongs to a row exactly where it has the row's match under the row's mask.
pub fn rows_are_masks()
    ensures { FitsByMask }
{}

/// The match of each row lies under its mask.
pub fn matches_lie_under_masks()
    ensures { MatchesLieUnderMasks }
{}

/// Which immediates each format can hold.
pub fn immediates_are_in_range()
    ensures { ImmediatesInRange }
{}
