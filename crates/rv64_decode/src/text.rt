//! How an instruction is written in assembly language.
ghost use Rattle.std.specs.Prelude.{◌≡◌, Some};
ghost use Rattle.rv64_decode.specs.Text.{mnemonic_of, operands_of, register_text, text_of};

use crate::{Instr, Op};
use std::fmt;

/// Which operands an operation is written with, and in which order.
#[derive(Clone, Copy)]
pub enum Operands {
    /// A register and the upper 20 bits of a constant.
    Upper,
    /// A register and an offset from the instruction.
    Jump,
    /// A register, and an offset with its base.
    Load,
    /// The register that is stored, and an offset with its base.
    Store,
    /// Two registers and an offset from the instruction.
    Branch,
    /// Two registers and a constant.
    Constant,
    /// Three registers.
    Registers,
    /// No operand. A fence is written so too, since the sets that it orders are no part of an `Instr`.
    Alone,
}

fn operands_of(op: Op) -> Operands
    ensures { result ≡ operands_of op }
{
    match op {
        Op::Lui | Op::Auipc => Operands::Upper,
        Op::Jal => Operands::Jump,
        Op::Jalr | Op::Lb | Op::Lh | Op::Lw | Op::Ld | Op::Lbu | Op::Lhu | Op::Lwu =>
            Operands::Load,
        Op::Sb | Op::Sh | Op::Sw | Op::Sd => Operands::Store,
        Op::Beq | Op::Bne | Op::Blt | Op::Bge | Op::Bltu | Op::Bgeu => Operands::Branch,
        Op::Addi
        | Op::Slti
        | Op::Sltiu
        | Op::Xori
        | Op::Ori
        | Op::Andi
        | Op::Slli
        | Op::Srli
        | Op::Srai
        | Op::Addiw
        | Op::Slliw
        | Op::Srliw
        | Op::Sraiw => Operands::Constant,
        Op::Fence | Op::Ecall | Op::Ebreak => Operands::Alone,
        _ => Operands::Registers,
    }
}

fn mnemonic(op: Op) -> &'static str
    ensures { result.now ≡ mnemonic_of op }
{
    match op {
        Op::Lui => "lui",
        Op::Auipc => "auipc",
        Op::Jal => "jal",
        Op::Jalr => "jalr",
        Op::Beq => "beq",
        Op::Bne => "bne",
        Op::Blt => "blt",
        Op::Bge => "bge",
        Op::Bltu => "bltu",
        Op::Bgeu => "bgeu",
        Op::Lb => "lb",
        Op::Lh => "lh",
        Op::Lw => "lw",
        Op::Ld => "ld",
        Op::Lbu => "lbu",
        Op::Lhu => "lhu",
        Op::Lwu => "lwu",
        Op::Sb => "sb",
        Op::Sh => "sh",
        Op::Sw => "sw",
        Op::Sd => "sd",
        Op::Addi => "addi",
        Op::Slti => "slti",
        Op::Sltiu => "sltiu",
        Op::Xori => "xori",
        Op::Ori => "ori",
        Op::Andi => "andi",
        Op::Slli => "slli",
        Op::Srli => "srli",
        Op::Srai => "srai",
        Op::Add => "add",
        Op::Sub => "sub",
        Op::Sll => "sll",
        Op::Slt => "slt",
        Op::Sltu => "sltu",
        Op::Xor => "xor",
        Op::Srl => "srl",
        Op::Sra => "sra",
        Op::Or => "or",
        Op::And => "and",
        Op::Mul => "mul",
        Op::Mulh => "mulh",
        Op::Mulhsu => "mulhsu",
        Op::Mulhu => "mulhu",
        Op::Div => "div",
        Op::Divu => "divu",
        Op::Rem => "rem",
        Op::Remu => "remu",
        Op::Addiw => "addiw",
        Op::Slliw => "slliw",
        Op::Srliw => "srliw",
        Op::Sraiw => "sraiw",
        Op::Addw => "addw",
        Op::Subw => "subw",
        Op::Sllw => "sllw",
        Op::Srlw => "srlw",
        Op::Sraw => "sraw",
        Op::Mulw => "mulw",
        Op::Divw => "divw",
        Op::Divuw => "divuw",
        Op::Remw => "remw",
        Op::Remuw => "remuw",
        Op::Fence => "fence",
        Op::Ecall => "ecall",
        Op::Ebreak => "ebreak",
    }
}

fn register_name(number: u8) -> &'static str
    ensures { result.now ≡ register_text number }
{
    match number {
        0 => "zero",
        1 => "ra",
        2 => "sp",
        3 => "gp",
        4 => "tp",
        5 => "t0",
        6 => "t1",
        7 => "t2",
        8 => "s0",
        9 => "s1",
        10 => "a0",
        11 => "a1",
        12 => "a2",
        13 => "a3",
        14 => "a4",
        15 => "a5",
        16 => "a6",
        17 => "a7",
        18 => "s2",
        19 => "s3",
        20 => "s4",
        21 => "s5",
        22 => "s6",
        23 => "s7",
        24 => "s8",
        25 => "s9",
        26 => "s10",
        27 => "s11",
        28 => "t3",
        29 => "t4",
        30 => "t5",
        31 => "t6",
        _ => "?",
    }
}

/// The mnemonic, as `addi`.
impl fmt::Display for Op {
    ghost output = { λ op. Some (mnemonic_of op) };

    fn fmt<W: fmt::Write>(&self, f: &mut fmt::Formatter<W>) -> fmt::Result {
        f.write_str(mnemonic(*self))
    }
}

/// The instruction as `addi a0, zero, 1`, `ld a0, -64(sp)` or `beq a0, a1, 16`.
impl fmt::Display for Instr {
    ghost output = { λ instr. Some (text_of instr) };

    fn fmt<W: fmt::Write>(&self, f: &mut fmt::Formatter<W>) -> fmt::Result {
        let name = mnemonic(self.op);
        let rd = register_name(self.rd);
        let rs1 = register_name(self.rs1);
        let rs2 = register_name(self.rs2);
        let imm = self.imm;
        match operands_of(self.op) {
            Operands::Upper => {
                let upper = (imm.cast_unsigned() >> 12) & 0xfffff;
                write!(f, "{name} {rd}, {upper}")
            }
            Operands::Jump => write!(f, "{name} {rd}, {imm}"),
            Operands::Load => write!(f, "{name} {rd}, {imm}({rs1})"),
            Operands::Store => write!(f, "{name} {rs2}, {imm}({rs1})"),
            Operands::Branch => write!(f, "{name} {rs1}, {rs2}, {imm}"),
            Operands::Constant => write!(f, "{name} {rd}, {rs1}, {imm}"),
            Operands::Registers => write!(f, "{name} {rd}, {rs1}, {rs2}"),
            Operands::Alone => write!(f, "{name}"),
        }
    }
}
