//! The operations of each opcode by the fields that tell them apart, one function an opcode, as the chapter "RV32/64G
//! Instruction Set Listings" of the RISC-V manual, volume I, lists them. Each is compiled into its caller, where what is
//! done with an operation can follow the test that finds it.
ghost use Rattle.std.specs.Prelude.{◌≡◌};
ghost use Rattle.rv64_decode.specs.Table.{branches, loads, stores, constants, shifts, registers, word_constants, word_shifts, word_registers, fences, systems, indirect_jumps};
ghost use Rattle.rv64_decode.specs.Leaves.{op_by_funct3, op_by_both, op_by_others};

use crate::Op;

#[inline(always)]
pub fn indirect_jump(funct3: u32) -> Option<Op>
    ensures { result ≡ op_by_funct3 indirect_jumps funct3 }
{
    match funct3 {
        0 => Some(Op::Jalr),
        _ => None,
    }
}

#[inline(always)]
pub fn branch(funct3: u32) -> Option<Op>
    ensures { result ≡ op_by_funct3 branches funct3 }
{
    match funct3 {
        0 => Some(Op::Beq),
        1 => Some(Op::Bne),
        4 => Some(Op::Blt),
        5 => Some(Op::Bge),
        6 => Some(Op::Bltu),
        7 => Some(Op::Bgeu),
        _ => None,
    }
}

#[inline(always)]
pub fn load(funct3: u32) -> Option<Op>
    ensures { result ≡ op_by_funct3 loads funct3 }
{
    match funct3 {
        0 => Some(Op::Lb),
        1 => Some(Op::Lh),
        2 => Some(Op::Lw),
        3 => Some(Op::Ld),
        4 => Some(Op::Lbu),
        5 => Some(Op::Lhu),
        6 => Some(Op::Lwu),
        _ => None,
    }
}

#[inline(always)]
pub fn store(funct3: u32) -> Option<Op>
    ensures { result ≡ op_by_funct3 stores funct3 }
{
    match funct3 {
        0 => Some(Op::Sb),
        1 => Some(Op::Sh),
        2 => Some(Op::Sw),
        3 => Some(Op::Sd),
        _ => None,
    }
}

#[inline(always)]
pub fn constant(funct3: u32) -> Option<Op>
    ensures { result ≡ op_by_funct3 constants funct3 }
{
    match funct3 {
        0 => Some(Op::Addi),
        2 => Some(Op::Slti),
        3 => Some(Op::Sltiu),
        4 => Some(Op::Xori),
        6 => Some(Op::Ori),
        7 => Some(Op::Andi),
        _ => None,
    }
}

#[inline(always)]
pub fn shift(funct3: u32, funct6: u32) -> Option<Op>
    ensures { result ≡ op_by_both shifts funct3 funct6 }
{
    match (funct3, funct6) {
        (1, 0x00) => Some(Op::Slli),
        (5, 0x00) => Some(Op::Srli),
        (5, 0x10) => Some(Op::Srai),
        _ => None,
    }
}

#[inline(always)]
pub fn register(funct3: u32, funct7: u32) -> Option<Op>
    ensures { result ≡ op_by_both registers funct3 funct7 }
{
    match (funct3, funct7) {
        (0, 0x00) => Some(Op::Add),
        (0, 0x20) => Some(Op::Sub),
        (1, 0x00) => Some(Op::Sll),
        (2, 0x00) => Some(Op::Slt),
        (3, 0x00) => Some(Op::Sltu),
        (4, 0x00) => Some(Op::Xor),
        (5, 0x00) => Some(Op::Srl),
        (5, 0x20) => Some(Op::Sra),
        (6, 0x00) => Some(Op::Or),
        (7, 0x00) => Some(Op::And),
        (0, 0x01) => Some(Op::Mul),
        (1, 0x01) => Some(Op::Mulh),
        (2, 0x01) => Some(Op::Mulhsu),
        (3, 0x01) => Some(Op::Mulhu),
        (4, 0x01) => Some(Op::Div),
        (5, 0x01) => Some(Op::Divu),
        (6, 0x01) => Some(Op::Rem),
        (7, 0x01) => Some(Op::Remu),
        _ => None,
    }
}

#[inline(always)]
pub fn word_constant(funct3: u32) -> Option<Op>
    ensures { result ≡ op_by_funct3 word_constants funct3 }
{
    match funct3 {
        0 => Some(Op::Addiw),
        _ => None,
    }
}

#[inline(always)]
pub fn word_shift(funct3: u32, funct7: u32) -> Option<Op>
    ensures { result ≡ op_by_both word_shifts funct3 funct7 }
{
    match (funct3, funct7) {
        (1, 0x00) => Some(Op::Slliw),
        (5, 0x00) => Some(Op::Srliw),
        (5, 0x20) => Some(Op::Sraiw),
        _ => None,
    }
}

#[inline(always)]
pub fn word_register(funct3: u32, funct7: u32) -> Option<Op>
    ensures { result ≡ op_by_both word_registers funct3 funct7 }
{
    match (funct3, funct7) {
        (0, 0x00) => Some(Op::Addw),
        (0, 0x20) => Some(Op::Subw),
        (1, 0x00) => Some(Op::Sllw),
        (5, 0x00) => Some(Op::Srlw),
        (5, 0x20) => Some(Op::Sraw),
        (0, 0x01) => Some(Op::Mulw),
        (4, 0x01) => Some(Op::Divw),
        (5, 0x01) => Some(Op::Divuw),
        (6, 0x01) => Some(Op::Remw),
        (7, 0x01) => Some(Op::Remuw),
        _ => None,
    }
}

#[inline(always)]
pub fn fence(funct3: u32) -> Option<Op>
    ensures { result ≡ op_by_funct3 fences funct3 }
{
    match funct3 {
        0 => Some(Op::Fence),
        _ => None,
    }
}

/// The bits above the opcode tell the two apart.
#[inline(always)]
pub fn system(others: u32) -> Option<Op>
    ensures { result ≡ op_by_others systems others }
{
    match others {
        0x0000 => Some(Op::Ecall),
        0x2000 => Some(Op::Ebreak),
        _ => None,
    }
}
