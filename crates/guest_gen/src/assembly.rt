//! The instructions that generated programs are made of.

ghost use Rattle.std.specs.Prelude.{◌≡◌, ◌<◌, ◌++◌, IfOk, OnOk};
ghost use Rattle.guest_gen.specs.Assembly.{b_type, bytes_of_step, bytes_of_steps, i_type, number, r_type, s_type, u_type};
ghost use Rattle.lego_base.specs.Space.{bytes_of};

use lego_base::NoMemory;
use std::alloc::Global;

/// The registers that generated programs use, by their names in the calling convention.
#[derive(Clone, Copy, Debug, PartialEq, Eq)]
pub enum Register {
    Zero,
    T0,
    T1,
    S0,
    S1,
    A0,
    A1,
    A2,
    A3,
    A4,
    A5,
    A7,
}

/// A step of a generated program: one instruction, or two that belong together.
#[derive(Clone, Copy, Debug, PartialEq, Eq)]
pub enum Step {
    /// A register gets a number below 2^31 - 2048: LUI and ADDI.
    Li(Register, u32),
    /// A register gets a negative number, of at most 2048: ADDI from x0.
    Minus(Register, u32),
    /// A register gets what another one has: ADDI of 0.
    Move(Register, Register),
    /// The first register gets the sum of the others: ADD.
    Add(Register, Register, Register),
    /// The lowest byte of the first register is stored at the address in the second: SB.
    StoreByte(Register, Register),
    /// The first register gets the word at the address in the second plus an offset below 2048: LW.
    LoadWord(Register, Register, u32),
    /// Goes on this many bytes further, less than 4096, where the register isn't 0: BNE.
    SkipUnlessZero(Register, u32),
    /// The system call of this number, below 2048: ADDI of a7, and ECALL.
    Call(u32),
}

/// The bytes of the instructions of steps, in order.
pub(crate) fn assembled(alloc: Global, steps: &[Step]) -> Result<Vec<u8>, NoMemory>
    ensures { IfOk result (λ v. v.items ≡ bytes_of_steps steps.now) }
{
    let mut code = Vec::new(alloc);
    for step in steps {
        put_step(&mut code, *step)?;
    }
    Ok(code)
}

// Adds the instructions of a step.
fn put_step(code: &mut Vec<u8>, step: Step) -> Result<(), NoMemory>
    ensures { OnOk result (code.new.items ≡ code.old.items ++ bytes_of_step step) }
{
    match step {
        Step::Li(rd, value) => {
            put_word(code, u_type(0x37, rd, value.wrapping_add(2048) / 4096))?;
            put_word(code, addi(rd, rd, value))
        }
        Step::Minus(rd, value) => put_word(
            code,
            addi(rd, Register::Zero, 4096u32.saturating_sub(value)),
        ),
        Step::Move(rd, rs1) => put_word(code, addi(rd, rs1, 0)),
        Step::Add(rd, rs1, rs2) => put_word(code, r_type(0x33, 0, rd, rs1, rs2)),
        Step::StoreByte(rs2, rs1) => put_word(code, s_type(0x23, 0, rs1, rs2, 0)),
        Step::LoadWord(rd, rs1, offset) => put_word(code, i_type(0x03, 2, rd, rs1, offset)),
        Step::SkipUnlessZero(rs1, over) => put_word(
            code,
            b_type(0x63, 1, rs1, Register::Zero, over),
        ),
        Step::Call(number) => {
            put_word(code, addi(Register::A7, Register::Zero, number))?;
            put_word(code, 0x73)
        }
    }
}

fn put_word(code: &mut Vec<u8>, word: u32) -> Result<(), NoMemory>
    ensures { OnOk result (code.new.items ≡ code.old.items ++ bytes_of 4 word) }
{
    code.extend_from_slice(&word.to_le_bytes())?;
    Ok(())
}

fn addi(rd: Register, rs1: Register, imm: u32) -> u32
    ensures { result ≡ i_type 0x13 0 rd rs1 imm }
{
    i_type(0x13, 0, rd, rs1, imm)
}

fn r_type(opcode: u32, funct3: u32, rd: Register, rs1: Register, rs2: Register) -> u32
    requires opcode { opcode < 128 }
    requires funct3 { funct3 < 8 }
    ensures { result ≡ r_type opcode funct3 rd rs1 rs2 }
{
    opcode
        + rd.number() * (1 << 7)
        + funct3 * (1 << 12)
        + rs1.number() * (1 << 15)
        + rs2.number() * (1 << 20)
}

fn i_type(opcode: u32, funct3: u32, rd: Register, rs1: Register, imm: u32) -> u32
    requires opcode { opcode < 128 }
    requires funct3 { funct3 < 8 }
    ensures { result ≡ i_type opcode funct3 rd rs1 imm }
{
    opcode
        + rd.number() * (1 << 7)
        + funct3 * (1 << 12)
        + rs1.number() * (1 << 15)
        + imm % 4096 * (1 << 20)
}

fn s_type(opcode: u32, funct3: u32, rs1: Register, rs2: Register, imm: u32) -> u32
    requires opcode { opcode < 128 }
    requires funct3 { funct3 < 8 }
    ensures { result ≡ s_type opcode funct3 rs1 rs2 imm }
{
    opcode
        + imm % 32 * (1 << 7)
        + funct3 * (1 << 12)
        + rs1.number() * (1 << 15)
        + rs2.number() * (1 << 20)
        + imm / 32 % 128 * (1 << 25)
}

fn b_type(opcode: u32, funct3: u32, rs1: Register, rs2: Register, imm: u32) -> u32
    requires opcode { opcode < 128 }
    requires funct3 { funct3 < 8 }
    ensures { result ≡ b_type opcode funct3 rs1 rs2 imm }
{
    opcode
        + imm / 2048 % 2 * (1 << 7)
        + imm / 2 % 16 * (1 << 8)
        + funct3 * (1 << 12)
        + rs1.number() * (1 << 15)
        + rs2.number() * (1 << 20)
        + imm / 32 % 64 * (1 << 25)
}

fn u_type(opcode: u32, rd: Register, imm: u32) -> u32
    requires { opcode < 128 }
    ensures { result ≡ u_type opcode rd imm }
{
    opcode + rd.number() * (1 << 7) + imm % (1 << 20) * (1 << 12)
}

impl Register {
    // Its number.
    fn number(self) -> u32
        ensures number { result ≡ number self }
        ensures few { result < 32 }
    {
        match self {
            Register::Zero => 0,
            Register::T0 => 5,
            Register::T1 => 6,
            Register::S0 => 8,
            Register::S1 => 9,
            Register::A0 => 10,
            Register::A1 => 11,
            Register::A2 => 12,
            Register::A3 => 13,
            Register::A4 => 14,
            Register::A5 => 15,
            Register::A7 => 17,
        }
    }
}
