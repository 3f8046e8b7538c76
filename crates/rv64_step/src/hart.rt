//! A hart ("hardware thread", the manual's word): the registers while instructions run, and the step.
ghost use Rattle.std.specs.Prelude.{◌≡◌, slice_index};
ghost use Rattle.std.specs.Int.{cast_unsigned, w64};
ghost use Rattle.rv64_decode.specs.declared.encoding.Format.TheVariants.{IType, Shift, ShiftWord};
ghost use Rattle.rv64_decode.specs.Encoding.{immediate};

use crate::alu;
use crate::cpu::{Cpu, StepEnd, killed, stopped};
use crate::memory::GuestMem;
use crate::width::Width;
use lego_base::{Halt, Pid};
use rv64_decode::{Format, Op, immediate, operation, rd, rs1, rs2};

/// The registers while instructions run. Register 0 holds 0 all the time, so that reading a register needs no test:
/// each write sets it to 0 again. What register 0 of the [`Cpu`] held comes back at the end.
#[derive(Clone, Copy, Debug)]
pub struct Hart {
    pc: u64,
    x: [u64; 32],
    zeroth: u64, // what `x[0]` of the `Cpu` holds
    ghost zero: { slice_index x 0 ≡ 0 },
}

/// What the upper bits of a register hold after a load of fewer than eight bytes.
#[derive(Clone, Copy)]
enum Extension {
    Zero,
    Sign,
}

// The immediate of an I type.
#[inline(always)]
fn constant(word: u32) -> u64
    ensures { result ≡ cast_unsigned w64 (immediate IType word) }
{
    immediate(word, Format::IType).cast_unsigned()
}

// The amount of a shift, from 0 to 63.
#[inline(always)]
fn amount(word: u32) -> u64
    ensures { result ≡ cast_unsigned w64 (immediate Shift word) }
{
    immediate(word, Format::Shift).cast_unsigned()
}

// The amount of a shift on 32 bits, from 0 to 31.
#[inline(always)]
fn word_amount(word: u32) -> u64
    ensures { result ≡ cast_unsigned w64 (immediate ShiftWord word) }
{
    immediate(word, Format::ShiftWord).cast_unsigned()
}

impl Extension {
    ghost use Rattle.rv64_step.specs.Harts.{extended};

    // The value for a register by the number that was loaded.
    #[inline(always)]
    fn extend(self, width: Width, number: u64) -> u64
        ensures { result ≡ extended self width number }
    {
        match self {
            Extension::Zero => number,
            Extension::Sign => match width {
                Width::Byte => alu::sext8(number),
                Width::Half => alu::sext16(number),
                Width::Word => alu::sext32(number),
                Width::Double => number,
            },
        }
    }
}

impl Hart {
    ghost use Rattle.std.specs.Prelude.{◌+◌, ◌<◌, ◌^◌, ◌%◌, ◌==◌, ℕ, IsTrue};
    ghost use Rattle.rv64_decode.specs.declared.encoding.Format.TheVariants.{BType};
    ghost use Rattle.rv64_decode.specs.declared.Op.TheVariants.{Lw, Sw};
    ghost use Rattle.rv64_decode.specs.Encoding.{field};
    ghost use Rattle.rv64_decode.specs.Leaves.{of_word};
    ghost use Rattle.rv64_step.specs.Word.{plus};
    ghost use Rattle.rv64_step.specs.Access.{bytes_in, Fetched, Loaded, Stored};
    ghost use Rattle.rv64_step.specs.Meaning.{reg, with_reg, sets, links, branches, loads, stores, asks, Ends, Does, IsStep};
    ghost use Rattle.rv64_step.specs.Harts.{cpu_of, extended};

    /// A hart with the registers of a processor.
    pub fn new(cpu: Cpu) -> Hart
        ensures { cpu_of result ≡ cpu }
    {
        let mut x = cpu.x;
        x[0] = 0;
        Hart {
            pc: cpu.pc,
            x,
            zeroth: cpu.x[0],
        }
    }

    /// The registers as a processor has them.
    pub fn cpu(&self) -> Cpu
        ensures { result ≡ cpu_of self.now }
    {
        let mut x = self.x;
        x[0] = self.zeroth;
        Cpu { pc: self.pc, x }
    }

    /// One instruction of a process: the word at `pc` is fetched and executed. The accesses go to `mem`, once each and
    /// in order. `Halt` comes only where the memory gave it.
    #[inline(always)]
    pub fn step<M: GuestMem>(&mut self, pid: Pid, mem: &mut M) -> Result<StepEnd, Halt>
        requires { IsTrue (M.serves mem.old pid.0) }
        ensures served { (q : ℕ) → M.serves mem.new q ≡ M.serves mem.old q }
        ensures step { IsStep (Fetched M.serves M.space M.fetches pid.0) (Loaded M.serves M.space M.loads pid.0) (Stored M.serves M.space M.stores pid.0) (cpu_of self.old) mem.old result (cpu_of self.new) mem.new }
    {
        let word = match mem.fetch(pid, self.pc) {
            Ok(word) => word,
            Err(stop) => return stopped(stop),
        };
        match operation(word) {
            Some(op) => self.execute(op, word, pid, mem),
            None => Ok(killed(4)),
        }
    }

    // Executes the instruction that `word` encodes, reading only the fields that it uses.
    #[inline(always)]
    fn execute<M: GuestMem>(
        &mut self,
        op: Op,
        word: u32,
        pid: Pid,
        mem: &mut M,
    ) -> Result<StepEnd, Halt>
        requires served { IsTrue (M.serves mem.old pid.0) }
        ensures served { (q : ℕ) → M.serves mem.new q ≡ M.serves mem.old q }
        ensures does { Does (Loaded M.serves M.space M.loads pid.0) (Stored M.serves M.space M.stores pid.0) (cpu_of self.old) (asks (of_word word op) (cpu_of self.old) op) mem.old result (cpu_of self.new) mem.new }
    {
        match op {
            Op::Lui => Ok(self.set(word, immediate(word, Format::UType).cast_unsigned())),
            Op::Auipc => Ok(self.set(word, self.from_pc(word, Format::UType))),
            Op::Jal => Ok(self.link(word, self.from_pc(word, Format::JType))),
            Op::Jalr => Ok(self.link(word, self.sum(word, Format::IType) / 2 * 2)),
            Op::Beq => Ok(self.branch(self.first(word) == self.second(word), word)),
            Op::Bne => Ok(self.branch(self.first(word) != self.second(word), word)),
            Op::Blt => Ok(self.branch(alu::lt(self.first(word), self.second(word)), word)),
            Op::Bge => Ok(self.branch(alu::ge(self.first(word), self.second(word)), word)),
            Op::Bltu => Ok(self.branch(self.first(word) < self.second(word), word)),
            Op::Bgeu => Ok(self.branch(self.first(word) >= self.second(word), word)),
            Op::Lb => self.load(word, Width::Byte, Extension::Sign, pid, mem),
            Op::Lh => self.load(word, Width::Half, Extension::Sign, pid, mem),
            Op::Lw => self.load(word, Width::Word, Extension::Sign, pid, mem),
            Op::Ld => self.load(word, Width::Double, Extension::Zero, pid, mem),
            Op::Lbu => self.load(word, Width::Byte, Extension::Zero, pid, mem),
            Op::Lhu => self.load(word, Width::Half, Extension::Zero, pid, mem),
            Op::Lwu => self.load(word, Width::Word, Extension::Zero, pid, mem),
            Op::Sb => self.store(word, Width::Byte, pid, mem),
            Op::Sh => self.store(word, Width::Half, pid, mem),
            Op::Sw => self.store(word, Width::Word, pid, mem),
            Op::Sd => self.store(word, Width::Double, pid, mem),
            Op::Addi => Ok(self.set(word, self.sum(word, Format::IType))),
            Op::Slti => Ok(self.set(word, alu::slt(self.first(word), constant(word)))),
            Op::Sltiu => Ok(self.set(word, alu::sltu(self.first(word), constant(word)))),
            Op::Xori => Ok(self.set(word, alu::xor(self.first(word), constant(word)))),
            Op::Ori => Ok(self.set(word, alu::or(self.first(word), constant(word)))),
            Op::Andi => Ok(self.set(word, alu::and(self.first(word), constant(word)))),
            Op::Slli => Ok(self.set(word, self.first(word) << (amount(word) % 64))),
            Op::Srli => Ok(self.set(word, self.first(word) >> (amount(word) % 64))),
            Op::Srai => Ok(self.set(word, alu::sra(self.first(word), amount(word)))),
            Op::Add => Ok(self.set(word, self.first(word).wrapping_add(self.second(word)))),
            Op::Sub => Ok(self.set(word, self.first(word).wrapping_sub(self.second(word)))),
            Op::Sll => Ok(self.set(word, self.first(word) << (self.second(word) % 64))),
            Op::Slt => Ok(self.set(word, alu::slt(self.first(word), self.second(word)))),
            Op::Sltu => Ok(self.set(word, alu::sltu(self.first(word), self.second(word)))),
            Op::Xor => Ok(self.set(word, alu::xor(self.first(word), self.second(word)))),
            Op::Srl => Ok(self.set(word, self.first(word) >> (self.second(word) % 64))),
            Op::Sra => Ok(self.set(word, alu::sra(self.first(word), self.second(word)))),
            Op::Or => Ok(self.set(word, alu::or(self.first(word), self.second(word)))),
            Op::And => Ok(self.set(word, alu::and(self.first(word), self.second(word)))),
            Op::Mul => Ok(self.set(word, self.first(word).wrapping_mul(self.second(word)))),
            Op::Mulh => Ok(self.set(word, alu::mulh(self.first(word), self.second(word)))),
            Op::Mulhsu => Ok(self.set(word, alu::mulhsu(self.first(word), self.second(word)))),
            Op::Mulhu => Ok(self.set(word, alu::mulhu(self.first(word), self.second(word)))),
            Op::Div => Ok(self.set(word, alu::div(self.first(word), self.second(word)))),
            Op::Divu => Ok(self.set(word, alu::divu(self.first(word), self.second(word)))),
            Op::Rem => Ok(self.set(word, alu::rem(self.first(word), self.second(word)))),
            Op::Remu => Ok(self.set(word, alu::remu(self.first(word), self.second(word)))),
            Op::Addiw => Ok(self.set(word, alu::addw(self.first(word), constant(word)))),
            Op::Slliw => Ok(self.set(word, alu::sllw(self.first(word), word_amount(word)))),
            Op::Srliw => Ok(self.set(word, alu::srlw(self.first(word), word_amount(word)))),
            Op::Sraiw => Ok(self.set(word, alu::sraw(self.first(word), word_amount(word)))),
            Op::Addw => Ok(self.set(word, alu::addw(self.first(word), self.second(word)))),
            Op::Subw => Ok(self.set(word, alu::subw(self.first(word), self.second(word)))),
            Op::Sllw => Ok(self.set(word, alu::sllw(self.first(word), self.second(word)))),
            Op::Srlw => Ok(self.set(word, alu::srlw(self.first(word), self.second(word)))),
            Op::Sraw => Ok(self.set(word, alu::sraw(self.first(word), self.second(word)))),
            Op::Mulw => Ok(self.set(word, alu::mulw(self.first(word), self.second(word)))),
            Op::Divw => Ok(self.set(word, alu::divw(self.first(word), self.second(word)))),
            Op::Divuw => Ok(self.set(word, alu::divuw(self.first(word), self.second(word)))),
            Op::Remw => Ok(self.set(word, alu::remw(self.first(word), self.second(word)))),
            Op::Remuw => Ok(self.set(word, alu::remuw(self.first(word), self.second(word)))),
            Op::Fence => Ok(self.advance()),
            Op::Ecall => Ok(StepEnd::Call),
            Op::Ebreak => Ok(killed(5)),
        }
    }

    // A load to the register that a word names.
    #[inline(always)]
    fn load<M: GuestMem>(
        &mut self,
        word: u32,
        width: Width,
        extension: Extension,
        pid: Pid,
        mem: &mut M,
    ) -> Result<StepEnd, Halt>
        requires served { IsTrue (M.serves mem.old pid.0) }
        ensures served { (q : ℕ) → M.serves mem.new q ≡ M.serves mem.old q }
        ensures does { Does (Loaded M.serves M.space M.loads pid.0) (Stored M.serves M.space M.stores pid.0) (cpu_of self.old) (loads (of_word word Lw) (cpu_of self.old) (bytes_in width) (extended extension width)) mem.old result (cpu_of self.new) mem.new }
    {
        match mem.load(pid, self.sum(word, Format::IType), width) {
            Ok(number) => Ok(self.set(word, extension.extend(width, number))),
            Err(stop) => stopped(stop),
        }
    }

    // A store of the second register that a word reads.
    #[inline(always)]
    fn store<M: GuestMem>(
        &mut self,
        word: u32,
        width: Width,
        pid: Pid,
        mem: &mut M,
    ) -> Result<StepEnd, Halt>
        requires served { IsTrue (M.serves mem.old pid.0) }
        ensures served { (q : ℕ) → M.serves mem.new q ≡ M.serves mem.old q }
        ensures does { Does (Loaded M.serves M.space M.loads pid.0) (Stored M.serves M.space M.stores pid.0) (cpu_of self.old) (stores (of_word word Sw) (cpu_of self.old) (bytes_in width)) mem.old result (cpu_of self.new) mem.new }
    {
        match mem.store(pid, self.sum(word, Format::SType), width, self.second(word)) {
            Ok(()) => Ok(self.advance()),
            Err(stop) => stopped(stop),
        }
    }

    // The value of a register.
    #[inline(always)]
    fn read(&self, r: usize) -> u64
        requires { r < 32 }
        ensures { result ≡ reg (cpu_of self.now) r }
    {
        self.x[r]
    }

    // The value of the first register that a word reads.
    #[inline(always)]
    fn first(&self, word: u32) -> u64
        ensures { result ≡ reg (cpu_of self.now) (field 15 5 word) }
    {
        self.read(rs1(word) as usize)
    }

    // The value of the second register that a word reads.
    #[inline(always)]
    fn second(&self, word: u32) -> u64
        ensures { result ≡ reg (cpu_of self.now) (field 20 5 word) }
    {
        self.read(rs2(word) as usize)
    }

    // The first register that a word reads, plus the word's immediate.
    #[inline(always)]
    fn sum(&self, word: u32, format: Format) -> u64
        ensures { result ≡ plus (reg (cpu_of self.now) (field 15 5 word)) (immediate format word) }
    {
        self.first(word)
            .wrapping_add_signed(immediate(word, format))
    }

    // The address of the instruction, plus the word's immediate.
    #[inline(always)]
    fn from_pc(&self, word: u32, format: Format) -> u64
        ensures { result ≡ plus (cpu_of self.now).pc (immediate format word) }
    {
        self.pc.wrapping_add_signed(immediate(word, format))
    }

    // Writes a value to a register. A write to register 0 is undone at once.
    #[inline(always)]
    fn write(&mut self, r: usize, value: u64)
        requires { r < 32 }
        ensures { cpu_of self.new ≡ with_reg (cpu_of self.old) r value (cpu_of self.old).pc }
    {
        self.x[r] = value;
        self.x[0] = 0;
    }

    // Sets the register that a word writes and goes to the next instruction.
    #[inline(always)]
    fn set(&mut self, word: u32, value: u64) -> StepEnd
        ensures { Ends result (cpu_of self.new) ≡ sets (cpu_of self.old) (field 7 5 word) value }
    {
        self.write(rd(word) as usize, value);
        self.advance()
    }

    // Jumps and keeps the return address in the register that a word writes. A target that isn't a multiple of 4 kills
    // by signal 7 before anything is written.
    #[inline(always)]
    fn link(&mut self, word: u32, target: u64) -> StepEnd
        ensures { Ends result (cpu_of self.new) ≡ links (cpu_of self.old) (field 7 5 word) target }
    {
        if target % 4 != 0 {
            return killed(7);
        }
        self.write(rd(word) as usize, self.pc.wrapping_add(4));
        self.pc = target;
        StepEnd::Next
    }

    // Branches where the test held.
    #[inline(always)]
    fn branch(&mut self, taken: bool, word: u32) -> StepEnd
        ensures { Ends result (cpu_of self.new) ≡ branches (cpu_of self.old) (immediate BType word) taken }
    {
        if !taken {
            return self.advance();
        }
        let target = self.from_pc(word, Format::BType);
        if target % 4 != 0 {
            return killed(7);
        }
        self.pc = target;
        StepEnd::Next
    }

    // Goes to the next instruction.
    #[inline(always)]
    fn advance(&mut self) -> StepEnd
        ensures { Ends result (cpu_of self.new) ≡ Ends StepEnd.Next (record (cpu_of self.old) { pc = ((cpu_of self.old).pc + 4) % 2 ^ 64 }) }
    {
        self.pc = self.pc.wrapping_add(4);
        StepEnd::Next
    }
}
