//! Words that LLVM's assembler made of each instruction, and for each a neighbour that misses its row by one
//! bit and that LLVM's disassembler refuses too.

use rv64_decode::{Instr, decode};
use std::alloc::Global;
use std::test::Fail;

// The cases, a line each: a word in hexadecimal, the operation, the three registers and the immediate that it stands
// for, and its text.
const WORKED: &str = r#"12345537 Lui 10 8 3 305418240 lui a0, 74565
fffff297 Auipc 5 31 31 -4096 auipc t0, 1048575
ffdff0ef Jal 1 31 29 -4 jal ra, -4
ff8300e7 Jalr 1 6 24 -8 jalr ra, -8(t1)
00b50863 Beq 16 10 11 16 beq a0, a1, 16
fe079ee3 Bne 29 15 0 -4 bne a5, zero, -4
7e944fe3 Blt 31 8 9 4094 blt s0, s1, 4094
81395063 Bge 0 18 19 -4096 bge s2, s3, -4096
01de60e3 Bltu 1 28 29 2048 bltu t3, t4, 2048
ffff7fe3 Bgeu 31 30 31 -2 bgeu t5, t6, -2
fff10503 Lb 10 2 31 -1 lb a0, -1(sp)
00219583 Lh 11 3 2 2 lh a1, 2(gp)
00422603 Lw 12 4 4 4 lw a2, 4(tp)
fc013503 Ld 10 2 0 -64 ld a0, -64(sp)
7ff2c703 Lbu 14 5 31 2047 lbu a4, 2047(t0)
80035783 Lhu 15 6 0 -2048 lhu a5, -2048(t1)
0083e803 Lwu 16 7 8 8 lwu a6, 8(t2)
fea10fa3 Sb 31 2 10 -1 sb a0, -1(sp)
00b19fa3 Sh 31 3 11 31 sh a1, 31(gp)
02c22023 Sw 0 4 12 32 sw a2, 32(tp)
80113023 Sd 0 2 1 -2048 sd ra, -2048(sp)
00100513 Addi 10 0 1 1 addi a0, zero, 1
80032293 Slti 5 6 0 -2048 slti t0, t1, -2048
7ff43393 Sltiu 7 8 31 2047 sltiu t2, s0, 2047
fff5c493 Xori 9 11 31 -1 xori s1, a1, -1
4006e613 Ori 12 13 0 1024 ori a2, a3, 1024
00f7f713 Andi 14 15 15 15 andi a4, a5, 15
03f51513 Slli 10 10 31 63 slli a0, a0, 63
02065593 Srli 11 12 0 32 srli a1, a2, 32
43f75693 Srai 13 14 31 63 srai a3, a4, 63
00c58533 Add 10 11 12 0 add a0, a1, a2
41248433 Sub 8 9 18 0 sub s0, s1, s2
007312b3 Sll 5 6 7 0 sll t0, t1, t2
00f726b3 Slt 13 14 15 0 slt a3, a4, a5
0138b833 Sltu 16 17 19 0 sltu a6, a7, s3
016aca33 Xor 20 21 22 0 xor s4, s5, s6
019c5bb3 Srl 23 24 25 0 srl s7, s8, s9
41cddd33 Sra 26 27 28 0 sra s10, s11, t3
01ff6eb3 Or 29 30 31 0 or t4, t5, t6
003170b3 And 1 2 3 0 and ra, sp, gp
02b50533 Mul 10 10 11 0 mul a0, a0, a1
02d615b3 Mulh 11 12 13 0 mulh a1, a2, a3
02e6a633 Mulhsu 12 13 14 0 mulhsu a2, a3, a4
02f736b3 Mulhu 13 14 15 0 mulhu a3, a4, a5
0307c733 Div 14 15 16 0 div a4, a5, a6
031857b3 Divu 15 16 17 0 divu a5, a6, a7
027362b3 Rem 5 6 7 0 rem t0, t1, t2
03df7fb3 Remu 31 30 29 0 remu t6, t5, t4
fff5851b Addiw 10 11 31 -1 addiw a0, a1, -1
01f6159b Slliw 11 12 31 31 slliw a1, a2, 31
0016d61b Srliw 12 13 1 1 srliw a2, a3, 1
4107569b Sraiw 13 14 16 16 sraiw a3, a4, 16
00c5853b Addw 10 11 12 0 addw a0, a1, a2
4124843b Subw 8 9 18 0 subw s0, s1, s2
007312bb Sllw 5 6 7 0 sllw t0, t1, t2
00f756bb Srlw 13 14 15 0 srlw a3, a4, a5
4138d83b Sraw 16 17 19 0 sraw a6, a7, s3
036a8a3b Mulw 20 21 22 0 mulw s4, s5, s6
039c4bbb Divw 23 24 25 0 divw s7, s8, s9
03cddd3b Divuw 26 27 28 0 divuw s10, s11, t3
03ff6ebb Remw 29 30 31 0 remw t4, t5, t6
023170bb Remuw 1 2 3 0 remuw ra, sp, gp
0310000f Fence 0 0 17 0 fence
00000073 Ecall 0 0 0 0 ecall
00100073 Ebreak 0 0 1 0 ebreak
"#;

// Words in hexadecimal that are no instructions: 0, all ones, and the neighbours of the words above, in their order.
const MISSED: &str = r#"
00000000 ffffffff 12345577 fffff2d7 ffdff0af ff8340e7 00b52863 fe07bee3 7e944fa3 81395023
01de20e3 ffff3fe3 fff10543 002195c3 00422643 fc017503 7ff2c743 80037783 0083f803 fea14fa3
00b1dfa3 02c26023 80117023 00100553 800322d3 7ff41393 fff5d493 4006e653 00f7f753 83f51513
82065593 c3f75693 80c58533 c1248433 807312b3 80f726b3 8138b833 816aca33 819c5bb3 c1cddd33
81ff6eb3 803170b3 82b50533 82d615b3 82e6a633 82f736b3 8307c733 831857b3 827362b3 83df7fb3
fff5c51b 81f6159b 8016d61b c107569b 80c5853b c124843b 807312bb 80f756bb c138d83b 836a8a3b
839c4bbb 83cddd3b 83ff6ebb 823170bb 0310400f 80000073 80100073
"#;

// A word and what it stands for, as a case writes it.
fn written(alloc: Global, word: u32, instr: &Instr) -> Result<String, Fail> {
    let Instr {
        op,
        rd,
        rs1,
        rs2,
        imm,
    } = *instr;
    Ok(format!(in alloc; "{word:08x} {op:?} {rd} {rs1} {rs2} {imm} {instr}")?)
}

// Whether the word of a case stands for what the case says.
fn holds(alloc: Global, case: &str) -> Result<bool, Fail> {
    let first = case.split_whitespace().next().unwrap_or("");
    let word = u32::from_str_radix(first, 16)?;
    match decode(word) {
        Some(instr) => Ok(written(alloc, word, &instr)?.as_str() == case),
        None => Ok(false),
    }
}

#[test]
fn each_instruction_is_decoded_and_written(rt: HostRuntime) -> Result<(), Fail> {
    for case in WORKED.lines() {
        assert!(rt; holds(rt.alloc(), case)?, "{case}");
    }
    Ok(())
}

#[test]
fn their_neighbours_are_no_instructions(rt: HostRuntime) -> Result<(), Fail> {
    for word in MISSED.split_whitespace() {
        assert_eq!(rt; decode(u32::from_str_radix(word, 16)?), None);
    }
    Ok(())
}
