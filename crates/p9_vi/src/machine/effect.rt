// What an instruction does.
ghost use Rattle.std.specs.Prelude.{◌≡◌};
ghost use Rattle.p9_r3k.specs.Table.{Fits};
ghost use Rattle.p9_r3k.specs.Effects.{effect_of};
ghost use Rattle.p9_vi.specs.Kept.{CanApply};

use crate::machine::Machine;
use crate::operations::{
    checked_difference, checked_sum, is_at_most_zero, low5, pair, signed_division, truth,
    unsigned_division, wide_pair, write,
};
use p9_base::{
    is_negative, is_signed_less, sext16, shift_left, shift_right, shift_right_signed,
    signed_product, unsigned_product, word_and, word_difference, word_nor, word_or, word_sum,
    word_xor,
};
use p9_r3k::{Effect, HaltCause, Inst};

impl Machine {
    // What an instruction does to this machine.
    #[inline(always)]
    pub(super) fn effect(&self, i: Inst) -> Effect
        requires { Fits i }
        ensures exact { result ≡ effect_of i self.now }
        ensures safe { CanApply result self.now }
    {
        match i {
            Inst::J { index } => self.jump(0, index),
            Inst::Jal { index } => self.jump(31, index),
            Inst::Beq { rs, rt, imm } => self.branch(0, self.reg(rs) == self.reg(rt), imm),
            Inst::Bne { rs, rt, imm } => self.branch(0, self.reg(rs) != self.reg(rt), imm),
            Inst::Blez { rs, imm } => self.branch(0, is_at_most_zero(self.reg(rs)), imm),
            Inst::Bgtz { rs, imm } => self.branch(0, !is_at_most_zero(self.reg(rs)), imm),
            Inst::Bltz { rs, imm } => self.branch(0, is_negative(self.reg(rs)), imm),
            Inst::Bgez { rs, imm } => self.branch(0, !is_negative(self.reg(rs)), imm),
            Inst::Bltzal { rs, imm } => self.branch(31, is_negative(self.reg(rs)), imm),
            Inst::Bgezal { rs, imm } => self.branch(31, !is_negative(self.reg(rs)), imm),
            Inst::Addi { rs, rt, imm } => checked_sum(rt, self.reg(rs), sext16(imm)),
            Inst::Addiu { rs, rt, imm } => write(rt, word_sum(self.reg(rs), sext16(imm))),
            Inst::Slti { rs, rt, imm } => {
                write(rt, truth(is_signed_less(self.reg(rs), sext16(imm))))
            }
            Inst::Sltiu { rs, rt, imm } => write(rt, truth(self.reg(rs) < sext16(imm))),
            Inst::Andi { rs, rt, imm } => write(rt, word_and(self.reg(rs), imm)),
            Inst::Ori { rs, rt, imm } => write(rt, word_or(self.reg(rs), imm)),
            Inst::Xori { rs, rt, imm } => write(rt, word_xor(self.reg(rs), imm)),
            Inst::Lui { rt, imm } => write(rt, imm * 0x1_0000),
            Inst::Lb { rs, rt, imm } => self.load_signed_byte(rt, self.address(rs, imm)),
            Inst::Lh { rs, rt, imm } => self.load_signed_half(rt, self.address(rs, imm)),
            Inst::Lw { rs, rt, imm } => self.load_word(rt, self.address(rs, imm)),
            Inst::Lbu { rs, rt, imm } => self.load_byte(rt, self.address(rs, imm)),
            Inst::Lhu { rs, rt, imm } => self.load_half(rt, self.address(rs, imm)),
            Inst::Sb { rs, rt, imm } => self.store_byte(self.address(rs, imm), self.reg(rt)),
            Inst::Sh { rs, rt, imm } => self.store_half(self.address(rs, imm), self.reg(rt)),
            Inst::Sw { rs, rt, imm } => self.store_word(self.address(rs, imm), self.reg(rt)),
            Inst::Sll { rt, rd, sh } => write(rd, shift_left(self.reg(rt), sh)),
            Inst::Srl { rt, rd, sh } => write(rd, shift_right(self.reg(rt), sh)),
            Inst::Sra { rt, rd, sh } => write(rd, shift_right_signed(self.reg(rt), sh)),
            Inst::Sllv { rs, rt, rd } => write(rd, shift_left(self.reg(rt), low5(self.reg(rs)))),
            Inst::Srlv { rs, rt, rd } => write(rd, shift_right(self.reg(rt), low5(self.reg(rs)))),
            Inst::Srav { rs, rt, rd } => {
                write(rd, shift_right_signed(self.reg(rt), low5(self.reg(rs))))
            }
            Inst::Jr { rs } => Effect::JumpTo {
                link: 0,
                to: self.reg(rs),
            },
            Inst::Jalr { rs, rd } => Effect::JumpTo {
                link: rd,
                to: self.reg(rs),
            },
            Inst::Syscall { code: _ } => Effect::Call,
            Inst::Break { code: _ } => Effect::Stop(HaltCause::Break),
            Inst::Mfhi { rd } => write(rd, self.hi),
            Inst::Mthi { rs } => pair(self.reg(rs), self.lo),
            Inst::Mflo { rd } => write(rd, self.lo),
            Inst::Mtlo { rs } => pair(self.hi, self.reg(rs)),
            Inst::Mult { rs, rt } => wide_pair(signed_product(self.reg(rs), self.reg(rt))),
            Inst::Multu { rs, rt } => wide_pair(unsigned_product(self.reg(rs), self.reg(rt))),
            Inst::Div { rs, rt } => signed_division(self.reg(rs), self.reg(rt)),
            Inst::Divu { rs, rt } => unsigned_division(self.reg(rs), self.reg(rt)),
            Inst::Add { rs, rt, rd } => checked_sum(rd, self.reg(rs), self.reg(rt)),
            Inst::Addu { rs, rt, rd } => write(rd, word_sum(self.reg(rs), self.reg(rt))),
            Inst::Sub { rs, rt, rd } => checked_difference(rd, self.reg(rs), self.reg(rt)),
            Inst::Subu { rs, rt, rd } => write(rd, word_difference(self.reg(rs), self.reg(rt))),
            Inst::And { rs, rt, rd } => write(rd, word_and(self.reg(rs), self.reg(rt))),
            Inst::Or { rs, rt, rd } => write(rd, word_or(self.reg(rs), self.reg(rt))),
            Inst::Xor { rs, rt, rd } => write(rd, word_xor(self.reg(rs), self.reg(rt))),
            Inst::Nor { rs, rt, rd } => write(rd, word_nor(self.reg(rs), self.reg(rt))),
            Inst::Slt { rs, rt, rd } => {
                write(rd, truth(is_signed_less(self.reg(rs), self.reg(rt))))
            }
            Inst::Sltu { rs, rt, rd } => write(rd, truth(self.reg(rs) < self.reg(rt))),
        }
    }
}
