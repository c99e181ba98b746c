// What an instruction reads and writes.

ghost use Rattle.std.specs.Prelude.{◌≡◌};
ghost use Rattle.p9_r3k.specs.Effects.{reads, reads_pair, writes_pair, branches};
ghost use Rattle.p9_r3k.specs.Uses.{written, loads, stores, links, names_place, delays, is_system_call};
ghost use Rattle.p9_r3k.specs.UseLaws.{DoesWhatItMay, RestsOnWhatItReads, AsksByWhatItReads, SameWithText, AsksSameWithText, FilledUsesTheSame};

use crate::inst::Inst;

impl Inst {
    /// Whether it reads a register. A system call reads R1 and R29, whatever it asks.
    #[inline(always)]
    pub fn reads(self, register: u32) -> bool
        ensures { result ≡ reads self register }
    {
        match self {
            Inst::J { .. }
            | Inst::Jal { .. }
            | Inst::Lui { .. }
            | Inst::Break { .. }
            | Inst::Mfhi { .. }
            | Inst::Mflo { .. } => false,
            Inst::Blez { rs, .. }
            | Inst::Bgtz { rs, .. }
            | Inst::Bltz { rs, .. }
            | Inst::Bgez { rs, .. }
            | Inst::Bltzal { rs, .. }
            | Inst::Bgezal { rs, .. }
            | Inst::Addi { rs, .. }
            | Inst::Addiu { rs, .. }
            | Inst::Slti { rs, .. }
            | Inst::Sltiu { rs, .. }
            | Inst::Andi { rs, .. }
            | Inst::Ori { rs, .. }
            | Inst::Xori { rs, .. }
            | Inst::Lb { rs, .. }
            | Inst::Lh { rs, .. }
            | Inst::Lw { rs, .. }
            | Inst::Lbu { rs, .. }
            | Inst::Lhu { rs, .. }
            | Inst::Jr { rs }
            | Inst::Jalr { rs, .. }
            | Inst::Mthi { rs }
            | Inst::Mtlo { rs } => rs == register,
            Inst::Sll { rt, .. } | Inst::Srl { rt, .. } | Inst::Sra { rt, .. } => rt == register,
            Inst::Syscall { .. } => register == 1 || register == 29,
            Inst::Beq { rs, rt, .. }
            | Inst::Bne { rs, rt, .. }
            | Inst::Sb { rs, rt, .. }
            | Inst::Sh { rs, rt, .. }
            | Inst::Sw { rs, rt, .. }
            | Inst::Sllv { rs, rt, .. }
            | Inst::Srlv { rs, rt, .. }
            | Inst::Srav { rs, rt, .. }
            | Inst::Mult { rs, rt }
            | Inst::Multu { rs, rt }
            | Inst::Div { rs, rt }
            | Inst::Divu { rs, rt }
            | Inst::Add { rs, rt, .. }
            | Inst::Addu { rs, rt, .. }
            | Inst::Sub { rs, rt, .. }
            | Inst::Subu { rs, rt, .. }
            | Inst::And { rs, rt, .. }
            | Inst::Or { rs, rt, .. }
            | Inst::Xor { rs, rt, .. }
            | Inst::Nor { rs, rt, .. }
            | Inst::Slt { rs, rt, .. }
            | Inst::Sltu { rs, rt, .. } => rs == register || rt == register,
        }
    }

    /// The register that it writes, or 0 where it writes none. A system call's answer goes to R1.
    pub fn written(self) -> u32
        ensures { result ≡ written self }
    {
        match self {
            Inst::J { .. }
            | Inst::Beq { .. }
            | Inst::Bne { .. }
            | Inst::Blez { .. }
            | Inst::Bgtz { .. }
            | Inst::Bltz { .. }
            | Inst::Bgez { .. }
            | Inst::Jr { .. }
            | Inst::Sb { .. }
            | Inst::Sh { .. }
            | Inst::Sw { .. }
            | Inst::Break { .. }
            | Inst::Mthi { .. }
            | Inst::Mtlo { .. }
            | Inst::Mult { .. }
            | Inst::Multu { .. }
            | Inst::Div { .. }
            | Inst::Divu { .. } => 0,
            Inst::Jal { .. } | Inst::Bltzal { .. } | Inst::Bgezal { .. } => 31,
            Inst::Syscall { .. } => 1,
            Inst::Addi { rt, .. }
            | Inst::Addiu { rt, .. }
            | Inst::Slti { rt, .. }
            | Inst::Sltiu { rt, .. }
            | Inst::Andi { rt, .. }
            | Inst::Ori { rt, .. }
            | Inst::Xori { rt, .. }
            | Inst::Lui { rt, .. }
            | Inst::Lb { rt, .. }
            | Inst::Lh { rt, .. }
            | Inst::Lw { rt, .. }
            | Inst::Lbu { rt, .. }
            | Inst::Lhu { rt, .. } => rt,
            Inst::Sll { rd, .. }
            | Inst::Srl { rd, .. }
            | Inst::Sra { rd, .. }
            | Inst::Sllv { rd, .. }
            | Inst::Srlv { rd, .. }
            | Inst::Srav { rd, .. }
            | Inst::Jalr { rd, .. }
            | Inst::Mfhi { rd }
            | Inst::Mflo { rd }
            | Inst::Add { rd, .. }
            | Inst::Addu { rd, .. }
            | Inst::Sub { rd, .. }
            | Inst::Subu { rd, .. }
            | Inst::And { rd, .. }
            | Inst::Or { rd, .. }
            | Inst::Xor { rd, .. }
            | Inst::Nor { rd, .. }
            | Inst::Slt { rd, .. }
            | Inst::Sltu { rd, .. } => rd,
        }
    }

    /// Whether it reads HI or LO.
    pub fn reads_pair(self) -> bool
        ensures { result ≡ reads_pair self }
    {
        matches!(self, Inst::Mfhi { .. } | Inst::Mflo { .. })
    }

    /// Whether it writes HI or LO.
    pub fn writes_pair(self) -> bool
        ensures { result ≡ writes_pair self }
    {
        matches!(
            self,
            Inst::Mthi { .. }
                | Inst::Mtlo { .. }
                | Inst::Mult { .. }
                | Inst::Multu { .. }
                | Inst::Div { .. }
                | Inst::Divu { .. }
        )
    }

    /// Whether it is a branch or jump.
    pub fn branches(self) -> bool
        ensures { result ≡ branches self }
    {
        matches!(
            self,
            Inst::J { .. }
                | Inst::Jal { .. }
                | Inst::Beq { .. }
                | Inst::Bne { .. }
                | Inst::Blez { .. }
                | Inst::Bgtz { .. }
                | Inst::Bltz { .. }
                | Inst::Bgez { .. }
                | Inst::Bltzal { .. }
                | Inst::Bgezal { .. }
                | Inst::Jr { .. }
                | Inst::Jalr { .. }
        )
    }

    /// Whether it is a branch or jump that is a call: JAL, JALR, BLTZAL or BGEZAL.
    pub fn links(self) -> bool
        ensures { result ≡ links self }
    {
        matches!(
            self,
            Inst::Jal { .. } | Inst::Bltzal { .. } | Inst::Bgezal { .. } | Inst::Jalr { .. }
        )
    }

    /// Whether it is a branch or jump whose word names the place that it goes to: each but JR and JALR.
    pub fn names_place(self) -> bool
        ensures { result ≡ names_place self }
    {
        matches!(
            self,
            Inst::J { .. }
                | Inst::Jal { .. }
                | Inst::Beq { .. }
                | Inst::Bne { .. }
                | Inst::Blez { .. }
                | Inst::Bgtz { .. }
                | Inst::Bltz { .. }
                | Inst::Bgez { .. }
                | Inst::Bltzal { .. }
                | Inst::Bgezal { .. }
        )
    }

    /// Whether it is a load.
    pub fn loads(self) -> bool
        ensures { result ≡ loads self }
    {
        matches!(
            self,
            Inst::Lb { .. }
                | Inst::Lh { .. }
                | Inst::Lw { .. }
                | Inst::Lbu { .. }
                | Inst::Lhu { .. }
        )
    }

    /// Whether it is a store.
    pub fn stores(self) -> bool
        ensures { result ≡ stores self }
    {
        matches!(self, Inst::Sb { .. } | Inst::Sh { .. } | Inst::Sw { .. })
    }

    /// Whether it is a system call.
    pub fn is_system_call(self) -> bool
        ensures { result ≡ is_system_call self }
    {
        matches!(self, Inst::Syscall { .. })
    }

    /// Whether the next instruction comes in its delay: it is a branch, jump or load.
    pub fn delays(self) -> bool
        ensures { result ≡ delays self }
    {
        self.branches() || self.loads()
    }
}

/// What an instruction does rests on what it reads, and what is filled into a line changes no use.
pub fn use_laws()
    ensures effects { DoesWhatItMay }
    ensures reads { RestsOnWhatItReads }
    ensures asks { AsksByWhatItReads }
    ensures text { SameWithText }
    ensures asks_text { AsksSameWithText }
    ensures filled { FilledUsesTheSame }
{}
