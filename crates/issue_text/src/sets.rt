//! Which registers instructions set.
ghost use Rattle.std.specs.Prelude.{◌≡◌};
ghost use Rattle.issue_model.specs.Sets.{words_set, memory_sets, flow_sets, kernel_sets, threads_set, resources_set, sets};

use xs_instructions::{FlowIns, Instr, KernelIns, MemIns, ResIns, ThreadIns, WordIns};

/// Whether an instruction sets a register of its thread where it is done, by the register's number.
pub(crate) fn sets(ins: Instr, g: u8) -> bool
    ensures { result ≡ sets ins g }
{
    match ins {
        Instr::Words(ins) => words_set(ins, g),
        Instr::Memory(ins) => memory_sets(ins, g),
        Instr::Flow(ins) => flow_sets(ins, g),
        Instr::Kernel(ins) => kernel_sets(ins, g),
        Instr::Threads(ins) => threads_set(ins, g),
        Instr::Resources(ins) => resources_set(ins, g),
    }
}

fn words_set(ins: WordIns, g: u8) -> bool
    ensures { result ≡ words_set ins g }
{
    match ins {
        WordIns::Add(d, _, _)
        | WordIns::AddImm(d, _, _)
        | WordIns::Sub(d, _, _)
        | WordIns::SubImm(d, _, _)
        | WordIns::Neg(d, _)
        | WordIns::Not(d, _)
        | WordIns::And(d, _, _)
        | WordIns::Or(d, _, _)
        | WordIns::Xor(d, _, _)
        | WordIns::AndNot(d, _)
        | WordIns::Eq(d, _, _)
        | WordIns::EqImm(d, _, _)
        | WordIns::Lss(d, _, _)
        | WordIns::Lsu(d, _, _)
        | WordIns::Shl(d, _, _)
        | WordIns::ShlImm(d, _, _)
        | WordIns::Shr(d, _, _)
        | WordIns::ShrImm(d, _, _)
        | WordIns::Ashr(d, _, _)
        | WordIns::AshrImm(d, _, _)
        | WordIns::Mul(d, _, _)
        | WordIns::Divu(d, _, _)
        | WordIns::Remu(d, _, _)
        | WordIns::Divs(d, _, _)
        | WordIns::Rems(d, _, _)
        | WordIns::Mkmsk(d, _)
        | WordIns::MkmskImm(d, _)
        | WordIns::Sext(d, _)
        | WordIns::SextImm(d, _)
        | WordIns::Zext(d, _)
        | WordIns::ZextImm(d, _)
        | WordIns::Bitrev(d, _)
        | WordIns::Byterev(d, _)
        | WordIns::Clz(d, _)
        | WordIns::Ldc(d, _) => g == d,
        WordIns::Ladd(d, e, _, _, _)
        | WordIns::Lsub(d, e, _, _, _)
        | WordIns::Lmul(d, e, _, _, _, _)
        | WordIns::Ldivu(d, e, _, _, _)
        | WordIns::Maccu(d, e, _, _)
        | WordIns::Maccs(d, e, _, _) => g == d || g == e,
        WordIns::Nop => false,
    }
}

fn memory_sets(ins: MemIns, g: u8) -> bool
    ensures { result ≡ memory_sets ins g }
{
    match ins {
        MemIns::LdwImm(d, _, _)
        | MemIns::Ldw(d, _, _)
        | MemIns::LdwDp(d, _)
        | MemIns::LdwSp(d, _)
        | MemIns::LdwCp(d, _)
        | MemIns::Ld16s(d, _, _)
        | MemIns::Ld8u(d, _, _)
        | MemIns::Ldaw(d, _, _)
        | MemIns::LdawBack(d, _, _)
        | MemIns::LdawImm(d, _, _)
        | MemIns::LdawBackImm(d, _, _)
        | MemIns::LdawDp(d, _)
        | MemIns::LdawSp(d, _)
        | MemIns::Lda16(d, _, _)
        | MemIns::Lda16Back(d, _, _) => g == d,
        MemIns::LdawCp(_) | MemIns::Ldap(_) => g == 11,
        MemIns::StwImm(_, _, _)
        | MemIns::Stw(_, _, _)
        | MemIns::StwDp(_, _)
        | MemIns::StwSp(_, _)
        | MemIns::St16(_, _, _)
        | MemIns::St8(_, _, _) => false,
    }
}

fn flow_sets(ins: FlowIns, g: u8) -> bool
    ensures { result ≡ flow_sets ins g }
{
    match ins {
        FlowIns::Bl(_) | FlowIns::Bla(_) | FlowIns::BlaCp(_) => g == 15,
        FlowIns::Entsp(u) => u != 0 && g == 14,
        FlowIns::Retsp(u) => u != 0 && (g == 14 || g == 15),
        FlowIns::Extsp(_) | FlowIns::SetSp(_) => g == 14,
        FlowIns::Extdp(_) | FlowIns::SetDp(_) => g == 13,
        FlowIns::SetCp(_) => g == 12,
        _ => false,
    }
}

fn kernel_sets(ins: KernelIns, g: u8) -> bool
    ensures { result ≡ kernel_sets ins g }
{
    match ins {
        KernelIns::Kret => g == 20 || g == 23,
        KernelIns::Kentsp(_) => g == 14,
        KernelIns::Krestsp(_) => g == 14 || g == 22,
        KernelIns::SetKep => g == 21,
        KernelIns::GetKep
        | KernelIns::GetKsp
        | KernelIns::GetEd
        | KernelIns::GetEt
        | KernelIns::GetId
        | KernelIns::Getsr(_) => g == 11,
        KernelIns::Setsr(_) | KernelIns::Clrsr(_) => g == 23,
        KernelIns::LdwSpc => g == 16,
        KernelIns::LdwSsr => g == 17,
        KernelIns::LdwSed => g == 18,
        KernelIns::LdwEt => g == 19,
        _ => false,
    }
}

fn threads_set(ins: ThreadIns, g: u8) -> bool
    ensures { result ≡ threads_set ins g }
{
    match ins {
        ThreadIns::Getst(d, _) => g == d,
        _ => false,
    }
}

fn resources_set(ins: ResIns, g: u8) -> bool
    ensures { result ≡ resources_set ins g }
{
    match ins {
        ResIns::Getr(d, _)
        | ResIns::In(d, _)
        | ResIns::Int(d, _)
        | ResIns::Inct(d, _)
        | ResIns::Testct(d, _)
        | ResIns::Testwct(d, _)
        | ResIns::Getd(d, _)
        | ResIns::Getn(d, _)
        | ResIns::Inpw(d, _, _)
        | ResIns::Inshr(d, _)
        | ResIns::Outshr(_, d)
        | ResIns::Peek(d, _)
        | ResIns::Endin(d, _)
        | ResIns::Getts(d, _) => g == d,
        ResIns::Clre => g == 23,
        _ => false,
    }
}
