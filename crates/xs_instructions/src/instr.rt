//! The instructions, a variant for each row of the instruction table (docs/INSTRUCTIONS.md). The fields are the row's
//! operands, in the order in which they are written: `d`, `e`, `x`, `y`, `v`, `w` and `s` are 0 to 11 for r0 to r11; `g` is
//! also 12 for cp, 13 for dp, 14 for sp or 15 for lr; `i` is 0 to 11; `b` is 1 to 8, 16, 24 or 32; `u` is 0 to 65,535; `L` is
//! the place of an instruction, counted from 0. A register or a number that the row itself names is no field.

/// The rows on words.
#[derive(Clone, Copy)]
pub enum WordIns {
    /// `add d, x, y`
    Add(u8, u8, u8),
    /// `add d, x, i`
    AddImm(u8, u8, u8),
    /// `sub d, x, y`
    Sub(u8, u8, u8),
    /// `sub d, x, i`
    SubImm(u8, u8, u8),
    /// `neg d, x`
    Neg(u8, u8),
    /// `not d, x`
    Not(u8, u8),
    /// `and d, x, y`
    And(u8, u8, u8),
    /// `or d, x, y`
    Or(u8, u8, u8),
    /// `xor d, x, y`
    Xor(u8, u8, u8),
    /// `andnot d, x`
    AndNot(u8, u8),
    /// `eq d, x, y`
    Eq(u8, u8, u8),
    /// `eq d, x, i`
    EqImm(u8, u8, u8),
    /// `lss d, x, y`
    Lss(u8, u8, u8),
    /// `lsu d, x, y`
    Lsu(u8, u8, u8),
    /// `shl d, x, y`
    Shl(u8, u8, u8),
    /// `shl d, x, b`
    ShlImm(u8, u8, u8),
    /// `shr d, x, y`
    Shr(u8, u8, u8),
    /// `shr d, x, b`
    ShrImm(u8, u8, u8),
    /// `ashr d, x, y`
    Ashr(u8, u8, u8),
    /// `ashr d, x, b`
    AshrImm(u8, u8, u8),
    /// `mul d, x, y`
    Mul(u8, u8, u8),
    /// `divu d, x, y`
    Divu(u8, u8, u8),
    /// `remu d, x, y`
    Remu(u8, u8, u8),
    /// `divs d, x, y`
    Divs(u8, u8, u8),
    /// `rems d, x, y`
    Rems(u8, u8, u8),
    /// `mkmsk d, x`
    Mkmsk(u8, u8),
    /// `mkmsk d, b`
    MkmskImm(u8, u8),
    /// `sext d, x`
    Sext(u8, u8),
    /// `sext d, b`
    SextImm(u8, u8),
    /// `zext d, x`
    Zext(u8, u8),
    /// `zext d, b`
    ZextImm(u8, u8),
    /// `bitrev d, x`
    Bitrev(u8, u8),
    /// `byterev d, x`
    Byterev(u8, u8),
    /// `clz d, x`
    Clz(u8, u8),
    /// `ladd d, e, x, y, v`
    Ladd(u8, u8, u8, u8, u8),
    /// `lsub d, e, x, y, v`
    Lsub(u8, u8, u8, u8, u8),
    /// `lmul d, e, x, y, v, w`
    Lmul(u8, u8, u8, u8, u8, u8),
    /// `ldivu d, e, x, y, v`
    Ldivu(u8, u8, u8, u8, u8),
    /// `maccu d, e, x, y`
    Maccu(u8, u8, u8, u8),
    /// `maccs d, e, x, y`
    Maccs(u8, u8, u8, u8),
    /// `ldc d, u`
    Ldc(u8, u16),
    /// `nop`
    Nop,
}

/// The rows on memory.
#[derive(Clone, Copy)]
pub enum MemIns {
    /// `ldw d, x[i]`
    LdwImm(u8, u8, u8),
    /// `ldw d, x[y]`
    Ldw(u8, u8, u8),
    /// `ldw g, dp[u]`
    LdwDp(u8, u16),
    /// `ldw g, sp[u]`
    LdwSp(u8, u16),
    /// `ldw d, cp[u]`
    LdwCp(u8, u16),
    /// `stw d, x[i]`
    StwImm(u8, u8, u8),
    /// `stw d, x[y]`
    Stw(u8, u8, u8),
    /// `stw g, dp[u]`
    StwDp(u8, u16),
    /// `stw g, sp[u]`
    StwSp(u8, u16),
    /// `ld16s d, x[y]`
    Ld16s(u8, u8, u8),
    /// `ld8u d, x[y]`
    Ld8u(u8, u8, u8),
    /// `st16 d, x[y]`
    St16(u8, u8, u8),
    /// `st8 d, x[y]`
    St8(u8, u8, u8),
    /// `ldaw d, x[y]`
    Ldaw(u8, u8, u8),
    /// `ldaw d, x[-y]`
    LdawBack(u8, u8, u8),
    /// `ldaw d, x[i]`
    LdawImm(u8, u8, u8),
    /// `ldaw d, x[-i]`
    LdawBackImm(u8, u8, u8),
    /// `ldaw d, dp[u]`
    LdawDp(u8, u16),
    /// `ldaw d, sp[u]`
    LdawSp(u8, u16),
    /// `ldaw r11, cp[u]`
    LdawCp(u16),
    /// `lda16 d, x[y]`
    Lda16(u8, u8, u8),
    /// `lda16 d, x[-y]`
    Lda16Back(u8, u8, u8),
    /// `ldap r11, L`
    Ldap(u16),
}

/// The rows on the flow of control.
#[derive(Clone, Copy)]
pub enum FlowIns {
    /// `bt s, L`
    Bt(u8, u16),
    /// `bf s, L`
    Bf(u8, u16),
    /// `bu L`
    Bu(u16),
    /// `bru s`
    Bru(u8),
    /// `bau s`
    Bau(u8),
    /// `bl L`
    Bl(u16),
    /// `bla s`
    Bla(u8),
    /// `bla cp[u]`
    BlaCp(u16),
    /// `entsp u`
    Entsp(u16),
    /// `retsp u`
    Retsp(u16),
    /// `extsp u`
    Extsp(u16),
    /// `extdp u`
    Extdp(u16),
    /// `set sp, s`
    SetSp(u8),
    /// `set dp, s`
    SetDp(u8),
    /// `set cp, s`
    SetCp(u8),
}

/// The rows on the kernel.
#[derive(Clone, Copy)]
pub enum KernelIns {
    /// `kcall u`
    KcallImm(u16),
    /// `kcall s`
    Kcall(u8),
    /// `kret`
    Kret,
    /// `kentsp u`
    Kentsp(u16),
    /// `krestsp u`
    Krestsp(u16),
    /// `ecallt s`
    Ecallt(u8),
    /// `ecallf s`
    Ecallf(u8),
    /// `set kep, r11`
    SetKep,
    /// `get r11, kep`
    GetKep,
    /// `get r11, ksp`
    GetKsp,
    /// `get r11, ed`
    GetEd,
    /// `get r11, et`
    GetEt,
    /// `get r11, id`
    GetId,
    /// `setsr u`
    Setsr(u16),
    /// `clrsr u`
    Clrsr(u16),
    /// `getsr r11, u`
    Getsr(u16),
    /// `ldw spc, sp[1]`
    LdwSpc,
    /// `ldw ssr, sp[2]`
    LdwSsr,
    /// `ldw sed, sp[3]`
    LdwSed,
    /// `ldw et, sp[4]`
    LdwEt,
    /// `stw spc, sp[1]`
    StwSpc,
    /// `stw ssr, sp[2]`
    StwSsr,
    /// `stw sed, sp[3]`
    StwSed,
    /// `stw et, sp[4]`
    StwEt,
}

/// The rows on threads.
#[derive(Clone, Copy)]
pub enum ThreadIns {
    /// `getst d, res[s]`
    Getst(u8, u8),
    /// `init t[s]:pc, x`
    InitPc(u8, u8),
    /// `init t[s]:sp, x`
    InitSp(u8, u8),
    /// `init t[s]:dp, x`
    InitDp(u8, u8),
    /// `init t[s]:cp, x`
    InitCp(u8, u8),
    /// `init t[s]:lr, x`
    InitLr(u8, u8),
    /// `set t[s]:d, x`
    SetOther(u8, u8, u8),
    /// `start t[s]`
    Start(u8),
    /// `msync res[s]`
    Msync(u8),
    /// `mjoin res[s]`
    Mjoin(u8),
    /// `ssync`
    Ssync,
    /// `freet`
    Freet,
}

/// The rows on resources.
#[derive(Clone, Copy)]
pub enum ResIns {
    /// `getr d, i`
    Getr(u8, u8),
    /// `freer res[s]`
    Freer(u8),
    /// `out res[s], x`
    Out(u8, u8),
    /// `outt res[s], x`
    Outt(u8, u8),
    /// `outct res[s], x`
    Outct(u8, u8),
    /// `outct res[s], i`
    OutctImm(u8, u8),
    /// `in d, res[s]`
    In(u8, u8),
    /// `int d, res[s]`
    Int(u8, u8),
    /// `inct d, res[s]`
    Inct(u8, u8),
    /// `chkct res[s], x`
    Chkct(u8, u8),
    /// `chkct res[s], i`
    ChkctImm(u8, u8),
    /// `testct d, res[s]`
    Testct(u8, u8),
    /// `testwct d, res[s]`
    Testwct(u8, u8),
    /// `setd res[s], x`
    Setd(u8, u8),
    /// `getd d, res[s]`
    Getd(u8, u8),
    /// `setn res[s], x`
    Setn(u8, u8),
    /// `getn d, res[s]`
    Getn(u8, u8),
    /// `setc res[s], u`
    SetcImm(u8, u16),
    /// `setc res[s], x`
    Setc(u8, u8),
    /// `setv res[s], r11`
    Setv(u8),
    /// `setev res[s], r11`
    Setev(u8),
    /// `eeu res[s]`
    Eeu(u8),
    /// `edu res[s]`
    Edu(u8),
    /// `eet x, res[s]`
    Eet(u8, u8),
    /// `eef x, res[s]`
    Eef(u8, u8),
    /// `clre`
    Clre,
    /// `waiteu`
    Waiteu,
    /// `waitet x`
    Waitet(u8),
    /// `waitef x`
    Waitef(u8),
    /// `inpw d, res[s], b`
    Inpw(u8, u8, u8),
    /// `outpw res[s], x, b`
    Outpw(u8, u8, u8),
    /// `inshr d, res[s]`
    Inshr(u8, u8),
    /// `outshr res[s], d`
    Outshr(u8, u8),
    /// `peek d, res[s]`
    Peek(u8, u8),
    /// `endin d, res[s]`
    Endin(u8, u8),
    /// `syncr res[s]`
    Syncr(u8),
    /// `getts d, res[s]`
    Getts(u8, u8),
    /// `setpt res[s], x`
    Setpt(u8, u8),
    /// `clrpt res[s]`
    Clrpt(u8),
    /// `setclk res[s], x`
    Setclk(u8, u8),
    /// `setrdy res[s], x`
    Setrdy(u8, u8),
    /// `settw res[s], x`
    Settw(u8, u8),
}

/// An instruction: a row of the instruction table with its operands, in the order in which they are written.
#[derive(Clone, Copy)]
pub enum Instr {
    Words(WordIns),
    Memory(MemIns),
    Flow(FlowIns),
    Kernel(KernelIns),
    Threads(ThreadIns),
    Resources(ResIns),
}
