use crate::table::table;

/// What stands at one place of a row's form (docs/INSTRUCTIONS.md): the class of an operand, or what the row itself names.
#[derive(Clone, Copy)]
pub enum Part {
    /// A register, r0 to r11.
    Common,
    /// A register, r0 to r11, cp, dp, sp or lr.
    AnyRegister,
    /// The register with this number.
    Register(u8),
    /// A number, 0 to 11.
    Small,
    /// A number of bits, 1 to 8, 16, 24 or 32.
    Width,
    /// A number, 0 to 65,535.
    Short,
    /// This number alone.
    Exactly(u32),
    /// A code label.
    Label,
    /// The fixed word or mark with this number.
    Word(u8),
}

/// A row of the instruction table: one form of an instruction. See docs/INSTRUCTIONS.md.
#[derive(Clone, Copy)]
pub enum Row {
    /// `add d, x, y`
    Add,
    /// `add d, x, i`
    AddImm,
    /// `sub d, x, y`
    Sub,
    /// `sub d, x, i`
    SubImm,
    /// `neg d, x`
    Neg,
    /// `not d, x`
    Not,
    /// `and d, x, y`
    And,
    /// `or d, x, y`
    Or,
    /// `xor d, x, y`
    Xor,
    /// `andnot d, x`
    AndNot,
    /// `eq d, x, y`
    Eq,
    /// `eq d, x, i`
    EqImm,
    /// `lss d, x, y`
    Lss,
    /// `lsu d, x, y`
    Lsu,
    /// `shl d, x, y`
    Shl,
    /// `shl d, x, b`
    ShlImm,
    /// `shr d, x, y`
    Shr,
    /// `shr d, x, b`
    ShrImm,
    /// `ashr d, x, y`
    Ashr,
    /// `ashr d, x, b`
    AshrImm,
    /// `mul d, x, y`
    Mul,
    /// `divu d, x, y`
    Divu,
    /// `remu d, x, y`
    Remu,
    /// `divs d, x, y`
    Divs,
    /// `rems d, x, y`
    Rems,
    /// `mkmsk d, x`
    Mkmsk,
    /// `mkmsk d, b`
    MkmskImm,
    /// `sext d, x`
    Sext,
    /// `sext d, b`
    SextImm,
    /// `zext d, x`
    Zext,
    /// `zext d, b`
    ZextImm,
    /// `bitrev d, x`
    Bitrev,
    /// `byterev d, x`
    Byterev,
    /// `clz d, x`
    Clz,
    /// `ladd d, e, x, y, v`
    Ladd,
    /// `lsub d, e, x, y, v`
    Lsub,
    /// `lmul d, e, x, y, v, w`
    Lmul,
    /// `ldivu d, e, x, y, v`
    Ldivu,
    /// `maccu d, e, x, y`
    Maccu,
    /// `maccs d, e, x, y`
    Maccs,
    /// `ldc d, u`
    Ldc,
    /// `nop`
    Nop,
    /// `ldw d, x[i]`
    LdwImm,
    /// `ldw d, x[y]`
    Ldw,
    /// `ldw g, dp[u]`
    LdwDp,
    /// `ldw g, sp[u]`
    LdwSp,
    /// `ldw d, cp[u]`
    LdwCp,
    /// `stw d, x[i]`
    StwImm,
    /// `stw d, x[y]`
    Stw,
    /// `stw g, dp[u]`
    StwDp,
    /// `stw g, sp[u]`
    StwSp,
    /// `ld16s d, x[y]`
    Ld16s,
    /// `ld8u d, x[y]`
    Ld8u,
    /// `st16 d, x[y]`
    St16,
    /// `st8 d, x[y]`
    St8,
    /// `ldaw d, x[y]`
    Ldaw,
    /// `ldaw d, x[-y]`
    LdawBack,
    /// `ldaw d, x[i]`
    LdawImm,
    /// `ldaw d, x[-i]`
    LdawBackImm,
    /// `ldaw d, dp[u]`
    LdawDp,
    /// `ldaw d, sp[u]`
    LdawSp,
    /// `ldaw r11, cp[u]`
    LdawCp,
    /// `lda16 d, x[y]`
    Lda16,
    /// `lda16 d, x[-y]`
    Lda16Back,
    /// `ldap r11, L`
    Ldap,
    /// `bt s, L`
    Bt,
    /// `bf s, L`
    Bf,
    /// `bu L`
    Bu,
    /// `bru s`
    Bru,
    /// `bau s`
    Bau,
    /// `bl L`
    Bl,
    /// `bla s`
    Bla,
    /// `bla cp[u]`
    BlaCp,
    /// `entsp u`
    Entsp,
    /// `retsp u`
    Retsp,
    /// `extsp u`
    Extsp,
    /// `extdp u`
    Extdp,
    /// `set sp, s`
    SetSp,
    /// `set dp, s`
    SetDp,
    /// `set cp, s`
    SetCp,
    /// `kcall u`
    KcallImm,
    /// `kcall s`
    Kcall,
    /// `kret`
    Kret,
    /// `kentsp u`
    Kentsp,
    /// `krestsp u`
    Krestsp,
    /// `ecallt s`
    Ecallt,
    /// `ecallf s`
    Ecallf,
    /// `set kep, r11`
    SetKep,
    /// `get r11, kep`
    GetKep,
    /// `get r11, ksp`
    GetKsp,
    /// `get r11, ed`
    GetEd,
    /// `get r11, et`
    GetEt,
    /// `get r11, id`
    GetId,
    /// `setsr u`
    Setsr,
    /// `clrsr u`
    Clrsr,
    /// `getsr r11, u`
    Getsr,
    /// `ldw spc, sp[1]`
    LdwSpc,
    /// `ldw ssr, sp[2]`
    LdwSsr,
    /// `ldw sed, sp[3]`
    LdwSed,
    /// `ldw et, sp[4]`
    LdwEt,
    /// `stw spc, sp[1]`
    StwSpc,
    /// `stw ssr, sp[2]`
    StwSsr,
    /// `stw sed, sp[3]`
    StwSed,
    /// `stw et, sp[4]`
    StwEt,
    /// `getst d, res[s]`
    Getst,
    /// `init t[s]:pc, x`
    InitPc,
    /// `init t[s]:sp, x`
    InitSp,
    /// `init t[s]:dp, x`
    InitDp,
    /// `init t[s]:cp, x`
    InitCp,
    /// `init t[s]:lr, x`
    InitLr,
    /// `set t[s]:d, x`
    SetOther,
    /// `start t[s]`
    Start,
    /// `msync res[s]`
    Msync,
    /// `mjoin res[s]`
    Mjoin,
    /// `ssync`
    Ssync,
    /// `freet`
    Freet,
    /// `getr d, i`
    Getr,
    /// `freer res[s]`
    Freer,
    /// `out res[s], x`
    Out,
    /// `outt res[s], x`
    Outt,
    /// `outct res[s], x`
    Outct,
    /// `outct res[s], i`
    OutctImm,
    /// `in d, res[s]`
    In,
    /// `int d, res[s]`
    Int,
    /// `inct d, res[s]`
    Inct,
    /// `chkct res[s], x`
    Chkct,
    /// `chkct res[s], i`
    ChkctImm,
    /// `testct d, res[s]`
    Testct,
    /// `testwct d, res[s]`
    Testwct,
    /// `setd res[s], x`
    Setd,
    /// `getd d, res[s]`
    Getd,
    /// `setn res[s], x`
    Setn,
    /// `getn d, res[s]`
    Getn,
    /// `setc res[s], u`
    SetcImm,
    /// `setc res[s], x`
    Setc,
    /// `setv res[s], r11`
    Setv,
    /// `setev res[s], r11`
    Setev,
    /// `eeu res[s]`
    Eeu,
    /// `edu res[s]`
    Edu,
    /// `eet x, res[s]`
    Eet,
    /// `eef x, res[s]`
    Eef,
    /// `clre`
    Clre,
    /// `waiteu`
    Waiteu,
    /// `waitet x`
    Waitet,
    /// `waitef x`
    Waitef,
    /// `inpw d, res[s], b`
    Inpw,
    /// `outpw res[s], x, b`
    Outpw,
    /// `inshr d, res[s]`
    Inshr,
    /// `outshr res[s], d`
    Outshr,
    /// `peek d, res[s]`
    Peek,
    /// `endin d, res[s]`
    Endin,
    /// `syncr res[s]`
    Syncr,
    /// `getts d, res[s]`
    Getts,
    /// `setpt res[s], x`
    Setpt,
    /// `clrpt res[s]`
    Clrpt,
    /// `setclk res[s], x`
    Setclk,
    /// `setrdy res[s], x`
    Setrdy,
    /// `settw res[s], x`
    Settw,
}

macro_rules! rows {
    (; $($group:ident $kind:ident { $($row:ident $name:literal $form:tt)* })*) => {
        [$($(Row::$row,)*)*]
    };
}

/// All rows, in the order of docs/INSTRUCTIONS.md.
pub static ROWS: [Row; 158] = table!(rows);
