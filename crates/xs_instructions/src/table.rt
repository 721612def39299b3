//! The instruction table, told once: constants and whole bodies of functions are written from it. See docs/INSTRUCTIONS.md.

// The rows, group by group, each group with the type of its instructions. A row has its variant, its name and its form: what
// stands at each place after the name. An operand stands in parentheses, by its letter in docs/INSTRUCTIONS.md or as the number
// that the row itself names; all else is a register, a word or a mark that the row itself names.
macro_rules! table {
    ($write:ident $($given:ident)*) => {
        $write! {
            $($given)*;
            Words WordIns {
                Add "add" [(d) COMMA (x) COMMA (y)]
                AddImm "add" [(d) COMMA (x) COMMA (i)]
                Sub "sub" [(d) COMMA (x) COMMA (y)]
                SubImm "sub" [(d) COMMA (x) COMMA (i)]
                Neg "neg" [(d) COMMA (x)]
                Not "not" [(d) COMMA (x)]
                And "and" [(d) COMMA (x) COMMA (y)]
                Or "or" [(d) COMMA (x) COMMA (y)]
                Xor "xor" [(d) COMMA (x) COMMA (y)]
                AndNot "andnot" [(d) COMMA (x)]
                Eq "eq" [(d) COMMA (x) COMMA (y)]
                EqImm "eq" [(d) COMMA (x) COMMA (i)]
                Lss "lss" [(d) COMMA (x) COMMA (y)]
                Lsu "lsu" [(d) COMMA (x) COMMA (y)]
                Shl "shl" [(d) COMMA (x) COMMA (y)]
                ShlImm "shl" [(d) COMMA (x) COMMA (b)]
                Shr "shr" [(d) COMMA (x) COMMA (y)]
                ShrImm "shr" [(d) COMMA (x) COMMA (b)]
                Ashr "ashr" [(d) COMMA (x) COMMA (y)]
                AshrImm "ashr" [(d) COMMA (x) COMMA (b)]
                Mul "mul" [(d) COMMA (x) COMMA (y)]
                Divu "divu" [(d) COMMA (x) COMMA (y)]
                Remu "remu" [(d) COMMA (x) COMMA (y)]
                Divs "divs" [(d) COMMA (x) COMMA (y)]
                Rems "rems" [(d) COMMA (x) COMMA (y)]
                Mkmsk "mkmsk" [(d) COMMA (x)]
                MkmskImm "mkmsk" [(d) COMMA (b)]
                Sext "sext" [(d) COMMA (x)]
                SextImm "sext" [(d) COMMA (b)]
                Zext "zext" [(d) COMMA (x)]
                ZextImm "zext" [(d) COMMA (b)]
                Bitrev "bitrev" [(d) COMMA (x)]
                Byterev "byterev" [(d) COMMA (x)]
                Clz "clz" [(d) COMMA (x)]
                Ladd "ladd" [(d) COMMA (e) COMMA (x) COMMA (y) COMMA (v)]
                Lsub "lsub" [(d) COMMA (e) COMMA (x) COMMA (y) COMMA (v)]
                Lmul "lmul" [(d) COMMA (e) COMMA (x) COMMA (y) COMMA (v) COMMA (w)]
                Ldivu "ldivu" [(d) COMMA (e) COMMA (x) COMMA (y) COMMA (v)]
                Maccu "maccu" [(d) COMMA (e) COMMA (x) COMMA (y)]
                Maccs "maccs" [(d) COMMA (e) COMMA (x) COMMA (y)]
                Ldc "ldc" [(d) COMMA (u)]
                Nop "nop" []
            }
            Memory MemIns {
                LdwImm "ldw" [(d) COMMA (x) LEFT (i) RIGHT]
                Ldw "ldw" [(d) COMMA (x) LEFT (y) RIGHT]
                LdwDp "ldw" [(g) COMMA DP LEFT (u) RIGHT]
                LdwSp "ldw" [(g) COMMA SP LEFT (u) RIGHT]
                LdwCp "ldw" [(d) COMMA CP LEFT (u) RIGHT]
                StwImm "stw" [(d) COMMA (x) LEFT (i) RIGHT]
                Stw "stw" [(d) COMMA (x) LEFT (y) RIGHT]
                StwDp "stw" [(g) COMMA DP LEFT (u) RIGHT]
                StwSp "stw" [(g) COMMA SP LEFT (u) RIGHT]
                Ld16s "ld16s" [(d) COMMA (x) LEFT (y) RIGHT]
                Ld8u "ld8u" [(d) COMMA (x) LEFT (y) RIGHT]
                St16 "st16" [(d) COMMA (x) LEFT (y) RIGHT]
                St8 "st8" [(d) COMMA (x) LEFT (y) RIGHT]
                Ldaw "ldaw" [(d) COMMA (x) LEFT (y) RIGHT]
                LdawBack "ldaw" [(d) COMMA (x) LEFT MINUS (y) RIGHT]
                LdawImm "ldaw" [(d) COMMA (x) LEFT (i) RIGHT]
                LdawBackImm "ldaw" [(d) COMMA (x) LEFT MINUS (i) RIGHT]
                LdawDp "ldaw" [(d) COMMA DP LEFT (u) RIGHT]
                LdawSp "ldaw" [(d) COMMA SP LEFT (u) RIGHT]
                LdawCp "ldaw" [R11 COMMA CP LEFT (u) RIGHT]
                Lda16 "lda16" [(d) COMMA (x) LEFT (y) RIGHT]
                Lda16Back "lda16" [(d) COMMA (x) LEFT MINUS (y) RIGHT]
                Ldap "ldap" [R11 COMMA (l)]
            }
            Flow FlowIns {
                Bt "bt" [(s) COMMA (l)]
                Bf "bf" [(s) COMMA (l)]
                Bu "bu" [(l)]
                Bru "bru" [(s)]
                Bau "bau" [(s)]
                Bl "bl" [(l)]
                Bla "bla" [(s)]
                BlaCp "bla" [CP LEFT (u) RIGHT]
                Entsp "entsp" [(u)]
                Retsp "retsp" [(u)]
                Extsp "extsp" [(u)]
                Extdp "extdp" [(u)]
                SetSp "set" [SP COMMA (s)]
                SetDp "set" [DP COMMA (s)]
                SetCp "set" [CP COMMA (s)]
            }
            Kernel KernelIns {
                KcallImm "kcall" [(u)]
                Kcall "kcall" [(s)]
                Kret "kret" []
                Kentsp "kentsp" [(u)]
                Krestsp "krestsp" [(u)]
                Ecallt "ecallt" [(s)]
                Ecallf "ecallf" [(s)]
                SetKep "set" [KEP COMMA R11]
                GetKep "get" [R11 COMMA KEP]
                GetKsp "get" [R11 COMMA KSP]
                GetEd "get" [R11 COMMA ED]
                GetEt "get" [R11 COMMA ET]
                GetId "get" [R11 COMMA ID]
                Setsr "setsr" [(u)]
                Clrsr "clrsr" [(u)]
                Getsr "getsr" [R11 COMMA (u)]
                LdwSpc "ldw" [SPC COMMA SP LEFT (1) RIGHT]
                LdwSsr "ldw" [SSR COMMA SP LEFT (2) RIGHT]
                LdwSed "ldw" [SED COMMA SP LEFT (3) RIGHT]
                LdwEt "ldw" [ET COMMA SP LEFT (4) RIGHT]
                StwSpc "stw" [SPC COMMA SP LEFT (1) RIGHT]
                StwSsr "stw" [SSR COMMA SP LEFT (2) RIGHT]
                StwSed "stw" [SED COMMA SP LEFT (3) RIGHT]
                StwEt "stw" [ET COMMA SP LEFT (4) RIGHT]
            }
            Threads ThreadIns {
                Getst "getst" [(d) COMMA RES LEFT (s) RIGHT]
                InitPc "init" [T LEFT (s) RIGHT COLON PC COMMA (x)]
                InitSp "init" [T LEFT (s) RIGHT COLON SP COMMA (x)]
                InitDp "init" [T LEFT (s) RIGHT COLON DP COMMA (x)]
                InitCp "init" [T LEFT (s) RIGHT COLON CP COMMA (x)]
                InitLr "init" [T LEFT (s) RIGHT COLON LR COMMA (x)]
                SetOther "set" [T LEFT (s) RIGHT COLON (d) COMMA (x)]
                Start "start" [T LEFT (s) RIGHT]
                Msync "msync" [RES LEFT (s) RIGHT]
                Mjoin "mjoin" [RES LEFT (s) RIGHT]
                Ssync "ssync" []
                Freet "freet" []
            }
            Resources ResIns {
                Getr "getr" [(d) COMMA (i)]
                Freer "freer" [RES LEFT (s) RIGHT]
                Out "out" [RES LEFT (s) RIGHT COMMA (x)]
                Outt "outt" [RES LEFT (s) RIGHT COMMA (x)]
                Outct "outct" [RES LEFT (s) RIGHT COMMA (x)]
                OutctImm "outct" [RES LEFT (s) RIGHT COMMA (i)]
                In "in" [(d) COMMA RES LEFT (s) RIGHT]
                Int "int" [(d) COMMA RES LEFT (s) RIGHT]
                Inct "inct" [(d) COMMA RES LEFT (s) RIGHT]
                Chkct "chkct" [RES LEFT (s) RIGHT COMMA (x)]
                ChkctImm "chkct" [RES LEFT (s) RIGHT COMMA (i)]
                Testct "testct" [(d) COMMA RES LEFT (s) RIGHT]
                Testwct "testwct" [(d) COMMA RES LEFT (s) RIGHT]
                Setd "setd" [RES LEFT (s) RIGHT COMMA (x)]
                Getd "getd" [(d) COMMA RES LEFT (s) RIGHT]
                Setn "setn" [RES LEFT (s) RIGHT COMMA (x)]
                Getn "getn" [(d) COMMA RES LEFT (s) RIGHT]
                SetcImm "setc" [RES LEFT (s) RIGHT COMMA (u)]
                Setc "setc" [RES LEFT (s) RIGHT COMMA (x)]
                Setv "setv" [RES LEFT (s) RIGHT COMMA R11]
                Setev "setev" [RES LEFT (s) RIGHT COMMA R11]
                Eeu "eeu" [RES LEFT (s) RIGHT]
                Edu "edu" [RES LEFT (s) RIGHT]
                Eet "eet" [(x) COMMA RES LEFT (s) RIGHT]
                Eef "eef" [(x) COMMA RES LEFT (s) RIGHT]
                Clre "clre" []
                Waiteu "waiteu" []
                Waitet "waitet" [(x)]
                Waitef "waitef" [(x)]
                Inpw "inpw" [(d) COMMA RES LEFT (s) RIGHT COMMA (b)]
                Outpw "outpw" [RES LEFT (s) RIGHT COMMA (x) COMMA (b)]
                Inshr "inshr" [(d) COMMA RES LEFT (s) RIGHT]
                Outshr "outshr" [RES LEFT (s) RIGHT COMMA (d)]
                Peek "peek" [(d) COMMA RES LEFT (s) RIGHT]
                Endin "endin" [(d) COMMA RES LEFT (s) RIGHT]
                Syncr "syncr" [RES LEFT (s) RIGHT]
                Getts "getts" [(d) COMMA RES LEFT (s) RIGHT]
                Setpt "setpt" [RES LEFT (s) RIGHT COMMA (x)]
                Clrpt "clrpt" [RES LEFT (s) RIGHT]
                Setclk "setclk" [RES LEFT (s) RIGHT COMMA (x)]
                Setrdy "setrdy" [RES LEFT (s) RIGHT COMMA (x)]
                Settw "settw" [RES LEFT (s) RIGHT COMMA (x)]
            }
        }
    };
}

// The group of the table with this name alone.
macro_rules! group {
    (Words $write:ident $($given:ident)*; Words $kind:ident $rows:tt $($others:tt)*) => {
        $write! { $($given)*; Words $kind $rows }
    };
    (Memory $write:ident $($given:ident)*; Memory $kind:ident $rows:tt $($others:tt)*) => {
        $write! { $($given)*; Memory $kind $rows }
    };
    (Flow $write:ident $($given:ident)*; Flow $kind:ident $rows:tt $($others:tt)*) => {
        $write! { $($given)*; Flow $kind $rows }
    };
    (Kernel $write:ident $($given:ident)*; Kernel $kind:ident $rows:tt $($others:tt)*) => {
        $write! { $($given)*; Kernel $kind $rows }
    };
    (Threads $write:ident $($given:ident)*; Threads $kind:ident $rows:tt $($others:tt)*) => {
        $write! { $($given)*; Threads $kind $rows }
    };
    (Resources $write:ident $($given:ident)*; Resources $kind:ident $rows:tt $($others:tt)*) => {
        $write! { $($given)*; Resources $kind $rows }
    };
    ($wanted:ident $write:ident $($given:ident)*; $other:ident $kind:ident $rows:tt $($others:tt)*) => {
        group! { $wanted $write $($given)*; $($others)* }
    };
}

pub(crate) use group;
pub(crate) use table;
