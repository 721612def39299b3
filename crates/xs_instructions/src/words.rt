ghost use Rattle.std.specs.Prelude.{◌≡◌};
ghost use Rattle.xs_instructions.specs.Words.{register_number, fixed};

/// The number of a register by its name: 0 to 11 for r0 to r11, then 12 for cp, 13 for dp, 14 for sp and 15 for lr. None
/// comes exactly for every other name. See docs/INSTRUCTIONS.md.
#[tactic(auto, unfolding(crate::specs::Words::register_number))]
pub fn register_number(name: &[u8]) -> Option<u8>
    ensures value { result ≡ register_number name.now }
{
    match name {
        b"r0" => Some(0),
        b"r1" => Some(1),
        b"r2" => Some(2),
        b"r3" => Some(3),
        b"r4" => Some(4),
        b"r5" => Some(5),
        b"r6" => Some(6),
        b"r7" => Some(7),
        b"r8" => Some(8),
        b"r9" => Some(9),
        b"r10" => Some(10),
        b"r11" => Some(11),
        b"cp" => Some(12),
        b"dp" => Some(13),
        b"sp" => Some(14),
        b"lr" => Some(15),
        _ => None,
    }
}

/// The number of a fixed word or mark, from 0, in the order `res`, `t`, `pc`, `kep`, `ksp`, `ed`, `et`, `id`, `spc`,
/// `ssr`, `sed`, `,`, `:`, `[`, `]`, `-`. None comes exactly for every other text. See docs/INSTRUCTIONS.md.
#[tactic(auto, unfolding(crate::specs::Words::fixed))]
pub fn fixed(text: &[u8]) -> Option<u8>
    ensures value { result ≡ fixed text.now }
{
    match text {
        b"res" => Some(0),
        b"t" => Some(1),
        b"pc" => Some(2),
        b"kep" => Some(3),
        b"ksp" => Some(4),
        b"ed" => Some(5),
        b"et" => Some(6),
        b"id" => Some(7),
        b"spc" => Some(8),
        b"ssr" => Some(9),
        b"sed" => Some(10),
        b"," => Some(11),
        b":" => Some(12),
        b"[" => Some(13),
        b"]" => Some(14),
        b"-" => Some(15),
        _ => None,
    }
}
