//! That the tokens of entries are bytes, by their types. What stands here does nothing.
ghost use Rattle.std.specs.Prelude.{map};
ghost use Rattle.std.specs.List.{AllByRecursion};
ghost use Rattle.snap_parts.specs.Parts.{LogRec, seen};
ghost use Rattle.saved_laws.specs.Bytes.{CarriesByte, CarryBytes};

use snap_parts::SnapLog;
use xs_base::{Entry, Token, What};

/// The tokens in what a snapshot keeps of directed links and wires are bytes. It does nothing: who keeps them knows by it that they may be
/// written.
pub fn logs_carry_bytes(logs: &[SnapLog])
    ensures bytes { AllByRecursion (λ (log : LogRec). CarryBytes log.entries) (map seen logs.now) }
{
    for log in logs {
        entries_carry_bytes(log.entries.entries());
    }
}

/// The tokens among entries are bytes. It does nothing.
pub fn entries_carry_bytes(entries: &[Entry])
    ensures bytes { CarryBytes entries.now }
{
    for e in entries {
        carries_byte(*e);
    }
}

fn carries_byte(e: Entry)
    ensures { CarriesByte e.what }
{
    match e.what {
        What::Token(Token::Byte(_b)) => {}
        What::Token(Token::Ctrl(_c)) => {}
        What::Credit => {}
        What::Level(_level) => {}
    }
}
