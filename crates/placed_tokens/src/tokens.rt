//! The tokens of a line, one by one.
ghost use Rattle.std.specs.Prelude.{◌≡◌, ◌≤◌, ◌<◌, ◌∷◌, [], length, IfSome, IsTrue, MatchOption};
ghost use Rattle.xs_text.specs.Tokens.{is_name, HasForm};
ghost use Rattle.explain_model.specs.Placed.{placed_labels, placed_statement, placed_tokens};
ghost use Rattle.placed_tokens.specs.Tokens.{placed_left, placed_of};

use crate::token::Token;
use xs_text::{Line, TokKind, next_tok};

/// The first token of a line from a place on. See docs/LOOK.md.
pub fn next_token(line: &[u8], at: usize) -> Option<Token<'_>>
    requires { at ≤ length line.now }
    ensures token { MatchOption result (placed_left line.now at ≡ []) (λ t. placed_left line.now at ≡ placed_of t ∷ placed_left line.now t.end) }
    ensures within { IfSome result (λ t. t.end ≤ length line.now) }
    ensures onward { IfSome result (λ t. at < t.end) }
    ensures well_formed { IfSome result (λ t. HasForm (placed_of t).token) }
{
    let whole = Line {
        number: 1,
        from: 0,
        to: line.len(),
    };
    let Some(tok) = next_tok(line, whole, at) else {
        return None;
    };
    Some(Token {
        at: tok.from,
        end: tok.to,
        kind: tok.kind,
        bytes: &line[tok.from..tok.to],
    })
}

/// The label at a place of a line, a name and a colon, and the place behind it. None where no label stands there. See docs/LOOK.md.
#[tactic(auto, unfolding(explain_model::specs::Placed::placed_labels, explain_model::specs::Placed::placed_statement))]
pub fn next_label(line: &[u8], at: usize) -> Option<(Token<'_>, usize)>
    requires { at ≤ length line.now }
    ensures label { MatchOption result (placed_labels (placed_left line.now at) ≡ []) (λ l. placed_labels (placed_left line.now at) ≡ placed_of l.0 ∷ placed_labels (placed_left line.now l.1)) }
    ensures after { MatchOption result (placed_statement (placed_left line.now at) ≡ placed_left line.now at) (λ l. placed_statement (placed_left line.now at) ≡ placed_statement (placed_left line.now l.1)) }
    ensures name { IfSome result (λ l. IsTrue (is_name l.0.bytes.now)) }
    ensures inside { IfSome result (λ l. l.0.end ≤ length line.now) }
    ensures within { IfSome result (λ l. l.1 ≤ length line.now) }
    ensures onward { IfSome result (λ l. at < l.1) }
{
    let Some(name) = next_token(line, at) else {
        return None;
    };
    let Some(colon) = next_token(line, name.end) else {
        return None;
    };
    match colon.bytes {
        b":" if name.kind == TokKind::Name => Some((name, colon.end)),
        _ => None,
    }
}

/// The place behind the labels of a line. See docs/LOOK.md.
pub fn behind_labels(line: &[u8]) -> usize
    ensures statement { placed_left line.now result ≡ placed_statement (placed_tokens line.now) }
    ensures within { result ≤ length line.now }
{
    let mut at = 0;
    while let Some((_, behind)) = next_label(line, at) {
        at = behind;
    }
    at
}
