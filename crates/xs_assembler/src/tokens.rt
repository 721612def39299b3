ghost use Rattle.std.specs.Prelude.{◌≡◌, ◌∷◌, [], ◌<◌, length, IfSome, IsTrue, MatchOption};
ghost use Rattle.xs_text.specs.Tokens.{tokens_of, is_name, HasForm};
ghost use Rattle.source_model.specs.Statement.{labels_first, after_labels};
ghost use Rattle.xs_assembler.specs.Parts.{read_token};

use xs_text::{Line, TokKind, next_tok};

// A token with its text.
#[derive(Clone, Copy)]
pub struct ReadToken<'a> {
    pub kind: TokKind,
    pub bytes: &'a [u8],
}

// The first token of what is left of a line, and what is left then.
pub fn first_token(line: &[u8]) -> Option<(ReadToken<'_>, &[u8])>
    ensures token { MatchOption result (tokens_of line.now ≡ []) (λ t. tokens_of line.now ≡ read_token t.0 ∷ tokens_of t.1.now) }
    ensures well_formed { IfSome result (λ t. HasForm (read_token t.0)) }
{
    let whole = Line {
        number: 1,
        from: 0,
        to: line.len(),
    };
    let tok = next_tok(line, whole, 0)?;
    let piece = ReadToken {
        kind: tok.kind,
        bytes: &line[tok.from..tok.to],
    };
    Some((piece, &line[tok.to..]))
}

// The label at the front, a name and a colon, and what is left then.
#[tactic(auto, unfolding(source_model::specs::Statement::labels_first, source_model::specs::Statement::after_labels))]
pub fn first_label(line: &[u8]) -> Option<(&[u8], &[u8])>
    ensures label { MatchOption result (labels_first (tokens_of line.now) ≡ []) (λ l. labels_first (tokens_of line.now) ≡ l.0.now ∷ labels_first (tokens_of l.1.now)) }
    ensures after { MatchOption result (after_labels (tokens_of line.now) ≡ tokens_of line.now) (λ l. after_labels (tokens_of line.now) ≡ after_labels (tokens_of l.1.now)) }
    ensures name { IfSome result (λ l. IsTrue (is_name l.0.now)) }
    ensures shorter { IfSome result (λ l. length (tokens_of l.1.now) < length (tokens_of line.now)) }
{
    let Some((name, rest)) = first_token(line) else {
        return None;
    };
    let Some((colon, rest)) = first_token(rest) else {
        return None;
    };
    match colon.bytes {
        b":" if name.kind == TokKind::Name => Some((name.bytes, rest)),
        _ => None,
    }
}
