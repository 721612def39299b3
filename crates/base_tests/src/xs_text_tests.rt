//! Lines, tokens, words and numbers of a few texts.
ghost use Rattle.std.specs.Prelude.{◌<◌, ◌^◌, length};

use std::process::Abort;
use xs_text::TokKind::{Mark, Name, Number, Stray};
use xs_text::{Line, Lines, TokKind, next_tok, next_word, number, source_number};

// Whether the text has these lines and no others: the number, from and to of each.
fn has_lines(text: &[u8], expected: &[(u32, usize, usize)]) -> bool
    requires { length text.now < 2 ^ 32 }
{
    let mut lines = Lines::new(text);
    for span in expected {
        match lines.next_line() {
            Some(line) if (line.number, line.from, line.to) == *span => {}
            _ => return false,
        }
    }
    lines.next_line().is_none()
}

#[test]
fn lines(rt: HostRuntime) {
    let table: [(&[u8], &[(u32, usize, usize)]); 5] = [
        (b"", &[]),
        (b"\n", &[(1, 0, 0)]),
        (b"a\r\nb\n", &[(1, 0, 1), (2, 3, 4)]),
        (b"a\n\nb", &[(1, 0, 1), (2, 2, 2), (3, 3, 4)]),
        (b"a\r\n\r\r\nb\r", &[(1, 0, 1), (2, 3, 4), (3, 6, 8)]),
    ];
    for (text, expected) in table {
        assert!(rt; text.len() < 99 && has_lines(text, expected), "{text:?}");
    }
}

// Whether the text, one line, has these tokens and no others: the kind, from and to of each.
fn has_tokens(text: &[u8], expected: &[(TokKind, usize, usize)]) -> bool {
    let line = Line {
        number: 1,
        from: 0,
        to: text.len(),
    };
    let mut at = 0;
    for span in expected {
        match next_tok(text, line, at) {
            Some(tok) if (tok.kind, tok.from, tok.to) == *span => at = tok.to,
            _ => return false,
        }
    }
    next_tok(text, line, at).is_none()
}

#[test]
fn tokens(rt: HostRuntime) {
    let table: [(&[u8], &[(TokKind, usize, usize)]); 5] = [
        (b" \t", &[]),
        (
            b"add r0, r1 // x",
            &[(Name, 0, 3), (Name, 4, 6), (Mark, 6, 7), (Name, 8, 10)],
        ),
        (b".a$b:# x", &[(Name, 0, 4), (Mark, 4, 5)]),
        (
            b"1_0 12ab 0x1F 0x",
            &[
                (Number, 0, 1),
                (Name, 1, 3),
                (Stray, 4, 8),
                (Number, 9, 13),
                (Stray, 14, 16),
            ],
        ),
        (
            b"[-7/$",
            &[
                (Mark, 0, 1),
                (Mark, 1, 2),
                (Number, 2, 3),
                (Stray, 3, 4),
                (Stray, 4, 5),
            ],
        ),
    ];
    for (text, expected) in table {
        assert!(rt; has_tokens(text, expected), "{text:?}");
    }
}

// Whether the line has these words and no others.
fn has_words(line: &[u8], expected: &[&[u8]]) -> bool {
    let mut rest = line;
    for word in expected {
        match next_word(rest) {
            Some((found, after)) if found == *word => rest = after,
            _ => return false,
        }
    }
    next_word(rest).is_none()
}

#[test]
fn words(rt: HostRuntime) {
    let table: [(&[u8], &[&[u8]]); 3] = [
        (b" \t// x", &[]),
        (b"node 07\tid 0xFf", &[b"node", b"07", b"id", b"0xFf"]),
        (b"a/b c#d e", &[b"a/b", b"c"]),
    ];
    for (line, expected) in table {
        assert!(rt; has_words(line, expected), "{line:?}");
    }
}

#[test]
fn numbers(rt: HostRuntime) {
    let plain = [
        number(b"65535", 65_535),
        number(b"65536", 65_535),
        number(b"0xfF", 255),
        number(b"0b1", 9),
        number(b"", 9),
    ];
    let of_sources = [
        source_number(b"0b101", 5),
        source_number(b"0x00000000000000000000000000000000000005", 5),
        source_number(b"100000000000000000000000000000000000000", u32::MAX),
    ];
    assert_eq!(rt; plain, [Some(65_535), None, Some(255), None, None]);
    assert_eq!(rt; of_sources, [Some(5), Some(5), None]);
}
