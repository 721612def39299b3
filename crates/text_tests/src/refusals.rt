//! What tests of texts that are refused have in common.
use std::fmt::Debug;
use std::process::Abort;

/// Each text of the table is refused at its line for its kind: `refusal` tells where and why a text is.
pub fn each_is_refused<K: Copy + Debug + PartialEq, F: Fn(&[u8]) -> Option<(u32, K)>>(
    rt: &impl Abort,
    table: &[(&'static [u8], u32, K)],
    refusal: F,
)
    requires { F.IsAlwaysCallable refusal }
{
    for (text, line, kind) in table {
        let found = refusal(text);
        assert!(rt; found == Some((*line, *kind)), "{text:?} {line} {kind:?}");
    }
}
