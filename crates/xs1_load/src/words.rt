//! The program's words.
ghost use Rattle.std.specs.Prelude.{◌≡◌, map, string_bytes};
ghost use Rattle.xs1_load.specs.Words.{number_of_words, usage_text};

use word_numbers::decimal_up_to;

/// The number that the words are, without the program's name: one word of one to ten decimal digits with a value of at most
/// 4,294,967,295. None comes exactly where they are no such word.
pub fn number_of_words(words: &[String]) -> Option<u32>
    ensures { result ≡ number_of_words (map string_bytes words.now) }
{
    match words {
        [word] => decimal_up_to(u32::MAX, word.as_bytes()),
        _ => None,
    }
}

/// The usage line. It takes no memory.
pub fn usage_line() -> &'static [u8]
    ensures { result.now ≡ usage_text }
{
    b"usage: xs1_load NUMBER\n"
}
