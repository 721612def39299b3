//! The forms of the program's words, and the usage line beside them.
ghost use Rattle.std.specs.Prelude.{◌≡◌, map, option_map, string_bytes};
ghost use Rattle.look_forms.specs.Words.{form_of_one, form_of_two, slots_and_from, form_of_three, form_of_more, addresses_of, watch_form, look_form, look_usage};

use arrayvec::ArrayVec;
use look_forms::{LookForm, MOST_WATCHED};
use word_numbers::decimal_up_to;
use xs_instructions::same_name;
use xs_text::number;

// The most slots that a run may have.
const MOST_SLOTS: u32 = 16_000_000;

/// The form of the program's words, without the program's name: `explain`, `states SLOTS`, `profile SLOTS`, `issues SLOTS FROM`, `watch SLOTS ADDRESS ..`
/// or `chart SLOTS FROM`, where SLOTS and FROM are one to ten decimal digits with a value of at most 16,000,000, and there are one to sixteen
/// addresses, each decimal digits, or `0x` and hexadecimal digits, with a value of at most 4,294,967,295. None comes exactly where the words
/// are of no form. See docs/LOOK.md.
#[tactic(auto, unfolding(look_forms::specs::Words::look_form))]
pub fn look_form(words: &[String]) -> Option<LookForm>
    ensures value { result ≡ look_form (map string_bytes words.now) }
{
    match words {
        [command] => form_of_one(command),
        [command, word] => form_of_two(command, word),
        [command, word, others @ ..] => form_of_more(command, word, others),
        _ => None,
    }
}

/// The usage line. It takes no memory.
pub fn usage_line() -> &'static [u8]
    ensures { result.now ≡ look_usage }
{
    b"usage: xs1_look states SLOTS | issues SLOTS FROM | watch SLOTS ADDRESS .. | chart SLOTS FROM | profile SLOTS | explain\n"
}

// The form of one word.
fn form_of_one(command: &str) -> Option<LookForm>
    ensures value { result ≡ form_of_one command.now }
{
    if same_name(b"explain", command.as_bytes()) {
        return Some(LookForm::Explain);
    }
    None
}

// The form of two words.
fn form_of_two(command: &str, word: &str) -> Option<LookForm>
    ensures value { result ≡ form_of_two command.now word.now }
{
    if same_name(b"states", command.as_bytes()) {
        let slots = decimal_up_to(MOST_SLOTS, word.as_bytes())?;
        return Some(LookForm::States(slots));
    }
    if same_name(b"profile", command.as_bytes()) {
        let slots = decimal_up_to(MOST_SLOTS, word.as_bytes())?;
        return Some(LookForm::Profile(slots));
    }
    None
}

// The form of three words or more.
fn form_of_more(command: &str, word: &str, others: &[String]) -> Option<LookForm>
    ensures value { result ≡ form_of_more command.now word.now (map string_bytes others.now) }
{
    if same_name(b"watch", command.as_bytes()) {
        return watch_form(word, others);
    }
    match others {
        [other] => form_of_three(command, word, other),
        _ => None,
    }
}

// The form of three words.
fn form_of_three(command: &str, word: &str, other: &str) -> Option<LookForm>
    ensures value { result ≡ form_of_three command.now word.now other.now }
{
    if same_name(b"issues", command.as_bytes()) {
        let (slots, from) = slots_and_from(word, other)?;
        return Some(LookForm::Issues(slots, from));
    }
    if same_name(b"chart", command.as_bytes()) {
        let (slots, from) = slots_and_from(word, other)?;
        return Some(LookForm::Chart(slots, from));
    }
    None
}

fn slots_and_from(word: &str, other: &str) -> Option<(u32, u32)>
    ensures value { result ≡ slots_and_from word.now other.now }
{
    let slots = decimal_up_to(MOST_SLOTS, word.as_bytes())?;
    let from = decimal_up_to(MOST_SLOTS, other.as_bytes())?;
    Some((slots, from))
}

// `watch SLOTS ADDRESS ..`.
fn watch_form(word: &str, others: &[String]) -> Option<LookForm>
    ensures value { result ≡ watch_form word.now (map string_bytes others.now) }
{
    let slots = decimal_up_to(MOST_SLOTS, word.as_bytes())?;
    let addresses = addresses_of(others)?;
    Some(LookForm::Watch(slots, addresses))
}

// The addresses that words are, where there are not too many.
#[tactic(auto, unfolding(look_forms::specs::Words::addresses_with))]
fn addresses_of(words: &[String]) -> Option<ArrayVec<u32, 16>>
    ensures value { option_map (λ addresses. addresses.items) result ≡ addresses_of (map string_bytes words.now) }
{
    if words.len() > MOST_WATCHED {
        return None;
    }
    let mut addresses = ArrayVec::new();
    for word in words {
        addresses.push(number(word.as_bytes(), u32::MAX)?);
    }
    Some(addresses)
}
