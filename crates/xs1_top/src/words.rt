//! The forms of the program's words: the table, the usage line beside it, which forms read the input, and how much of it.
ghost use Rattle.std.specs.Prelude.{◌≡◌, ◌+◌, ◌≤◌, true, false, Some, None, map, string_bytes, IfSome};
ghost use Rattle.word_numbers.specs.Decimal.{decimal_up_to};
ghost use Rattle.xs_instructions.specs.Image.{same_name};
ghost use Rattle.answer_model.specs.Forms.{form_of_mode, form_of_one, form_of_two, form_of_waves, form_of_words, make_of, most_slots, pins_of, reads_input, usage_text, wave_of};
ghost use Rattle.answer_model.specs.Top.{longest_of};
ghost use Rattle.xs1_top.specs.Words.{HasFewSlots};

use answer_model::Form;
use word_numbers::{decimal_up_to, plain_decimal_up_to};
use xs_instructions::same_name;

// The most slots that a run may have.
const MOST_SLOTS: u32 = 16_000_000;

// The most slots that a wave may have.
const MOST_WAVE_SLOTS: u32 = 1_000_000;

// The greatest number of a load.
const GREATEST_NUMBER: u32 = u32::MAX;

// The greatest number of a node.
const GREATEST_NODE: u32 = 99;

// One byte past the longest system text, and one past the longest snapshot.
const MOST_OF_TEXT: usize = 4_194_305;

const MOST_OF_SNAPSHOT: usize = 8_388_609;

/// The form of the program's words, without the program's name: `run SLOTS`, `run SLOTS free`, `run SLOTS serial`, `run SLOTS rounds`,
/// `play SLOTS`, `make NUMBER`, `check`, `save SLOTS`, `resume SLOTS`, `routes`, `wave SLOTS` or `pinsof N`. SLOTS is one to ten decimal
/// digits with a value of at most 16,000,000, and for a wave of at most 1,000,000; NUMBER the same of at most 4,294,967,295; N is 0 to 99
/// without leading zeros. None comes exactly where the words are of no form. See docs/OUTPUT.md.
#[tactic(auto, unfolding(answer_model::specs::Forms::form_of_words))]
pub fn form_of_words(words: &[String]) -> Option<Form>
    ensures value { result ≡ form_of_words (map string_bytes words.now) }
    ensures few { IfSome result HasFewSlots }
{
    match words {
        [command] => form_of_one(command),
        [command, word] => form_of_two(command, word),
        [command, slots, mode] if is(command, b"run") => form_of_mode(slots, mode),
        _ => None,
    }
}

/// The usage line. It takes no memory.
pub fn usage_line() -> &'static [u8]
    ensures { result.now ≡ usage_text }
{
    b"usage: xs1 run SLOTS [serial|free|rounds] | play SLOTS | make NUMBER | check | save SLOTS | resume SLOTS | routes | wave SLOTS | pinsof N\n"
}

/// How many bytes of the input a form asks for at most, or None where it asks for nothing of it.
pub fn asks_of(form: Form) -> Option<usize>
    ensures nothing { reads_input form ≡ false → result ≡ None }
    ensures most { reads_input form ≡ true → result ≡ Some (longest_of form + 1) }
{
    if reads_input(form) {
        Some(most_bytes(form))
    } else {
        None
    }
}

// Whether a form asks for the input.
fn reads_input(form: Form) -> bool
    ensures { result ≡ reads_input form }
{
    match form {
        Form::Free(_) | Form::Serial(_) | Form::Rounds(_) | Form::Play(_) | Form::Check => true,
        Form::Save(_) | Form::Resume(_) | Form::Routes | Form::Wave(_) | Form::PinsOf(_) => true,
        Form::Make(_) => false,
    }
}

// How many bytes of the input a form takes at most that asks for it: one past the longest, so that an input that is too long is seen.
fn most_bytes(form: Form) -> usize
    ensures { result ≡ longest_of form + 1 }
{
    match form {
        Form::Resume(_) => MOST_OF_SNAPSHOT,
        Form::Free(_) | Form::Serial(_) | Form::Rounds(_) => MOST_OF_TEXT,
        Form::Play(_) | Form::Make(_) | Form::Check | Form::Save(_) | Form::Routes => MOST_OF_TEXT,
        Form::Wave(_) | Form::PinsOf(_) => MOST_OF_TEXT,
    }
}

// Whether the word is this one.
fn is(word: &str, wanted: &[u8]) -> bool
    ensures { result ≡ same_name wanted.now word.now }
{
    same_name(wanted, word.as_bytes())
}

// The form of one word.
fn form_of_one(command: &str) -> Option<Form>
    ensures value { result ≡ form_of_one command.now }
    ensures few { IfSome result HasFewSlots }
{
    if is(command, b"check") {
        return Some(Form::Check);
    }
    if is(command, b"routes") {
        return Some(Form::Routes);
    }
    None
}

// The form of two words.
fn form_of_two(command: &str, word: &str) -> Option<Form>
    ensures value { result ≡ form_of_two command.now word.now }
    ensures few { IfSome result HasFewSlots }
{
    if is(command, b"run") {
        return Some(Form::Free(slots_in(word)?));
    }
    if is(command, b"play") {
        return Some(Form::Play(slots_in(word)?));
    }
    if is(command, b"make") {
        return make_of(word);
    }
    if is(command, b"save") {
        return Some(Form::Save(slots_in(word)?));
    }
    if is(command, b"resume") {
        return Some(Form::Resume(slots_in(word)?));
    }
    form_of_waves(command, word)
}

// The form of a run with a mode.
fn form_of_mode(slots: &str, mode: &str) -> Option<Form>
    ensures value { result ≡ form_of_mode slots.now mode.now }
    ensures few { IfSome result HasFewSlots }
{
    if is(mode, b"free") {
        return Some(Form::Free(slots_in(slots)?));
    }
    if is(mode, b"serial") {
        return Some(Form::Serial(slots_in(slots)?));
    }
    if is(mode, b"rounds") {
        return Some(Form::Rounds(slots_in(slots)?));
    }
    None
}

// The slots of a run that the word says.
fn slots_in(word: &str) -> Option<u32>
    ensures value { result ≡ decimal_up_to most_slots word.now }
    ensures few { IfSome result (λ slots. slots ≤ most_slots) }
{
    decimal_up_to(MOST_SLOTS, word.as_bytes())
}

// The form of two words that has to do with waves.
fn form_of_waves(command: &str, word: &str) -> Option<Form>
    ensures value { result ≡ form_of_waves command.now word.now }
    ensures few { IfSome result HasFewSlots }
{
    if is(command, b"wave") {
        return wave_of(word);
    }
    if is(command, b"pinsof") {
        return pins_of(word);
    }
    None
}

// The load of the number that the word says.
fn make_of(word: &str) -> Option<Form>
    ensures value { result ≡ make_of word.now }
    ensures few { IfSome result HasFewSlots }
{
    let number = decimal_up_to(GREATEST_NUMBER, word.as_bytes())?;
    Some(Form::Make(number))
}

// The wave of a run of so many slots as the word says.
fn wave_of(word: &str) -> Option<Form>
    ensures value { result ≡ wave_of word.now }
    ensures few { IfSome result HasFewSlots }
{
    let slots = decimal_up_to(MOST_WAVE_SLOTS, word.as_bytes())?;
    Some(Form::Wave(slots))
}

// The pin script of the node whose number the word is.
fn pins_of(word: &str) -> Option<Form>
    ensures value { result ≡ pins_of word.now }
    ensures few { IfSome result HasFewSlots }
{
    let node = plain_decimal_up_to(GREATEST_NODE, word.as_bytes())?;
    Some(Form::PinsOf(node as u8))
}
