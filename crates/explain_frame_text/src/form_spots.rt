//! How far a line of the frame has a form.
ghost use Rattle.std.specs.Prelude.{◌≡◌, IfOk};
ghost use Rattle.explain_model.specs.Words.{placed_words};
ghost use Rattle.marked_lines.specs.Stops.{spot_of_kept};
ghost use Rattle.explain_frame_model.specs.WordForms.{spot_of_forms};
ghost use Rattle.explain_frame_model.specs.FrameForms.{header_forms, forms_of_1, forms_of_2, step_forms, frame_forms, forms_in};

use explain_frame_model::Inside;
use explain_model::{FixedWord, Want};
use marked_lines::Spot;
use std::alloc::{AllocError, Global};
use word_forms::spot_of_forms;

// `node N id ID`
static NODE: [Want; 4] = [
    Want::Word(FixedWord::Node),
    Want::Number(0, 99),
    Want::Word(FixedWord::Id),
    Want::Number(0, 65_535),
];

// `link N:E M:F delay D gap G net K`: the last two in edition 2 alone.
static LINK: [Want; 9] = [
    Want::Word(FixedWord::Link),
    Want::LinkEnd,
    Want::LinkEnd,
    Want::Word(FixedWord::Delay),
    Want::Number(1, 1000),
    Want::Word(FixedWord::Gap),
    Want::Number(4, 1000),
    Want::Word(FixedWord::Net),
    Want::Number(0, 3),
];

// `bit N B E`, with all link ends that there may be.
static BIT: [Want; 11] = [
    Want::Word(FixedWord::Bit),
    Want::Number(0, 99),
    Want::Number(0, 15),
    Want::Number(0, 7),
    Want::Number(0, 7),
    Want::Number(0, 7),
    Want::Number(0, 7),
    Want::Number(0, 7),
    Want::Number(0, 7),
    Want::Number(0, 7),
    Want::Number(0, 7),
];

// `wire N:P M:Q delay D`, in edition 2 alone.
static WIRE: [Want; 5] = [
    Want::Word(FixedWord::Wire),
    Want::WirePin,
    Want::WirePin,
    Want::Word(FixedWord::Delay),
    Want::Number(1, 1000),
];

// `source N`
static SOURCE: [Want; 2] = [Want::Word(FixedWord::Source), Want::Number(0, 99)];

// `pins`
static PINS: [Want; 1] = [Want::Word(FixedWord::Pins)];

// `play`
static PLAY: [Want; 1] = [Want::Word(FixedWord::Play)];

// The first line with words. The error is want of memory, here and below.
fn header_spot(alloc: Global, line: &[u8]) -> Result<Spot, AllocError>
    ensures { IfOk result (λ spot. spot_of_kept spot ≡ spot_of_forms header_forms (placed_words line.now)) }
{
    let first = [Want::Word(FixedWord::Xs1), Want::Word(FixedWord::One)];
    let second = [Want::Word(FixedWord::Xs1), Want::Word(FixedWord::Two)];
    spot_of_forms(alloc, &first, &[&second], line)
}

// A line of edition 1.
fn spot_of_1(alloc: Global, line: &[u8]) -> Result<Spot, AllocError>
    ensures { IfOk result (λ spot. spot_of_kept spot ≡ spot_of_forms forms_of_1 (placed_words line.now)) }
{
    let others = [
        &LINK[..7],
        &BIT[..4],
        &BIT[..5],
        &BIT[..6],
        &BIT[..7],
        &BIT[..8],
        &BIT[..9],
        &BIT[..10],
        &BIT,
        &SOURCE,
        &PINS,
        &PLAY,
    ];
    spot_of_forms(alloc, &NODE, &others, line)
}

// A line of edition 2.
fn spot_of_2(alloc: Global, line: &[u8]) -> Result<Spot, AllocError>
    ensures { IfOk result (λ spot. spot_of_kept spot ≡ spot_of_forms forms_of_2 (placed_words line.now)) }
{
    let others = [
        &LINK[..7],
        &LINK,
        &BIT[..4],
        &BIT[..5],
        &BIT[..6],
        &BIT[..7],
        &BIT[..8],
        &BIT[..9],
        &BIT[..10],
        &BIT,
        &WIRE,
        &SOURCE,
        &PINS,
        &PLAY,
    ];
    spot_of_forms(alloc, &NODE, &others, line)
}

// A step.
fn step_spot(alloc: Global, line: &[u8]) -> Result<Spot, AllocError>
    ensures { IfOk result (λ spot. spot_of_kept spot ≡ spot_of_forms step_forms (placed_words line.now)) }
{
    let take = [Want::Word(FixedWord::Take), Want::StepEnd];
    let run = [
        Want::Word(FixedWord::Run),
        Want::Number(0, 99),
        Want::Number(1, 1_000_000),
    ];
    let send = [Want::Word(FixedWord::Send), Want::StepEnd];
    let end = [Want::Word(FixedWord::End)];
    let others = [&run[..2], &run, &send, &end];
    spot_of_forms(alloc, &take, &others, line)
}

// By the edition.
fn frame_spot(alloc: Global, edition: Option<u8>, line: &[u8]) -> Result<Spot, AllocError>
    ensures { IfOk result (λ spot. spot_of_kept spot ≡ spot_of_forms (frame_forms edition) (placed_words line.now)) }
{
    match edition {
        None => header_spot(alloc, line),
        Some(2) => spot_of_2(alloc, line),
        Some(_) => spot_of_1(alloc, line),
    }
}

/// By what the line is read as, and the edition.
pub(crate) fn spot_in(
    alloc: Global,
    inside: Inside,
    edition: Option<u8>,
    line: &[u8],
) -> Result<Spot, AllocError>
    ensures { IfOk result (λ spot. spot_of_kept spot ≡ spot_of_forms (forms_in inside edition) (placed_words line.now)) }
{
    match inside {
        Inside::Frame => frame_spot(alloc, edition, line),
        Inside::Schedule => step_spot(alloc, line),
        Inside::Text => Ok(Spot {
            at: 0,
            all_fit: true,
            wants: Vec::new(alloc),
        }),
    }
}
