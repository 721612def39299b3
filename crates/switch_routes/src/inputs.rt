//! What the switch's inputs are at.
ghost use Rattle.std.specs.Prelude.{ℕ, ◌≡◌, ◌<◌, ◌≤◌, false, map, slice_set, slice_index_or};
ghost use Rattle.std.specs.List.{list_any, AllByRecursion};
ghost use Rattle.xs_base.specs.declared.numbers.TheConstants.{INPUTS};
ghost use Rattle.xs_model.specs.Record.{Idle};
ghost use Rattle.xs_model.specs.Masks.{in_mask};
ghost use Rattle.net_model.specs.Switch.{is_local_to, is_out_by};
ghost use Rattle.quiet_model.specs.Still.{acts_alone};
ghost use Rattle.switch_routes.specs.Inputs.{state_of, InputFits, idle_inputs};
ghost use Rattle.switch_routes.specs.States.{input_state, input_of, IsInputState};

use crate::state::InputState;
use bit_masks::wide::with_bit;
use std::marker::Model;
use xs_base::numbers::{HEADER_BYTES, INPUTS};
use xs_model::Dest;

/// What an input of the switch is at. See docs/LINKS.md.
#[derive(Clone, Copy)]
pub(crate) enum Input {
    Idle,
    /// A link end's, after the high byte of a node's id.
    Head1 { high: u8 },
    /// A link end's, after both bytes of a node's id.
    Head2 { high: u8, low: u8 },
    /// Its packet wants to go to a destination by a network.
    Want { dest: Dest, net: u8 },
    /// It holds a channel end of its node, 0 to 31.
    Local { chan: u8 },
    /// It holds a link end, 0 to 7, by which so many header bytes, 0 to 3, went out.
    Out { end: u8, headers: u8, dest: Dest },
    /// Its packet is lost.
    Lost,
}

/// The 40 inputs: those of link ends 0 to 7, then those of channel ends 0 to 31. Contracts see them as a list of
/// `InputRec`s.
#[derive(Drop)]
pub(crate) struct Inputs {
    states: [Input; 40],
    // The inputs that act though no token waits at them: bit i is that of input i.
    alone: u64,
}

impl Model for Inputs {
    ghost use Rattle.std.specs.Prelude.{List};
    ghost use Rattle.xs_model.specs.Record.{InputRec};

    ghost Value = { List InputRec };

    ghost use Rattle.switch_routes.specs.Inputs.{states_in, AreInputs};

    ghost view = { λ inputs. states_in inputs.states };

    ghost invariant = { λ inputs. AreInputs inputs.states inputs.alone };
}

impl Inputs {
    /// Every input is idle.
    pub(crate) fn new() -> Inputs
        ensures value { result ≡ idle_inputs }
    {
        Inputs {
            states: [Input::Idle; 40],
            alone: 0,
        }
    }

    /// What an input, 0 to 39, is at.
    pub(crate) fn state(&self, input: u8) -> Input
        requires within { input < INPUTS }
        ensures value { state_of result ≡ slice_index_or self.now input Idle }
        ensures fits { InputFits result }
    {
        self.states[input as usize]
    }

    /// Puts an input, 0 to 39, into a state.
    pub(crate) fn set(&mut self, input: u8, state: Input)
        requires within { input < INPUTS }
        requires fits { InputFits state }
        ensures value { self.new ≡ slice_set self.old input (state_of state) }
    {
        self.states[input as usize] = state;
        self.alone = with_bit(self.alone, input, acts_alone(state));
    }

    /// The inputs that act though no token waits at them: bit i is that of input i.
    pub(crate) fn alone(&self) -> u64
        ensures value { (i : ℕ) → i < 64 → in_mask result i ≡ acts_alone (slice_index_or self.now i Idle) }
        ensures above { (i : ℕ) → INPUTS ≤ i → i < 64 → in_mask result i ≡ false }
    {
        self.alone
    }

    /// Whether some input acts though no token waits at it.
    pub(crate) fn some_alone(&self) -> bool
        ensures value { result ≡ list_any acts_alone self.now }
    {
        self.alone != 0
    }

    /// Whether some input holds a channel end.
    pub(crate) fn chan_is_held(&self, chan: u8) -> bool
        ensures value { result ≡ list_any (is_local_to chan) self.now }
    {
        for state in &self.states {
            if is_local_to(*state, chan) {
                return true;
            }
        }
        false
    }

    /// Whether some input holds a link end.
    pub(crate) fn end_is_held(&self, end: u8) -> bool
        ensures value { result ≡ list_any (is_out_by end) self.now }
    {
        for state in &self.states {
            if is_out_by(*state, end) {
                return true;
            }
        }
        false
    }

    /// What a snapshot keeps of each input.
    pub(crate) fn states(&self) -> [InputState; 40]
        ensures value { result ≡ map input_state self.now }
    {
        let mut states = [InputState::Idle; 40];
        for input in 0..INPUTS {
            states[input as usize] = kept_of(self.states[input as usize]);
        }
        states
    }

    /// The inputs that a snapshot says.
    pub(crate) fn of_states(states: &[InputState; 40]) -> Inputs
        requires facts { AllByRecursion IsInputState states.now }
        ensures value { result ≡ map input_of states.now }
    {
        let mut inputs = Inputs::new();
        for input in 0..INPUTS {
            inputs.set(input, said_by(states[input as usize]));
        }
        inputs
    }
}

// What a snapshot keeps of an input in this state.
fn kept_of(state: Input) -> InputState
    ensures value { result ≡ input_state (state_of state) }
{
    match state {
        Input::Idle => InputState::Idle,
        Input::Head1 { high } => InputState::Head1 { first: high },
        Input::Head2 { high, low } => InputState::Head2 {
            first: high,
            second: low,
        },
        Input::Want { dest, net } => InputState::Want {
            dest: dest.id(),
            net,
        },
        Input::Local { chan } => InputState::Local { chan },
        Input::Out { end, headers, dest } => InputState::Out {
            end,
            count: headers,
            dest: dest.id(),
        },
        Input::Lost => InputState::Lost,
    }
}

// What an input is at by a state.
fn said_by(state: InputState) -> Input
    requires facts { IsInputState state }
    ensures value { state_of result ≡ input_of state }
    ensures fits { InputFits result }
{
    match state {
        InputState::Idle => Input::Idle,
        InputState::Head1 { first } => Input::Head1 { high: first },
        InputState::Head2 { first, second } => Input::Head2 {
            high: first,
            low: second,
        },
        InputState::Want { dest, net } => Input::Want {
            dest: Dest::of_id(dest),
            net,
        },
        InputState::Local { chan } => Input::Local { chan },
        InputState::Out { end, count, dest } => Input::Out {
            end,
            headers: count,
            dest: Dest::of_id(dest),
        },
        InputState::Lost => Input::Lost,
    }
}

// Whether an input in this state acts though no token waits there.
fn acts_alone(state: Input) -> bool
    ensures value { result ≡ acts_alone (state_of state) }
{
    match state {
        Input::Want { .. } => true,
        Input::Out { headers, .. } => headers < HEADER_BYTES,
        _ => false,
    }
}

// Whether an input in this state holds a channel end.
fn is_local_to(state: Input, chan: u8) -> bool
    ensures value { result ≡ is_local_to chan (state_of state) }
{
    match state {
        Input::Local { chan: held } => held == chan,
        _ => false,
    }
}

// Whether an input in this state holds a link end.
fn is_out_by(state: Input, end: u8) -> bool
    ensures value { result ≡ is_out_by end (state_of state) }
{
    match state {
        Input::Out { end: held, .. } => held == end,
        _ => false,
    }
}
