//! What the types of a node's state say of its numbers. What stands here does nothing.
ghost use Rattle.std.specs.Prelude.{ℕ, ◌≡◌, ◌<◌, ◌^◌, length, slice_index, IfSome};
ghost use Rattle.std.specs.List.{AllByRecursion};
ghost use Rattle.byte_forms.specs.Forms.{AreBytes};
ghost use Rattle.state_forms.specs.Buffers.{TokenFits, BufferFits};
ghost use Rattle.state_forms.specs.Chans.{ChanFits};
ghost use Rattle.port_forms.specs.Ports.{FitsHalves};
ghost use Rattle.switch_forms.specs.Inputs.{InputFits};
ghost use Rattle.state_bridge.specs.Fits.{AreSuch, AreWords, ThreadFits, TimerFits, ClockFits, SyncFits, EnableFits, EndFits, NumbersFit};

use arrayvec::ArrayVec;
use chan_ends::ChanState;
use core_step::NodeState;
use event_unit::EnableState;
use link_ends::EndState;
use single_port::{PortState, Transfer};
use switch_routes::InputState;
use sync_locks::SyncState;
use timers_clocks::{ClockState, TimerState};
use xs_base::Token;
use xs_model::Thread;

/// The numbers of a node's state are of their types. It does nothing: who writes the state knows by it that what is written is read again.
/// See docs/SNAPSHOTS.md.
pub fn node_fits(state: &NodeState)
    ensures fits { NumbersFit state.now }
{
    row_fits(&state.threads);
    has_all(&state.last);
    row_fits(&state.chans);
    row_fits(&state.timers);
    row_fits(&state.clocks);
    row_fits(&state.syncs);
    has_all(&state.locks);
    row_fits(&state.ports);
    row_fits(&state.chan_enables);
    row_fits(&state.timer_enables);
    row_fits(&state.port_enables);
    row_fits(&state.inputs);
    row_fits(&state.ends);
    words_fit(&state.levels);
    bytes_fit(state.memory.bytes());
}

// ---- Rows

/// What has numbers of its types.
pub(crate) trait Fits: Sized {
    /// What the types say of them.
    ghost fits: { Self → Type 0 };

    /// The numbers of a value are of their types.
    fn fit(&self)
        ensures value { fits self.now };
}

fn row_fits<T: Fits, const N: usize>(row: &[T; N])
    ensures { AreSuch T.fits N row.now }
{
    each_fits(row);
}

fn each_fits<T: Fits>(elements: &[T])
    ensures { AllByRecursion T.fits elements.now }
{
    for element in elements {
        element.fit();
    }
}

fn has_all<T, const N: usize>(row: &[T; N])
    ensures { length row.now ≡ N }
{}

fn words_fit<const N: usize>(words: &[u32; N])
    ensures { AreWords N words.now }
{
    each_is_word(words);
}

fn each_is_word(words: &[u32])
    ensures { (i : ℕ) → slice_index words.now i < 2 ^ 32 }
{}

fn bytes_fit(bytes: &[u8])
    ensures { AreBytes bytes.now }
{}

// ---- Threads and resources

impl Fits for Thread {
    ghost fits = { ThreadFits };

    fn fit(&self) {
        words_fit(&self.r);
        word_fits(self.cp);
        word_fits(self.dp);
        word_fits(self.sp);
        word_fits(self.lr);
        word_fits(self.pc);
        word_fits(self.spc);
        word_fits(self.et);
        word_fits(self.ed);
        word_fits(self.sed);
        word_fits(self.kep);
        word_fits(self.ksp);
    }
}

fn word_fits(n: u32)
    ensures { n < 2 ^ 32 }
{}

impl Fits for ChanState {
    ghost fits = { ChanFits };

    fn fit(&self) {
        dest_fits(self.dest);
        buffer_fits(&self.output);
        buffer_fits(&self.input);
    }
}

fn dest_fits(dest: Option<u32>)
    ensures { IfSome dest (λ id. id < 2 ^ 32) }
{
    if let Some(_id) = dest {}
}

fn buffer_fits(tokens: &ArrayVec<Token, 8>)
    ensures { BufferFits tokens.now }
{
    let _count = tokens.len();
    each_fits(tokens);
}

impl Fits for Token {
    ghost fits = { TokenFits };

    fn fit(&self) {
        token_fits(*self);
    }
}

fn token_fits(token: Token)
    ensures { TokenFits token }
{
    match token {
        Token::Byte(_b) => {}
        Token::Ctrl(_c) => {}
    }
}

impl Fits for TimerState {
    ghost fits = { TimerFits };

    fn fit(&self) {
        word_fits(self.value);
    }
}

impl Fits for ClockState {
    ghost fits = { ClockFits };

    fn fit(&self) {
        let _div = self.div;
    }
}

impl Fits for SyncState {
    ghost fits = { SyncFits };

    fn fit(&self) {
        let _slaves = self.slaves;
    }
}

impl Fits for EnableState {
    ghost fits = { EnableFits };

    fn fit(&self) {
        word_fits(self.vector);
        word_fits(self.env);
    }
}

// ---- Ports

impl Fits for PortState {
    ghost fits = { FitsHalves };

    fn fit(&self) {
        half_fits(self.counter);
        time_fits(self.time);
        transfer_fits(self.tr);
        half_fits(self.sample_stamp);
        half_fits(self.stamp);
    }
}

fn half_fits(n: u16)
    ensures { n < 2 ^ 16 }
{}

fn time_fits(time: Option<u16>)
    ensures { IfSome time (λ t. t < 2 ^ 16) }
{
    if let Some(_t) = time {}
}

fn transfer_fits(tr: Option<Transfer>)
    ensures { IfSome tr (λ tr. IfSome tr.time (λ t. t < 2 ^ 16)) }
{
    if let Some(tr) = tr {
        time_fits(tr.time);
    }
}

// ---- Switch and link ends

impl Fits for InputState {
    ghost fits = { InputFits };

    fn fit(&self) {
        input_fits(*self);
    }
}

fn input_fits(state: InputState)
    ensures { InputFits state }
{
    match state {
        InputState::Head1 { first: _first } => {}
        InputState::Head2 {
            first: _first,
            second: _second,
        } => {}
        InputState::Want { dest: _dest, .. } => {}
        InputState::Out { dest: _dest, .. } => {}
        _ => {}
    }
}

impl Fits for EndState {
    ghost fits = { EndFits };

    fn fit(&self) {
        buffer_fits(&self.buffer);
    }
}
