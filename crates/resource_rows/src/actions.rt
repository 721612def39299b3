//! What the rows on channel ends do there. See docs/LINKS.md.
ghost use Rattle.std.specs.Prelude.{◌≡◌, ◌<◌};
ghost use Rattle.xs_base.specs.declared.numbers.TheConstants.{CHAN_ENDS};
ghost use Rattle.net_model.specs.Chans.{found_at, take_dest, tell_dest, take_net, tell_net};
ghost use Rattle.chan_ends.specs.Ends.{chan_at, chans_after};
ghost use Rattle.chan_ends.specs.Answers.{take_answer};
ghost use Rattle.resource_rows.specs.Actions.{does, waits, of_put};

use chan_ends::{ChanEnds, Put, Take};
use xs_base::Token;
use xs_model::Wait;

/// What a row does at a channel end.
#[derive(Clone, Copy)]
pub(crate) enum Action {
    Put(Token),
    PutWord(u32),
    TakeWord,
    TakeByte,
    TakeCtrl,
    /// Takes the control token of a value.
    Check(u32),
    /// Looks whether a control token is first.
    Look,
    /// Looks where among the first four tokens the first control token is.
    LookWord,
    SetDest(u32),
    TellDest,
    SetNet(u32),
    TellNet,
}

impl Action {
    /// Does it at a channel end. What is put, and a destination or a network that is set, leaves no word: the answer has 0 then.
    pub(crate) fn at(self, chans: &mut ChanEnds, c: u8) -> Take
        requires { c < CHAN_ENDS }
        ensures answer { result ≡ take_answer (found_at (does self) (chan_at chans.old c)) }
        ensures after { chans.new ≡ chans_after chans.old c (found_at (does self) (chan_at chans.old c)) }
    {
        match self {
            Action::Put(t) => of_put(chans.put(c, t)),
            Action::PutWord(word) => of_put(chans.put_word(c, word)),
            Action::TakeWord => chans.take_word(c),
            Action::TakeByte => chans.take_byte(c),
            Action::TakeCtrl => chans.take_ctrl(c),
            Action::Check(value) => chans.check(c, value),
            Action::Look => chans.look(c),
            Action::LookWord => chans.look_word(c),
            Action::SetDest(dest) => set_dest(chans, c, dest),
            Action::TellDest => tell_dest(chans, c),
            Action::SetNet(n) => set_net(chans, c, n),
            Action::TellNet => tell_net(chans, c),
        }
    }

    /// What a thread waits for where it cannot be done yet. Destinations and networks are set and told at once.
    pub(crate) fn wait(self, chan: u8) -> Wait
        ensures { result ≡ waits self chan }
    {
        match self {
            Action::Put(_) => Wait::Room { chan, count: 1 },
            Action::PutWord(_) => Wait::Room { chan, count: 4 },
            Action::TakeWord | Action::LookWord => Wait::Tokens { chan, count: 4 },
            Action::TakeByte | Action::TakeCtrl | Action::Check(_) | Action::Look => {
                Wait::Tokens { chan, count: 1 }
            }
            Action::SetDest(_) | Action::TellDest => Wait::Choice,
            Action::SetNet(_) | Action::TellNet => Wait::Choice,
        }
    }
}

// What became of tokens that were put, as an answer with no word.
fn of_put(put: Put) -> Take
    ensures { result ≡ of_put put }
{
    match put {
        Put::Done => Take::Got(0),
        Put::Full => Take::Wait,
        Put::Bad => Take::Bad,
    }
}

// The channel end takes a destination.
fn set_dest(chans: &mut ChanEnds, c: u8, dest: u32) -> Take
    requires { c < CHAN_ENDS }
    ensures answer { result ≡ take_answer (found_at (take_dest dest) (chan_at chans.old c)) }
    ensures after { chans.new ≡ chans_after chans.old c (found_at (take_dest dest) (chan_at chans.old c)) }
{
    match chans.set_dest(c, dest) {
        Ok(()) => Take::Got(0),
        Err(_) => Take::Bad,
    }
}

// The channel end tells its destination, 0 where it has none.
fn tell_dest(chans: &ChanEnds, c: u8) -> Take
    requires { c < CHAN_ENDS }
    ensures answer { result ≡ take_answer (found_at tell_dest (chan_at chans.now c)) }
    ensures unchanged { chans.now ≡ chans_after chans.now c (found_at tell_dest (chan_at chans.now c)) }
{
    if !chans.used(c) {
        return Take::Bad;
    }
    match chans.dest(c) {
        None => Take::Got(0),
        Some(dest) => Take::Got(dest),
    }
}

// The channel end takes a network.
fn set_net(chans: &mut ChanEnds, c: u8, n: u32) -> Take
    requires { c < CHAN_ENDS }
    ensures answer { result ≡ take_answer (found_at (take_net n) (chan_at chans.old c)) }
    ensures after { chans.new ≡ chans_after chans.old c (found_at (take_net n) (chan_at chans.old c)) }
{
    match chans.set_net(c, n) {
        Ok(()) => Take::Got(0),
        Err(_) => Take::Bad,
    }
}

// The channel end tells its network.
fn tell_net(chans: &ChanEnds, c: u8) -> Take
    requires { c < CHAN_ENDS }
    ensures answer { result ≡ take_answer (found_at tell_net (chan_at chans.now c)) }
    ensures unchanged { chans.now ≡ chans_after chans.now c (found_at tell_net (chan_at chans.now c)) }
{
    if !chans.used(c) {
        return Take::Bad;
    }
    Take::Got(u32::from(chans.net(c)))
}
