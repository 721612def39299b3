//! `Enabling`, what one resource gives.
ghost use Rattle.std.specs.Prelude.{◌≡◌, Some};
ghost use Rattle.xs_model.specs.Record.{not_enabled};
ghost use Rattle.xs_model.specs.Enabling.{with_vector, with_environment, in_mode};
ghost use Rattle.event_unit.specs.Ready.{choice_of};
ghost use Rattle.event_unit.specs.States.{enable_state, enable_of};

use crate::answers::Choice;
use crate::state::EnableState;
use std::marker::Model;

/// What a resource gives where it is ready, and to which thread. Contracts see it as an `EnablingRec` of
/// `Rattle.xs_model.specs.Record`.
#[derive(Clone, Copy)]
pub(crate) struct Enabling {
    vector: u32,
    env: u32,
    interrupt: bool,
    thread: Option<u8>,
}

impl Model for Enabling {
    ghost use Rattle.xs_model.specs.Record.{EnablingRec};

    ghost Value = { EnablingRec };

    ghost view = { λ e. record { vector = e.vector; environment = e.env; interrupt = e.interrupt; thread = e.thread } };

    ghost inverse = { λ e. record { vector = e.vector; env = e.environment; interrupt = e.interrupt; thread = e.thread } };
}

impl Enabling {
    /// What a resource gives of which nothing is set.
    pub(crate) fn none() -> Enabling
        ensures { result ≡ not_enabled }
    {
        Enabling {
            vector: 0,
            env: 0,
            interrupt: false,
            thread: None,
        }
    }

    #[inline]
    pub(crate) fn thread(&self) -> Option<u8>
        ensures { result ≡ self.now.thread }
    {
        self.thread
    }

    #[inline]
    pub(crate) fn interrupt(&self) -> bool
        ensures { result ≡ self.now.interrupt }
    {
        self.interrupt
    }

    /// The same, enabled by this thread, or disabled.
    pub(crate) fn with_thread(self, thread: Option<u8>) -> Enabling
        ensures { result ≡ record self { thread = thread } }
    {
        Enabling { thread, ..self }
    }

    pub(crate) fn with_vector(self, vector: u32) -> Enabling
        ensures { result ≡ with_vector vector self }
    {
        Enabling { vector, ..self }
    }

    pub(crate) fn with_env(self, env: u32) -> Enabling
        ensures { result ≡ with_environment env self }
    {
        Enabling { env, ..self }
    }

    pub(crate) fn in_mode(self, interrupt: bool) -> Enabling
        ensures { result ≡ in_mode interrupt self }
    {
        Enabling { interrupt, ..self }
    }

    /// What a thread takes of it.
    #[inline]
    pub(crate) fn choice(&self) -> Choice
        ensures { Some result ≡ choice_of (Some self.now) }
    {
        Choice {
            interrupt: self.interrupt,
            vector: self.vector,
            env: self.env,
        }
    }

    /// What a snapshot keeps of it.
    pub(crate) fn state(self) -> EnableState
        ensures { result ≡ enable_state self }
    {
        EnableState {
            vector: self.vector,
            env: self.env,
            interrupt: self.interrupt,
            by: self.thread,
        }
    }

    /// What a snapshot keeps, again.
    pub(crate) fn of_state(state: EnableState) -> Enabling
        ensures { result ≡ enable_of state }
    {
        Enabling {
            vector: state.vector,
            env: state.env,
            interrupt: state.interrupt,
            thread: state.by,
        }
    }
}
