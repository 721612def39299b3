//! `TransferWord`, what a transfer register holds.
use std::marker::Model;

/// What a port's transfer register holds: a value of so many bits, and for an output the time that it waits for.
/// Contracts see it as a `TransferRec` of `Rattle.xs_model.specs.Record`.
#[derive(Clone, Copy)]
pub(crate) struct TransferWord {
    pub(crate) value: u32,
    pub(crate) bits: u32,
    pub(crate) time: Option<u16>,
}

impl Model for TransferWord {
    ghost use Rattle.xs_model.specs.Record.{TransferRec};

    ghost Value = { TransferRec };

    ghost view = { λ t. record { value = t.value; bits = t.bits; time = t.time } };

    ghost inverse = { λ t. record { value = t.value; bits = t.bits; time = t.time } };
}
