//! What the seats at a cell's table know, and the rule that they keep. See docs/LOOKAHEAD.md.
use atomic_table::{Seat, Shared, Table, TableRule};
use link_logs::{Cause, Log, Story};
use std::alloc::Global;
use std::collections::LinkedList;
use std::marker::PhantomData;

/// What the seat of the end that writes knows: the log's run and link, up to which slot the log is published, where it is closed the
/// cause, where this seat has the turn the log as it found it, how often it was refused the turn, and how often it raised the news. No value
/// of it is made.
pub struct Writing<L, N> {
    pub run: N,
    pub number: u32,
    pub published: u32,
    pub cause: Option<Cause>,
    pub held: Option<L>,
    pub refused: u64,
    pub raised: u64,
}

/// What the seat of the end that reads knows: the log's run and link, up to which slot it has read, whether it has found the log closed,
/// where this seat has the turn the log as it found it, how often it was refused the turn, and the log as it found it at each turn that it
/// had, the last first. No value of it is made.
pub struct Reading<L, N> {
    pub run: N,
    pub number: u32,
    pub got: u32,
    pub shut: bool,
    pub held: Option<L>,
    pub refused: u64,
    pub turns: LinkedList<L, Global>,
}

/// What a seat knows. No value of it is made.
pub enum View<L, N> {
    /// One seat for both ends, before they are parted.
    Whole(Writing<L, N>, Reading<L, N>),
    Writer(Writing<L, N>),
    Reader(Reading<L, N>),
    /// One seat for both ends, after they were joined.
    Joined(Writing<L, N>, Reading<L, N>),
    /// A seat that was taken in by another.
    Spent,
}

/// The rule of a cell, `IsCell` of `Rattle.log_cells.specs.Rule`.
pub struct Turns<S> {
    story: PhantomData<S>,
}

impl<S: Story> TableRule<Log<S>, View<Log<S>, S::Run>, link_logs::WriteEnd<S>> for Turns<S> {
    ghost use Rattle.log_cells.specs.Rule.{IsCell, new_view};

    ghost holds = { λ key. IsCell key.run key.number };

    ghost first = { new_view };
}

pub type Place<S> = Seat<Log<S>, View<Log<S>, <S as Story>::Run>>;

pub type Top<S> = Shared<Log<S>, View<Log<S>, <S as Story>::Run>, link_logs::WriteEnd<S>, Turns<S>>;

pub type Board<S> = Table<
    Log<S>,
    View<Log<S>, <S as Story>::Run>,
    link_logs::WriteEnd<S>,
    Turns<S>,
    Global,
>;
