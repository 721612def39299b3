//! `Warnings`, what is warned of, as it is found.
ghost use Rattle.std.specs.Prelude.{◌≡◌, ◌++◌, [], map, option_map, OnOk};
ghost use Rattle.warning_model.specs.Warning.{warn};
ghost use Rattle.warning_text.specs.Kept.{doubt_of, site_of, warning_of};

use std::alloc::{AllocError, Global};
use std::marker::Model;

/// A line of a node's source, counted from 1.
#[derive(Clone, Copy)]
pub(crate) struct InSource {
    pub(crate) node: u8,
    pub(crate) line: u32,
}

/// A line: where it stands in a source, None where it is one of the frame, its number in the whole text, from 1, and its bytes.
#[derive(Clone, Copy)]
pub(crate) struct Site<'a> {
    pub(crate) source: Option<InSource>,
    pub(crate) number: u32,
    pub(crate) bytes: &'a [u8],
}

/// What is most likely a mistake. Nodes are told by number, and labels and registers by name.
#[derive(Clone, Copy)]
pub(crate) enum Doubt<'a> {
    /// The id of a node differs from that of no other node first in this bit.
    NoDifference { node: u8, bit: u8 },
    /// A node has no line for this bit, in which its id differs first from that of another node, to which links lead.
    NoWay { node: u8, other: u8, bit: u8 },
    /// Nothing keeps a thread from running off the end of the code.
    CodeEnds,
    /// A label that is named has no instruction after it.
    NothingBehind(&'a [u8]),
    /// Nothing names a label.
    LabelUnnamed(&'a [u8]),
    /// A resource is got into a register that nothing names.
    RegisterUnnamed(&'a [u8]),
    /// No node has the id of this identifier of a channel end.
    NoSuchId(u32),
}

/// A line, and what is doubted in it.
#[derive(Clone, Copy)]
pub(crate) struct Warning<'a> {
    pub(crate) site: Site<'a>,
    pub(crate) doubt: Doubt<'a>,
}

/// What is warned of so far. Contracts see the list of it.
#[derive(Drop)]
pub(crate) struct Warnings<'a> {
    found: Vec<Warning<'a>>,
}

impl<'a> Model for Warnings<'a> {
    ghost use Rattle.std.specs.Prelude.{List, map};
    ghost use Rattle.warning_model.specs.Warning as model;
    ghost use Rattle.warning_text.specs.Kept.{warning_of};

    ghost Value = { List model.Warning };

    ghost view = { λ w. map warning_of w.found.items };
}

impl<'a> Warnings<'a> {
    /// Nothing yet. It takes no memory.
    pub(crate) fn new(alloc: Global) -> Warnings<'a>
        ensures { result ≡ [] }
    {
        Warnings {
            found: Vec::new(alloc),
        }
    }

    /// Takes what is doubted in a line, if something is. The error is want of memory.
    pub(crate) fn add(&mut self, site: Site<'a>, doubt: Option<Doubt<'a>>) -> Result<(), AllocError>
        ensures { OnOk result (self.new ≡ self.old ++ warn (site_of site.entry) (option_map doubt_of doubt.entry)) }
    {
        if let Some(doubt) = doubt {
            self.found.push(Warning { site, doubt })?;
        }
        Ok(())
    }

    /// All of it, in the order in which it was found.
    pub(crate) fn all(&self) -> &[Warning<'a>]
        ensures { map warning_of result.now ≡ self.now }
    {
        self.found.as_slice()
    }
}
