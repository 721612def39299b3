ghost use Rattle.std.specs.Prelude.{◌≡◌, [], ◌<◌, None, IsTrue, IfOk, IfSome, OnOk, OnErr, is_none, length, option_map};
ghost use Rattle.xs_text.specs.Tokens.{is_name};
ghost use Rattle.xs_instructions.specs.Image.{address_of, defined, is_reserved, number_of, symbol_at, symbol_of_pair, with_address};
ghost use Rattle.xs_instructions.specs.SourceHash.{source_key};
ghost use Rattle.xs_instructions.specs.Words.{same_name};

use crate::source_hash::SourceHash;
use indexmap::IndexMap;
use std::alloc::{AllocError, Global};
use std::marker::Model;

/// The labels of a source with their addresses, in the order of their definition, each name once (docs/ASSEMBLY.md).
/// Contracts see the list of pairs of a name's bytes and its address, and the number that the hash of names takes first.
#[derive(Drop)]
pub struct Symbols {
    labels: IndexMap<String, u32, SourceHash>,
}

impl Model for Symbols {
    ghost use Rattle.std.specs.Prelude.{map};
    ghost use Rattle.indexmap.specs.IndexMap.{hasher_of};
    ghost use Rattle.xs_instructions.specs.Image.{SymbolTable, symbol_of_entry};

    ghost Value = { SymbolTable };

    ghost view = { λ s. record { labels = map symbol_of_entry s.labels.entries; key = (hasher_of s.labels).key } };
}

impl Symbols {
    /// No labels of this source yet. Names are found by a hash that first takes a number hashed from the whole source, so
    /// that names which fall together are found only by trying whole sources. It takes no memory.
    pub fn of_source(alloc: Global, source: &[u8]) -> Symbols
        ensures empty { result.labels ≡ [] }
        ensures keyed { result.key ≡ source_key source.now }
    {
        Symbols {
            labels: IndexMap::with_hasher(alloc, SourceHash::of_source(source)),
        }
    }

    /// Puts a label at the end, and says whether it did: a name that is defined stays as it is, and takes no memory. The
    /// error is want of memory, and changes nothing.
    pub fn define(&mut self, alloc: Global, name: &[u8], at: u32) -> Result<bool, AllocError>
        requires { IsTrue (is_name name.now) }
        ensures ok { OnOk result (self.new.labels ≡ defined name.now at self.old.labels) }
        ensures is_new { IfOk result (λ is_new. is_new ≡ is_none (address_of self.old.labels name.now)) }
        ensures keyed { self.new.key ≡ self.old.key }
        ensures err { OnErr result (self.new.labels ≡ self.old.labels) }
        ensures memory { OnErr result (address_of self.old.labels name.now ≡ None) }
    {
        if self.address(name).is_some() {
            return Ok(false);
        }
        // A name is ASCII, so nothing in it is replaced.
        let key = String::from_utf8_lossy(alloc, name)?;
        self.labels.insert(key, at)?;
        Ok(true)
    }

    /// Gives the label with the number `k` in the order of definition, from 0, another address.
    pub fn set_address(&mut self, k: usize, at: u32)
        requires { k < length self.old.labels }
        ensures address { self.new.labels ≡ with_address k at self.old.labels }
        ensures keyed { self.new.key ≡ self.old.key }
    {
        self.labels[k] = at;
    }

    /// The address of the label with this name, or None exactly where there is none. Any bytes may be asked for.
    pub fn address(&self, name: &[u8]) -> Option<u32>
        ensures value { result ≡ address_of self.now.labels name.now }
    {
        match str::from_utf8(name) {
            Ok(text) => self.labels.get(text).copied(),
            Err(_) => None,
        }
    }

    /// The number of the label with this name in the order of definition, from 0, or None exactly where there is none. Any
    /// bytes may be asked for.
    pub fn number(&self, name: &[u8]) -> Option<usize>
        ensures value { result ≡ number_of self.now.labels name.now }
        ensures within { IfSome result (λ k. k < length self.now.labels) }
    {
        match str::from_utf8(name) {
            Ok(text) => self.labels.get_index_of(text),
            Err(_) => None,
        }
    }

    /// How many labels there are.
    pub fn count(&self) -> usize
        ensures value { result ≡ length self.now.labels }
    {
        self.labels.len()
    }

    /// The label with the number `k` in the order of definition, from 0, with its address. None comes exactly past
    /// the last.
    pub fn at(&self, k: usize) -> Option<(&str, u32)>
        ensures value { option_map symbol_of_pair result ≡ symbol_at k self.now.labels }
    {
        let (name, at) = self.labels.get_index(k)?;
        Some((name.as_str(), *at))
    }
}

/// Whether two names are the same, byte for byte. Case counts. See docs/ASSEMBLY.md.
pub fn same_name(known: &[u8], name: &[u8]) -> bool
    ensures value { result ≡ same_name known.now name.now }
{
    name == known
}

/// Whether the assembly language keeps a name for itself, so that no label has it: the registers, `t` and `res`. See
/// docs/ASSEMBLY.md.
#[tactic(auto, using(crate::proofs::Names::is_reserved_long))]
pub fn is_reserved(name: &[u8]) -> bool
    ensures value { result ≡ is_reserved name.now }
{
    match name {
        b"r0"
        | b"r1"
        | b"r2"
        | b"r3"
        | b"r4"
        | b"r5"
        | b"r6"
        | b"r7"
        | b"r8"
        | b"r9"
        | b"r10"
        | b"r11"
        | b"cp"
        | b"dp"
        | b"sp"
        | b"lr"
        | b"pc"
        | b"sr"
        | b"spc"
        | b"ssr"
        | b"et"
        | b"ed"
        | b"sed"
        | b"kep"
        | b"ksp"
        | b"id"
        | b"res"
        | b"t" => true,
        _ => false,
    }
}
