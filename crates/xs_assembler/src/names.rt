ghost use Rattle.std.specs.Prelude.{◌≡◌, [], false, IsErr, IsTrue, OnOk, is_some, length, take};
ghost use Rattle.xs_text.specs.Tokens.{is_name};
ghost use Rattle.xs_instructions.specs.Image.{is_reserved};
ghost use Rattle.xs_instructions.specs.SourceHash.{source_key};
ghost use Rattle.source_model.specs.Layout.{define, place_of};
ghost use Rattle.xs_assembler.specs.Names.{labels_at};

use source_model::Place;
use std::alloc::{AllocError, Global};
use std::marker::Model;
use xs_instructions::{Symbols, is_reserved};

// Labels in the order of their definition, each name once. The names are kept as the image's symbols to be, which get
// their addresses once all lines are read.
#[derive(Drop)]
pub struct Names {
    symbols: Symbols,
    places: Vec<Place>,
}

impl Model for Names {
    ghost use Rattle.std.specs.Prelude.{◌≡◌, length};
    ghost use Rattle.xs_assembler.specs.Names.{NameTable, labels_at};

    ghost Value = { NameTable };

    ghost view = { λ n. record { labels = labels_at n.symbols.labels n.places.items; key = n.symbols.key } };

    ghost invariant = { λ n. length n.places.items ≡ length n.symbols.labels };
}

impl Names {
    // No names of this source yet. It takes no memory.
    pub fn of_source(alloc: Global, source: &[u8]) -> Names
        ensures empty { result.labels ≡ [] }
        ensures keyed { result.key ≡ source_key source.now }
    {
        Names {
            symbols: Symbols::of_source(alloc, source),
            places: Vec::new(alloc),
        }
    }

    // Where the name stands, if it does.
    pub fn find(&self, name: &[u8]) -> Option<Place>
        ensures { result ≡ place_of self.now.labels name.now }
    {
        match self.symbols.number(name) {
            Some(k) => Some(self.places[k]),
            None => None,
        }
    }

    // How many names there are.
    pub fn count(&self) -> usize
        ensures { result ≡ length self.now.labels }
    {
        self.symbols.count()
    }

    // Whether one of the first labels has the name.
    pub fn is_among(&self, first: usize, name: &[u8]) -> bool
        ensures { result ≡ is_some (place_of (take first self.now.labels) name.now) }
    {
        match self.symbols.number(name) {
            Some(k) => k < first,
            None => false,
        }
    }

    // Puts a label at the end, if its name may be a label's and has no place. A reserved name takes no memory.
    pub fn define(&mut self, alloc: Global, name: &[u8], place: Place) -> Result<(), AllocError>
        requires { IsTrue (is_name name.now) }
        ensures defined { OnOk result (self.new.labels ≡ define place name.now self.old.labels) }
        ensures keyed { self.new.key ≡ self.old.key }
        ensures memory { IsErr result → is_reserved name.now ≡ false }
    {
        if is_reserved(name) {
            return Ok(());
        }
        self.places.reserve(1)?;
        if self.symbols.define(alloc, name, 0)? {
            self.places.push(place)?;
        }
        Ok(())
    }

    // The names as symbols without addresses, and the place of each.
    pub fn into_parts(self) -> (Symbols, Vec<Place>)
        ensures labels { labels_at result.0.labels result.1.items ≡ self.labels }
        ensures places { length result.1.items ≡ length result.0.labels }
        ensures keyed { result.0.key ≡ self.key }
    {
        let Names { symbols, places } = self;
        (symbols, places)
    }
}
