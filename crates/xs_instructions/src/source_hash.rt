ghost use Rattle.std.specs.Prelude.{◌≡◌, fold};
ghost use Rattle.std.specs.Hash.{u64 as fed_u64};
ghost use Rattle.std.specs.Hash.DefaultHasher.{initial, write as sip_write};
ghost use Rattle.xs_instructions.specs.SourceHash.{source_key};

use std::hash::{BuildHasher, DefaultHasher, Hasher};

// A hash of names that first takes a number hashed from a whole source: whoever changes a name changes the number too, so
// names that fall together are found only by trying whole sources.
#[derive(Clone, Copy, Debug, PartialEq, Eq)]
pub struct SourceHash {
    key: u64,
}

impl SourceHash {
    // The hash for the names of a source.
    pub fn of_source(text: &[u8]) -> SourceHash
        ensures { result ≡ record { key = source_key text.now } }
    {
        let mut state = DefaultHasher::new();
        state.write(text);
        SourceHash {
            key: state.finish(),
        }
    }
}

impl BuildHasher for SourceHash {
    type Hasher = DefaultHasher;

    ghost build_hasher = { λ s. fold sip_write initial (fed_u64 s.key) };

    fn build_hasher(&self) -> DefaultHasher {
        let mut state = DefaultHasher::new();
        state.write_u64(self.key);
        state
    }
}
