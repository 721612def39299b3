//! Pieces of what is written: as bytes of texts, which are proved sooner than long literals of bytes.
ghost use Rattle.std.specs.Prelude.{◌≡◌, codes};

pub(crate) fn has_slot() -> &'static [u8]
    ensures { result.now ≡ codes " has slot " }
{
    " has slot ".as_bytes()
}

pub(crate) fn gives_it_already() -> &'static [u8]
    ensures { result.now ≡ codes " gives it already\n" }
{
    " gives it already\n".as_bytes()
}

pub(crate) fn has_width() -> &'static [u8]
    ensures { result.now ≡ codes " has width " }
{
    " has width ".as_bytes()
}
