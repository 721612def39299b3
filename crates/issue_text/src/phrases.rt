//! Longer pieces of the text: as bytes of texts, which are proved sooner than long literals of bytes.
ghost use Rattle.std.specs.Prelude.{◌≡◌, codes};

pub(crate) fn takes_an_event() -> &'static [u8]
    ensures { result.now ≡ codes "; not executed: takes an event and goes to " }
{
    "; not executed: takes an event and goes to ".as_bytes()
}

pub(crate) fn takes_an_interrupt() -> &'static [u8]
    ensures { result.now ≡ codes "; not executed: takes an interrupt and goes to " }
{
    "; not executed: takes an interrupt and goes to ".as_bytes()
}

pub(crate) fn and_halts() -> &'static [u8]
    ensures { result.now ≡ codes " and halts at " }
{
    " and halts at ".as_bytes()
}

pub(crate) fn and_goes() -> &'static [u8]
    ensures { result.now ≡ codes " and goes to " }
{
    " and goes to ".as_bytes()
}

pub(crate) fn goes_to() -> &'static [u8]
    ensures { result.now ≡ codes "; goes to " }
{
    "; goes to ".as_bytes()
}

pub(crate) fn pauses_for() -> &'static [u8]
    ensures { result.now ≡ codes "; pauses for " }
{
    "; pauses for ".as_bytes()
}

pub(crate) fn end_of_output() -> &'static [u8]
    ensures { result.now ≡ codes "the end of output at " }
{
    "the end of output at ".as_bytes()
}

pub(crate) fn the_divider() -> &'static [u8]
    ensures { result.now ≡ codes "the divider" }
{
    "the divider".as_bytes()
}
