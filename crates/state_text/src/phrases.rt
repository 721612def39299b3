//! Longer pieces of the text.
ghost use Rattle.std.specs.Prelude.{◌≡◌, codes};

pub(crate) fn value_not() -> &'static [u8]
    ensures { result.now ≡ codes ", value not " }
{
    b", value not "
}

pub(crate) fn a_packet_to() -> &'static [u8]
    ensures { result.now ≡ codes "a packet to " }
{
    b"a packet to "
}

pub(crate) fn a_packet_into() -> &'static [u8]
    ensures { result.now ≡ codes "a packet into " }
{
    b"a packet into "
}

pub(crate) fn looks_for_a_way() -> &'static [u8]
    ensures { result.now ≡ codes " looks for a way on network " }
{
    b" looks for a way on network "
}

pub(crate) fn lost_packet() -> &'static [u8]
    ensures { result.now ≡ codes "a lost packet" }
{
    b"a lost packet"
}

pub(crate) fn tokens_wait() -> &'static [u8]
    ensures { result.now ≡ codes " tokens wait\n" }
{
    b" tokens wait\n"
}

pub(crate) fn tokens_wait_and() -> &'static [u8]
    ensures { result.now ≡ codes " tokens wait, " }
{
    b" tokens wait, "
}

pub(crate) fn without_credit() -> &'static [u8]
    ensures { result.now ≡ codes " of 8 sent without credit\n" }
{
    b" of 8 sent without credit\n"
}

pub(crate) fn to_be_taken() -> &'static [u8]
    ensures { result.now ≡ codes " of 8 tokens wait to be taken\n" }
{
    b" of 8 tokens wait to be taken\n"
}

pub(crate) fn the_divider() -> &'static [u8]
    ensures { result.now ≡ codes "the divider, free in " }
{
    b"the divider, free in "
}

pub(crate) fn all_in() -> &'static [u8]
    ensures { result.now ≡ codes ", whose slaves are all in" }
{
    b", whose slaves are all in"
}

pub(crate) fn not_in() -> &'static [u8]
    ensures { result.now ≡ codes ", whose slaves are not in:" }
{
    b", whose slaves are not in:"
}
