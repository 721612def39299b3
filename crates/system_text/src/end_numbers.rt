//! Lists of the numbers of a node's link ends, 0 to 7.
ghost use Rattle.std.specs.Prelude.{◌≡◌, ◌==◌};
ghost use Rattle.std.specs.List.{list_any};
ghost use Rattle.system_model.specs.Frame.{stands_twice};

// Whether a number stands twice.
pub fn stands_twice(ends: &[u8]) -> bool
    ensures { result ≡ stands_twice ends.now }
{
    match ends {
        [] => false,
        [end, others @ ..] => is_among(others, *end) || stands_twice(others),
    }
}

// Whether a number is one of these.
pub fn is_among(ends: &[u8], end: u8) -> bool
    ensures { result ≡ list_any (λ e. e == end) ends.now }
{
    ends.iter().any(|e| *e == end)
}
