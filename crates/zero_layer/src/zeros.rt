ghost use Rattle.std.specs.Prelude.{◌≡◌, length, MatchBool, ◌≢◌};
ghost use Rattle.zero_layer.specs.Zeros.{zeros, is_zeros};

// Whether every byte is zero. The fold has no way out before its end, so that it is compiled to vector instructions.
pub fn is_zero(page: &[u8]) -> bool
    ensures test { result ≡ is_zeros page.now }
    ensures tells { MatchBool result (page.now ≡ zeros (length page.now)) (page.now ≢ zeros (length page.now)) }
{
    page.iter().fold(0, |seen, byte| seen | byte) == 0
}
