//! A value in which few bytes are alike.
ghost use Rattle.std.specs.Prelude.{◌≡◌, ℕ, ◌+◌, ◌*◌, ◌%◌, ◌<◌, slice_index};

/// The bytes of which the one at `i` is the rest of `i * 7 + 3` by 251.
pub(crate) fn pattern() -> [u8; 1024]
    ensures { (k : ℕ) → k < 1024 → slice_index result k ≡ (k * 7 + 3) % 251 }
{
    std::array::from_fn(
        |i: usize| -> u8
            requires { i < 1024 }
            ensures { result ≡ (i * 7 + 3) % 251 }
        { ((i * 7 + 3) % 251) as u8 },
    )
}
