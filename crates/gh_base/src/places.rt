//! The 128 places of a table as bits: a place is taken where its bit is 1.

ghost use Rattle.std.specs.Prelude.{◌≡◌, ◌≢◌, ◌==◌, ℕ, ◌-◌, ◌^◌, ◌<◌};
ghost use Rattle.std.specs.Int.{bit_at};

/// The least place that isn't taken.
pub fn first_free_place(bits: u128) -> usize
    requires { bits ≢ 2 ^ 128 - 1 }
    ensures within { result < 128 }
    ensures free { bit_at bits result ≡ 0 }
    ensures taken_before { (place : ℕ) → place < result → bit_at bits place ≡ 1 }
{
    bits.trailing_ones() as usize
}

/// The bits after one place is taken or freed.
pub fn with_place(bits: u128, place: usize, free: bool) -> u128
    requires { place < 128 }
    ensures here { free ≡ (bit_at result place == 0) }
    ensures others { (other : ℕ) → other < 128 → other ≢ place
        → bit_at result other ≡ bit_at bits other }
{
    let bit = 1u128 << place;
    if free { bits & !bit } else { bits | bit }
}
