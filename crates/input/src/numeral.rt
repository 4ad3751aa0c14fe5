// The value of a numeral, digit by digit.
ghost use Rattle.std.specs.Prelude.{◌≡◌, ◌+◌, ◌*◌, min};
ghost use Rattle.std.specs.Option.{unwrap_or};

// The value with one more digit. Before the first digit there is none, and past 255 it stays at 255.
pub(crate) fn with_digit(numeral: Option<u8>, digit: u8) -> u8
    ensures { result ≡ min (unwrap_or numeral 0 * 10 + digit) 255 }
{
    numeral
        .unwrap_or(0)
        .saturating_mul(10)
        .saturating_add(digit)
}
