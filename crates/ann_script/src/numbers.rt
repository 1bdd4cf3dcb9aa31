ghost use Rattle.std.specs.Prelude.{◌≡◌, ◌<◌, ◌+◌, ◌-◌, ◌*◌, ◌^◌, ◌≤◌, IfSome, true};
ghost use Rattle.std.specs.Char.{is_ascii_digit};
ghost use Rattle.std.specs.Option.{SomeIff};
ghost use Rattle.ann_script.specs.Words.{digits_after, at_most, number_of};

/// The number with one digit more, where it fits.
fn with_digit(value: u64, digit: u8) -> Option<u64>
    requires { is_ascii_digit digit ≡ true }
    ensures { SomeIff result (10 * value + (digit - 48) < 2 ^ 64) (10 * value + (digit - 48)) }
{
    value.checked_mul(10)?.checked_add(u64::from(digit - b'0'))
}

/// The number that digits are, where it fits.
#[tactic(auto, using(crate::proofs::Digits::digit_steps))]
fn digits(word: &[u8]) -> Option<u64>
    ensures { result ≡ at_most (2 ^ 64 - 1) (digits_after 0 word.now) }
{
    let mut value = 0u64;
    for digit in word {
        if !digit.is_ascii_digit() {
            return None;
        }
        value = with_digit(value, *digit)?;
    }
    Some(value)
}

/// The number that a word is: decimal digits, without a sign or a leading zero, of at most `most`.
pub fn number(word: &[u8], most: u64) -> Option<u64>
    ensures value { result ≡ number_of most word.now }
    ensures bound { IfSome result (λ n. n ≤ most) }
{
    let value = match word {
        [] => None,
        [b'0', _, ..] => None,
        _ => digits(word),
    }?;
    if value <= most { Some(value) } else { None }
}
