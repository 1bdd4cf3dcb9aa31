// The first least of the distances to the centroids of a part.
ghost use Rattle.std.specs.Prelude.{◌≡◌, ◌<◌, ◌==◌, length};
ghost use Rattle.std.specs.List.{position_or_len};
ghost use Rattle.ann_types.specs.Codes.{least};

/// The least of some numbers.
#[inline]
fn least_of(numbers: &[u32]) -> u32
    requires { 0 < length numbers.now }
    ensures { result ≡ least numbers.now }
{
    let mut lowest = u32::MAX;
    for number in numbers {
        lowest = lowest.min(*number);
    }
    lowest
}

/// The first place of the least of 256 numbers.
#[inline]
pub(crate) fn first_least(numbers: &[u32]) -> u8
    requires { length numbers.now ≡ 256 }
    ensures { result ≡ position_or_len (λ number. number == least numbers.now) numbers.now }
{
    let lowest = least_of(numbers);
    for place in 0..255 {
        if numbers[usize::from(place)] == lowest {
            return place;
        }
    }
    255
}
