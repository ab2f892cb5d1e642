//! The numbers of a call.
ghost use Rattle.std.specs.Prelude.{◌≡◌, ◌+◌, ◌≤◌, length, Some, None, if◌then◌else◌};
ghost use Rattle.std.specs.List.{list_all};
ghost use Rattle.std.specs.Char.{is_ascii_digit};
ghost use Rattle.opl_words.specs.Requests.{count_of as the_count, decimal as the_decimal, number_in as the_number, seed_of as the_seed, size_of as the_size};

/// The most digits that a number has: so many are less than `2^64` in value.
const MAX_DIGITS: usize = 19;

/// The greatest count, and the greatest seed.
const MAX: u64 = (1 << 63) - 1;

/// The greatest size of a generated model.
const MAX_SIZE: u64 = 1_000;

/// The value of decimal digits, or none where another byte stands among them.
fn decimal(digits: &[u8]) -> Option<u64>
    requires { length digits.now ≤ 19 }
    ensures { result ≡ if list_all is_ascii_digit digits.now then Some (the_decimal digits.now) else None }
{
    let mut value: u64 = 0;
    for digit in digits {
        if !digit.is_ascii_digit() {
            return None;
        }
        value = 10 * value + u64::from(*digit - b'0');
    }
    Some(value)
}

/// The number that a word is: 1 to 19 decimal digits, of a value from `least` to `greatest`.
fn number_in(least: u64, greatest: u64, word: &str) -> Option<u64>
    ensures { result ≡ the_number least (greatest + 1) word.now }
{
    let digits = word.as_bytes();
    if digits.is_empty() || digits.len() > MAX_DIGITS {
        return None;
    }
    let number = decimal(digits)?;
    if number < least || number > greatest {
        return None;
    }
    Some(number)
}

/// How many choices or solutions a word allows: 1 to `2^63 - 1`.
pub(crate) fn count_of(word: &str) -> Option<u64>
    ensures { result ≡ the_count word.now }
{
    number_in(1, MAX, word)
}

/// How large a generated model is by a word: 1 to 1,000.
pub(crate) fn size_of(word: &str) -> Option<u64>
    ensures { result ≡ the_size word.now }
{
    number_in(1, MAX_SIZE, word)
}

/// From what a generated model's numbers are drawn, by a word: 0 to `2^63 - 1`.
pub(crate) fn seed_of(word: &str) -> Option<u64>
    ensures { result ≡ the_seed word.now }
{
    number_in(0, MAX, word)
}
