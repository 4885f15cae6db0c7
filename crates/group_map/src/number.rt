//! The numbers of users and groups.

ghost use Rattle.std.specs.Prelude.{◌≡◌, ◌≤◌, if◌then◌else◌, length, None, Some};
ghost use Rattle.std.specs.Char.{is_ascii_digit};
ghost use Rattle.std.specs.List.{list_all};
ghost use Rattle.group_map.specs.Numbers.{id_of, value_of};

/// The most digits of a number.
const MOST_DIGITS: usize = 10;

/// The UID or GID that these digits write. None where they are none or more than ten, where one of
/// them is no ASCII digit, and where the value is above 4294967295.
pub(crate) fn id_of(digits: &[u8]) -> Option<u32>
    ensures { result ≡ id_of digits.now }
{
    if digits.is_empty() {
        return None;
    }
    if digits.len() > MOST_DIGITS {
        return None;
    }
    u32::try_from(value_of(digits)?).ok()
}

/// The value of at most ten digits, and None where one of them is no ASCII digit.
fn value_of(digits: &[u8]) -> Option<u64>
    requires { length digits.now ≤ 10 }
    ensures { result ≡ (if list_all is_ascii_digit digits.now then Some (value_of digits.now)
        else None) }
{
    let mut value = 0u64;
    'digits: for digit in digits {
        if !digit.is_ascii_digit() {
            return None;
        }
        value = value * 10 + u64::from(digit - b'0');
    }
    Some(value)
}
