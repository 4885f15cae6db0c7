//! An IPv4 address, as four decimal numbers between dots.

ghost use Rattle.std.specs.Prelude.{◌≡◌, option_map};
ghost use Rattle.option_file.specs.Address.{address_of, number_of, octet_of};
ghost use Rattle.option_file.specs.AddressCuts.{address_by_cuts, cut_of};

/// The byte that three digits spell, if there is one.
fn number(hundreds: u8, tens: u8, ones: u8) -> Option<u8>
    ensures { result ≡ number_of hundreds tens ones }
{
    if !hundreds.is_ascii_digit() || !tens.is_ascii_digit() || !ones.is_ascii_digit() {
        return None;
    }
    let value = (hundreds - b'0') as u32 * 100 + (tens - b'0') as u32 * 10 + (ones - b'0') as u32;
    if value <= 255 {
        Some(value as u8)
    } else {
        None
    }
}

/// The byte that one to three digits spell.
fn octet(text: &[u8]) -> Option<u8>
    ensures { result ≡ octet_of text.now }
{
    match text {
        [ones] => number(b'0', b'0', *ones),
        [tens, ones] => number(b'0', *tens, *ones),
        [hundreds, tens, ones] => number(*hundreds, *tens, *ones),
        _ => None,
    }
}

/// What stands before the first dot, and what behind it.
fn cut(text: &str) -> Option<(&str, &str)>
    ensures { option_map (λ parts. (parts.0.now, parts.1.now)) result ≡ cut_of text.now }
{
    text.split_once('.')
}

/// The address that three cuts at the first dot find.
fn by_cuts(text: &str) -> Option<[u8; 4]>
    ensures { result ≡ address_by_cuts text.now }
{
    let (first, rest) = cut(text)?;
    let (second, rest) = cut(rest)?;
    let (third, fourth) = cut(rest)?;
    let first = octet(first.as_bytes())?;
    let second = octet(second.as_bytes())?;
    let third = octet(third.as_bytes())?;
    let fourth = octet(fourth.as_bytes())?;
    Some([first, second, third, fourth])
}

/// The address that a text spells, if it spells one: four numbers with a dot between each two.
pub(crate) fn address(text: &str) -> Option<[u8; 4]>
    ensures { result ≡ address_of text.now }
{
    by_cuts(text)
}
