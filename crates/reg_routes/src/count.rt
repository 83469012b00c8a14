//! How many tags are asked for.
ghost use Rattle.std.specs.Prelude.{◌≡◌};
ghost use Rattle.reg_routes.specs.Queries.{count_text};

/// The most digits of a count.
pub const COUNT_DIGITS: usize = 9;

/// The number that 1 to 9 decimal digits write, and `None` for another text.
pub(crate) fn count_in(text: &[u8]) -> Option<u64>
    ensures { result ≡ count_text text.now }
{
    if text.is_empty() || text.len() > COUNT_DIGITS {
        return None;
    }
    let mut value = 0;
    for digit in text {
        if !digit.is_ascii_digit() {
            return None;
        }
        value = value * 10 + (*digit - b'0') as u64;
    }
    Some(value)
}
