//! A number among the words.
ghost use Rattle.std.specs.Prelude.{◌≡◌, ◌≤◌, IfSome};
ghost use Rattle.command_line.specs.Numbers.{number_in};

/// The most digits that a number has.
const MOST_DIGITS: usize = 10;

/// The text as a number of one to ten ASCII digits, from `low` to `high`.
pub fn number_of(text: &str, low: u32, high: u32) -> Option<u32>
    ensures value { result ≡ number_in low high text.now }
    ensures range { IfSome result (λ n. (low ≤ n) × (n ≤ high)) }
{
    let bytes = text.as_bytes();
    if bytes.is_empty() {
        return None;
    }
    if bytes.len() > MOST_DIGITS {
        return None;
    }
    // `parse` takes a sign
    if bytes[0] == b'+' {
        return None;
    }
    match text.parse::<u32>() {
        Ok(value) => {
            if value < low {
                return None;
            }
            if value > high {
                return None;
            }
            Some(value)
        }
        Err(_) => None,
    }
}
