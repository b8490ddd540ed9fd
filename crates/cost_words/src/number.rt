ghost use Rattle.std.specs.Prelude.{◌≡◌, ◌&&◌, nat_le, decimal};
ghost use Rattle.cost_words.specs.Grammar.{is, number_within};

use itoa::Buffer;

// Whether this is the decimal text of the number, and the number is from low to high.
fn is_number(low: u64, high: u64, text: &str, n: u64) -> bool
    ensures { result ≡ ((is text.now (decimal n) && nat_le low n) && nat_le n high) }
{
    text == Buffer::new().format(n) && low <= n && n <= high
}

// The number of which this is the decimal text, without a sign and leading zeros, from low to high.
pub(crate) fn number_within(low: u64, high: u64, text: &str) -> Option<u64>
    ensures { result ≡ number_within low high text.now }
{
    match text.parse::<u64>() {
        Ok(n) => is_number(low, high, text, n).then_some(n),
        Err(_) => None,
    }
}
