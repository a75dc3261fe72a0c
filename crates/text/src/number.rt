// A word that is a whole number below 2^32.
ghost use Rattle.std.specs.Prelude.{◌≡◌};
ghost use Rattle.text.specs.Numbers.{number};

// Digit by digit, since `str::parse` takes a sign too. (With `to_digit` each digit takes a third more time.)
#[tactic(auto, using(crate::proofs::Valued::stops_at_value))]
pub fn parse_number(word: &[u8]) -> Option<u32>
    ensures { result ≡ number word.now }
{
    if word.is_empty() {
        return None;
    }
    let mut value: u32 = 0;
    for byte in word {
        if !byte.is_ascii_digit() {
            return None;
        }
        let digit = u32::from(*byte - b'0');
        value = value.checked_mul(10)?.checked_add(digit)?;
    }
    Some(value)
}
