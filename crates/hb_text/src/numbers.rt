ghost use Rattle.std.specs.Prelude.{◌≡◌, ℕ, IfSome, IfNone};
ghost use Rattle.hb_text.specs.Numbers.{IsNumber};

/// The number that a text writes in decimal digits, without sign and without a needless leading zero.
/// Any other text, and a number of 2^64 or above, is `None`. It takes no memory.
pub fn read_number(text: &[u8]) -> Option<u64>
    ensures some { IfSome result (λ n. IsNumber text.now n) }
    ensures none { IfNone result ((n : ℕ) → ¬ IsNumber text.now n) }
{
    if text.is_empty() {
        return None;
    }
    if text.len() > 1 && text[0] == b'0' {
        return None;
    }
    let mut value: u64 = 0;
    for byte in text {
        if *byte < b'0' || b'9' < *byte {
            return None;
        }
        let Some(tens) = value.checked_mul(10) else {
            return None;
        };
        let Some(next) = tens.checked_add(u64::from(*byte - b'0')) else {
            return None;
        };
        value = next;
    }
    Some(value)
}
