// Decimal numbers.
ghost use Rattle.std.specs.Prelude.{◌≡◌, ◌≤◌, IfSome};
ghost use Rattle.sheet.specs.Reading.{decimal_of};

// The number that the bytes write in decimal, if they are one or more digits and it is up to the limit.
pub(crate) fn decimal(bytes: &[u8], limit: u32) -> Option<u32>
    ensures value { result ≡ decimal_of limit bytes.now }
    ensures within { IfSome result (λ n. n ≤ limit) }
{
    if bytes.is_empty() {
        return None;
    }
    let mut value: u32 = 0;
    // a `for`: a `try_fold` would hold the same two tests and the same sum in a closure, and be no plainer
    for byte in bytes {
        if !byte.is_ascii_digit() {
            return None;
        }
        // a number past the limit stays past it, whatever digits follow
        let more = u64::from(value) * 10 + u64::from(*byte - b'0');
        if more > u64::from(limit) {
            return None;
        }
        value = more as u32;
    }
    Some(value)
}
