//! What a number says.

ghost use Rattle.std.specs.Prelude.{◌≡◌, ◌≤◌, ◌^◌, Some, None, if◌then◌else◌, nat_lt};
ghost use Rattle.asm_argument.specs.Terminals as spec;

fn digit_of(b: u8) -> u8
    ensures { result ≡ spec.digit_of b }
{
    if b <= b'9' {
        b.saturating_sub(b'0')
    } else if b <= b'F' {
        b - 55
    } else {
        b.saturating_sub(87)
    }
}

/// The number that these digits go on with, where it is below 2^32.
fn digits_value(base: u8, so_far: u32, bytes: &[u8]) -> Option<u32>
    requires base { 1 ≤ base }
    ensures { result ≡ (if nat_lt (spec.digits_value base so_far bytes.now) (2 ^ 32)
        then Some (spec.digits_value base so_far bytes.now) else None) }
{
    let mut value = so_far;
    for b in bytes {
        let Some(product) = value.checked_mul(u32::from(base)) else {
            return None;
        };
        let Some(next) = product.checked_add(u32::from(digit_of(*b))) else {
            return None;
        };
        value = next;
    }
    Some(value)
}

/// The number, where it is below 2^32.
pub fn number_value(bytes: &[u8]) -> Option<u32>
    ensures { result ≡ (if nat_lt (spec.number_value bytes.now) (2 ^ 32) then Some (spec.number_value bytes.now) else None) }
{
    match bytes {
        [] => Some(0),
        [first] => Some(u32::from(digit_of(*first))),
        [first, second, rest @ ..] => {
            if *first == b'\'' {
                Some(u32::from(*second))
            } else if *first == b'0' {
                if *second == b'x' {
                    digits_value(16, 0, rest)
                } else {
                    digits_value(8, 0, &bytes[1..])
                }
            } else {
                digits_value(10, u32::from(digit_of(*first)), &bytes[1..])
            }
        }
    }
}
