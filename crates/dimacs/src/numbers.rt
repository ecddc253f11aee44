// A word as a number.
ghost use Rattle.std.specs.Prelude.{◌≡◌, ◌≤◌};
ghost use Rattle.dimacs.specs.Numbers.{magnitude as Numbers·magnitude, number_in as Numbers·number_in};
ghost use Rattle.dimacs.specs.Scanning.{as_option};

// The digits' value, where it is at most so much.
fn magnitude(digits: &[u8], most: u32) -> Option<u32>
    requires { most ≤ 2147483648 }
    ensures { Numbers·magnitude most digits.now ≡ as_option result }
{
    if digits.is_empty() {
        return None;
    }
    let mut value = 0;
    for byte in digits {
        if !byte.is_ascii_digit() {
            return None;
        }
        value = value * 10 + u64::from(byte - b'0');
        if value > u64::from(most) {
            return None;
        }
    }
    Some(value as u32)
}

// Never put in line: among all that a reader of rules holds the places in the text would not stay in registers, and a long word would take half as long again.
#[inline(never)]
pub fn number_in(word: &[u8]) -> Option<i32>
    ensures { Numbers·number_in word.now ≡ as_option result }
{
    match word.strip_prefix(b"-") {
        Some(digits) => Some(-i64::from(magnitude(digits, 2147483648)?) as i32),
        None => Some(magnitude(word, 2147483647)? as i32),
    }
}
