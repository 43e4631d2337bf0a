// The step at the front of a line.

ghost use Rattle.std.specs.Prelude.{◌≡◌, ◌<◌, ◌≤◌, ℕ, length, slice_index, Some, None, true, if◌then◌else◌};
ghost use Rattle.std.specs.Char.{is_ascii_digit};
ghost use Rattle.std.specs.Option.{option_copied};
ghost use Rattle.std.specs.List.{prefix_len};
ghost use Rattle.std.specs.Str.Parse.{digits_value};
ghost use Rattle.stream_text.specs.{StepText.stripped, StepText.is_step, StepText.step_in, StreamView.step_view};

/// The greatest step, 2^63 - 1.
const MOST: u64 = 0x7fff_ffff_ffff_ffff;

/// What stands behind the byte, where it stands first; else `None`.
pub fn strip(byte: u8, text: &[u8]) -> Option<&[u8]>
    ensures { option_copied result ≡ stripped byte text.now }
{
    match text {
        [first, rest @ ..] if *first == byte => Some(rest),
        _ => None,
    }
}

/// How many digits stand at the front.
fn digits_len(text: &[u8]) -> usize
    ensures digits { result ≡ prefix_len is_ascii_digit text.now }
    ensures within { result ≤ length text.now }
{
    text.iter().take_while(|b| b.is_ascii_digit()).count()
}

/// The step that the digits write; `None` if there are none, the first is 0, or it is over the
/// greatest.
fn step_value(digits: &[u8]) -> Option<u64>
    requires { (k : ℕ) → k < length digits.now → is_ascii_digit (slice_index digits.now k) ≡ true }
    ensures { result ≡ (if is_step digits.now then Some (digits_value 10 digits.now) else None) }
{
    if digits.is_empty() || digits[0] == b'0' {
        return None;
    }
    let mut value: u64 = 0;
    for digit in digits {
        let next = value.checked_mul(10)?;
        value = next.checked_add(u64::from(*digit - b'0'))?;
    }
    if value <= MOST { Some(value) } else { None }
}

/// The step of a line that begins with `+`, a step and a space, and what stands behind these;
/// `None` if it doesn't.
#[inline(always)]
pub fn split_step(line: &[u8]) -> Option<(u64, &[u8])>
    ensures { step_view result ≡ step_in line.now }
{
    match line {
        // Most steps have one digit.
        [b'+', digit, b' ', rest @ ..] if b'1' <= *digit && *digit <= b'9' => {
            Some((u64::from(*digit - b'0'), rest))
        }
        _ => split_digits(line),
    }
}

/// The step of such a line, of any number of digits, and what stands behind it.
#[inline(never)]
fn split_digits(line: &[u8]) -> Option<(u64, &[u8])>
    ensures { step_view result ≡ step_in line.now }
{
    let text = strip(b'+', line)?;
    let (digits, behind) = text.split_at(digits_len(text));
    let step = step_value(digits)?;
    let rest = strip(b' ', behind)?;
    Some((step, rest))
}
