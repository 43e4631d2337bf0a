// A number at the front of a text, read in one pass.

ghost use Rattle.std.specs.Prelude.{◌≡◌, ◌<◌, ◌≤◌, ◌^◌, ◌++◌, IfSome, IsTrue, true, false, length, take, slice_index};
ghost use Rattle.std.specs.Fmt.{decimal};
ghost use Rattle.std.specs.Str.{all_ascii_digits};
ghost use Rattle.std.specs.Str.Parse.{digits_value};
ghost use Rattle.sample_core.specs.{Datum.int, TypeTree.int_ty, SpellsValue.SpellsValue, Words.goes_on as is_longer};

use crate::words::goes_on;

/// How many digits are taken: a number that they write has 64 bits.
const MOST: usize = 18;

/// The number at the front, and what is behind it. `None` says nothing of the text: what is no
/// number, and one of more than 18 digits, are left to the reader of words.
#[inline(always)]
pub(crate) fn front_number(text: &[u8]) -> Option<(i64, &[u8])>
    ensures spelled { IfSome result (λ x. SpellsValue (int x.0) int_ty text.now x.1.now) }
    ensures shorter { IfSome result (λ x. length x.1.now ≤ length text.now) }
{
    match text {
        [b'-', digits @ ..] => {
            let (n, rest) = front_natural(digits)?;
            if n == 0 {
                None
            } else {
                Some((-(n as i64), rest))
            }
        }
        _ => {
            let (n, rest) = front_natural(text)?;
            Some((n as i64, rest))
        }
    }
}

/// The number with no `-` at the front, and what is behind it.
#[inline(always)]
fn front_natural(text: &[u8]) -> Option<(u64, &[u8])>
    ensures spelled { IfSome result (λ x. text.now ≡ decimal x.0 ++ x.1.now) }
    ensures apart { IfSome result (λ x. is_longer x.1.now ≡ false) }
    ensures small { IfSome result (λ x. x.0 < 10 ^ 18) }
{
    let (len, n) = front_digits(text);
    let (digits, rest) = text.split_at(len);
    if !is_one_spelling(digits) || goes_on(rest) {
        return None;
    }
    Some((n, rest))
}

/// Whether digits spell their number in the one way: there are some, and no 0 in front of others.
#[inline(always)]
fn is_one_spelling(digits: &[u8]) -> bool
    ensures some { IsTrue result → 0 < length digits.now }
    ensures first { IsTrue result → slice_index digits.now 0 ≡ 48 → length digits.now ≡ 1 }
{
    match digits {
        [] => false,
        [first, rest @ ..] => *first != b'0' || rest.is_empty(),
    }
}

/// How many digits are at the front, at most 18, and the number that they write.
#[inline(always)]
fn front_digits(text: &[u8]) -> (usize, u64)
    ensures within { result.0 ≤ length text.now }
    ensures digits { all_ascii_digits (take result.0 text.now) ≡ true }
    ensures value { result.1 ≡ digits_value 10 (take result.0 text.now) }
    ensures small { result.1 < 10 ^ 18 }
{
    let most = text.len().min(MOST);
    let mut n: u64 = 0;
    for len in 0..most {
        let byte = text[len];
        if !byte.is_ascii_digit() {
            return (len, n);
        }
        n = n * 10 + u64::from(byte - b'0');
    }
    (most, n)
}
