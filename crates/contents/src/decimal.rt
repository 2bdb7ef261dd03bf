// Decimal numbers read from a text.
ghost use Rattle.std.specs.Prelude.{◌≡◌, ◌-◌, ◌≤◌, length};
ghost use Rattle.decimals.specs.Decimal.{digit_run, value_from};
ghost use Rattle.contents.specs.Contents.{number_at, digit_limit};

// One to five digits.
const DIGIT_LIMIT: usize = 5;

// A number that was read, and the place after it.
#[derive(Clone, Copy)]
pub struct Number {
    pub value: usize,
    pub next: usize,
}

// The digits that a text begins with.
fn leading_digits(text: &[u8]) -> &[u8]
    ensures { result.now ≡ digit_run text.now }
{
    let count = text.iter().take_while(|b| b.is_ascii_digit()).count();
    &text[..count]
}

// The value of at most five digits.
fn value_of(digits: &[u8]) -> usize
    requires { length digits.now ≤ digit_limit }
    ensures { result ≡ value_from 0 digits.now }
{
    let mut v = 0usize;
    for b in digits {
        v = v * 10 + usize::from(b.saturating_sub(b'0'));
    }
    v
}

// A number with at most as many digits as the limit, without a leading zero.
pub(crate) fn number_at(job: &[u8], at: usize) -> Option<Number>
    ensures { result ≡ number_at job.now at }
{
    let digits = leading_digits(crate::rest(job, at));
    if digits.is_empty() || DIGIT_LIMIT < digits.len() {
        return None;
    }
    if digits.len() != 1 && digits[0] == b'0' {
        return None;
    }
    Some(Number {
        value: value_of(digits),
        next: at + digits.len(),
    })
}
