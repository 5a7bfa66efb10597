// Numbers in decimal digits and lines `key=value`, written as bytes; a full output stays as it is. A
// number that is not there reads as 0.
#![tactic(auto)]

ghost use Rattle.std.specs.Prelude.{◌≡◌, [], ◌∷◌, ◌++◌, ◌+◌, ◌-◌, ◌%◌, ◌≤◌, length, get_or, drop};
ghost use Rattle.orm.specs.Text.{separator, decimal, values_text};
ghost use Rattle.buffer.specs.Written.{Wrote};
ghost use Rattle.numerals.specs.Lines.{numbers_from, keyed, keyed_lines};

use buffer::Output;

// No `usize` has more digits.
const MOST_DIGITS: usize = 20;

fn last_digit(n: usize) -> u8
    ensures { result ≡ 48 + n % 10 }
{
    b'0' + (n % 10) as u8
}

// The digits of n go to the end of `out`, the last one first; answers where they start. It goes on as long
// as digits are left, which no range tells beforehand.
fn digits(out: &mut [u8; MOST_DIGITS], n: usize) -> usize
    ensures out_after { drop result out.new ≡ decimal n }
    ensures upper_bound { result ≤ 20 }
{
    let mut left = n;
    let mut from = MOST_DIGITS;
    while 10 <= left {
        from -= 1;
        out[from] = last_digit(left);
        left /= 10;
    }
    from -= 1;
    out[from] = last_digit(left);
    from
}

// No leading zero but in 0 itself. Most numbers have one digit, which needs no space.
fn push_decimal(out: &mut Output<'_, u8>, n: usize)
    ensures { Wrote out.old (decimal n) out.new }
{
    if n < 10 {
        out.push(last_digit(n));
        return;
    }
    let mut space = [0; MOST_DIGITS];
    let from = digits(&mut space, n);
    out.append(&space[from..]);
}

// What follows a number that `more` follow on its line: a comma, or the line feed.
fn separator_byte(more: usize) -> u8
    ensures { result ≡ separator more }
{
    if more == 0 { b'\n' } else { b',' }
}

// A number that `more` follow on its line.
pub fn push_value(out: &mut Output<'_, u8>, n: usize, more: usize)
    ensures { Wrote out.old (decimal n ++ separator more ∷ []) out.new }
{
    push_decimal(out, n);
    out.push(separator_byte(more));
}

// How many numbers there are from position p on.
fn rest(xs: &[u32], p: usize) -> usize
    ensures { result ≡ length xs.now - p }
{
    xs.len().saturating_sub(p)
}

// The number at i behind the position p; 0 past the end.
pub fn item(xs: &[u32], p: usize, i: usize) -> usize
    ensures value { result ≡ get_or (drop p xs.now) i 0 }
    ensures upper_bound { result ≤ 4294967295 }
{
    if rest(xs, p) <= i {
        return 0;
    }
    xs[p + i] as usize
}

// The position n behind p; the end where there are not so many, so that no sum overflows.
fn skip(xs: &[u32], p: usize, n: usize) -> usize
    ensures { drop result xs.now ≡ drop (p + n) xs.now }
{
    if rest(xs, p) <= n {
        return xs.len();
    }
    p + n
}

// The n numbers from position p on, with commas between, and the line feed.
fn push_values(out: &mut Output<'_, u8>, xs: &[u32], p: usize, n: usize)
    ensures { Wrote out.old (values_text (numbers_from (drop p xs.now) 0 n)) out.new }
{
    for i in 0..n {
        push_value(out, item(xs, p, i), n - i - 1);
    }
}

// A line with the n numbers from position p on; the key ends with its `=`.
pub fn push_line(out: &mut Output<'_, u8>, key: &[u8], xs: &[u32], p: usize, n: usize)
    ensures { Wrote out.old (keyed key.now (numbers_from (drop p xs.now) 0 n)) out.new }
{
    out.append(key);
    push_values(out, xs, p, n);
}

// `count` lines with n numbers each, from position p on.
pub fn push_lines(
    out: &mut Output<'_, u8>,
    key: &[u8],
    xs: &[u32],
    p: usize,
    n: usize,
    count: usize,
)
    ensures { Wrote out.old (keyed_lines key.now n count (drop p xs.now)) out.new }
{
    let mut q = p;
    for _ in 0..count {
        push_line(out, key, xs, q, n);
        q = skip(xs, q, n);
    }
}

// A line with one number.
pub fn push_count(out: &mut Output<'_, u8>, key: &[u8], n: usize)
    ensures { Wrote out.old (keyed key.now (n ∷ [])) out.new }
{
    out.append(key);
    push_value(out, n, 0);
}
