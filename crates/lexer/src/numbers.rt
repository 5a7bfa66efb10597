// A number in decimal digits.
ghost use Rattle.std.specs.Prelude.{◌≡◌, ◌+◌, ◌*◌, ◌^◌, ◌≤◌, length, drop, IfSome};
ghost use Rattle.orm.specs.Text.{digits, number};
ghost use Rattle.lexer.specs.Cuts.{numeral_of};

// A number, and where what follows it starts.
#[derive(Clone, Copy, Debug, PartialEq, Eq)]
pub struct Numeral {
    pub value: u32,
    pub end: usize,
}

// The number that goes on at `start` from the value `first`, by at most `most` more digits.
#[inline(always)]
fn more_digits(text: &[u8], start: usize, most: usize, first: u32) -> Option<Numeral>
    requires few { (first + 1) * 10 ^ most ≤ 1000000 }
    requires start_in_bounds { start ≤ length text.now }
    ensures value { numeral_of text.now result ≡ digits most first (drop start text.now) }
    ensures end_in_bounds { IfSome result (λ n. n.end ≤ length text.now) }
{
    let mut value = first;
    for at in start..text.len() {
        let b = text[at];
        if !b.is_ascii_digit() {
            return Some(Numeral { value, end: at });
        }
        if most <= at - start {
            return None;
        }
        value = value * 10 + (b - b'0') as u32;
    }
    Some(Numeral {
        value,
        end: text.len(),
    })
}

// 1 to 6 digits, no leading zero but in 0 itself.
#[inline(always)]
pub fn number_at(text: &[u8], at: usize) -> Option<Numeral>
    ensures value { numeral_of text.now result ≡ number (drop at text.now) }
    ensures end_in_bounds { IfSome result (λ n. n.end ≤ length text.now) }
{
    let b = *text.get(at)?;
    if !b.is_ascii_digit() {
        return None;
    }
    if b == b'0' {
        return more_digits(text, at + 1, 0, 0);
    }
    more_digits(text, at + 1, 5, (b - b'0') as u32)
}
