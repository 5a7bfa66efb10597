// A key, or a separator, that stands at a position of the text.
ghost use Rattle.std.specs.Prelude.{◌≡◌, [], ◌∷◌, ◌≤◌, ◌<◌, length, drop, IfSome};
ghost use Rattle.orm.specs.Text.{after, separator};
ghost use Rattle.lexer.specs.Cuts.{rest_of, key_of};

use crate::Kind;

// Where `key` ends that starts at `at`.
fn behind(key: &[u8], text: &[u8], at: usize) -> Option<usize>
    requires { 0 < length key.now }
    ensures value { rest_of text.now result ≡ after key.now (drop at text.now) }
    ensures end_in_bounds { IfSome result (λ end. end ≤ length text.now) }
{
    if text.get(at..)?.starts_with(key) {
        Some(at + key.len())
    } else {
        None
    }
}

// What has to follow a number before `left` more on its line.
fn separator(left: usize) -> u8
    ensures { result ≡ separator left }
{
    if left == 0 { b'\n' } else { b',' }
}

// Where the comma or the line feed ends that has to follow a number before `left` more on its line.
#[inline(always)]
pub fn behind_separator(left: usize, text: &[u8], at: usize) -> Option<usize>
    ensures value { rest_of text.now result ≡ after (separator left ∷ []) (drop at text.now) }
    ensures end_in_bounds { IfSome result (λ end. end ≤ length text.now) }
{
    if *text.get(at)? == separator(left) {
        Some(at + 1)
    } else {
        None
    }
}

// Where the key of this kind of line and its `=` end.
pub fn behind_key(kind: Kind, text: &[u8], at: usize) -> Option<usize>
    ensures value { rest_of text.now result ≡ after (key_of kind) (drop at text.now) }
    ensures end_in_bounds { IfSome result (λ end. end ≤ length text.now) }
{
    let key: &[u8] = match kind {
        Kind::DiagramLine => b"diagram=",
        Kind::TypesLine => b"types=",
        Kind::TypeLine => b"type=",
        Kind::PredsLine => b"preds=",
        Kind::PredLine => b"pred=",
        Kind::RoleLine | Kind::LimitedRoleLine => b"role=",
        Kind::FreqLine => b"freq=",
        Kind::EndLine => b"end=",
    };
    behind(key, text, at)
}
