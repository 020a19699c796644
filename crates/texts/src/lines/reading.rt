// Taking the lines of a text off its front.
ghost use Rattle.std.specs.Prelude.{◌≡◌, ℕ, ◌+◌, ◌<◌, ◌≤◌, List, [], ◌∷◌, length, MatchOption};
ghost use Rattle.texts.specs.Pieces.{pieces, piece, shown, to_come, number_of};
ghost use Rattle.texts.specs.Texts.{lines, Free, FirstAt, Unmarked, MarkAt, LineEnd};
ghost use Rattle.std.specs.Iterator.{at_most};

use crate::bytes::position;
use crate::lines::{Item, Lines};

// Where a tab or a line feed stands first.
fn first_mark(bytes: &[u8]) -> Option<usize>
    ensures { MatchOption result (Unmarked (length bytes.now) bytes.now) (λ i. MarkAt i bytes.now) }
{
    bytes.iter().position(|b| matches!(b, b'\t' | b'\n'))
}

// Where the line ends that the bytes begin with.
fn line_end(bytes: &[u8]) -> usize
    ensures { LineEnd bytes.now result }
{
    // What follows the first tab of a worksheet's line is three bytes and a line feed, so that case comes first.
    if let [cause, tab, class, b'\n', ..] = bytes
        && *cause != b'\n'
        && *tab != b'\n'
        && *class != b'\n'
    {
        return 4;
    }
    position(bytes, b'\n').map_or(bytes.len(), |feed| feed + 1)
}

// The first line of the bytes, and what follows it.
fn take_line(line: usize, bytes: &[u8]) -> (Item<'_>, &[u8])
    requires { 0 < length bytes.now }
    ensures item { (l : List ℕ) × (lines bytes.now ≡ l ∷ lines result.1.now) × (shown result.0 ≡ piece line l) }
    ensures fewer { length result.1.now < length bytes.now }
{
    let Some(mark) = first_mark(bytes) else {
        return (Item::Bare { line, text: bytes }, &[]);
    };
    let after = &bytes[mark + 1..];
    if bytes[mark] == b'\n' {
        let text = &bytes[..mark + 1];
        return (Item::Bare { line, text }, after);
    }
    let end = line_end(after);
    let first = &bytes[..mark];
    let rest = &after[..end];
    (Item::Fields { line, first, rest }, &after[end..])
}

impl<'a> Lines<'a> {
    pub fn new(text: &'a [u8]) -> Lines<'a>
        ensures { to_come result ≡ pieces text.now }
    {
        Lines {
            rest: text,
            line: 0,
        }
    }
}

impl<'a> Iterator for Lines<'a> {
    type Item = Item<'a>;

    ghost next_gives = { λ s r t. MatchOption r ((to_come s ≡ []) × (t ≡ s)) (λ i. to_come s ≡ shown i ∷ to_come t) };

    ghost remaining = { λ s. at_most (length s.rest.now) };

    fn next(&mut self) -> Option<Item<'a>> {
        let bytes = self.rest;
        if bytes.is_empty() {
            return None;
        }
        let line = self.line + 1;
        let (item, rest) = take_line(line, bytes);
        *self = Lines { rest, line };
        Some(item)
    }
}

impl Item<'_> {
    pub fn line(&self) -> usize
        ensures { result ≡ number_of (shown self.now) }
    {
        match *self {
            Item::Fields { line, .. } | Item::Bare { line, .. } => line,
        }
    }
}
