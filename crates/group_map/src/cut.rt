//! Texts cut at their marks.

ghost use Rattle.std.specs.Prelude.{◌≡◌, ◌<◌, nat_eq, [], ◌∷◌, length, position, IfSome, MatchOption};
ghost use Rattle.group_map.specs.Lines.{is_passed_over, lines_of, pieces_of};

/// What ends a line.
const LINE_FEED: u8 = b'\n';

/// What a comment begins with.
const NUMBER_SIGN: u8 = b'#';

/// What stands before the first of these marks in the text, and what stands behind it. None where
/// there is no such mark.
pub(crate) fn cut(text: &[u8], mark: u8) -> Option<(&[u8], &[u8])>
    ensures pieces { MatchOption result (pieces_of mark text.now ≡ text.now ∷ [])
        (λ parts. pieces_of mark text.now ≡ parts.0.now ∷ pieces_of mark parts.1.now) }
    ensures shorter { IfSome result (λ parts. length parts.1.now < length text.now) }
{
    let at = first_mark(text, mark)?;
    Some((&text[..at], &text[at + 1..]))
}

/// Where the first of these marks stands in the text, if there is one.
fn first_mark(text: &[u8], mark: u8) -> Option<usize>
    ensures { result ≡ position (λ byte. nat_eq byte mark) text.now }
{
    text.iter().position(|byte| *byte == mark)
}

/// The first line of the text, without its line feed, and the text behind it. None where there is no
/// line.
pub(crate) fn next_line(text: &[u8]) -> Option<(&[u8], &[u8])>
    ensures lines { MatchOption result (lines_of text.now ≡ [])
        (λ parts. lines_of text.now ≡ parts.0.now ∷ lines_of parts.1.now) }
    ensures shorter { IfSome result (λ parts. length parts.1.now < length text.now) }
{
    if text.is_empty() {
        return None;
    }
    match cut(text, LINE_FEED) {
        Some((line, behind)) => Some((line, behind)),
        None => Some((text, &[])),
    }
}

/// Whether a line is empty or a comment.
pub(crate) fn is_passed_over(line: &[u8]) -> bool
    ensures { result ≡ is_passed_over line.now }
{
    match line {
        [] => true,
        [first, ..] => *first == NUMBER_SIGN,
    }
}
