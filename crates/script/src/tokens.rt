// A line as tokens: the pieces between blanks, quoted text whole.
ghost use Rattle.std.specs.Prelude.{◌≡◌, ◌<◌, false, map, length, drop, IfSome, IfOk};
ghost use Rattle.script.specs.Tokens.{blank, piece_start, piece_len, first_token, First, read, pieces, Chain};

use std::alloc::{AllocError, Global};

const QUOTE: u8 = b'"';

/// Where a token stands in its line.
#[derive(Clone, Copy, Debug, PartialEq, Eq)]
pub struct Token {
    pub start: usize,
    pub len: usize,
}

fn is_blank(b: u8) -> bool
    ensures { result ≡ blank b }
{
    b == b' ' || b == b'\t' || b == b'\r'
}

// The first byte from `from` on that is no blank.
fn token_start(line: &[u8], from: usize) -> Option<usize>
    ensures value { result ≡ piece_start from (drop from line.now) }
    ensures within { IfSome result (λ i. i < length line.now) }
{
    // No `skip`: it would step over each byte before `from`, token after token.
    let rest = line.get(from..)?;
    let blanks = rest.iter().position(|b| !is_blank(*b))?;
    Some(from + blanks)
}

// How long the piece is that `text` begins with.
fn token_len(text: &[u8]) -> usize
    ensures { result ≡ piece_len false text.now }
{
    // No `position`: its closure would have to turn the flag.
    let mut quoted = false;
    for (i, &b) in text.iter().enumerate() {
        if !quoted && is_blank(b) {
            return i;
        }
        if b == QUOTE {
            quoted = !quoted;
        }
    }
    text.len()
}

/// The next token of the line at or after the byte `from`, if there is one.
pub fn next_token(line: &[u8], from: usize) -> Option<Token>
    ensures value { result ≡ first_token line.now from }
    ensures law { First line.now from result }
{
    let start = token_start(line, from)?;
    let len = token_len(&line[start..]);
    Some(Token { start, len })
}

/// All tokens of the line, in order.
pub fn tokens(heap: Global, line: &[u8]) -> Result<Vec<Token>, AllocError>
    ensures value { IfOk result (λ v. Chain line.now 0 v.items) }
    ensures law { IfOk result (λ v. map (read line.now) v.items ≡ pieces line.now) }
{
    // No `iter::successors`: its closure would add places that nothing bounds.
    let mut all = Vec::new(heap);
    let mut from = 0;
    while let Some(token) = next_token(line, from) {
        all.push(token)?;
        from = token.start + token.len;
    }
    Ok(all)
}

#[cfg(test)]
mod tests {
    use super::*;
    use lines::Lines;
    use std::test::Fail;

    // Whether the next token from `from` on stands at `start` and has `len` bytes.
    fn stands(line: &[u8], from: usize, start: usize, len: usize) -> bool {
        next_token(line, from) == Some(Token { start, len })
    }

    #[test]
    fn quotes_keep_blanks(rt: HostRuntime) {
        let line = b"a  \"b c\" d\"e f\"g";
        assert!(rt; stands(line, 0, 0, 1));
        assert!(rt; stands(line, 1, 3, 5));
        assert!(rt; stands(line, 8, 9, 7));
        assert!(rt; next_token(line, 16).is_none());
    }

    #[test]
    fn nothing_in_an_empty_line(rt: HostRuntime) {
        assert!(rt; next_token(b"", 0).is_none());
        assert!(rt; next_token(b" \t\r", 0).is_none());
        assert!(rt; next_token(b"a", 9).is_none());
    }

    #[test]
    fn open_quote_runs_to_the_end(rt: HostRuntime) {
        assert!(rt; stands(b"\tx \"y z ", 2, 3, 5));
    }

    #[test]
    fn lists_all(rt: HostRuntime) -> Result<(), Fail> {
        let all = tokens(rt.alloc(), b"a  \"b c\" d\"e f\"g\r")?;
        assert_eq!(rt; all.len(), 3);
        Ok(())
    }

    #[test]
    fn lines_are_cloned(rt: HostRuntime) -> Result<(), Fail> {
        let mut left = Lines::of(b"a\nb").clone()?;
        assert!(rt; matches!(left.next(), Some(b"a")));
        Ok(())
    }
}
