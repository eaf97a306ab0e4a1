//! Bytes as lines.
#![tactic(auto)]

ghost use Rattle.std.specs.Prelude.{◌≡◌};
ghost use Rattle.std.specs.Iterator.{YieldsFirstRef, item_count};
ghost use Rattle.lines.specs.Lines.{both_parts, split_line, lines, with_first, Cut};
ghost use Rattle.lines.specs.Left.{lines_left};

const LINE_FEED: u8 = b'\n';

/// The first line, and what follows its line feed. A last line may lack the line feed; no bytes are no line.
pub fn next_line(input: &[u8]) -> Option<(&[u8], &[u8])>
    ensures value { both_parts result ≡ split_line input.now }
    ensures all { lines input.now ≡ with_first (both_parts result) }
    ensures cut { Cut input.now (both_parts result) }
{
    if input.is_empty() {
        return None;
    }
    match input.iter().position(|&b| b == LINE_FEED) {
        Some(i) => Some((&input[..i], &input[i + 1..])),
        None => Some((input, &[])),
    }
}

/// The lines of some bytes, one after another.
#[derive(Clone, Debug, Drop)]
pub struct Lines<'a> {
    rest: &'a [u8],
}

impl<'a> Lines<'a> {
    /// All lines of the input.
    pub fn of(input: &'a [u8]) -> Lines<'a>
        ensures { lines_left result ≡ lines input.now }
    {
        Lines { rest: input }
    }
}

impl<'a> Iterator for Lines<'a> {
    type Item = &'a [u8];

    ghost next_gives = { YieldsFirstRef lines_left };

    ghost remaining = { item_count lines_left };

    fn next(&mut self) -> Option<&'a [u8]> {
        let (line, rest) = next_line(self.rest)?;
        self.rest = rest;
        Some(line)
    }
}
