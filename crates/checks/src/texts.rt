// Texts, and lists of them.
ghost use Rattle.std.specs.Prelude.{◌≡◌, ◌*◌, ◌≤◌, true, length, nat_le};
ghost use Rattle.leaves.specs.Texts.{text_of};
ghost use Rattle.leaves.specs.Values.{texts_of};
ghost use Rattle.model.specs.Checks.{every, text_short};
ghost use Rattle.model.specs.Costs.{texts_bytes};
ghost use Rattle.checks.specs.Checked.{member_bytes};

use crate::part::Part;
use leaves::text::Text;
use leaves::text_list::TextList;

// The most bytes that a text may have.
const MAX_TEXT: usize = 512;

// The most texts that a list may have, as the attributes of an extended has.
const MAX_TEXTS: usize = 16;

impl Part for Text<'_> {
    ghost fits = { λ t. true };

    ghost short = { λ t. text_short (text_of t) };

    ghost bytes = { λ t. length (text_of t) };

    ghost max_bytes = { 512 };

    fn fits(self) -> bool {
        true
    }

    fn short(self) -> bool {
        self.0.len() <= MAX_TEXT
    }

    fn bytes(self) -> usize {
        self.0.len()
    }
}

impl Part for TextList<'_> {
    ghost fits = { λ ts. nat_le (length (texts_of ts)) 16 };

    ghost short = { λ ts. every text_short (texts_of ts) };

    ghost bytes = { λ ts. texts_bytes (texts_of ts) };

    ghost max_bytes = { 514 * 16 };

    fn fits(self) -> bool {
        self.len() <= MAX_TEXTS
    }

    fn short(self) -> bool {
        self.iter().all(Text::short)
    }

    fn bytes(self) -> usize {
        self.iter().map(member_bytes).sum()
    }
}

// The bytes that a text takes as a member of a list: two more than it has, to say how many they are.
pub(crate) fn member_bytes(text: Text<'_>) -> usize
    ensures { result ≡ member_bytes (text_of text.entry) }
{
    text.0.len() + 2
}
