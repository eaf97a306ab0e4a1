// What becomes of a name that a catalogue takes.

// Two names, since a `bool` would say less.
/// Whether a name was new to a catalogue.
#[derive(Clone, Copy, Debug, PartialEq, Eq)]
pub enum Entry {
    Kept,
    Repeated,
}
