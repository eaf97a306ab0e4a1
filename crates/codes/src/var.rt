// Variables and slots, and the words for them. A number is read by a `match`: one reader for all enums would need their values as a
// list besides.
ghost use Rattle.std.specs.Prelude.{◌≡◌};
ghost use Rattle.terms.specs.Codes.{from_code};
ghost use Rattle.codes.specs.Codes.{IsCodeOf, var_code, all_vars, slot_code, all_slots};
ghost use Rattle.codes.specs.Words.{from_word, var_word, slot_word};

use terms::refusal::Refusal;

/// The variables of a condition.
#[derive(Clone, Copy, Debug, PartialEq, Eq, Hash)]
pub enum Var {
    Principal = 0,
    Action = 1,
    Resource = 2,
    Context = 3,
}

/// The slots of a template.
#[derive(Clone, Copy, Debug, PartialEq, Eq, Hash)]
pub enum SlotId {
    Principal = 0,
    Resource = 1,
}

/// The variable's number.
impl From<Var> for u8 {
    ghost from_gives = { IsCodeOf var_code all_vars };

    fn from(var: Var) -> u8 {
        var as u8
    }
}

/// The variable of a number, or refusal 2.
impl TryFrom<u8> for Var {
    type Error = Refusal;

    ghost try_from_gives = { λ n r. r ≡ from_code var_code all_vars n };

    fn try_from(code: u8) -> Result<Var, Refusal> {
        match code {
            0 => Ok(Var::Principal),
            1 => Ok(Var::Action),
            2 => Ok(Var::Resource),
            3 => Ok(Var::Context),
            _ => Err(Refusal::Leaf),
        }
    }
}

impl Var {
    // No `FromStr`: a word that is none of these is no error.
    /// The variable of a word, and nothing of any other word.
    pub fn from_word(word: &str) -> Option<Var>
        ensures { result ≡ from_word var_word all_vars word.now }
    {
        match word {
            "principal" => Some(Var::Principal),
            "action" => Some(Var::Action),
            "resource" => Some(Var::Resource),
            "context" => Some(Var::Context),
            _ => None,
        }
    }
}

/// The slot's number.
impl From<SlotId> for u8 {
    ghost from_gives = { IsCodeOf slot_code all_slots };

    fn from(slot: SlotId) -> u8 {
        slot as u8
    }
}

/// The slot of a number, or refusal 2.
impl TryFrom<u8> for SlotId {
    type Error = Refusal;

    ghost try_from_gives = { λ n r. r ≡ from_code slot_code all_slots n };

    fn try_from(code: u8) -> Result<SlotId, Refusal> {
        match code {
            0 => Ok(SlotId::Principal),
            1 => Ok(SlotId::Resource),
            _ => Err(Refusal::Leaf),
        }
    }
}

impl SlotId {
    // No `FromStr`, as for variables.
    /// The slot of a word, and nothing of any other word.
    pub fn from_word(word: &str) -> Option<SlotId>
        ensures { result ≡ from_word slot_word all_slots word.now }
    {
        match word {
            "?principal" => Some(SlotId::Principal),
            "?resource" => Some(SlotId::Resource),
            _ => None,
        }
    }
}
