// The kinds of entries.
ghost use Rattle.std.specs.Prelude.{◌≡◌, ◌≤◌, MatchResult};
ghost use Rattle.table.specs.Kinds.{code_of};

// What an entry is.
#[derive(Clone, Copy, PartialEq, Eq, Debug)]
pub enum Kind {
    True,
    False,
    Atom,
    Equal,
    Not,
    And,
    Or,
    Imply,
    Forall,
    Exists,
    Object,
    Variable,
    When,
    Fact,
    TypeSet,
    Predicate,
    Operator,
    Parameter,
    Action,
    StartsTrue,
    StartsFalse,
    Always,
}

// A code that no kind has.
#[derive(Clone, Copy, Debug, PartialEq, Eq)]
pub struct UnknownKind(pub u8);

// The kind with that code.
impl TryFrom<u8> for Kind {
    type Error = UnknownKind;

    ghost try_from_gives = { λ code result. MatchResult result (λ kind. code_of kind ≡ code) (λ unknown. (22 ≤ code) × (unknown.0 ≡ code)) };

    fn try_from(code: u8) -> Result<Kind, UnknownKind> {
        match code {
            0 => Ok(Kind::True),
            1 => Ok(Kind::False),
            2 => Ok(Kind::Atom),
            3 => Ok(Kind::Equal),
            4 => Ok(Kind::Not),
            5 => Ok(Kind::And),
            6 => Ok(Kind::Or),
            7 => Ok(Kind::Imply),
            8 => Ok(Kind::Forall),
            9 => Ok(Kind::Exists),
            10 => Ok(Kind::Object),
            11 => Ok(Kind::Variable),
            12 => Ok(Kind::When),
            13 => Ok(Kind::Fact),
            14 => Ok(Kind::TypeSet),
            15 => Ok(Kind::Predicate),
            16 => Ok(Kind::Operator),
            17 => Ok(Kind::Parameter),
            18 => Ok(Kind::Action),
            19 => Ok(Kind::StartsTrue),
            20 => Ok(Kind::StartsFalse),
            21 => Ok(Kind::Always),
            _ => Err(UnknownKind(code)),
        }
    }
}

// The code of a kind.
impl From<Kind> for u8 {
    ghost from_gives = { λ kind code. code ≡ code_of kind };

    fn from(kind: Kind) -> u8 {
        kind as u8
    }
}
