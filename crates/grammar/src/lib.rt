// The answers of the public calls, whose cases crates/grammar/specs gives numbers and values, the sorts of addition, the formats of a
// document, and the sizes that a call can be asked for.
#![tactic(auto)]

ghost use Rattle.std.specs.Prelude.{◌≤◌};

use thiserror::Error;

// Why a call turned its input back, by number. (The order in which the reasons are tried is that of crates/grammar/specs.)
#[derive(Clone, Copy, Debug, PartialEq, Eq, Error)]
pub enum Refusal {
    #[error("fewer words are lent than the size needs")]
    WorkTooShort = 1,
    #[error("an input is longer than 32,768 bytes")]
    InputTooLong = 2,
    #[error("a field runs past the input's end, or the input stops before an end field")]
    FieldPastEnd = 3,
    #[error("a tag is foreign or out of order, or its length is not one of its own")]
    BadField = 4,
    #[error("a name has a byte of class 0, its first is not of class 2, or it has 0 or over 63 (XML text)")]
    BadName = 5,
    #[error("a label name (up to letter case) or a start type repeats an earlier one")]
    Repeated = 6,
    #[error("a label, start or rule more than the size allows")]
    TooMany = 7,
    #[error("a start or rule type not below the size's limit, or a label number not among the labels")]
    OutOfRange = 8,
    #[error("a content is not exactly one expression, or names a type not below the size's limit")]
    BadContent = 9,
    #[error("a content nests more than 32 deep")]
    NestedTooDeep = 10,
    #[error("a node too many, too many children, too deep, after the tree is complete, or an end before it is")]
    BadTree = 11,
    #[error("bytes follow the end field")]
    BytesAfterEnd = 12,
    #[error("the united tables derive no document")]
    NoDocument = 13,
    #[error("the sample or the result breaks a limit of table files of that size")]
    ResultTooLarge = 14,
    #[error("`out` is shorter than what is to be written")]
    OutputTooShort = 15,
    #[error("XML text has a byte outside names that is not taken there, or stops inside a tag")]
    BadText = 16,
    #[error("an end tag of XML text has not the bytes of the innermost open element's name, or none is open")]
    BadEndTag = 17,
    #[error("the classes do not load")]
    BadClasses = 18,
}

// A draft of a table would break a limit of table files of its size.
#[derive(Clone, Copy, Debug, PartialEq, Eq, Error)]
#[error("a sample or a result breaks a limit of table files of its size")]
pub struct TooLarge;

impl From<TooLarge> for Refusal {
    ghost use Rattle.std.specs.Prelude.{◌≡◌};
    ghost use Rattle.grammar.specs.declared.Refusal.TheVariants.{ResultTooLarge};

    ghost from_gives = { λ _ refusal. refusal ≡ ResultTooLarge };

    fn from(_: TooLarge) -> Refusal {
        Refusal::ResultTooLarge
    }
}

// What a document is read as.
#[derive(Clone, Copy)]
pub enum Format {
    DocumentFile,
    XmlText,
}

// What an addition is read as.
#[derive(Clone, Copy)]
pub enum Source {
    Table,
    Document(Format),
}

// The three sets of limits: those of a small site, those that are meant where nothing is said, those of a large one.
#[derive(Clone, Copy)]
pub enum Size {
    Small,
    Standard,
    Large,
}

// The limits that a size sets. Labels, starts and types are limited as rules are. No more rules, nodes and levels than the largest size
// has, and at least as many words as the smallest.
#[derive(Clone, Copy)]
pub struct SizeLimits {
    pub rules: usize,
    pub nodes: usize,
    pub levels: usize,
    pub words: usize,
    pub ghost rules_fit: { rules ≤ 128 },
    pub ghost nodes_fit: { nodes ≤ 2048 },
    pub ghost levels_fit: { levels ≤ 64 },
    pub ghost words_suffice: { 12288 ≤ words },
}
