//! The four attributes that a label has values of.
ghost use Rattle.std.specs.Prelude.{◌≡◌, MatchOption, ◌≢◌};
ghost use Rattle.lattice.specs.Attributes.{word_of, attribute_number};

/// An attribute of a label.
#[derive(Clone, Copy, PartialEq, Eq, Debug)]
pub enum Attribute {
    InStore = 0,
    UseForPurpose = 1,
    AccessByRole = 2,
    DataType = 3,
}

impl Attribute {
    /// The attribute that a word names; any other word names none.
    // It gives an option and is no `FromStr`: a word that names nothing is no fault of the word.
    pub fn named(word: &str) -> Option<Attribute>
        ensures { MatchOption result ((a : Attribute) → word.now ≢ word_of a) (λ a. word.now ≡ word_of a) }
    {
        match word {
            "InStore" => Some(Attribute::InStore),
            "UseForPurpose" => Some(Attribute::UseForPurpose),
            "AccessByRole" => Some(Attribute::AccessByRole),
            "DataType" => Some(Attribute::DataType),
            _ => None,
        }
    }

    /// The attribute's number in the words of a policy.
    pub fn number(self) -> u8
        ensures { result ≡ attribute_number self }
    {
        self as u8
    }
}
