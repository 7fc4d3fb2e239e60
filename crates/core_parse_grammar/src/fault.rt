ghost use Rattle.std.specs.Prelude.{◌≡◌};
ghost use Rattle.core_parse_grammar.specs.Begins.{in_text};

use type_kinds::Place;

/// Why tokens are no module.
#[derive(Clone, Copy, Debug, PartialEq, Eq)]
pub enum ParseFault {
    /// An unexpected token: no module begins with the tokens up to this one. Or the end of the
    /// text, where they are too few.
    Syntax(Place),
    /// A node at depth 401 begins here.
    TooDeep(Place),
    /// There is no memory left.
    Memory,
}

/// Why tokens don't begin with a part of a module.
#[derive(Clone, Copy, Debug, PartialEq, Eq)]
pub enum PartFault {
    /// An unexpected token: the part's tokens don't go on with this one.
    Syntax(Place),
    /// The tokens end where the part wants more.
    End,
    /// A node at depth 401 begins here.
    TooDeep(Place),
    /// There is no memory left.
    Memory,
}

impl PartFault {
    /// The fault of a text that ends at `end`.
    pub fn in_text(self, end: Place) -> ParseFault
        ensures { result ≡ in_text end self }
    {
        match self {
            PartFault::Syntax(place) => ParseFault::Syntax(place),
            PartFault::End => ParseFault::Syntax(end),
            PartFault::TooDeep(place) => ParseFault::TooDeep(place),
            PartFault::Memory => ParseFault::Memory,
        }
    }
}
