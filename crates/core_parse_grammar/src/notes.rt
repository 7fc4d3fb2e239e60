ghost use Rattle.std.specs.Prelude.{◌≡◌};
ghost use Rattle.core_parse_grammar.specs.Build.{line_within as within, line_of as first_line, has_generated as is_generated, note_of as note_from};

use core_ast::Note;

/// A constant of an annotation, as far as a note asks for it.
#[derive(Clone, Copy, Debug, PartialEq, Eq)]
pub enum Constant {
    /// An integer or a character.
    Number(i128),
    /// A tuple of two integers, with the first.
    Pair(i128),
    /// `'compiler_generated'`.
    Generated,
    /// Any other.
    Another,
}

/// What the constants of an annotation say.
pub fn note_of(constants: &[Constant]) -> Note
    ensures { result ≡ note_from constants.now }
{
    Note {
        line: line_of(constants),
        generated: has_generated(constants),
    }
}

fn line_of(constants: &[Constant]) -> Option<u32>
    ensures { result ≡ first_line constants.now }
{
    match constants {
        [Constant::Number(value), ..] => line_within(*value),
        [Constant::Pair(value), ..] => line_within(*value),
        _ => None,
    }
}

fn line_within(value: i128) -> Option<u32>
    ensures { result ≡ within value }
{
    if 0 < value && value < 2147483648 {
        Some(value as u32)
    } else {
        None
    }
}

fn has_generated(constants: &[Constant]) -> bool
    ensures { result ≡ is_generated constants.now }
{
    for constant in constants {
        if let Constant::Generated = *constant {
            return true;
        }
    }
    false
}
