//! The law of lines, as a function that does nothing: who calls it has its clause.
ghost use Rattle.std.specs.Prelude.{◌≡◌};
ghost use Rattle.typer_lines.specs.declared.typing.Typing.{Typing};
ghost use Rattle.typer_lines.specs.Lines.{IsTyping, typing_line};

use type_text::front_laws;

/// Two typings with one line are one.
pub fn typing_lines_once()
    ensures { (s t : Typing) → IsTyping s → IsTyping t → typing_line s ≡ typing_line t → s ≡ t }
{
    front_laws();
}
