// What comes between the items of a statement: blanks and texts.
ghost use Rattle.f66_tree.specs.Turns.{blanked, lettered};
ghost use Rattle.format_io.specs.Answers.{Writes, line_in};

use crate::input::Input;
use crate::output::Output;
use f66_tree::Way;
use ground::Trap;

/// Blanks are written, or characters are skipped.
pub fn pass_blanks(way: Way, output: &mut Output, input: &mut Input, count: u16) -> Result<(), Trap>
    ensures { Writes result (line_in way output.new input.new) (blanked way count (line_in way output.old input.old)) }
{
    match way {
        Way::Writing => output.blank(count),
        Way::Reading => {
            input.skip(count);
            Ok(())
        }
    }
}

/// A text is written.
pub fn pass_text(way: Way, output: &mut Output, input: &Input, text: &[u8]) -> Result<(), Trap>
    ensures { Writes result (line_in way output.new input.now) (lettered way text.now (line_in way output.old input.now)) }
{
    match way {
        Way::Writing => output.text(text),
        Way::Reading => Err(Trap::FormatMismatch),
    }
}
