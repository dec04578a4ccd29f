//! What is written for a step is read as that step.
ghost use Rattle.tx_step_text.specs.ReadBack.{StepsAreReadBack, ScriptsHaveTheirLines, BoundsAreReadBack};

/// The line of each step whose texts are UTF-8 and whose numbers are within their ranges is one
/// line, and says that step in the scripts of each program that has it, and none in any other's;
/// unless it is longer than a line may be.
pub fn steps_are_read_back()
    ensures { StepsAreReadBack }
{}

/// The lines of a text that has the line of each of such steps, and a newline behind it, are these
/// lines in their order.
pub fn scripts_have_their_lines()
    ensures { ScriptsHaveTheirLines }
{}

/// The line of 1 to 63 keys between the regions, each above the one before it, is read as these
/// keys.
pub fn bounds_are_read_back()
    ensures { BoundsAreReadBack }
{}
