ghost use Rattle.std.specs.Prelude.{◌≤◌, length};
ghost use Rattle.script.specs.Script.{definitions_of};
ghost use Rattle.evaluate.specs.Evaluation.{WorkedOut, Evaluation};

use crate::settings::Settings;
use algebra::boolean::BooleanAlgebra;
use definitions::operand::{Definition, Operand};
use rack::refusal::Refusal;
use script::script::Script;

/// The number of settings: one a part.
const SETTINGS: usize = 256;

/// Works the definitions out into the first elements, and answers the number of operations run; later elements stay.
fn work_out<A: BooleanAlgebra>(
    definitions: &[Definition],
    settings: &Settings<'_, A>,
    elements: &mut [A],
) -> usize
    requires { length definitions.now ≤ length elements.old }
    ensures { WorkedOut A.algebra A.value definitions.now settings.now elements.old elements.new result }
{
    // Kept: that one loop over the definitions with their index runs the operations and counts them is a rule of the project.
    let mut operations = 0;
    for (i, definition) in definitions.iter().enumerate() {
        elements[i] = settings.definition_element(definition, &elements[..i]);
        operations += 1;
    }
    operations
}

/// What an operand is worth by a script at the settings, one a part, and the number of meets and joins run; complements are not counted.
/// The definitions that the operand needs are worked out into as many of the lent elements; later elements stay. Refuses an operand
/// that the script does not know (11), then settings that are not 256 (12), then too few elements (13).
pub fn evaluate<A: BooleanAlgebra>(
    script: &Script,
    operand: Operand,
    settings: &[A],
    elements: &mut [A],
) -> Result<(A, usize), Refusal>
    ensures { Evaluation A.algebra A.value (definitions_of script.now) operand settings.now elements.old elements.new result }
{
    if !script.knows(operand) {
        return Err(Refusal::NoSuchDefinition);
    }
    if settings.len() != SETTINGS {
        return Err(Refusal::WrongSettings);
    }
    let needed = usize::from(operand.reach());
    if elements.len() < needed {
        return Err(Refusal::MemoryShort);
    }
    let settings = Settings { elements: settings };
    let operations = work_out(&script.definitions()[..needed], &settings, elements);
    let answer = settings.operand_element(operand, &elements[..needed]);
    Ok((answer, operations))
}
