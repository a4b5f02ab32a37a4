use super::evaluation::evaluate;
use algebra::boolean::BooleanAlgebra;
use algebra::dual::Dual;
use algebra::sampled::SampledStates;
use definitions::operand::{DefinitionNumber, Operand, Operator};
use rack::part::Part;
use rack::refusal::Refusal;
use script::script::Script;
use std::test::Fail;

const NONE: SampledStates = SampledStates { bits: 0 };

fn works(part: u8) -> Operand {
    Operand::Works(Part(part))
}

/// A refusal that a test did not want, by its number.
fn failed(refusal: Refusal) -> Fail {
    Fail::new(refusal.number())
}

fn add(
    script: &mut Script,
    operator: Operator,
    first: Operand,
    second: Operand,
) -> Result<Operand, Fail> {
    script.combine(operator, first, second).map_err(failed)
}

/// The six definitions of the worked table.
fn worked_table(script: &mut Script) -> Result<Operand, Fail> {
    let one = add(script, Operator::Meet, works(0x22), works(0x13))?;
    let two = add(script, Operator::Join, works(0x12), one)?;
    let three = add(script, Operator::Meet, works(0x20), two)?;
    let four = add(script, Operator::Meet, works(0x11), two)?;
    let five = add(script, Operator::Meet, works(0x10), four)?;
    add(script, Operator::Join, three, five)
}

/// The settings of parts 10, 20, 11, 12, 22 and 13, in this order, and bottom for the other parts.
fn set_at<A: BooleanAlgebra>(elements: [A; 6]) -> [A; 256] {
    let mut settings = [A::bottom(); 256];
    settings[0x10] = elements[0];
    settings[0x20] = elements[1];
    settings[0x11] = elements[2];
    settings[0x12] = elements[3];
    settings[0x22] = elements[4];
    settings[0x13] = elements[5];
    settings
}

fn states(bits: u64) -> SampledStates {
    SampledStates { bits }
}

fn sampled_settings() -> [SampledStates; 256] {
    set_at([
        states(0x3),
        states(0x5),
        states(0xF),
        states(0x1),
        states(0xE),
        states(0x6),
    ])
}

/// The dual of the dual of sampled states.
fn twice(bits: u64) -> Dual<Dual<SampledStates>> {
    Dual {
        under: Dual {
            under: SampledStates { bits },
        },
    }
}

/// The number of the refusal, and 0 where the call is accepted.
fn refused<X: Drop>(answer: Result<X, Refusal>) -> u8 {
    answer.err().map_or(0, |refusal| refusal.number())
}

#[test]
fn the_worked_table(rt: HostRuntime) -> Result<(), Fail> {
    let mut script = Script::open(6);
    let operand = worked_table(&mut script)?;
    let settings = sampled_settings();
    let mut done = [NONE; 7];
    let (answer, operations) = evaluate(&script, operand, &settings, &mut done).map_err(failed)?;
    assert_eq!(rt; answer.bits, 7);
    assert_eq!(rt; operations, 6);
    assert_eq!(rt; done[5].bits, 7);
    assert_eq!(rt; done[6].bits, 0);
    Ok(())
}

#[test]
fn each_refusal(rt: HostRuntime) -> Result<(), Fail> {
    let mut script = Script::open(6);
    let operand = worked_table(&mut script)?;
    let settings = sampled_settings();
    let unknown = Operand::Defined(DefinitionNumber(7));
    assert_eq!(rt;
        refused(evaluate(&script, unknown, &settings[0..255], &mut [NONE; 5])),
        11
    );
    assert_eq!(rt;
        refused(evaluate(&script, operand, &settings[0..255], &mut [NONE; 5])),
        12
    );
    assert_eq!(rt;
        refused(evaluate(&script, operand, &settings, &mut [NONE; 5])),
        13
    );
    assert_eq!(rt;
        refused(evaluate(&script, operand, &settings, &mut [NONE; 6])),
        0
    );
    Ok(())
}

#[test]
fn the_dual_of_the_dual(rt: HostRuntime) -> Result<(), Fail> {
    let mut script = Script::open(6);
    let operand = worked_table(&mut script)?;
    let settings = set_at([
        twice(0x3),
        twice(0x5),
        twice(0xF),
        twice(0x1),
        twice(0xE),
        twice(0x6),
    ]);
    let mut elements = [twice(0); 6];
    let (answer, _) = evaluate(&script, operand, &settings, &mut elements).map_err(failed)?;
    assert_eq!(rt; answer.under.under.bits, 7);
    Ok(())
}
