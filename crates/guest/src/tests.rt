use super::pair::Pair;
use super::report::Report;
use algebra::dual::Dual;
use algebra::one_state::OneState;
use definitions::operand::{Operand, Operator};
use evaluate::evaluation::evaluate;
use rack::part::Part;
use rack::refusal::Refusal;
use script::script::Script;
use std::test::Fail;

/// A refusal that a test did not want, by its number.
fn failed(refusal: Refusal) -> Fail {
    Fail::new(refusal.number())
}

#[test]
fn a_report_is_certain(rt: HostRuntime) -> Result<(), Fail> {
    let mut script = Script::open(1);
    let up = Operand::Works(Part(1));
    let unknown = Operand::Out(Part(2));
    let met = script.combine(Operator::Meet, up, unknown).map_err(failed)?;
    let mut settings = [Report::Out; 256];
    settings[1] = Report::Up;
    settings[2] = Report::Unknown;
    let mut elements = [Report::Out; 1];
    let (answer, operations) = evaluate(&script, met, &settings, &mut elements).map_err(failed)?;
    assert!(rt; answer == Report::Up);
    assert_eq!(rt; operations, 1);
    Ok(())
}

#[test]
fn two_algebras_side_by_side(rt: HostRuntime) -> Result<(), Fail> {
    let mut script = Script::open(1);
    let one = Operand::Works(Part(1));
    let two = Operand::Works(Part(2));
    let joined = script.combine(Operator::Join, one, two).map_err(failed)?;
    let up = OneState { holds: true };
    let out = OneState { holds: false };
    let both = |state| Pair {
        first: state,
        second: Dual { under: state },
    };
    let mut settings = [both(out); 256];
    settings[1] = both(up);
    let mut elements = settings;
    let (answer, _) = evaluate(&script, joined, &settings, &mut elements).map_err(failed)?;
    assert!(rt; answer.first.holds);
    assert!(rt; !answer.second.under.holds);
    Ok(())
}
