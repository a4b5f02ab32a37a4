use crate::script::Script;
use definitions::operand::{DefinitionNumber, Operand, Operator};
use methods::translate::Method;
use rack::part::Part;
use rack::refusal::Refusal;
use rack::way::WayRecord;
use std::process::Abort;
use std::test::Fail;
use table::read::read;
use working::record::WorkingRecord;

const WORKED_TABLE: [u8; 82] =
    *b"100001\n200200200012\n2003002000220013\n2003001000110012\n20040010001100220013\n300004\n";

fn works(part: u8) -> Operand {
    Operand::Works(Part(part))
}

/// An operand as its kind and its number.
fn shown(operand: Operand) -> (u8, u16) {
    match operand {
        Operand::Never => (0, 0),
        Operand::Always => (1, 0),
        Operand::Works(part) => (2, part.0 as u16),
        Operand::Out(part) => (3, part.0 as u16),
        Operand::Defined(number) => (4, number.0),
    }
}

/// Demands that a call gave the operand of this kind and number.
fn gave(
    rt: &impl Abort,
    answer: Result<Operand, Refusal>,
    kind: u8,
    number: u16,
) -> Result<(), Fail> {
    match answer {
        Ok(operand) => {
            let (k, n) = shown(operand);
            assert_eq!(rt; k, kind);
            assert_eq!(rt; n, number);
            Ok(())
        }
        Err(refusal) => Err(Fail::new(refusal.number())),
    }
}

/// Demands that a call was refused by this number.
fn refused(rt: &impl Abort, answer: Result<Operand, Refusal>, number: u8) -> Result<(), Fail> {
    match answer {
        Ok(_) => Err(Fail::new("accepted")),
        Err(refusal) => {
            assert_eq!(rt; refusal.number(), number);
            Ok(())
        },
    }
}

#[test]
fn rules_of_meet(rt: HostRuntime) -> Result<(), Fail> {
    let mut script = Script::open(4096);
    gave(
        &rt,
        script.combine(Operator::Meet, Operand::Never, works(1)),
        0,
        0,
    )?;
    gave(
        &rt,
        script.combine(Operator::Meet, works(1), Operand::Never),
        0,
        0,
    )?;
    gave(
        &rt,
        script.combine(Operator::Meet, Operand::Always, works(1)),
        2,
        1,
    )?;
    gave(
        &rt,
        script.combine(Operator::Meet, works(1), Operand::Always),
        2,
        1,
    )?;
    gave(
        &rt,
        script.combine(Operator::Meet, works(1), works(1)),
        2,
        1,
    )?;
    gave(
        &rt,
        script.combine(Operator::Meet, works(1), works(2)),
        4,
        1,
    )?;
    gave(
        &rt,
        script.combine(Operator::Meet, works(2), works(1)),
        4,
        2,
    )?;
    gave(
        &rt,
        script.combine(Operator::Meet, works(1), works(2)),
        4,
        1,
    )?;
    assert_eq!(rt; script.count(), 2);
    Ok(())
}

#[test]
fn rules_of_join(rt: HostRuntime) -> Result<(), Fail> {
    let mut script = Script::open(4096);
    gave(
        &rt,
        script.combine(Operator::Join, Operand::Never, works(1)),
        2,
        1,
    )?;
    gave(
        &rt,
        script.combine(Operator::Join, works(1), Operand::Never),
        2,
        1,
    )?;
    gave(
        &rt,
        script.combine(Operator::Join, Operand::Always, works(1)),
        1,
        0,
    )?;
    gave(
        &rt,
        script.combine(Operator::Join, works(1), Operand::Always),
        1,
        0,
    )?;
    gave(
        &rt,
        script.combine(Operator::Join, works(1), works(1)),
        2,
        1,
    )?;
    gave(
        &rt,
        script.combine(Operator::Join, works(1), works(2)),
        4,
        1,
    )?;
    gave(
        &rt,
        script.combine(Operator::Meet, works(1), works(2)),
        4,
        2,
    )?;
    gave(
        &rt,
        script.combine(Operator::Join, works(1), works(2)),
        4,
        1,
    )?;
    assert_eq!(rt; script.count(), 2);
    Ok(())
}

#[test]
fn unknown_operands(rt: HostRuntime) -> Result<(), Fail> {
    let mut script = Script::open(1);
    let zero = Operand::Defined(DefinitionNumber(0));
    let past = Operand::Defined(DefinitionNumber(2));
    gave(
        &rt,
        script.combine(Operator::Meet, works(1), works(2)),
        4,
        1,
    )?;
    refused(&rt, script.combine(Operator::Meet, zero, works(3)), 11)?;
    refused(&rt, script.combine(Operator::Meet, works(3), past), 11)?;
    refused(
        &rt,
        script.combine(Operator::Meet, Operand::Never, past),
        11,
    )?;
    refused(&rt, script.combine(Operator::Join, works(1), works(2)), 10)
}

/// Translates the worked table at a limit with so many working records; answers the refusal's number or 0, and the count after it.
fn translated(method: Method, limit: usize, records: usize) -> (u8, usize) {
    let mut script = Script::open(limit);
    let mut ways = [WayRecord::BLANK; 4];
    let mut work = [WorkingRecord::BLANK; 24];
    if records > work.len() {
        return (13, 0);
    }
    match read(&mut ways, &WORKED_TABLE) {
        Ok(table) => match script.translate(&table, method, &mut work[0..records]) {
            Ok(_) => (0, script.count()),
            Err(refusal) => (refusal.number(), script.count()),
        },
        Err(unread) => (unread.refusal.number(), 0),
    }
}

fn expect(rt: &impl Abort, answer: (u8, usize), number: u8, count: usize) {
    let (n, c) = answer;
    assert_eq!(rt; n, number);
    assert_eq!(rt; c, count);
}

#[test]
fn limits_of_the_worked_table(rt: HostRuntime) {
    expect(&rt, translated(Method::NodeMerging, 0, 24), 10, 0);
    expect(&rt, translated(Method::NodeMerging, 5, 24), 10, 0);
    expect(&rt, translated(Method::NodeMerging, 6, 24), 0, 6);
}

#[test]
fn records_of_the_worked_table(rt: HostRuntime) {
    expect(&rt, translated(Method::NodeMerging, 0, 20), 13, 0);
    expect(&rt, translated(Method::NodeMerging, 6, 21), 0, 6);
}
