ghost use Rattle.std.specs.Prelude.{◌≡◌, ◌++◌, OnOk, true, length};
ghost use Rattle.text.specs.Lines.{lines_of};
ghost use Rattle.table.specs.Reading.{read_lines};
ghost use Rattle.definitions.specs.Operands.{reach};
ghost use Rattle.script.specs.Script.{definitions_of, known};
ghost use Rattle.delivery.specs.Calls.{sources};
ghost use Rattle.preprocess.specs.Answer.{refusal_line, lines_from, delivery_of, answer_to, Adds};

use definitions::operand::Operand;
use delivery::calls::LINE_BUFFER;
use delivery::delivery::Delivery;
use methods::translate::Method;
use rack::hex::{hex_byte, hex_word};
use rack::refusal::Refusal;
use rack::way::WayRecord;
use script::script::Script;
use std::alloc::AllocError;
use table::read::read;
use working::record::WorkingRecord;

/// The line that tells a refusal: `7F`, its number, and the line and column of its position, zeros for none.
// Kept: put together as an array, as the lines of a delivery are, since each byte is promised.
pub fn refusal_line(refusal: Refusal) -> [u8; 11]
    ensures { result ≡ refusal_line refusal }
{
    let (line, column) = refusal
        .position()
        .map_or((0, 0), |at| (at.line.0, at.column.0));
    let [a, b] = hex_byte(refusal.number());
    let [c, d, e, f] = hex_word((line % 65536) as u16);
    let [g, h] = hex_byte((column % 256) as u8);
    [b'7', b'F', a, b, c, d, e, f, g, h, 0x0A]
}

/// Adds the line that tells a refusal.
fn tell(refusal: Refusal, out: &mut Vec<u8>) -> Result<(), AllocError>
    ensures { Adds result out.old.items out.new.items (refusal_line refusal) }
{
    out.extend_from_slice(&refusal_line(refusal))
}

/// Adds the start line of a delivery and the lines of its definitions.
fn send(delivery: &mut Delivery<'_>, start: &[u8], out: &mut Vec<u8>) -> Result<(), AllocError>
    requires { delivery.old.sent ≡ 0 }
    ensures lines { Adds result out.old.items out.new.items (start.now ++ lines_from (sources delivery.old) 0 (reach delivery.old.operand)) }
    ensures sent { OnOk result (delivery.new.sent ≡ reach delivery.old.operand) }
    ensures operand { delivery.new.operand ≡ delivery.old.operand }
{
    out.extend_from_slice(start)?;
    // Kept: a buffer and a length, here and in `deliver`, since a delivery writes into what it is lent.
    let mut line = [0u8; LINE_BUFFER];
    while let Ok(n) = delivery.next(&mut line) {
        out.extend_from_slice(&line[0..n])?;
    }
    Ok(())
}

/// Adds the delivery of an operand.
fn deliver(script: &Script, operand: Operand, out: &mut Vec<u8>) -> Result<(), AllocError>
    requires { known (length (definitions_of script.now)) operand ≡ true }
    ensures { Adds result out.old.items out.new.items (delivery_of (definitions_of script.now) operand) }
{
    let mut line = [0u8; LINE_BUFFER];
    let (mut delivery, n) = Delivery::begin(script, operand, &mut line).unwrap();
    if let Err(short) = send(&mut delivery, &line[0..n], out) {
        let _ = delivery.strike();
        return Err(short);
    }
    let n = delivery.close(&mut line).unwrap();
    out.extend_from_slice(&line[0..n])
}

/// Adds what a table's text comes to: the whole delivery of its translation by a method into a new script, or the line that tells the
/// first refusal. Refuses nothing itself; it fails only for want of memory. The records that it is lent are open after it.
// Kept: a struct of the parameters is no plainer, since the two programs that call this would build it only to have it taken apart here.
pub fn answer(
    text: &[u8],
    method: Method,
    limit: usize,
    records: &mut [WayRecord],
    work: &mut [WorkingRecord],
    out: &mut Vec<u8>,
) -> Result<(), AllocError>
    ensures { Adds result out.old.items out.new.items (answer_to method limit (length work.old) (read_lines (length records.old) (lines_of text.now))) }
{
    let mut script = Script::open(limit);
    // Kept: `read(..).map_err(..).and_then(..)` was tried, and a closure that takes `Unread`, with the records in it, is not covered.
    let table = match read(records, text) {
        Ok(table) => table,
        Err(unread) => return tell(unread.refusal, out),
    };
    match script.translate(&table, method, work) {
        Ok((operand, _)) => deliver(&script, operand, out),
        Err(refusal) => tell(refusal, out),
    }
}
