ghost use Rattle.std.specs.Prelude.{◌≡◌, ◌-◌};
ghost use Rattle.std.specs.Result.{result_err};
ghost use Rattle.definitions.specs.Operands.{reach};
ghost use Rattle.delivery.specs.Calls.{buffer_refusal, close_refusal, Begun, Sent, Closed};

use crate::delivery::Delivery;
use crate::line::{definition_line, end_line, put_front, start_line};
use definitions::operand::Operand;
use rack::refusal::Refusal;
use script::script::Script;

/// The longest line of a delivery, with its 0A; a shorter buffer is refused.
pub const LINE_BUFFER: usize = 17;

/// Refuses a buffer that the longest line does not fit into (14).
fn check_buffer(line: &[u8]) -> Result<(), Refusal>
    ensures { result_err result ≡ buffer_refusal line.now }
{
    if line.len() < LINE_BUFFER {
        return Err(Refusal::BufferShort);
    }
    Ok(())
}

impl<'a> Delivery<'a> {
    /// Begins a delivery: writes the start line, and answers the delivery and the line's length. Refuses an operand that the script
    /// does not know (11), then a short buffer (14).
    pub fn begin(
        script: &'a Script,
        operand: Operand,
        line: &mut [u8],
    ) -> Result<(Delivery<'a>, usize), Refusal>
        ensures { Begun script.now operand line.old line.new result }
    {
        if !script.knows(operand) {
            return Err(Refusal::NoSuchDefinition);
        }
        check_buffer(line)?;
        let n = put_front(line, &start_line(operand.reach()));
        let delivery = Delivery {
            script,
            operand,
            sent: 0,
        };
        Ok((delivery, n))
    }

    /// How many definitions are still to be sent.
    pub fn unsent(&self) -> usize
        ensures { result ≡ reach self.now.operand - self.now.sent }
    {
        usize::from(self.operand.reach()) - self.sent
    }

    /// Writes the next definition's line, and answers its length. Refuses where all are sent (15), then a short buffer (14).
    pub fn next(&mut self, line: &mut [u8]) -> Result<usize, Refusal>
        ensures { Sent self.old self.new line.old line.new result }
    {
        if self.unsent() == 0 {
            return Err(Refusal::OutOfTurn);
        }
        check_buffer(line)?;
        let definition = self.script.definitions()[self.sent];
        self.sent += 1;
        Ok(put_front(line, &definition_line(definition)))
    }

    /// Whether a close would be accepted. Refuses where some are unsent (15), then a short buffer (14).
    pub fn check_close(&self, line: &[u8]) -> Result<(), Refusal>
        ensures { result_err result ≡ close_refusal self.now.operand self.now.sent line.now }
    {
        if self.unsent() > 0 {
            return Err(Refusal::OutOfTurn);
        }
        check_buffer(line)
    }

    /// Closes the delivery: writes the end line, and answers its length. Refuses as `check_close` does, and gives the delivery back.
    pub fn close(self, line: &mut [u8]) -> Result<usize, (Refusal, Delivery<'a>)>
        ensures { Closed self.entry line.old line.new result }
    {
        if let Err(refusal) = self.check_close(line) {
            return Err((refusal, self));
        }
        // Kept: every field is named, here and in strike, since `..` would let go of a delivery.
        let Delivery {
            script: _,
            operand,
            sent: _,
        } = self;
        Ok(put_front(line, &end_line(operand)))
    }

    /// Gives the delivery up: writes nothing, and answers how many definitions were sent.
    pub fn strike(self) -> usize
        ensures { result ≡ self.entry.sent }
    {
        let Delivery {
            script: _,
            operand: _,
            sent: count,
        } = self;
        count
    }
}
