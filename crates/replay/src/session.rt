ghost use Rattle.std.specs.Prelude.{◌≤◌, length};

use crate::answers::{Answers, OpenDeliveries};
use crate::call::Call;
use script::script::Script;
use std::alloc::Global;
use std::io;
use text::lines::Lines;

/// A run of the program: the calls that are still to come, and the answers so far.
#[derive(Drop)]
pub struct Session<'a> {
    lines: Lines<'a>,
    answers: Answers,
}

impl<'a> Session<'a> {
    /// The calls of a text, one a line.
    pub fn new(heap: Global, text: &'a [u8]) -> Session<'a> {
        Session {
            lines: Lines::new(text),
            answers: Answers::new(heap),
        }
    }

    /// Answers all calls. There is no script before the first is opened.
    pub fn run(mut self) -> io::Result<Vec<u8>> {
        let mut script = None;
        while let Some(line) = self.lines.next() {
            match (Call::of(line), &mut script) {
                (Some(Call::Open { limit }), _) => script = Some(self.answers.open(limit)?),
                (Some(call), Some(script)) => self.answer(script, call)?,
                _ => self.answers.unknown()?,
            }
        }
        Ok(self.answers.bytes)
    }

    /// Answers a call, and those that follow while the delivery that it begins is open.
    // Kept: a line says which call is made, so that a case of an enum picks it, here, in `run` and in `deliver`.
    fn answer(&mut self, script: &mut Script, call: Call<'_>) -> io::Result<()>
        ensures { length self.new.lines ≤ length self.old.lines }
    {
        match call {
            Call::Translate(asked) => self.answers.translate(script, asked),
            Call::Combine(asked) => self.answers.combine(script, asked),
            Call::Evaluate(asked) => self.answers.evaluate(script, asked),
            Call::Begin { operand, buffer } => {
                let mut deliveries = OpenDeliveries::new();
                self.answers
                    .begin(script, operand, buffer, &mut deliveries)?;
                self.deliver(script, deliveries)
            }
            _ => self.answers.unknown(),
        }
    }

    /// Goes on while deliveries are open, the oldest first. What could add to the script has to wait.
    fn deliver<'s>(
        &mut self,
        script: &'s Script,
        mut deliveries: OpenDeliveries<'s>,
    ) -> io::Result<()>
        ensures { length self.new.lines ≤ length self.old.lines }
    {
        while !deliveries.is_empty()
            && let Some(line) = self.lines.next()
        {
            match Call::of(line) {
                Some(Call::Begin { operand, buffer }) if !deliveries.is_full() => {
                    self.answers
                        .begin(script, operand, buffer, &mut deliveries)?;
                }
                Some(Call::Next { place, buffer }) => match deliveries.get_mut(place) {
                    Some(delivery) => self.answers.next(delivery, buffer)?,
                    None => self.answers.unknown()?,
                },
                Some(Call::Close { place, buffer }) => {
                    self.answers.close(&mut deliveries, place, buffer)?;
                }
                Some(Call::Strike { place }) => match deliveries.take(place) {
                    Some(delivery) => self.answers.strike(delivery)?,
                    None => self.answers.unknown()?,
                },
                Some(Call::Evaluate(asked)) => self.answers.evaluate(script, asked)?,
                Some(Call::Open { .. } | Call::Translate(_) | Call::Combine(_)) => {
                    self.answers.busy()?;
                }
                _ => self.answers.unknown()?,
            }
        }
        Ok(())
    }
}
