use crate::call::{Evaluation, Named, Translation};
use crate::numbered::{Numbered, set_parts};
use algebra::dual::Dual;
use algebra::one_state::OneState;
use algebra::sampled::SampledStates;
use definitions::operand::{Definition, Operand};
use delivery::delivery::Delivery;
use delivery::line::operand_digits;
use itoa::Buffer;
use lives::evaluate;
use preprocess::answer::refusal_line;
use rack::refusal::Refusal;
use rack::way::WayRecord;
use script::script::Script;
use std::alloc::{AllocError, Global};
use std::io;
use std::io::Write;
use std::mem::replace;
use table::read::read;
use working::record::WorkingRecord;

/// More memory than any call can use.
const ENOUGH: usize = 8192;

/// The longest buffer that a line can ask for.
const LONGEST: usize = 64;

/// So many values for a call, of which no more than enough are made.
fn lent<T: Copy>(heap: Global, value: T, many: usize) -> Result<Vec<T>, AllocError> {
    vec![in heap; value; many.min(ENOUGH)]
}

/// An open delivery that is struck where it is let go.
pub struct OpenDelivery<'s>(Delivery<'s>);

impl Drop for OpenDelivery<'_> {
    fn drop(self) {
        let OpenDelivery(delivery) = self;
        let _ = delivery.strike();
    }
}

impl<'s> OpenDelivery<'s> {
    /// The delivery, which has to be closed or struck.
    fn into_inner(self) -> Delivery<'s> {
        let OpenDelivery(delivery) = self;
        delivery
    }
}

/// The open deliveries, the oldest first: two at most, without a heap.
#[derive(Drop)]
pub struct OpenDeliveries<'s> {
    older: Option<OpenDelivery<'s>>,
    newer: Option<OpenDelivery<'s>>,
}

impl<'s> OpenDeliveries<'s> {
    /// None is open.
    pub fn new() -> OpenDeliveries<'s> {
        OpenDeliveries {
            older: None,
            newer: None,
        }
    }

    /// Whether none is open.
    pub fn is_empty(&self) -> bool {
        self.older.is_none()
    }

    /// Whether no more may be open.
    pub fn is_full(&self) -> bool {
        self.newer.is_some()
    }

    /// Puts a delivery behind the open ones.
    fn push(&mut self, delivery: OpenDelivery<'s>) {
        if self.is_empty() {
            self.older = Some(delivery);
        } else {
            self.newer = Some(delivery);
        }
    }

    /// The delivery at a place.
    pub fn get_mut(&mut self, place: usize) -> Option<&mut OpenDelivery<'s>> {
        match place {
            0 => self.older.as_mut(),
            1 => self.newer.as_mut(),
            _ => None,
        }
    }

    /// Takes the delivery at a place away; those behind it move up.
    pub fn take(&mut self, place: usize) -> Option<OpenDelivery<'s>> {
        match place {
            0 => replace(&mut self.older, self.newer.take()),
            1 => self.newer.take(),
            _ => None,
        }
    }

    /// Puts a delivery back at the place that it was taken from.
    fn put_back(&mut self, place: usize, delivery: OpenDelivery<'s>) {
        if place == 0 {
            self.newer = self.older.replace(delivery);
        } else {
            self.newer = Some(delivery);
        }
    }
}

/// The answers so far, and the heap that they and what calls are lent stand on.
#[derive(Drop)]
pub struct Answers {
    pub heap: Global,
    pub bytes: Vec<u8>,
}

impl Answers {
    /// No answers yet.
    pub fn new(heap: Global) -> Answers {
        Answers {
            heap,
            bytes: Vec::new(heap),
        }
    }

    /// Answers what is no call here.
    pub fn unknown(&mut self) -> io::Result<()> {
        self.bytes.write_all(b"?\n")
    }

    /// Answers what has to wait for the open deliveries.
    pub fn busy(&mut self) -> io::Result<()> {
        self.bytes.write_all(b"busy\n")
    }

    /// Answers by the line that tells a refusal.
    fn tell(&mut self, refusal: Refusal) -> io::Result<()> {
        self.bytes.write_all(&refusal_line(refusal))
    }

    /// Opens a script, and answers its limit as it counts.
    pub fn open(&mut self, limit: usize) -> io::Result<Script> {
        let script = Script::open(limit);
        writeln!(self.bytes, "opened {}", script.limit())?;
        Ok(script)
    }

    /// Reads a table and translates it, and answers the operand and the number of definitions added.
    pub fn translate(&mut self, script: &mut Script, asked: Translation<'_>) -> io::Result<()> {
        let text: Vec<u8> = asked
            .table
            .iter()
            .map(|b| if *b == b'/' { b'\n' } else { *b })
            .collect(self.heap)?;
        let mut records = lent(self.heap, WayRecord::BLANK, asked.way_records)?;
        let mut work = lent(self.heap, WorkingRecord::BLANK, asked.working_records)?;
        // Kept: as in `preprocess`, where a closure that takes `Unread` was tried.
        let table = match read(&mut records, &text) {
            Ok(table) => table,
            Err(unread) => return self.tell(unread.refusal),
        };
        match script.translate(&table, asked.method, &mut work) {
            Ok((operand, added)) => {
                self.bytes.write_all(&operand_digits(operand))?;
                writeln!(self.bytes, " {added}")
            }
            Err(refusal) => self.tell(refusal),
        }
    }

    /// Combines two operands, and answers the operand.
    pub fn combine(&mut self, script: &mut Script, asked: Definition) -> io::Result<()> {
        match script.combine(asked.operator, asked.first, asked.second) {
            Ok(operand) => {
                self.bytes.write_all(&operand_digits(operand))?;
                self.bytes.write_all(b"\n")
            }
            Err(refusal) => self.tell(refusal),
        }
    }

    /// Evaluates over an algebra, and answers the value and the number of operations.
    fn evaluate_over<A: Numbered>(
        &mut self,
        script: &Script,
        asked: Evaluation<'_>,
    ) -> io::Result<()> {
        let mut settings = lent(self.heap, A::of(0), asked.settings)?;
        set_parts(&mut settings, asked.values);
        let mut elements = lent(self.heap, A::of(0), asked.elements)?;
        match evaluate(script, asked.operand, &settings, &mut elements) {
            Ok((element, operations)) => {
                let bits = element.bits();
                let digits = A::DIGITS;
                writeln!(self.bytes, "{bits:0digits$X} {operations}")
            }
            Err(refusal) => self.tell(refusal),
        }
    }

    /// Evaluates over the algebra that is named.
    // Kept: each algebra's elements are a type of their own, so that a name picks an instance here, and can be no `dyn` value.
    pub fn evaluate(&mut self, script: &Script, asked: Evaluation<'_>) -> io::Result<()> {
        match asked.algebra {
            Named::One => self.evaluate_over::<OneState>(script, asked),
            Named::Drawn => self.evaluate_over::<SampledStates>(script, asked),
            Named::Outage => self.evaluate_over::<Dual<SampledStates>>(script, asked),
        }
    }

    /// Begins a delivery behind the open ones, and answers its start line.
    // Kept: `begin`, `next` and `close` each lend a buffer, since each hands on something else beside the line.
    pub fn begin<'s>(
        &mut self,
        script: &'s Script,
        operand: Operand,
        buffer: usize,
        deliveries: &mut OpenDeliveries<'s>,
    ) -> io::Result<()> {
        let mut line = [0u8; LONGEST];
        match Delivery::begin(script, operand, &mut line[..buffer.min(LONGEST)]) {
            Ok((delivery, n)) => {
                deliveries.push(OpenDelivery(delivery));
                self.bytes.write_all(&line[..n])
            }
            Err(refusal) => self.tell(refusal),
        }
    }

    /// Sends the next definition of a delivery.
    pub fn next(&mut self, delivery: &mut OpenDelivery<'_>, buffer: usize) -> io::Result<()> {
        let mut line = [0u8; LONGEST];
        match delivery.0.next(&mut line[..buffer.min(LONGEST)]) {
            Ok(n) => self.bytes.write_all(&line[..n]),
            Err(refusal) => self.tell(refusal),
        }
    }

    /// Closes the delivery at a place among the open ones. Where that is refused it keeps its place.
    pub fn close(
        &mut self,
        deliveries: &mut OpenDeliveries<'_>,
        place: usize,
        buffer: usize,
    ) -> io::Result<()> {
        let Some(delivery) = deliveries.take(place) else {
            return self.unknown();
        };
        let mut line = [0u8; LONGEST];
        match delivery
            .into_inner()
            .close(&mut line[..buffer.min(LONGEST)])
        {
            Ok(n) => self.bytes.write_all(&line[..n]),
            Err((refusal, delivery)) => {
                deliveries.put_back(place, OpenDelivery(delivery));
                self.tell(refusal)
            }
        }
    }

    /// Strikes a delivery, and answers how many definitions were sent.
    pub fn strike(&mut self, delivery: OpenDelivery<'_>) -> io::Result<()> {
        let mut buffer = Buffer::new();
        let digits = buffer.format(delivery.into_inner().strike());
        self.bytes.write_all(b"struck ")?;
        self.bytes.write_all(digits.as_bytes())?;
        self.bytes.write_all(b"\n")
    }
}
