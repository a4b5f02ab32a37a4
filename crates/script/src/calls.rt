ghost use Rattle.std.specs.Prelude.{◌≡◌, [], length};
ghost use Rattle.definitions.specs.Combine.{counted};
ghost use Rattle.script.specs.Script.{definitions_of, known, fetched};
ghost use Rattle.table.specs.Kept.{ways_of};
ghost use Rattle.script.specs.Combination.{Combined};
ghost use Rattle.script.specs.Translate.{WroteTable};

use crate::script::Script;
use definitions::draft::Draft;
use definitions::operand::{CAPACITY, Definition, DefinitionNumber, Operand, Operator};
use methods::translate::{Method, translate};
use rack::refusal::Refusal;
use table::table::Table;
use working::record::WorkingRecord;

impl Script {
    /// An empty script. A limit above 4,096 counts as 4,096.
    pub fn open(limit: usize) -> Script
        ensures empty { definitions_of result ≡ [] }
        ensures limit { result.limit ≡ counted limit }
    {
        Script {
            slots: [Definition::BLANK; 4096],
            count: 0,
            limit: limit.min(CAPACITY),
        }
    }

    /// How many definitions the script has.
    pub fn count(&self) -> usize
        ensures { result ≡ length (definitions_of self.now) }
    {
        self.definitions().len()
    }

    /// The limit as it counts.
    pub fn limit(&self) -> usize
        ensures { result ≡ self.now.limit }
    {
        self.limit
    }

    /// The definitions, in the order of their numbers.
    pub fn definitions(&self) -> &[Definition]
        ensures { result.now ≡ definitions_of self.now }
    {
        &self.slots[0..self.count]
    }

    /// A definition by its number. Refuses 0 and a number above the count (11).
    pub fn definition(&self, number: DefinitionNumber) -> Result<Definition, Refusal>
        ensures { result ≡ fetched (definitions_of self.now) number.0 }
    {
        let n = number.0 as usize;
        if n == 0 || n > self.count {
            return Err(Refusal::NoSuchDefinition);
        }
        Ok(self.slots[n - 1])
    }

    /// Whether an operand can be read by this script: no definition operand that is 0 or above the count.
    pub fn knows(&self, operand: Operand) -> bool
        ensures { result ≡ known (length (definitions_of self.now)) operand }
    {
        match operand {
            Operand::Defined(number) => number.0 > 0 && number.0 as usize <= self.count,
            _ => true,
        }
    }

    /// The operand of the meet or join of two operands, by the rules in their order. Refuses a definition operand that is 0 or above
    /// the count (11), then a new definition where the limit is reached (10).
    pub fn combine(
        &mut self,
        operator: Operator,
        first: Operand,
        second: Operand,
    ) -> Result<Operand, Refusal>
        ensures { Combined self.old self.new operator first second result }
    {
        if !self.knows(first) || !self.knows(second) {
            return Err(Refusal::NoSuchDefinition);
        }
        // Kept: the draft is lent here and in translate, since a method that lent it would hold open what is true of a script.
        let mut draft = Draft {
            slots: &mut self.slots,
            count: self.count,
            limit: self.limit,
        };
        let operand = draft.combine(operator, first, second)?;
        self.count = draft.count;
        Ok(operand)
    }

    /// Writes the kept ways of a closed table by a method, and answers the operand and the number of definitions added. Refuses where the
    /// working records are short (13), then where a new definition is due and the limit is reached (10).
    pub fn translate(
        &mut self,
        table: &Table<'_>,
        method: Method,
        work: &mut [WorkingRecord],
    ) -> Result<(Operand, usize), Refusal>
        ensures { WroteTable self.old self.new method (ways_of table.now.ways.now) work.old work.new result }
    {
        let mut draft = Draft {
            slots: &mut self.slots,
            count: self.count,
            limit: self.limit,
        };
        let answer = translate(table, method, work, &mut draft)?;
        self.count = draft.count;
        Ok(answer)
    }
}
