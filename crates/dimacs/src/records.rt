// Clauses as records of a plan file: the tag, the value's length and the literals, high byte first.
ghost use Rattle.std.specs.Prelude.{◌*◌, ◌<◌, ◌≤◌, length};
ghost use Rattle.plan.specs.ClauseTable.{Table, max_table};
ghost use Rattle.plan.specs.Front.{Room, Put};
ghost use Rattle.plan.specs.Ranged.{max_variables};
ghost use Rattle.plan.specs.Tables.{clauses_of};
ghost use Rattle.dimacs.specs.Printers.{Lays};
ghost use Rattle.dimacs.specs.Records.{two, literal_bytes, clause_record, records};

use crate::printing::Printer;
use plan::clauses::end_of;

// These are asked only where there is room for all that they print.
impl Printer<'_> {
    // A number in two bytes.
    fn two(&mut self, value: u16)
        requires { Room (two value) self.old.at self.old.out.now }
        ensures { Lays (two value) self.old self.new }
    {
        let [high, low] = value.to_be_bytes();
        self.out[self.at] = high;
        self.out[self.at + 1] = low;
        self.at += 2;
    }

    // Each literal as 16-bit two's complement.
    fn literals(&mut self, clause: &[i16])
        requires { Room (literal_bytes clause.now) self.old.at self.old.out.now }
        ensures { Lays (literal_bytes clause.now) self.old self.new }
    {
        for literal in clause {
            self.two(literal.cast_unsigned());
        }
    }

    fn record(&mut self, clause: &[i16])
        requires room { Room (clause_record clause.now) self.old.at self.old.out.now }
        requires clause_len_bound { length clause.now * 2 < 65536 }
        ensures { Lays (clause_record clause.now) self.old self.new }
    {
        self.out[self.at] = 4;
        self.at += 1;
        self.two((clause.len() * 2) as u16);
        self.literals(clause);
    }
}

// The records of the clauses of a table, at the front of `out`.
pub fn put_records(out: &mut [u8], clauses: &[i16]) -> usize
    requires room { Room (records (clauses_of clauses.now)) 0 out.old }
    requires table { Table max_variables clauses.now }
    requires clauses_len_bound { length clauses.now ≤ max_table }
    ensures { Put (records (clauses_of clauses.now)) 0 out.old out.new result }
{
    let mut printer = Printer { out, at: 0 };
    let mut start = 0;
    // Not a step of one: a turn goes over a whole clause.
    while start < clauses.len() {
        let stop = end_of(clauses, start);
        printer.record(&clauses[start..stop]);
        start = stop + 1;
    }
    printer.at
}
