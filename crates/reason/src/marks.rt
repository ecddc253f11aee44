// Marks on variables, and the clause that is written from them.
ghost use Rattle.std.specs.Prelude.{◌≡◌, false, not, map, ◌+◌, ◌≤◌, length, replicate, MatchResult};
ghost use Rattle.plan.specs.Buffers.{Answered};
ghost use Rattle.plan.specs.Meaning.{literal_of};
ghost use Rattle.plan.specs.Ranged.{max_variables};
ghost use Rattle.reason.specs.Answers.{TooLong};
ghost use Rattle.reason.specs.Marks.{MarksAlso, premises, clause_of, Appends};

use crate::question::Question;
use plan::{Assignment, Short};

// Whether a variable is marked: that of variable v stands at place v - 1.
#[derive(Clone, Copy)]
pub struct Marks {
    pub marked: [bool; Assignment::MAX],
}

impl Marks {
    pub fn none() -> Marks
        ensures { result.marked ≡ replicate 512 false }
    {
        Marks {
            marked: [false; Assignment::MAX],
        }
    }

    pub fn mark(&mut self, variable: u16)
        requires le_variable { 1 ≤ variable }
        requires variable_le_max_variables { variable ≤ max_variables }
        ensures { MarksAlso (λ v. v ≡ variable) self.old.marked self.new.marked }
    {
        self.marked[usize::from(variable) - 1] = true;
    }

    // How many of the question's variables are marked.
    fn count(&self, question: &Question) -> usize
        ensures { result ≡ length (premises self.now.marked (length question.now.assignment.now)) }
    {
        self.marked[..question.assignment.len()]
            .iter()
            .filter(|mark| **mark)
            .count()
    }

    // Writes the literals of the marked variables from the place `at` on.
    fn write_marked(&self, sign: bool, question: &Question, at: usize, out: &mut [i16])
        requires { at + length (premises self.now.marked (length question.now.assignment.now)) ≤ length out.old }
        ensures { let marked = premises self.now.marked (length question.now.assignment.now) in
            Appends at (map (literal_of sign) marked) out.old out.new (at + length marked) }
    {
        // It moves with what is written.
        let mut end = at;
        for (v, mark) in self.marked[..question.assignment.len()].iter().enumerate() {
            if *mark {
                out[end] = plan::literal_of(v + 1, sign);
                end += 1;
            }
        }
    }

    // Writes the clause of the question's atom and the marked variables, where there is room for it: the literal of the atom's variable is on where `holds`,
    // and the others are then off.
    pub fn write(&self, holds: bool, question: &Question, out: &mut [i16]) -> Result<usize, Short>
        ensures { let q = question.now in
            let clause = clause_of (literal_of holds q.atom.variable) (not holds) self.now.marked (length q.assignment.now) in
            MatchResult result (Answered clause out.old out.new) (λ short. TooLong clause out.old out.new short.0) }
    {
        let length = self.count(question) + 1;
        if out.len() < length {
            return Err(Short(length));
        }
        out[0] = plan::literal_of(usize::from(question.atom.variable), holds);
        self.write_marked(!holds, question, 1, out);
        Ok(length)
    }
}
