// The reason of an atom: the path by which it holds, or the cut by which it fails, as marks on variables and then as a clause.
#![tactic(auto)]

mod cut;
mod marks;
mod path;
mod question;

ghost use Rattle.std.specs.Prelude.{◌<◌, length};
ghost use Rattle.plan.specs.Meaning.{atom};
ghost use Rattle.plan.specs.Search.{Assigned};
ghost use Rattle.plan.specs.Tables.{edges_of, atoms_of};
ghost use Rattle.reason.specs.Answers.{AnswerIs, Over};

use cut::Cut;
use path::Path;
use plan::{Short, State, Tables};
use question::Question;

// What is answered: the atom holds or fails, with the number of literals written; or it is open.
#[derive(Clone, Copy, Debug, PartialEq, Eq)]
pub enum Answer {
    Holds(usize),
    Fails(usize),
    Open,
}

// The reason for the atom numbered `number`, from 0, under a partial assignment. The error says how much room the clause needs where there is less.
pub fn reason(
    tables: &Tables,
    assignment: &[i8],
    number: usize,
    out: &mut [i16],
) -> Result<Answer, Short>
    requires assigned { Assigned tables.now.plan.variables assignment.now }
    requires inside { number < length tables.now.atoms.now }
    ensures { Over (edges_of tables.now.edges.now) (λ φ. AnswerIs φ assignment.now (atom (atoms_of tables.now.atoms.now) number) result out.old out.new) }
{
    let question = Question {
        edges: tables.edges,
        assignment,
        atom: tables.atoms[number],
    };
    let holding = question.distances(true);
    let failing = question.distances(false);
    match walk::settled(question.atom, &holding, &failing) {
        State::Holds => {
            let path = Path {
                question,
                distances: &holding,
            };
            path.marks().write(true, &question, out).map(Answer::Holds)
        }
        State::Fails => {
            let cut = Cut {
                question,
                distances: &failing,
            };
            cut.marks().write(false, &question, out).map(Answer::Fails)
        }
        State::Open => Ok(Answer::Open),
    }
}
