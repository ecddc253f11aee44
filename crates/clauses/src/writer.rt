// A lent table of numbers that is filled from a place on.
ghost use Rattle.std.specs.Prelude.{[], ◌∷◌, pos};
ghost use Rattle.plan.specs.Meaning.{on, off};
ghost use Rattle.clauses.specs.Appending.{RoomFor, Appends};
ghost use Rattle.clauses.specs.Rows.{Fits, gives_row};

// The table, and the place in it from which on the next numbers are written. Every writer leaves it with the place behind what it wrote. (No Vec:
// no heap.)
#[derive(Drop)]
pub struct Writer<'a> {
    pub out: &'a mut [i32],
    pub at: usize,
}

impl Writer<'_> {
    fn put(&mut self, number: i32)
        requires { RoomFor (number ∷ []) self.old }
        ensures { Appends (number ∷ []) self.old self.new }
    {
        self.out[self.at] = number;
        self.at += 1;
    }

    // The variable's literal.
    pub(crate) fn on(&mut self, variable: usize)
        requires room { RoomFor (on variable ∷ []) self.old }
        requires fits { Fits variable }
        ensures { Appends (on variable ∷ []) self.old self.new }
    {
        let literal = variable as i32;
        self.put(literal);
    }

    // The opposite of the variable's literal.
    pub(crate) fn off(&mut self, variable: usize)
        requires room { RoomFor (off variable ∷ []) self.old }
        requires fits { Fits variable }
        ensures { Appends (off variable ∷ []) self.old self.new }
    {
        self.put(-(variable as i32));
    }

    // The 0 that ends a clause.
    pub(crate) fn zero(&mut self)
        requires { RoomFor (pos 0 ∷ []) self.old }
        ensures { Appends (pos 0 ∷ []) self.old self.new }
    {
        self.put(0);
    }

    // The clause (-a, b).
    #[tactic(auto, unfolding(crate::specs::Rows::gives_row))]
    pub(crate) fn gives(&mut self, a: usize, b: usize)
        requires room { RoomFor (gives_row a b) self.old }
        requires fits { Fits a × Fits b }
        ensures { Appends (gives_row a b) self.old self.new }
    {
        self.off(a);
        self.on(b);
        self.zero();
    }
}
