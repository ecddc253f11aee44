// Numbers as text: a clause a line, one blank between numbers.
ghost use Rattle.std.specs.Prelude.{◌≡◌, List, [], ◌∷◌, ℕ, ◌+◌, ◌*◌, ◌<◌, ℤ, pos, length, get_or, refl};
ghost use Rattle.std.proofs.Common.{rules};
ghost use Rattle.std.proofs.lemmas.Grind.{common_steps};
ghost use Rattle.plan.specs.Front.{Room, Put};
ghost use Rattle.dimacs.specs.Printers.{Lays};
ghost use Rattle.dimacs.specs.Printing.{numeral, entry, entries, head_line, atom_line, Near};

// A number of a list of clauses: a literal, or the 0 that ends a clause.
pub trait Entry: Copy {
    ghost number: { Self → ℤ };

    // The numbers of a list: for the types here the list itself, so that a promise speaks of it as it is.
    ghost numbers: { List Self → List ℤ };

    // The number, with room for all.
    fn widened(self) -> i32
        ensures { result ≡ number self };

    ghost as_many: { (xs : List Self) → length (numbers xs) ≡ length xs };

    ghost one_by_one: { (xs : List Self) (k : ℕ) (d : Self) → k < length xs → get_or (numbers xs) k (pos 0) ≡ number (get_or xs k d) };
}

impl Entry for i32 {
    ghost number = { λ x. x };

    ghost numbers = { λ xs. xs };

    ghost as_many = { λ xs. refl };

    ghost one_by_one = { Prim.search (rules, common_steps) };

    fn widened(self) -> i32 {
        self
    }
}

impl Entry for i16 {
    ghost number = { λ x. x };

    ghost numbers = { λ xs. xs };

    ghost as_many = { λ xs. refl };

    ghost one_by_one = { Prim.search (rules, common_steps) };

    fn widened(self) -> i32 {
        i32::from(self)
    }
}

// How many digits a number has.
fn width(number: u32) -> usize
    ensures { result ≡ length (numeral number) }
{
    let mut digits = 1;
    let mut bound = 10u64;
    // A step of ten times, not of one. Tried: by `ilog10` a text takes 1.4 to 1.7 times as long to print.
    while u64::from(number) >= bound {
        bound *= 10;
        digits += 1;
    }
    digits
}

// A number's digits, for which there is room. It takes no printer: it fills the places from the last to the first, and no place goes on with it.
fn spell(out: &mut [u8], at: usize, number: u32, digits: usize)
    requires room { Room (numeral number) at out.old }
    requires digits_value { digits ≡ length (numeral number) }
    ensures { Put (numeral number) at out.old out.new (at + digits) }
{
    let mut rest = number;
    for place in (at..at + digits).rev() {
        out[place] = b'0' + (rest % 10) as u8;
        rest /= 10;
    }
}

// A lent buffer, and the place in it from which on the next is printed. All is printed as far as there is room, and the place goes on all the same: in the
// end it is the one behind what was printed or would have been.
#[derive(Drop)]
pub struct Printer<'a> {
    pub out: &'a mut [u8],
    pub at: usize,
}

impl Printer<'_> {
    fn byte(&mut self, byte: u8)
        requires { Near self.old.at }
        ensures { Lays (byte ∷ []) self.old self.new }
    {
        if self.at < self.out.len() {
            self.out[self.at] = byte;
        }
        self.at += 1;
    }

    fn bytes(&mut self, bytes: &[u8])
        requires { Near (self.old.at + length bytes.now) }
        ensures { Lays bytes.now self.old self.new }
    {
        for byte in bytes {
            self.byte(*byte);
        }
    }

    fn number(&mut self, number: u32)
        requires { Near self.old.at }
        ensures { Lays (numeral number) self.old self.new }
    {
        let digits = width(number);
        let end = self.at + digits;
        if end <= self.out.len() {
            spell(self.out, self.at, number, digits);
        }
        self.at = end;
    }

    // A number and what stands behind it: a 0 ends its line.
    fn entry(&mut self, value: i32)
        requires { Near (self.old.at + 12) }
        ensures { Lays (entry value) self.old self.new }
    {
        if value < 0 {
            self.byte(b'-');
        }
        self.number(value.unsigned_abs());
        let divider = if value == 0 { b'\n' } else { b' ' };
        self.byte(divider);
    }

    // Clauses, each ended by 0.
    pub fn numbers<T: Entry>(&mut self, numbers: &[T])
        requires { Near (self.old.at + 12 * length numbers.now) }
        ensures { Lays (entries (T.numbers numbers.now)) self.old self.new }
    {
        // By a printer of the loop's own, whose place stays in a register. Tried: with `self` in its stead a text takes a seventh longer to print.
        let mut printer = Printer {
            out: &mut *self.out,
            at: self.at,
        };
        for number in numbers {
            printer.entry(number.widened());
        }
        self.at = printer.at;
    }

    // The `p cnf` line.
    pub fn head(&mut self, variables: u32, clauses: u32)
        requires { Near (self.old.at + 40) }
        ensures { Lays (head_line variables clauses) self.old self.new }
    {
        self.bytes(b"p cnf ");
        self.number(variables);
        self.byte(b' ');
        self.number(clauses);
        self.byte(b'\n');
    }

    // The line `c atom` with an atom's number.
    pub fn atom_line(&mut self, atom: u32)
        requires { Near (self.old.at + 40) }
        ensures { Lays (atom_line atom) self.old self.new }
    {
        self.bytes(b"c atom ");
        self.number(atom);
        self.byte(b'\n');
    }
}
