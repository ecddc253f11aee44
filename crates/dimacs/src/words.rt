// The words of a text, one after the other; comments are passed over.
ghost use Rattle.std.specs.Prelude.{◌≡◌, ◌≤◌, not, ◌==◌, length};
ghost use Rattle.std.specs.List.{prefix_len};
ghost use Rattle.dimacs.specs.Words.{line_end as Words·line_end, divides};
ghost use Rattle.dimacs.specs.Scanning.{Skipped, Passed, Extended, WordIs};

// Where a word starts and ends, and whether it is the first of its line.
#[derive(Clone, Copy)]
pub struct Word {
    pub start: usize,
    pub end: usize,
    pub leads: bool,
}

// An offset between two words, and whether the line has none yet.
#[derive(Clone, Copy)]
struct Gap {
    at: usize,
    leads: bool,
}

// By `matches!` the four are compared one by one, and a long word takes twice as long to pass over; so they are one look into a set of bits.
fn is_divider(byte: u8) -> bool
    ensures { result ≡ divides byte }
{
    byte == b' ' || byte == b'\t' || byte == b'\r' || byte == b'\n'
}

// Passes over dividers.
fn skip(text: &[u8], from: usize, leads: bool) -> Gap
    requires { from ≤ length text.now }
    ensures { Skipped text.now from leads result }
{
    let mut fresh = leads;
    for at in from..text.len() {
        let byte = text[at];
        if !is_divider(byte) {
            return Gap { at, leads: fresh };
        }
        fresh |= byte == b'\n';
    }
    Gap {
        at: text.len(),
        leads: fresh,
    }
}

// How many bytes come before the line's end.
fn before_line_end(bytes: &[u8]) -> usize
    ensures { result ≡ prefix_len (λ b. not (b == Words·line_end)) bytes.now }
{
    bytes.iter().take_while(|byte| **byte != b'\n').count()
}

// How many bytes come before a divider.
fn before_divider(bytes: &[u8]) -> usize
    ensures { result ≡ prefix_len (λ b. not (divides b)) bytes.now }
{
    bytes.iter().take_while(|byte| !is_divider(**byte)).count()
}

// The end of the line, from within a comment.
fn line_end(text: &[u8], from: usize) -> usize
    requires { from ≤ length text.now }
    ensures { Passed text.now from result }
{
    from + before_line_end(&text[from..])
}

// The end of the word, from within it.
fn word_end(text: &[u8], from: usize) -> usize
    requires { from ≤ length text.now }
    ensures { Extended text.now from result }
{
    from + before_divider(&text[from..])
}

// The next word from an offset on that is in no comment.
pub fn next_word(text: &[u8], from: usize, leads: bool) -> Option<Word>
    requires { from ≤ length text.now }
    ensures { WordIs text.now from leads result }
{
    let mut gap = skip(text, from, leads);
    // Not a step of one: a turn passes over a whole comment.
    while gap.at < text.len() {
        let Gap { at: start, leads } = gap;
        if !(leads && text[start] == b'c') {
            let end = word_end(text, start + 1);
            return Some(Word { start, end, leads });
        }
        let end = line_end(text, start + 1);
        gap = skip(text, end, true);
    }
    None
}
