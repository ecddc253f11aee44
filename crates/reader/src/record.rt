// A record of the file: "a tag (1 byte), a value length (2 bytes, high byte first) and the value".
ghost use Rattle.std.specs.Prelude.{◌≡◌, ◌≢◌, true, false, ◌+◌, ◌<◌, ◌≤◌, length, MatchResult};
ghost use Rattle.plan.specs.Meaning.{number_of_kind};
ghost use Rattle.plan.specs.Tables.{edge_of, atom_of};
ghost use Rattle.plan.specs.declared.Kind.{Kind};
ghost use Rattle.plan.specs.declared.refusal.Refusal.TheVariants.{Cut};
ghost use Rattle.reader.specs.Format.{word, tag_at, len_at, after, fits, edge_len, edge_in, kind_in, atom_in};
ghost use Rattle.reader.specs.Ready.{Room, Ready, ready_once};

use plan::{Atom, Edge, Kind, Plan, Refusal, UnknownKind};

// The record at an offset, which ends in the file, behind records of which so many of each sort were taken.
#[derive(Clone, Copy)]
pub struct Record<'a> {
    pub file: &'a [u8],
    pub at: usize,
    pub counts: Plan,
    ghost ready: { Ready file.now at counts } by { ready_once file.now at counts },
}

// The value length of an edge, with its length as a fourth field or without.
pub fn edge_len(long: bool) -> u16
    ensures { result ≡ edge_len long }
{
    if long { 8 } else { 6 }
}

// Two bytes, high byte first.
fn word(file: &[u8], i: usize) -> u16
    requires { i + 1 < length file.now }
    ensures { result ≡ word file.now i }
{
    u16::from_be_bytes([file[i], file[i + 1]])
}

impl<'a> Record<'a> {
    #[tactic(auto, unfolding(crate::specs::Format::fits))]
    pub fn at(file: &'a [u8], at: usize, counts: Plan) -> Result<Record<'a>, Refusal>
        requires within { at ≤ length file.now }
        requires room { Room counts }
        ensures { MatchResult result
            (λ r. (r.file.now ≡ file.entry.now) × (r.at ≡ at) × (r.counts ≡ counts) × (fits file.entry.now at ≡ true))
            (λ y. (y ≡ Cut at) × (fits file.entry.now at ≡ false)) }
    {
        let left = file.len() - at;
        if left < 3 || left - 3 < usize::from(word(file, at + 1)) {
            return Err(Refusal::Cut(at));
        }
        Ok(Record { file, at, counts })
    }

    pub fn tag(self) -> u8
        ensures { result ≡ tag_at self.entry.file.now self.entry.at }
    {
        self.file[self.at]
    }

    // The value's length, in bytes.
    pub fn len(self) -> u16
        ensures { result ≡ len_at self.entry.file.now self.entry.at }
    {
        self.word(1)
    }

    // Where the next record begins.
    pub fn end(self) -> usize
        ensures { result ≡ after self.entry.file.now self.entry.at }
    {
        self.at + 3 + usize::from(self.len())
    }

    // The two bytes at a place of the record.
    pub fn word(self, place: usize) -> u16
        requires { self.at + place + 1 < after self.file.now self.at }
        ensures { result ≡ word self.entry.file.now (self.entry.at + place) }
    {
        word(self.file, self.at + place)
    }

    pub fn edge(self, long: bool) -> Edge
        requires { len_at self.file.now self.at ≡ edge_len long }
        ensures { edge_of result ≡ edge_in long self.entry.file.now self.entry.at }
    {
        Edge {
            from: self.word(3),
            to: self.word(5),
            length: if long { self.word(9) } else { 1 },
            variable: self.word(7),
        }
    }

    pub fn atom(self) -> Result<Atom, UnknownKind>
        requires { len_at self.file.now self.at ≡ 9 }
        ensures { let number = kind_in self.entry.file.now self.entry.at in
            MatchResult result
            (λ a. (number_of_kind a.kind ≡ number) × (atom_of a ≡ atom_in self.entry.file.now self.entry.at))
            (λ _. (kind : Kind) → number_of_kind kind ≢ number) }
    {
        Ok(Atom {
            kind: Kind::try_from(u16::from(self.file[self.at + 3]))?,
            from: self.word(4),
            to: self.word(6),
            bound: self.word(8),
            variable: self.word(10),
        })
    }
}
