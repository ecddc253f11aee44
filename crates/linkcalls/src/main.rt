// linkcalls: makes the public calls that standard input asks for, and writes a line for each.
//
// A request, numbers high byte first: the call (1 byte), the file's length (2) and the file, the assignment's length (2) and the
// assignment (signed bytes) or the text, the atom (2), the budget (4) and the room (2), which is the length of the buffer that is lent.
#![tactic(auto)]

mod answers;

ghost use Rattle.std.specs.Prelude.{◌≡◌, length, IfOk};

use std::io;
use std::io::{Read, Write};
use text::Out;

const MAX_FILE: usize = 20480;

const MAX_ASSIGNMENT: usize = 65535;

const MAX_ROOM: usize = 20480;

// What stands in each place of a buffer before the call.
const BEFORE: i8 = 77;

struct Request<'a> {
    call: u8,
    file: &'a [u8],
    // The same bytes, as a text and as values.
    text: &'a [u8],
    assignment: &'a [i8],
    atom: usize,
    budget: u32,
    room: usize,
}

// Why there is no answer.
#[derive(Drop)]
enum Stop {
    // The input ended before the request.
    End,
    BadRequest,
    Failed(io::Error),
}

impl From<io::Error> for Stop {
    fn from(why: io::Error) -> Stop {
        Stop::Failed(why)
    }
}

// Nothing says that the input ends, so the turns are counted, from a number that no run uses up.
fn main(rt: HostRuntime) -> io::Result<()> {
    let mut input = rt.stdin();
    for _ in 0..u64::MAX {
        match turn(&rt, &mut input) {
            Ok(()) => {}
            Err(Stop::End) => break,
            Err(Stop::BadRequest) => return println!(rt; "bad request"),
            Err(Stop::Failed(why)) => return Err(why),
        }
    }
    Ok(())
}

// Reads one request and answers it.
fn turn(rt: &impl Print, input: &mut impl Read) -> Result<(), Stop> {
    let mut head = [0u8; 3];
    match text::read_full(input, &mut head)? {
        0 => return Err(Stop::End),
        3 => {}
        _ => return Err(Stop::BadRequest),
    }
    let mut file = [0u8; MAX_FILE];
    let file = part(input, &mut file, u16::from_be_bytes([head[1], head[2]]))?;
    let mut size = [0u8; 2];
    part(input, &mut size, 2)?;
    let mut text = [0u8; MAX_ASSIGNMENT];
    let text = part(input, &mut text, u16::from_be_bytes(size))?;
    let mut values = [0i8; MAX_ASSIGNMENT];
    sign(text, &mut values);
    let mut tail = [0u8; 8];
    part(input, &mut tail, 8)?;
    let request = Request {
        call: head[0],
        file,
        text,
        assignment: &values[..text.len()],
        atom: usize::from(u16::from_be_bytes([tail[0], tail[1]])),
        budget: u32::from_be_bytes([tail[2], tail[3], tail[4], tail[5]]),
        room: usize::from(u16::from_be_bytes([tail[6], tail[7]])),
    };
    let mut out = Out::new(io::writer(rt));
    answers::answer(&mut out, request)?;
    Ok(out.flush()?)
}

// Reads so many bytes to the buffer's front and hands them back. The input may not end in them.
fn part<'a>(input: &mut impl Read, buffer: &'a mut [u8], size: u16) -> Result<&'a [u8], Stop>
    ensures { IfOk result (λ part. length part.now ≡ size) }
{
    let size = usize::from(size);
    let Some(part) = buffer.get_mut(..size) else {
        return Err(Stop::BadRequest);
    };
    if text::read_full(input, part)? < size {
        return Err(Stop::BadRequest);
    }
    Ok(part)
}

// Each byte as a signed one.
fn sign(bytes: &[u8], values: &mut [i8]) {
    for (value, byte) in values.iter_mut().zip(bytes) {
        *value = byte.cast_signed();
    }
}
