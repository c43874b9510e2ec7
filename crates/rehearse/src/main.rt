// Plays a script from the standard input, and prints its transcript.
#![tactic(auto)]

ghost use Rattle.std.specs.Prelude.{◌≡◌, ℕ, ◌<◌, ◌≤◌, length, vec_len, ◌≢◌, slice_index, MatchOption};

use rehearsal::rehearsal::Rehearsal;
use std::io::{BufRead, BufReader, Stdin, Write};
use std::process::ExitCode;
use std::{env, io};

/// The longest line that is read.
const LONGEST_LINE: usize = 4096;

const VERSION: &str = "rehearse 0.1.0\nrattle-kit-13f logic dac8208d650f15bf\n";

const USAGE: &str = "usage: rehearse < SCRIPT
Plays a script of notes, their wardens and their readers, and prints what happens.
One command a line:
  wardens N F              begin anew with N wardens, 5 to 9, of whom F may lie, 4F < N
  liar I                   warden I lies from now on
  forget I                 warden I loses all that it had
  seed S                   liars answer by the seed S from now on
  write K [HEX]            the office writes this value of the note K
  tick [office | J]        time passes for all, for the office, for the reader J
  read J K                 the reader J, 65 to 68, begins to read the note K
  deliver all              all messages come, also those sent meanwhile
  deliver M | FROM TO      a message comes: by its number, or the first between two
  lose M | FROM TO         it never comes
  double M | FROM TO       one more like it is sent
  late M | FROM TO         it goes behind all others
  say I TO take K E [HEX]  the liar I says this to TO of the note K;
                           or took K E, ask K R, told K R E [HEX]
  show                     what each party has
  # REMARK                 is printed as it stands
Parties are office, a warden's number, a reader's number.
";

// What was read of the input.
#[derive(Clone, Copy, PartialEq, Eq)]
enum Got {
    Line,
    LongLine,
    End,
}

// How many bytes stand before the first line break, if there is one.
fn line_break(held: &[u8]) -> Option<usize>
    ensures { MatchOption result ((k : ℕ) → k < length held.now → slice_index held.now k ≢ 10) (λ n. (n < length held.now) × (slice_index held.now n ≡ 10) × ((k : ℕ) → k < n → slice_index held.now k ≢ 10)) }
{
    held.iter().position(|&byte| byte == b'\n')
}

// Reads the next line, without its break. Of one that is too long the rest is passed over.
fn next_line(input: &mut BufReader<Stdin>, line: &mut Vec<u8>) -> io::Result<Got>
    ensures { vec_len line.new ≤ 4096 }
{
    line.clear();
    let mut got = Got::End;
    // A loop that waits for input has to have a bound.
    for _ in 0..u64::MAX {
        let held = input.fill_buf()?;
        if held.is_empty() {
            break;
        }
        let found = line_break(held);
        let length = found.unwrap_or(held.len());
        if got == Got::LongLine || length > LONGEST_LINE - line.len() {
            got = Got::LongLine;
        } else {
            line.extend_from_slice(&held[..length])?;
            got = Got::Line;
        }
        input.consume(length);
        if found.is_some() {
            input.consume(1);
            break;
        }
    }
    Ok(got)
}

// Plays each line, and prints what it came to.
fn rehearse(rt: &HostRuntime) -> io::Result<()> {
    let mut input = BufReader::new(rt.alloc(), rt.stdin())?;
    let mut out = rt.stdout();
    let mut line = Vec::new(rt.alloc());
    let mut rehearsal = Rehearsal::new(rt.alloc());
    for _ in 0..u64::MAX {
        match next_line(&mut input, &mut line)? {
            Got::End => break,
            Got::LongLine => rehearsal.long_line()?,
            Got::Line => rehearsal.line(&line)?,
        }
        out.write_all(rehearsal.transcript.text.as_bytes())?;
        rehearsal.transcript.text.clear();
    }
    out.flush()
}

fn main(rt: HostRuntime) -> io::Result<ExitCode> {
    let mut args = env::args(&rt)?;
    let _own = args.next();
    let Some(first) = args.next() else {
        rehearse(&rt)?;
        return Ok(ExitCode::SUCCESS);
    };
    match first.as_str() {
        "--help" if args.next().is_none() => rt.print(USAGE)?,
        "--version" if args.next().is_none() => rt.print(VERSION)?,
        _ => {
            eprintln!(rt;
                "rehearse takes --help, --version or nothing, and then reads its script from the standard input."
            )?;
            return Ok(ExitCode::FAILURE);
        }
    }
    Ok(ExitCode::SUCCESS)
}
