// The listing of a capture. The first argument is the family of its terminals, 000, 001 or 002; without it, it is 002. The second names the file;
// without it, the capture is standard input. It is read to its end in blocks.
//
// The program streams. It holds only one block, one page of lines on their way out, and the reader. If something cannot be read or written,
// standard error says so, and there is no total line. So a cut listing never looks whole.

#![tactic(auto)]

ghost use Rattle.std.specs.Prelude.{◌≤◌, length, IfOk};

mod outputs;
mod page;
mod telling;

use outputs::{Cut, Outputs};
use page::Page;
use std::env::FillError;
use std::fs::File;
use std::io::Read;
use std::rt::{Env, Files};
use std::str;
use telling::Tally;
use weight::Family;

// One read of the capture, and how many bytes it brought. If it failed, the lines so far go out and nothing behind them.
fn read_some(
    capture: &mut impl Read,
    name: &str,
    block: &mut [u8],
    page: &mut Page,
) -> Result<usize, Cut>
    ensures { IfOk result (λ n. n ≤ length block.new) }
{
    match capture.read(block) {
        Ok(count) => Ok(count),
        Err(error) => {
            let cut = page.out.fail(name, error);
            page.flush()?;
            Err(cut)
        }
    }
}

// A proved loop has to end, but nothing says that a capture ends. So the turns are counted up to a number that no run uses up.
// A read that came back short shows all there is, since the line may be silent for long.
fn list_all(
    capture: &mut impl Read,
    name: &str,
    family: Family,
    block: &mut [u8],
    page: &mut Page,
) -> Result<(), Cut> {
    let mut tally = Tally::new(family);
    for _ in 0..u64::MAX {
        let count = read_some(capture, name, block, page)?;
        if count == 0 {
            break;
        }
        tally.list_block(&block[..count], page)?;
        if count < block.len() {
            page.flush()?;
        }
    }
    tally.tell_total(page)
}

fn list(capture: &mut impl Read, name: &str, family: Family, out: Outputs) {
    let mut block = [0u8; 65536];
    let mut room = [0u8; 65536];
    let mut page = Page {
        room: &mut room,
        used: 0,
        out,
    };
    let _ = list_all(capture, name, family, &mut block, &mut page);
}

fn list_file(rt: &impl Files, path: &str, family: Family, out: Outputs) {
    match File::open(rt, path) {
        Ok(mut capture) => list(&mut capture, path, family, out),
        Err(error) => {
            out.fail(path, error);
        }
    }
}

// A family by the number of its document: three digits. No capture is of the plain family, which is that of old records.
fn family_named(name: &[u8]) -> Option<Family> {
    match name {
        b"000" => Some(Family::Of000),
        b"001" => Some(Family::Of001),
        b"002" => Some(Family::Of002),
        _ => None,
    }
}

// The capture of a family: the file that the second argument names, or standard input.
fn list_named(rt: &(impl Env + Files), input: &mut impl Read, family: Family, out: Outputs) {
    let mut path = [0u8; 4096];
    match rt.arg(2, &mut path) {
        Ok(length) => match str::from_utf8(&path[..length]) {
            Ok(path) => list_file(rt, path, family, out),
            Err(_) => out.say("the capture's name is not UTF-8"),
        },
        Err(FillError::NotPresent) => list(input, "standard input", family, out),
        Err(FillError::TooLong) => out.say("the capture's name: File name too long"),
    }
}

fn main(rt: HostRuntime) {
    let out = Outputs::new(rt.stdout(), rt.stderr(), rt.alloc());
    let mut input = rt.stdin();
    let mut name = [0u8; 4096];
    match rt.arg(1, &mut name) {
        Ok(length) => match family_named(&name[..length]) {
            Some(family) => list_named(&rt, &mut input, family, out),
            None => out.say("the family is 000, 001 or 002"),
        },
        Err(FillError::NotPresent) => list(&mut input, "standard input", Family::Of002, out),
        Err(FillError::TooLong) => out.say("the family: File name too long"),
    }
}
