// Prints what each line of a script says: its command again, or its fault.
#![tactic(auto)]

use script::{Command, Reader, parse_line};
use std::io::Read;
use std::{fmt, io};

// A command as it is printed again: of its homes, only how many keys there are.
#[derive(Clone, Copy)]
struct Shown<'a>(Command<'a>);

impl<'a> fmt::Display for Shown<'a> {
    fn fmt<W: fmt::Write>(&self, f: &mut fmt::Formatter<W>) -> fmt::Result {
        match self.0 {
            Command::Open {
                towers,
                homes,
                depth,
                book,
            } => {
                let keys = homes.len();
                write!(
                    f,
                    "do=open towers={towers} keys={keys} depth={depth} book={book}"
                )
            }
            Command::Begin { tower } => write!(f, "do=begin tower={tower}"),
            Command::Read { tx, key } => write!(f, "do=read tx={tx} key={key}"),
            Command::Draft { tx, key, value } => {
                write!(f, "do=draft tx={tx} key={key} value={value}")
            }
            Command::Close { tx } => write!(f, "do=close tx={tx}"),
            Command::Drop { tx } => write!(f, "do=drop tx={tx}"),
            Command::Deliver { position } => write!(f, "do=deliver msg={position}"),
        }
    }
}

fn show_lines(rt: &HostRuntime, text: &[u8]) -> io::Result<()> {
    let reader = match Reader::new(text) {
        Ok(reader) => reader,
        Err(fault) => return println!(rt; "line=0 {fault}"),
    };
    for (n, line) in (1u64..).zip(reader) {
        match parse_line(line) {
            Ok(command) => println!(rt; "line={n} {}", Shown(command))?,
            Err(fault) => println!(rt; "line={n} {fault}")?,
        }
    }
    Ok(())
}

fn main(rt: HostRuntime) -> io::Result<()> {
    let mut text = Vec::new(rt.alloc());
    let _ = rt.stdin().read_to_end(&mut text)?;
    show_lines(&rt, text.as_slice())
}
