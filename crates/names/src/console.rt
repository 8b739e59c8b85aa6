// A program's outputs. std has a program go on where nobody reads its output any more; here it ends as the system's signal would end it:
// nothing is written from then on, and its status is the one that a shell gives to such an end.
use std::cell::Cell;
use std::fmt::Display;
use std::io;
use std::io::{Eprint, Error, ErrorKind, IsTerminal, Print};

// What a shell says of an end by that signal: 128 and the signal's number.
pub const UNREAD: u8 = 141;

#[derive(Drop)]
pub struct Console {
    pub rt: HostRuntime,
    unread: Cell<bool>,
}

impl Console {
    pub fn new(rt: HostRuntime) -> Console {
        Console {
            rt,
            unread: Cell::new(false),
        }
    }

    // Whether nobody reads one of the outputs any more, as a write has told.
    pub fn is_unread(&self) -> bool {
        self.unread.get()
    }

    pub fn shows_progress(&self) -> bool {
        self.rt.stderr().is_terminal()
    }

    // Writes, unless nobody reads any more, and notes where a write tells so.
    fn noting<W: FnOnce() -> io::Result<()>>(&self, write: W) -> io::Result<()>
        requires { W.IsAlwaysCallable write }
    {
        if self.is_unread() {
            return Err(Error::from(ErrorKind::BrokenPipe));
        }
        write().inspect_err(|error| {
            if error.kind() == ErrorKind::BrokenPipe {
                self.unread.set(true);
            }
        })
    }

    // Bytes that need not be text, to standard error.
    pub fn say(&self, bytes: &[u8]) -> io::Result<()> {
        self.noting(|| self.rt.stderr().write_all(bytes))
    }
}

// Standard output.
impl Print for Console {
    fn print<D: Display + Drop>(&self, value: D) -> io::Result<()> {
        self.noting(|| self.rt.print(value))
    }

    fn println<D: Display + Drop>(&self, value: D) -> io::Result<()> {
        self.noting(|| self.rt.println(value))
    }

    fn write_all(&self, bytes: &[u8]) -> io::Result<()> {
        self.noting(|| self.rt.write_all(bytes))
    }
}

impl Eprint for Console {
    fn eprint<D: Display + Drop>(&self, value: D) -> io::Result<()> {
        self.noting(|| self.rt.eprint(value))
    }

    fn eprintln<D: Display + Drop>(&self, value: D) -> io::Result<()> {
        self.noting(|| self.rt.eprintln(value))
    }
}
