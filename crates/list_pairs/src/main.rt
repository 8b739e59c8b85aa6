#![tactic(auto)]
// Reads a pack from standard input and prints one line a pair, rule and place; a refused pack prints `refused` and the number.
use names::{Console, UNREAD};
use std::process::ExitCode;

// One byte more than the limit is enough to see that a pack is too long.
const PACK_ROOM: usize = records::MOST_PACK_BYTES + 1;

// The records of as many pairs as there can be.
const LIST_ROOM: usize = 8 * records::MOST_PAIRS;

fn list(console: &Console) {
    let mut pack = [0u8; PACK_ROOM];
    let mut list = [0u8; LIST_ROOM];
    let Ok(n) = files::read_input(console, &mut pack) else {
        return;
    };
    let written = match teldyzhom::list_pairs(&pack[..n], &mut list) {
        Ok(n) => printing::pairs(console, &list, n),
        Err(x) => printing::refused(console, x),
    };
    let _ = printing::finished(console, written);
}

fn main(rt: HostRuntime) -> ExitCode {
    let console = Console::new(rt);
    list(&console);
    if console.is_unread() {
        return ExitCode::from(UNREAD);
    }
    ExitCode::SUCCESS
}
