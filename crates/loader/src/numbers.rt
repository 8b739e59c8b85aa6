// Numbers on the command line.
use names::Console;

// The number that the bytes spell in decimal. One past 4,294,967,295 stays there, since it names no pair either.
fn spelled(s: &[u8]) -> Option<u32> {
    if s.is_empty() {
        return None;
    }
    let mut n: u32 = 0;
    for c in s {
        if !c.is_ascii_digit() {
            return None;
        }
        n = n.saturating_mul(10).saturating_add(u32::from(*c - b'0'));
    }
    Some(n)
}

// The number that argument i spells; none of an argument that is missing or longer than the buffer.
pub fn argument(console: &Console, i: usize) -> Option<u32> {
    let mut word = [0u8; 32];
    let n = files::argument(console, i, &mut word).ok()?;
    spelled(&word[..n])
}
