//! What the command line asks for.

ghost use Rattle.std.specs.Prelude.{◌≤◌};

/// The most bodies that a claim takes out.
const MOST_CLAIMED: u32 = 32;

/// How many cells come before each claim, 1 to 32, and how many rounds there are.
#[derive(Clone, Copy)]
pub(crate) struct Request {
    pub batch: u32,
    pub rounds: u32,
    ghost some: { 1 ≤ batch },
    ghost most: { batch ≤ 32 },
}

/// Reads the words of a command line, the program's name first.
pub(crate) fn asked(words: &[String]) -> Option<Request> {
    let batch = words.get(1)?.as_str().parse::<u32>().ok()?;
    let rounds = words.get(2)?.as_str().parse::<u32>().ok()?;
    if batch == 0 || batch > MOST_CLAIMED {
        return None;
    }
    Some(Request { batch, rounds })
}
