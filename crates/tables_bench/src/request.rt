//! What the command line asks for.

ghost use Rattle.std.specs.Prelude.{◌<◌};

/// What to time: so many circuits on so many channels, and how many rounds of calls.
#[derive(Clone, Copy)]
pub(crate) struct Request {
    pub channels: u32,
    pub circuits: u32,
    pub rounds: u32,
    ghost some_channel: { 0 < channels },
    ghost some_circuit: { 0 < circuits },
}

/// Reads the words of a command line, the program's name first.
pub(crate) fn asked(words: &[String]) -> Option<Request> {
    let channels = words.get(1)?.as_str().parse::<u32>().ok()?;
    let circuits = words.get(2)?.as_str().parse::<u32>().ok()?;
    let rounds = words.get(3)?.as_str().parse::<u32>().ok()?;
    if channels == 0 || circuits == 0 {
        return None;
    }
    Some(Request {
        channels,
        circuits,
        rounds,
    })
}
