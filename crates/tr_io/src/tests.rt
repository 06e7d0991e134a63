//! Sources and sinks, each answer and each fault once, and the texts of the statuses.
ghost use Rattle.std.specs.Prelude.{◌≤◌, IfOk};

use crate::memory::{MemorySink, MemorySource};
use crate::sink::{Sink, WriteAnswer};
use crate::source::{ReadAnswer, Source};
use crate::standard::{ReaderSource, WriterSink};
use crate::status::Status;
use std::io;
use std::test::Fail;

/// Reads into so many bytes: the answer, and what stands in front of the buffer then.
fn read_front<S: Source>(source: &mut S, room: usize) -> (ReadAnswer, [u8; 4]) {
    let mut buffer = [0; 4];
    let room = room.clamp(1, 4);
    let answer = source.read(&mut buffer[..room]);
    (answer, buffer)
}

#[test]
fn a_source_gives_its_bytes_in_order_and_fails_where_it_is_told(
    rt: HostRuntime,
) -> Result<(), Fail> {
    let bytes = [1, 2, 3, 4, 5].to_vec(rt.alloc())?;
    let mut source = MemorySource::new(bytes, 2, [1, 5].to_vec(rt.alloc())?);
    for (room, answer, buffer) in [
        (4, ReadAnswer::Got(2), [1, 2, 0, 0]),
        (4, ReadAnswer::Failed, [0; 4]),
        (1, ReadAnswer::Got(1), [3, 0, 0, 0]),
        (4, ReadAnswer::Got(2), [4, 5, 0, 0]),
        (4, ReadAnswer::End, [0; 4]),
        (4, ReadAnswer::Failed, [0; 4]),
        (4, ReadAnswer::End, [0; 4]),
    ] {
        assert_eq!(rt; read_front(&mut source, room), (answer, buffer));
    }
    Ok(())
}

#[test]
fn a_sink_takes_bytes_in_order_and_fails_where_it_is_told(rt: HostRuntime) -> Result<(), Fail> {
    let mut sink = MemorySink::new(rt.alloc(), 3, [1, 3].to_vec(rt.alloc())?);
    assert_eq!(rt; sink.write(&[1, 2, 3, 4]), WriteAnswer::Took(3));
    assert_eq!(rt; sink.write(&[4]), WriteAnswer::Failed);
    assert_eq!(rt; sink.write(&[]), WriteAnswer::Took(0));
    assert_eq!(rt; sink.write(&[4, 5]), WriteAnswer::Took(2));
    assert_eq!(rt; sink.flush(), WriteAnswer::Failed);
    assert_eq!(rt; sink.as_slice(), [1, 2, 3, 4, 5].as_slice());
    assert!(rt; sink.flushed().is_empty());
    assert_eq!(rt; sink.flush(), WriteAnswer::Took(0));
    assert_eq!(rt; sink.write(&[6]), WriteAnswer::Took(1));
    assert_eq!(rt; sink.flushed(), [1, 2, 3, 4, 5].as_slice());
    assert_eq!(rt; sink.as_slice(), [1, 2, 3, 4, 5, 6].as_slice());
    Ok(())
}

/// A reader and writer whose first call gives or takes two bytes, whose second fails, and whose later
/// ones give or take none.
#[derive(Drop)]
struct Halting {
    calls: u8,
}

impl Halting {
    fn answer(&mut self, room: usize) -> io::Result<usize>
        ensures { IfOk result (λ n. n ≤ room) }
    {
        self.calls = self.calls.saturating_add(1);
        match self.calls {
            1 => Ok(room.min(2)),
            2 => Err(io::Error::from(io::ErrorKind::Other)),
            _ => Ok(0),
        }
    }
}

impl io::Read for Halting {
    fn read(&mut self, into: &mut [u8]) -> io::Result<usize> {
        let count = self.answer(into.len())?;
        into[..count].fill(7);
        Ok(count)
    }
}

impl io::Write for Halting {
    fn write(&mut self, piece: &[u8]) -> io::Result<usize> {
        self.answer(piece.len())
    }

    fn flush(&mut self) -> io::Result<()> {
        self.answer(0)?;
        Ok(())
    }
}

#[test]
fn a_readers_bytes_errors_and_end_are_a_sources(rt: HostRuntime) -> Result<(), Fail> {
    let mut source = ReaderSource::new(Halting { calls: 0 });
    assert_eq!(rt;
        read_front(&mut source, 4),
        (ReadAnswer::Got(2), [7, 7, 0, 0])
    );
    assert_eq!(rt; read_front(&mut source, 4), (ReadAnswer::Failed, [0; 4]));
    assert_eq!(rt; read_front(&mut source, 4), (ReadAnswer::End, [0; 4]));
    Ok(())
}

#[test]
fn a_writers_counts_and_errors_are_a_sinks(rt: HostRuntime) -> Result<(), Fail> {
    let mut sink = WriterSink::new(Halting { calls: 0 });
    assert_eq!(rt; sink.write(&[]), WriteAnswer::Took(0));
    assert_eq!(rt; sink.write(&[1, 2, 3]), WriteAnswer::Took(2));
    assert_eq!(rt; sink.write(&[3]), WriteAnswer::Failed);
    // It takes nothing.
    assert_eq!(rt; sink.write(&[3]), WriteAnswer::Failed);
    assert_eq!(rt; sink.flush(), WriteAnswer::Took(0));
    let mut sink = WriterSink::new(Halting { calls: 1 });
    assert_eq!(rt; sink.flush(), WriteAnswer::Failed);
    Ok(())
}

#[test]
fn a_status_has_its_number_and_its_text(rt: HostRuntime) -> Result<(), Fail> {
    for (status, number, text) in [
        (Status::Done, 0, ""),
        (Status::Usage, 1, "usage"),
        (Status::Settings(11), 2, "settings rule 11"),
        (Status::ReadFault, 3, "read fault"),
        (Status::WriteFault, 4, "write fault"),
        (
            Status::BadTape(u64::MAX),
            5,
            "bad tape at 18446744073709551615",
        ),
        (Status::NotBuilt(14), 6, "kind 14 not built"),
        (Status::TooLong, 7, "too long"),
        (Status::DoorFault, 8, "door fault"),
        (Status::CrewFault, 9, "crew fault"),
        (Status::Memory, 10, "out of memory"),
        (Status::LinkRefused(5), 11, "link refused 5"),
        (Status::CircuitClosed(0), 12, "circuit closed 0"),
        (Status::StreamEnded(255), 13, "stream ended 255"),
    ] {
        assert_eq!(rt; status.number(), number);
        let phrase = status.phrase();
        let number = match phrase.number {
            Some(number) => format!(in rt.alloc(); "{number}")?,
            None => String::new(rt.alloc()),
        };
        let (front, tail) = (phrase.front, phrase.tail);
        let said = format!(in rt.alloc(); "{front}{number}{tail}")?;
        assert_eq!(rt; said.as_str(), text);
    }
    Ok(())
}
