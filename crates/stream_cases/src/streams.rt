//! Whole transfers in pieces, and what sources and sinks are handed.
ghost use Rattle.std.specs.Prelude.{None};

use std::io;
use std::test::Fail;
use ztx_io::{
    InFault, MemorySink, MemorySource, OutFault, Read, ReaderSource, Sink, Source, SureSink,
    SureSource, Write, WriterSink, read_all, write_all,
};

const TEXT: &[u8] = b"forty bytes that come in pieces of a size";

/// Fails at its first read and its first write, and then gives and takes one byte a call.
#[derive(Drop)]
struct Stutters {
    calls: u8,
}

impl Stutters {
    fn goes_on(&mut self) -> io::Result<()> {
        self.calls = self.calls.saturating_add(1);
        if self.calls == 1 {
            return Err(io::Error::from(io::ErrorKind::Other));
        }
        Ok(())
    }
}

impl io::Read for Stutters {
    fn read(&mut self, buffer: &mut [u8]) -> io::Result<usize> {
        self.goes_on()?;
        if self.calls > 3 || buffer.is_empty() {
            return Ok(0);
        }
        buffer[0] = b'a';
        Ok(1)
    }
}

impl io::Write for Stutters {
    fn write(&mut self, buffer: &[u8]) -> io::Result<usize> {
        self.goes_on()?;
        Ok(buffer.len().min(1))
    }

    fn flush(&mut self) -> io::Result<()> {
        Ok(())
    }
}

#[test]
fn whole_inputs(rt: HostRuntime) -> Result<(), Fail> {
    for piece in [1usize, 7, 4096] {
        let mut source = SureSource::new(TEXT.to_vec(rt.alloc())?, piece.max(1));
        assert_eq!(rt;
            read_all(rt.alloc(), &mut source, TEXT.len())?.as_slice(),
            TEXT,
            "in pieces of {piece}"
        );
    }
    Ok(())
}

#[test]
fn faults_of_inputs(rt: HostRuntime) -> Result<(), Fail> {
    let mut source = SureSource::new(TEXT.to_vec(rt.alloc())?, 7);
    assert_eq!(rt;
        read_all(rt.alloc(), &mut source, TEXT.len() - 1).err(),
        Some(InFault::TooLong)
    );
    let mut source = MemorySource::new(TEXT.to_vec(rt.alloc())?, 16, [2].to_vec(rt.alloc())?);
    assert_eq!(rt;
        read_all(rt.alloc(), &mut source, 100).err(),
        Some(InFault::Read)
    );
    assert_eq!(rt;
        read_all(rt.alloc(), &mut source, 100)?.as_slice(),
        &TEXT[16..],
        "what is left is not lost"
    );
    Ok(())
}

#[test]
fn whole_outputs(rt: HostRuntime) -> Result<(), Fail> {
    let mut sink = SureSink::new(rt.alloc(), 7);
    write_all(&mut sink, TEXT)?;
    assert_eq!(rt; sink.taken(), TEXT);
    let mut sink = MemorySink::new(rt.alloc(), 16, [3].to_vec(rt.alloc())?);
    assert_eq!(rt; write_all(&mut sink, TEXT), Err(OutFault::Write));
    assert_eq!(rt; sink.taken(), &TEXT[..32]);
    write_all(&mut sink, &TEXT[32..])?;
    assert_eq!(rt; sink.taken(), TEXT);
    Ok(())
}

#[test]
fn readers_and_writers(rt: HostRuntime) -> Result<(), Fail> {
    let mut source = ReaderSource::new(Stutters { calls: 0 });
    assert_eq!(rt;
        read_all(rt.alloc(), &mut source, 100).err(),
        Some(InFault::Read)
    );
    assert_eq!(rt;
        read_all(rt.alloc(), &mut source, 100)?.as_slice(),
        b"aa".as_slice()
    );
    let mut sink = WriterSink::new(Stutters { calls: 0 });
    assert_eq!(rt; write_all(&mut sink, TEXT), Err(OutFault::Write));
    write_all(&mut sink, TEXT)?;
    Ok(())
}

/// Takes at most seven bytes a call, and keeps how many it was handed in each of the first eight calls.
#[derive(Drop)]
struct Listener {
    handed: [usize; 8],
    calls: usize,
}

impl Sink for Listener {
    ghost held = { λ s. None };

    ghost faults = { λ s. 0 };

    fn write(&mut self, piece: &[u8]) -> Write {
        if self.calls < 8 {
            self.handed[self.calls] = piece.len();
            self.calls += 1;
        }
        Write::Took(piece.len().min(7))
    }
}

#[test]
fn each_call_is_handed_the_whole_rest(rt: HostRuntime) -> Result<(), Fail> {
    let mut listener = Listener {
        handed: [0; 8],
        calls: 0,
    };
    write_all(&mut listener, TEXT)?;
    assert_eq!(rt; listener.handed, [41, 34, 27, 20, 13, 6, 0, 0]);
    Ok(())
}

#[test]
fn sources_give_pieces(rt: HostRuntime) -> Result<(), Fail> {
    let mut room = [0u8; 100];
    let mut source = SureSource::new(TEXT.to_vec(rt.alloc())?, 20);
    let reads = [
        source.read(&mut room),
        source.read(&mut room),
        source.read(&mut room),
        source.read(&mut room),
    ];
    let wanted = [Read::Got(20), Read::Got(20), Read::Got(1), Read::End];
    assert_eq!(rt; reads, wanted);
    Ok(())
}

#[test]
fn a_source_that_fails_once(rt: HostRuntime) -> Result<(), Fail> {
    let mut room = [0u8; 100];
    let mut source = MemorySource::new(TEXT.to_vec(rt.alloc())?, 20, [2].to_vec(rt.alloc())?);
    let reads = [
        source.read(&mut room),
        source.read(&mut room),
        source.read(&mut room[..5]),
    ];
    assert_eq!(rt; reads, [Read::Got(20), Read::Failed, Read::Got(5)]);
    Ok(())
}

#[test]
fn sinks_take_pieces(rt: HostRuntime) -> Result<(), Fail> {
    let mut sure = SureSink::new(rt.alloc(), 20);
    let mut fails = MemorySink::new(rt.alloc(), 20, [2].to_vec(rt.alloc())?);
    let writes = [
        sure.write(TEXT),
        sure.write(b"rest"),
        fails.write(TEXT),
        fails.write(TEXT),
    ];
    let wanted = [
        Write::Took(20),
        Write::Took(4),
        Write::Took(20),
        Write::Failed,
    ];
    assert_eq!(rt; writes, wanted);
    Ok(())
}
