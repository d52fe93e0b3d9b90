//! A sink that never fails, and a link over a stream that does.
use std::io;
use std::io::{Read, Write};
use std::test::Fail;
use un_io::{Got, Link, SinkFault, StreamLink, SureSink, send, write_all};

#[test]
fn sure_sink_keeps_a_prefix(rt: HostRuntime) -> Result<(), Fail> {
    let mut sink = SureSink::new(rt.alloc(), 4)?;
    assert_eq!(rt; write_all(&mut sink, b"abc"), Ok(()));
    assert_eq!(rt; write_all(&mut sink, b"def"), Ok(()));
    assert_eq!(rt; sink.bytes(), b"abcd".as_slice());
    Ok(())
}

// A stream of which each read and each write fails.
#[derive(Drop)]
struct Broken;

impl Read for Broken {
    fn read(&mut self, _buf: &mut [u8]) -> io::Result<usize> {
        Err(io::Error::from(io::ErrorKind::Other))
    }
}

impl Write for Broken {
    fn write(&mut self, _buf: &[u8]) -> io::Result<usize> {
        Err(io::Error::from(io::ErrorKind::Other))
    }

    fn flush(&mut self) -> io::Result<()> {
        Ok(())
    }
}

#[test]
fn a_link_fails_where_its_stream_does(rt: HostRuntime) -> Result<(), Fail> {
    let mut link = StreamLink::new(Broken);
    assert_eq!(rt; link.read(&mut [0; 4]), Got::Failed);
    assert_eq!(rt; send(&mut link, b"ab"), Err(SinkFault));
    Ok(())
}
