// The adapters over the streams of std: what they pass on, and streams that fail.
use mwt_base::{Failed, ReadStop, StdSink, StdSource, SureSink, read_whole, write_whole};
use std::alloc::Global;
use std::io::{Error, ErrorKind, Read, Write};
use std::test::Fail;

// Gives or takes four bytes at its first call, and fails at each later one.
#[derive(Drop)]
struct Broken {
    used: bool,
    taken: Vec<u8>,
}

impl Broken {
    fn new(alloc: Global) -> Broken {
        Broken {
            used: false,
            taken: Vec::new(alloc),
        }
    }
}

impl Read for Broken {
    fn read(&mut self, buf: &mut [u8]) -> std::io::Result<usize> {
        if self.used {
            return Err(Error::from(ErrorKind::BrokenPipe));
        }
        self.used = true;
        let count = buf.len().min(4);
        buf[..count].fill(b'a');
        Ok(count)
    }
}

impl Write for Broken {
    fn write(&mut self, buf: &[u8]) -> std::io::Result<usize> {
        if self.used {
            return Err(Error::from(ErrorKind::BrokenPipe));
        }
        self.used = true;
        let count = buf.len().min(4);
        self.taken.extend_from_slice(&buf[..count])?;
        Ok(count)
    }

    fn flush(&mut self) -> std::io::Result<()> {
        Ok(())
    }
}

#[test]
fn streams_pass_bytes_on(rt: HostRuntime) -> Result<(), Fail> {
    let alloc = rt.alloc();
    let text = b"all of it";
    let mut source = StdSource::new(text.as_slice());
    let read = read_whole(alloc, &mut source, 64).map_err(|_| Fail::from("not read"))?;
    assert_eq!(rt; read.as_slice(), text.as_slice());
    let mut written = Vec::new(alloc);
    let mut sink = StdSink::new(&mut written);
    assert_eq!(rt; write_whole(&mut sink, text.as_slice()), Ok(()));
    assert_eq!(rt; written.as_slice(), text.as_slice());
    let mut kept = SureSink::new(alloc, 4).map_err(|_| Fail::from("no memory"))?;
    assert_eq!(rt; write_whole(&mut kept, text.as_slice()), Ok(()));
    assert_eq!(rt; kept.bytes(), b"all ".as_slice());
    assert_eq!(rt; kept.count(), 9);
    Ok(())
}

// Ends at once, and keeps how many bytes it was asked for.
#[derive(Drop)]
struct Ended {
    asked: usize,
}

impl Read for Ended {
    fn read(&mut self, buf: &mut [u8]) -> std::io::Result<usize> {
        self.asked = buf.len();
        Ok(0)
    }
}

#[test]
fn pieces_of_a_whole_read(rt: HostRuntime) -> Result<(), Fail> {
    let mut ended = Ended { asked: 0 };
    let mut source = StdSource::new(&mut ended);
    let read = read_whole(rt.alloc(), &mut source, 9).map_err(|_| Fail::from("not read"))?;
    assert_eq!(rt; read.as_slice().len(), 0);
    assert_eq!(rt; ended.asked, 65_536);
    Ok(())
}

#[test]
fn streams_that_fail(rt: HostRuntime) -> Result<(), Fail> {
    let alloc = rt.alloc();
    let mut source = StdSource::new(Broken::new(alloc));
    let stop = read_whole(alloc, &mut source, 64).err();
    assert_eq!(rt; stop, Some(ReadStop::ReadFault));
    let mut broken = Broken::new(alloc);
    let mut sink = StdSink::new(&mut broken);
    assert_eq!(rt;
        write_whole(&mut sink, b"all of it".as_slice()),
        Err(Failed)
    );
    assert_eq!(rt; broken.taken.as_slice(), b"all ".as_slice());
    Ok(())
}
