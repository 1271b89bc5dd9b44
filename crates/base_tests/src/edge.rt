// Each form is called once through its trait, with a fault in mid-stream.
use jm_edge::*;
use std::io::{self, ErrorKind, Read, Write};
use std::test::Fail;

fn read_from<S: Source>(source: &mut S, buf: &mut [u8; 3]) -> Got {
    source.read(buf)
}

fn write_to<K: Sink>(sink: &mut K, text: &[u8; 3]) -> Put {
    sink.write(text)
}

#[test]
fn memory_source_gives_its_octets(rt: HostRuntime) -> Result<(), Fail> {
    let mut source = MemSource::new(rt.alloc(), b"hello", &[1])?;
    let mut buf = [0; 3];
    assert_eq!(rt; read_from(&mut source, &mut buf), Got::Octets(3));
    assert_eq!(rt; buf, *b"hel");
    assert_eq!(rt; read_from(&mut source, &mut buf), Got::Failed);
    assert_eq!(rt; read_from(&mut source, &mut buf), Got::Octets(2));
    assert_eq!(rt; buf, *b"lol");
    assert_eq!(rt; read_from(&mut source, &mut buf), Got::Done);
    Ok(())
}

#[test]
fn memory_sink_keeps_what_fits(rt: HostRuntime) -> Result<(), Fail> {
    let mut sink = MemSink::new(rt.alloc(), 5, &[0])?;
    assert_eq!(rt; write_to(&mut sink, b"abc"), Put::Failed);
    assert_eq!(rt; write_to(&mut sink, b"abc"), Put::Took(3));
    assert_eq!(rt; write_to(&mut sink, b"def"), Put::Took(2));
    assert_eq!(rt; write_to(&mut sink, b"ghi"), Put::Failed);
    assert_eq!(rt; sink.as_slice(), b"abcde".as_slice());
    Ok(())
}

// A file whose first call goes well and whose second fails with an error of this kind. Then nothing is left to
// read, and writes go well again.
#[derive(Drop)]
struct Torn {
    calls: u8,
    kind: ErrorKind,
}

impl Torn {
    fn new(kind: ErrorKind) -> Torn {
        Torn { calls: 0, kind }
    }

    // Whether this call fails.
    fn is_torn(&mut self) -> bool {
        self.calls = self.calls.saturating_add(1);
        self.calls == 2
    }
}

impl Read for Torn {
    fn read(&mut self, buf: &mut [u8]) -> io::Result<usize> {
        if self.is_torn() {
            return Err(self.kind.into());
        }
        Ok(if self.calls == 1 { buf.len().min(2) } else { 0 })
    }
}

impl Write for Torn {
    fn write(&mut self, buf: &[u8]) -> io::Result<usize> {
        if self.is_torn() {
            return Err(self.kind.into());
        }
        Ok(buf.len().min(2))
    }

    fn flush(&mut self) -> io::Result<()> {
        Ok(())
    }
}

// Each kind of error that a reader or a writer may name.
const KINDS: [ErrorKind; 41] = [
    ErrorKind::NotFound,
    ErrorKind::PermissionDenied,
    ErrorKind::ConnectionRefused,
    ErrorKind::ConnectionReset,
    ErrorKind::HostUnreachable,
    ErrorKind::NetworkUnreachable,
    ErrorKind::ConnectionAborted,
    ErrorKind::NotConnected,
    ErrorKind::AddrInUse,
    ErrorKind::AddrNotAvailable,
    ErrorKind::NetworkDown,
    ErrorKind::BrokenPipe,
    ErrorKind::AlreadyExists,
    ErrorKind::WouldBlock,
    ErrorKind::NotADirectory,
    ErrorKind::IsADirectory,
    ErrorKind::DirectoryNotEmpty,
    ErrorKind::ReadOnlyFilesystem,
    ErrorKind::FilesystemLoop,
    ErrorKind::StaleNetworkFileHandle,
    ErrorKind::InvalidInput,
    ErrorKind::InvalidData,
    ErrorKind::TimedOut,
    ErrorKind::WriteZero,
    ErrorKind::StorageFull,
    ErrorKind::NotSeekable,
    ErrorKind::QuotaExceeded,
    ErrorKind::FileTooLarge,
    ErrorKind::ResourceBusy,
    ErrorKind::ExecutableFileBusy,
    ErrorKind::Deadlock,
    ErrorKind::CrossesDevices,
    ErrorKind::TooManyLinks,
    ErrorKind::InvalidFilename,
    ErrorKind::ArgumentListTooLong,
    ErrorKind::Interrupted,
    ErrorKind::Unsupported,
    ErrorKind::UnexpectedEof,
    ErrorKind::OutOfMemory,
    ErrorKind::InProgress,
    ErrorKind::Other,
];

#[test]
fn reader_is_a_source(rt: HostRuntime) {
    let mut buf = [0; 3];
    let mut source = ReadSource::new(b"ab".as_slice());
    assert_eq!(rt; read_from(&mut source, &mut buf), Got::Octets(2));
    assert_eq!(rt; buf, *b"ab\0");
    assert_eq!(rt; read_from(&mut source, &mut buf), Got::Done);
}

#[test]
fn writer_is_a_sink(rt: HostRuntime) {
    let mut kept: Vec<u8> = Vec::new(rt.alloc());
    let mut sink = WriteSink::new(&mut kept);
    assert_eq!(rt; write_to(&mut sink, b"abc"), Put::Took(3));
    drop(sink);
    assert_eq!(rt; kept.as_slice(), b"abc".as_slice());
}

// No error is an end, not even one that names the end or says to try again, and the next call goes on.
#[test]
fn each_kind_of_error_is_a_fault(rt: HostRuntime) {
    let mut buf = [0; 3];
    for kind in KINDS {
        let mut source = ReadSource::new(Torn::new(kind));
        assert_eq!(rt; read_from(&mut source, &mut buf), Got::Octets(2));
        assert_eq!(rt; read_from(&mut source, &mut buf), Got::Failed);
        assert_eq!(rt; read_from(&mut source, &mut buf), Got::Done);
        let mut sink = WriteSink::new(Torn::new(kind));
        assert_eq!(rt; write_to(&mut sink, b"abc"), Put::Took(2));
        assert_eq!(rt; write_to(&mut sink, b"abc"), Put::Failed);
        assert_eq!(rt; write_to(&mut sink, b"abc"), Put::Took(2));
    }
}
