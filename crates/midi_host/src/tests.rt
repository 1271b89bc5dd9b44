// Runs over memory, with faults of the source and the sink.
use super::about::about;
use super::run::run;
use super::status::Status;
use super::word::Word;
use jm_edge::{MemSink, MemSource};
use std::alloc::Global;
use std::test::Fail;

// The status of a run of `replay`, and whether it wrote this text.
fn runs(
    alloc: Global,
    input: &[u8],
    reads: &[u64],
    writes: &[u64],
    text: &[u8],
) -> Result<(Status, bool), Fail> {
    let words = [Word::new("replay", alloc)?];
    let mut source = MemSource::new(alloc, input, reads)?;
    let mut sink = MemSink::new(alloc, 512, writes)?;
    let status = run(&words, &mut source, &mut sink, alloc);
    Ok((status, sink.as_slice() == text))
}

/// One player, one note, two packets.
const FIRST_NOTE: &[u8] = b"session 11223344 4194304\nenter\nplay 0 100 903c64\ncut 100\ncut 200";

#[test]
fn no_lines_have_no_answers(rt: HostRuntime) -> Result<(), Fail> {
    assert_eq!(rt; runs(rt.alloc(), b"", &[], &[], b"")?, (Status::Done, true));
    Ok(())
}

#[test]
fn first_note_becomes_a_packet(rt: HostRuntime) -> Result<(), Fail> {
    let text =
        b"session\nplayer 0\naccepted 0 kept\npacket 0 80e10000000000641122334403903c64\npacket 1 80610001000000c8112233444020000000070881f03ce4\n";
    assert_eq!(rt;
        runs(rt.alloc(), FIRST_NOTE, &[], &[], text)?,
        (Status::Done, true)
    );
    Ok(())
}

#[test]
fn faults_have_their_statuses(rt: HostRuntime) -> Result<(), Fail> {
    assert_eq!(rt;
        runs(
            rt.alloc(),
            FIRST_NOTE,
            &[1],
            &[],
            b"session\nplayer 0\naccepted 0 kept\npacket 0 80e10000000000641122334403903c64\n"
        )?,
        (Status::ReadFault, true)
    );
    assert_eq!(rt;
        runs(rt.alloc(), FIRST_NOTE, &[], &[0], b"")?,
        (Status::WriteFault, true)
    );
    assert_eq!(rt;
        runs(
            rt.alloc(),
            b"session 11223344 9\ncut 1 2\n",
            &[],
            &[],
            b"session\nbad-script 2 form\n"
        )?,
        (Status::BadScript, true)
    );
    Ok(())
}

/// Players by name in a script of version 2: a name that enters twice, one that didn't enter, and a number.
const NAMES: &[u8] =
    b"script 2\nsession 11223344 4194304\nenter anna\nenter anna\nplay anna 100 903c64\nplay bert 100 903c64\nplay 0 100 903c00\n";

#[test]
fn names_stand_for_players(rt: HostRuntime) -> Result<(), Fail> {
    let text =
        b"script 2\nsession\nplayer 0 anna\nrefused name-taken anna\naccepted 0 kept\nrefused unknown-player\naccepted 1 kept\n";
    assert_eq!(rt;
        runs(rt.alloc(), NAMES, &[], &[], text)?,
        (Status::Done, true)
    );
    Ok(())
}

// Whether this verb answers an input by this text, whose last line is bad.
fn ends_bad(alloc: Global, verb: &str, input: &[u8], text: &[u8]) -> Result<bool, Fail> {
    let words = [Word::new(verb, alloc)?];
    let mut source = MemSource::new(alloc, input, &[])?;
    let mut sink = MemSink::new(alloc, 512, &[])?;
    let status = run(&words, &mut source, &mut sink, alloc);
    Ok(status == Status::BadScript && sink.as_slice() == text)
}

#[test]
fn octets_are_read(rt: HostRuntime) -> Result<(), Fail> {
    let input =
        b"command 903c80\nsection 08903c6400f8003c00\npacket 80610001000000c8112233444020000000070881f03ce4\nmessage ffff52531122334400070000\nstate\n";
    let text =
        b"fault bad-data 2\nsection 3 0:903c64 0:f8 0:903c00\npacket 1 200 11223344 0 journal 0 1\nmessage ffff52531122334400070000\nbad-script 5 word\n";
    assert!(rt; ends_bad(rt.alloc(), "read", input, text)?);
    Ok(())
}

#[test]
fn packets_are_repaired(rt: HostRuntime) -> Result<(), Fail> {
    let input =
        b"state\npacket 80610001000000c8112233444020000000070881f03ce4\npacket 80610001000000c81122334400\nstate\nstate x\n";
    let text =
        b"end\ntook 1 0 1\nheard repaired 200 903c64\nolder 1\nnote 0 60 100\nend\nbad-script 5 form\n";
    assert!(rt; ends_bad(rt.alloc(), "repair", input, text)?);
    Ok(())
}

#[test]
fn only_words_ask_for_help(rt: HostRuntime) -> Result<(), Fail> {
    let help = [Word::new("--help", rt.alloc())?];
    let version = [Word::new("--version", rt.alloc())?];
    assert!(rt; about(&help).is_some() && about(&version).is_some());
    let verb = [Word::new("read", rt.alloc())?];
    assert!(rt; about(&verb).is_none());
    Ok(())
}

#[test]
fn other_words_are_refused(rt: HostRuntime) -> Result<(), Fail> {
    let words = [
        Word::new("replay", rt.alloc())?,
        Word::new("x", rt.alloc())?,
    ];
    let mut source = MemSource::new(rt.alloc(), b"a\n", &[])?;
    let mut sink = MemSink::new(rt.alloc(), 64, &[])?;
    assert_eq!(rt;
        run(&words, &mut source, &mut sink, rt.alloc()),
        Status::Usage
    );
    Ok(())
}
