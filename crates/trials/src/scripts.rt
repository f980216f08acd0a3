// Lines that are read and lines that are refused.
use script::{LineRefusal, Reader, Verb};

fn refused(text: &[u8]) -> Option<LineRefusal> {
    Reader::new(text).request().err()
}

fn verb(text: &[u8]) -> Option<Verb> {
    Reader::new(text).request().ok().map(|request| request.verb)
}

#[test]
fn well_formed_lines(rt: HostRuntime) {
    assert_eq!(rt; verb(b"enter 0"), Some(Verb::Enter));
    assert_eq!(rt; verb(b"load 65535 0 00003 7\nenter"), Some(Verb::Load));
    assert_eq!(rt; verb(b"back 1\n"), Some(Verb::Back));
    assert_eq!(rt; verb(b"colour 12"), Some(Verb::Colour));
    assert_eq!(rt; verb(b"collect\n"), Some(Verb::Collect));
    assert_eq!(rt; verb(b"launch 0 1 255"), Some(Verb::Launch));
}

#[test]
fn words_that_are_unknown(rt: HostRuntime) {
    assert_eq!(rt; refused(b"fly 0"), Some(LineRefusal::UnknownWord));
    assert_eq!(rt; refused(b"\n"), Some(LineRefusal::UnknownWord));
    assert_eq!(rt; refused(b" enter 0"), Some(LineRefusal::UnknownWord));
    assert_eq!(rt; refused(b"Enter 0"), Some(LineRefusal::UnknownWord));
    assert_eq!(rt; refused(b"enter\r\n"), Some(LineRefusal::UnknownWord));
    assert_eq!(rt; refused(b"\xff\x00"), Some(LineRefusal::UnknownWord));
}

#[test]
fn numbers_that_are_malformed(rt: HostRuntime) {
    assert_eq!(rt; refused(b"enter"), Some(LineRefusal::BadNumbers));
    assert_eq!(rt; refused(b"enter 0 1"), Some(LineRefusal::BadNumbers));
    assert_eq!(rt; refused(b"enter 000000"), Some(LineRefusal::BadNumbers));
    assert_eq!(rt; refused(b"enter 65536"), Some(LineRefusal::BadNumbers));
    assert_eq!(rt; refused(b"enter  0"), Some(LineRefusal::BadNumbers));
    assert_eq!(rt; refused(b"enter 0 "), Some(LineRefusal::BadNumbers));
    assert_eq!(rt; refused(b"enter 0\r\n"), Some(LineRefusal::BadNumbers));
    assert_eq!(rt; refused(b"launch 0 1 256"), Some(LineRefusal::BadNumbers));
    assert_eq!(rt; refused(b"collect 0"), Some(LineRefusal::BadNumbers));
    assert_eq!(rt; refused(b"enter -1"), Some(LineRefusal::BadNumbers));
}
