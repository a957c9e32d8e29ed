use crate::bytes::lower;
use crate::dedent::{dedent, dedent_into};
use crate::escape::escape;
use crate::lines::{fault, split_lines};
use crate::trim::trim;
use std::test::Fail;

#[test]
fn texts_are_dedented(rt: HostRuntime) -> Result<(), Fail> {
    let cases: [(&[u8], &[u8]); 6] = [
        (b"  a\n    b\n  ", b"a\n  b\n\n"),
        (b"\ta\n  b", b"\ta\n  b\n"),
        (b" a\n\t", b"a\n\n"),
        (b" \ta\n \t\tb\n  \n", b"a\n\tb\n\n"),
        (b"", b""),
        (b"a\n\n  b\n", b"a\n\n  b\n"),
    ];
    for (text, out) in cases {
        assert!(rt; dedent(rt.alloc(), text)?.as_slice() == out);
    }
    Ok(())
}

#[test]
fn texts_are_dedented_where_there_is_room(rt: HostRuntime) {
    let mut out = [b'#'; 8];
    if let Some(len) = dedent_into(b"  a\n b", &mut out) {
        assert!(rt; &out[0..len] == b" a\nb\n".as_slice());
    }
    assert_eq!(rt; dedent_into(b" abcdefg", &mut out), None);
    assert!(rt; &out == b" a\nb\n###");
}

#[test]
fn texts_are_cut(rt: HostRuntime) -> Result<(), Fail> {
    assert_eq!(rt; split_lines(rt.alloc(), b"")?.len(), 0);
    assert_eq!(rt; split_lines(rt.alloc(), b"\n")?.len(), 1);
    assert_eq!(rt; split_lines(rt.alloc(), b"a\n\nb")?.len(), 3);
    assert!(rt; trim(b" \n\ta b\n ") == b"a b".as_slice());
    assert!(rt; trim(b"\ra\r") == b"\ra\r".as_slice());
    assert!(rt; trim(b" \t\n").is_empty());
    Ok(())
}

#[test]
fn lines_are_shown(rt: HostRuntime) -> Result<(), Fail> {
    let wide = [b'a'; 1001];
    assert_eq!(rt; fault(&wide), Some(1000));
    assert_eq!(rt; fault(&wide[0..1000]), None);
    assert_eq!(rt; fault(b"a\tb\r"), Some(3));
    assert!(rt; lower(rt.alloc(), b"Args-Z[\x80")?.as_slice() == b"args-z[\x80".as_slice());
    assert!(rt;
        escape(rt.alloc(), b"a\\\n\t\x07\xff")?.as_slice() == b"a\\\\\\n\\t\\x07\\xff".as_slice()
    );
    Ok(())
}
