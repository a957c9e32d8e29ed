use crate::replay::replay;
use std::alloc::{AllocError, Global};
use std::test::Fail;

// The long dash that was pasted into a heading.
const INCIDENT: &[u8] = b"rule starlark-entry
share 1024
shelf 2048
ask deny_group
ask user
start
line deny_group: Groups that are kept out,
line   whole colleges too.
line Old terms \xe2\x80\x94 let in again:
line   deny_group: None.
line user: Login.
close
body 0 64
body 1 64
";

const INCIDENT_OUT: &[u8] = b"started
1 0
3
refused 5 at 10
0
1 1
closed
refused 9 at 0
body 6 Login.
";

// A body too long for its target, and one that is empty.
const BODIES: &[u8] = b"rule rust-entry
share 1001
shelf 2002
ask a
ask b
start
body 0 9
line Some words.
line * `a`: b \\
line `c`
line `b`
line
close
body 0 3
body 0 2
body 1 0
body 2 9
line
close
";

const BODIES_OUT: &[u8] = b"started
refused 7 at 0
4
1 0
2
1 1
3
closed
body 3 b \\\\
refused 10 at 0
body 0 \nrefused 8 at 0
refused 3 at 0
refused 3 at 0
";

// More lines than a share has room for.
fn full_share(heap: Global) -> Result<Vec<u8>, AllocError> {
    let blanks = [b' '; 1000];
    let mut script = Vec::from_slice(
        heap,
        b"rule rust-section\nshare 1001\nshelf 1001\nask args\nstart\nline # Args\n",
    )?;
    for _i in 0..2 {
        script.extend_from_slice(b"line ")?;
        script.extend_from_slice(&blanks)?;
        script.push(b'\n')?;
    }
    Ok(script)
}

#[test]
fn calls_are_answered(rt: HostRuntime) -> Result<(), Fail> {
    let cases: [(&[u8], &[u8]); 5] = [
        (INCIDENT, INCIDENT_OUT),
        (BODIES, BODIES_OUT),
        (
            b"rule starlark-entry\nshare 1001\nshelf 2001\nask a\nask b\nstart\nline a:\nclose\nbody 0 9\n",
            b"started\nrefused 4 at 0\nclosed\nrefused 4 at 0\n",
        ),
        (
            b"rule rust-section\nshare 1001\nshelf 1001\nask a\nask\nstart\nclose\n",
            b"refused 1 at 1\n",
        ),
        (
            b"rule rust-section\nshare 1000\nshelf 1001\nask a\nstart\nclose\n",
            b"refused 2 at 0\n",
        ),
    ];
    for (script, out) in cases {
        assert!(rt; replay(rt.alloc(), script)?.as_slice() == out);
    }
    let full = full_share(rt.alloc())?;
    assert!(rt;
        replay(rt.alloc(), &full)?.as_slice() == b"started\n1 0\n3\nrefused 6 at 0\n".as_slice()
    );
    Ok(())
}

#[test]
fn scripts_are_refused(rt: HostRuntime) -> Result<(), Fail> {
    let cases: [(&[u8], &[u8]); 12] = [
        (b"", b"line 1: the script ends before start\n"),
        (b"share 1\n", b"line 1: rule NAME is wanted here\n"),
        (b"rule rust\n", b"line 1: not a rule\n"),
        (
            b"rule rust-entry\nshelf 1\n",
            b"line 2: share N is wanted here\n",
        ),
        (b"rule rust-entry\nshare\n", b"line 2: not a number\n"),
        (
            b"rule rust-entry\nshare 18446744073709551616\n",
            b"line 2: not a number\n",
        ),
        (
            b"rule rust-entry\nshare 18446744073709551615\nstart\n",
            b"line 3: shelf N is wanted here\n",
        ),
        (
            b"rule rust-entry\nshare 1\nshelf 1000001\n",
            b"line 3: shelf over 1000000\n",
        ),
        (
            b"rule rust-entry\nshare 1\nshelf 1000000\nask a\n",
            b"line 5: the script ends before start\n",
        ),
        (
            b"rule rust-entry\nshare 1\nshelf 1\nclose\n",
            b"line 4: ask NAME or start is wanted here\n",
        ),
        (
            b"rule rust-entry\nshare 1\nshelf 1\nstart\nclose now\n",
            b"line 5: not a call\n",
        ),
        (
            b"rule rust-entry\nshare 1\nshelf 1\nstart\nbody 0 1000001\n",
            b"line 5: room over 1000000\n",
        ),
    ];
    for (script, out) in cases {
        assert!(rt; replay(rt.alloc(), script)?.as_slice() == out);
    }
    Ok(())
}
