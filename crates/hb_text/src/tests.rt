//! Texts from outside, good and bad: the examples of the specifications, and texts at their limits.

ghost use Rattle.std.specs.Prelude.{◌<◌};

use crate::{
    Digest, Duplicate, Hash, Memory, Name, NameFault, ProjectName, Reference, Tag, Text,
    keys_are_in_total_order, read_number,
};
use std::alloc::Global;
use std::test::Fail;

#[test]
fn repository_names(rt: HostRuntime) -> Result<(), Fail> {
    let alloc = rt.alloc();
    let mut long = [b'a'; 256];
    long[1] = b'/';
    let good: [&[u8]; 9] = [
        b"library/a",
        b"a/b",
        b"a/b/c",
        b"a.b/c_d",
        b"a__b/c--d",
        b"a-b/c",
        b"0/9",
        b"library/a---b.c_d/e0",
        &long[..255],
    ];
    for text in good {
        assert_eq!(rt; Name::read(alloc, text)?.bytes(), text);
    }
    let bad: [&[u8]; 27] = [
        b"",
        b"/",
        b"a",
        b"library",
        b"A/b",
        b"library/Ubuntu",
        b"a//b",
        b"/a/b",
        b"a/b/",
        b"-a/b",
        b"a-/b",
        b"a/.b",
        b"a/b_",
        b"a/b__",
        b"a..b/c",
        b"a___b/c",
        b"a._b/c",
        b"a_.b/c",
        b"a-_b/c",
        b"a/-/b",
        b"a /b",
        b"a/b\n",
        b"a/b:1",
        b"a/b@c",
        b"a/\xc3\xa9",
        b"a/b\x00",
        &long,
    ];
    for text in bad {
        assert_eq!(rt;
            Name::read(alloc, text),
            Err(NameFault::Invalid),
            "{text:?}"
        );
    }
    Ok(())
}

#[test]
fn parts_of_names(rt: HostRuntime) -> Result<(), Fail> {
    let alloc = rt.alloc();
    let rows: [(&[u8], &[u8], &[u8]); 3] = [
        (b"library/a", b"library", b"a"),
        (b"a/b/c", b"a", b"b/c"),
        (b"a.b/c_d", b"a.b", b"c_d"),
    ];
    for (text, project, repository) in rows {
        let name = Name::read(alloc, text)?;
        assert_eq!(rt; name.project(), project);
        assert_eq!(rt; name.repo(), repository);
    }
    Ok(())
}

#[test]
fn project_names(rt: HostRuntime) -> Result<(), Fail> {
    let alloc = rt.alloc();
    let long = [b'a'; 256];
    let good: [&[u8]; 7] = [
        b"library",
        b"a",
        b"7",
        b"a.b",
        b"a__b",
        b"a---b",
        &long[..255],
    ];
    for text in good {
        assert_eq!(rt; ProjectName::read(alloc, text)?.bytes(), text);
    }
    let bad: [&[u8]; 11] = [
        b"",
        b"a/b",
        b"/",
        b"Library",
        b".a",
        b"a.",
        b"a..b",
        b"a___b",
        b" a",
        b"\xc3\xa9",
        &long,
    ];
    for text in bad {
        assert_eq!(rt;
            ProjectName::read(alloc, text),
            Err(NameFault::Invalid),
            "{text:?}"
        );
    }
    Ok(())
}

#[test]
fn tags(rt: HostRuntime) -> Result<(), Fail> {
    let alloc = rt.alloc();
    let long = [b'Z'; 129];
    let good: [&[u8]; 9] = [
        b"latest",
        b"v1.0",
        b"_x",
        b"X",
        b"0",
        b"a..b",
        b"A-_.9",
        &long[..127],
        &long[..128],
    ];
    for text in good {
        assert_eq!(rt; Tag::read(alloc, text)?.bytes(), text);
    }
    let bad: [&[u8]; 9] = [
        b"",
        b".a",
        b"-a",
        b"a b",
        b"a/b",
        b"a:b",
        b"a+b",
        b"\xc3\xa9",
        &long,
    ];
    for text in bad {
        assert_eq!(rt; Tag::read(alloc, text), Err(NameFault::Invalid), "{text:?}");
    }
    Ok(())
}

#[test]
fn numbers(rt: HostRuntime) {
    let rows: [(&[u8], Option<u64>); 18] = [
        (b"0", Some(0)),
        (b"7", Some(7)),
        (b"10", Some(10)),
        (b"1048576", Some(1048576)),
        (b"18446744073709551615", Some(u64::MAX)),
        (b"", None),
        (b"00", None),
        (b"007", None),
        (b"+1", None),
        (b"-1", None),
        (b" 1", None),
        (b"1 ", None),
        (b"1_000", None),
        (b"0x7", None),
        (b"12a", None),
        (b"18446744073709551616", None),
        (b"99999999999999999999", None),
        (b"100000000000000000000000000000", None),
    ];
    for (text, number) in rows {
        assert_eq!(rt; read_number(text), number, "{text:?}");
    }
}

// Messages, and the texts of their digests as FIPS 180-4 and `sha256sum` give them.
const MESSAGES: [(&[u8], &[u8; 71]); 4] = [
    (
        b"",
        b"sha256:e3b0c44298fc1c149afbf4c8996fb92427ae41e4649b934ca495991b7852b855",
    ),
    (
        b"abc",
        b"sha256:ba7816bf8f01cfea414140de5dae2223b00361a396177a9cb410ff61f20015ad",
    ),
    (
        b"{}",
        b"sha256:44136fa355b3678a1146ad16f7e8649e94fb4fc21fe77e8310c060f61caaff8a",
    ),
    (
        b"abcdbcdecdefdefgefghfghighijhijkijkljklmklmnlmnomnopnopq",
        b"sha256:248d6a61d20638b8e5c026930c3e6039a33ce45964ff2167f6ecedd419db06c1",
    ),
];

fn digest_of_pieces(message: &[u8], long: usize) -> Digest
    requires { 0 < long }
{
    let mut hash = Hash::new();
    for piece in message.chunks(long) {
        hash.add(piece);
    }
    hash.end()
}

#[test]
fn digests(rt: HostRuntime) {
    for (message, text) in MESSAGES {
        let digest = Digest::of(message);
        assert_eq!(rt; digest.write(), *text);
        assert_eq!(rt; Digest::read(text), Some(digest));
        for long in 1..66 {
            assert_eq!(rt; digest_of_pieces(message, long), digest, "{long}");
        }
    }
}

#[test]
fn texts_that_name_no_digest(rt: HostRuntime) {
    let rows: [&[u8]; 9] = [
        b"",
        b"sha256:",
        b"sha256:BA7816BF8F01CFEA414140DE5DAE2223B00361A396177A9CB410FF61F20015AD",
        b"sha256:ba7816bf8f01cfea414140de5dae2223b00361a396177a9cb410ff61f20015a",
        b"sha256:ba7816bf8f01cfea414140de5dae2223b00361a396177a9cb410ff61f20015ad0",
        b"sha512:ba7816bf8f01cfea414140de5dae2223b00361a396177a9cb410ff61f20015ad",
        b"SHA256:ba7816bf8f01cfea414140de5dae2223b00361a396177a9cb410ff61f20015ad",
        b"ba7816bf8f01cfea414140de5dae2223b00361a396177a9cb410ff61f20015ad",
        b"sha256:ga7816bf8f01cfea414140de5dae2223b00361a396177a9cb410ff61f20015ad",
    ];
    for text in rows {
        assert_eq!(rt; Digest::read(text), None, "{text:?}");
    }
}

fn tagged(alloc: Global, tag: &[u8]) -> Result<Reference, NameFault> {
    Ok(Reference::Tag(Tag::read(alloc, tag)?))
}

fn is_copied<T: Duplicate + PartialEq + Drop, E: Drop>(alloc: Global, made: Result<T, E>) -> bool {
    match made {
        Ok(value) => match value.copy(alloc) {
            Ok(copy) => copy == value,
            Err(_) => false,
        },
        Err(_) => false,
    }
}

#[test]
fn copies_are_equal(rt: HostRuntime) {
    let alloc = rt.alloc();
    let digest: Result<Digest, Memory> = Ok(Digest::of(b"abc"));
    let by_digest: Result<Reference, Memory> = Ok(Reference::Digest(Digest::of(b"abc")));
    assert!(rt; is_copied(alloc, Text::new(alloc, b"any \xff bytes")));
    assert!(rt; is_copied(alloc, Name::read(alloc, b"library/a")));
    assert!(rt; is_copied(alloc, ProjectName::read(alloc, b"library")));
    assert!(rt; is_copied(alloc, Tag::read(alloc, b"latest")));
    assert!(rt; is_copied(alloc, tagged(alloc, b"latest")));
    assert!(rt; is_copied(alloc, digest));
    assert!(rt; is_copied(alloc, by_digest));
}

fn is_below<T: Ord + Drop, E: Drop>(low: Result<T, E>, high: Result<T, E>) -> bool {
    match low {
        Ok(low) => match high {
            Ok(high) => low < high,
            Err(_) => false,
        },
        Err(_) => false,
    }
}

#[test]
fn orders_of_texts(rt: HostRuntime) {
    let alloc = rt.alloc();
    let rising: [&[u8]; 6] = [b"", b"Z", b"a", b"aa", b"b", b"\xff"];
    for (place, low) in rising.iter().enumerate() {
        for high in &rising[place + 1..] {
            assert!(rt; is_below(Text::new(alloc, low), Text::new(alloc, high)));
            assert!(rt; !is_below(Text::new(alloc, high), Text::new(alloc, low)));
        }
    }
    assert!(rt; is_below(Tag::read(alloc, b"A"), Tag::read(alloc, b"_")));
    assert!(rt;
        is_below(
            ProjectName::read(alloc, b"a"),
            ProjectName::read(alloc, b"a-b")
        )
    );
    assert!(rt; is_below(Name::read(alloc, b"a/b"), Name::read(alloc, b"a/b/c")));
}

// ba.. is below e3.., and a tag stands before a digest.
#[test]
fn orders_of_digests(rt: HostRuntime) {
    keys_are_in_total_order();
    let abc = Digest::of(b"abc");
    let empty = Digest::of(b"");
    assert!(rt; abc < empty);
    assert!(rt; Reference::Digest(abc) < Reference::Digest(empty));
    assert!(rt; is_below(tagged(rt.alloc(), b"Z"), Ok(Reference::Digest(abc))));
}

#[test]
fn faults_as_text(rt: HostRuntime) -> Result<(), Fail> {
    let alloc = rt.alloc();
    assert_eq!(rt;
        format!(in alloc; "{}", NameFault::Invalid)?.as_str(),
        "not a name"
    );
    assert_eq!(rt;
        format!(in alloc; "{}", NameFault::Memory)?.as_str(),
        "out of memory"
    );
    assert_eq!(rt; Text::of(vec![in alloc; 1, 2]?).bytes(), [1, 2].as_slice());
    Ok(())
}
