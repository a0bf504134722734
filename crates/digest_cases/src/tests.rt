//! Each expected digest is the standard's, or what `sha1sum` and `sha256sum` print; those by SHA-0 are what a sketch of it
//! in Python gave, whose SHA-1 agrees with `hashlib`.
use super::pattern::pattern;
use super::sha0::Sha0;
use digest::rounds::Rounds;
use digest::value::Digest;
use hexadecimal::is_encoded;
use sha1_digest::kind::Sha1;
use sha1_digest::sha1;
use sha256::kind::Sha256;
use sha256::sha256;
use std::process::Abort;
use std::test::Fail;

/// The first `length` bytes of the pattern, and their digests.
struct Case {
    length: usize,
    sha1: &'static [u8; 40],
    sha256: &'static [u8; 64],
}

const CASES: [Case; 12] = [
    Case {
        length: 0,
        sha1: b"da39a3ee5e6b4b0d3255bfef95601890afd80709",
        sha256: b"e3b0c44298fc1c149afbf4c8996fb92427ae41e4649b934ca495991b7852b855",
    },
    Case {
        length: 1,
        sha1: b"9842926af7ca0a8cca12604f945414f07b01e13d",
        sha256: b"084fed08b978af4d7d196a7446a86b58009e636b611db16211b65a9aadff29c5",
    },
    Case {
        length: 55,
        sha1: b"8829dc293fb52f1477aa7323310a5bcf949ce4f8",
        sha256: b"1deace58c745f3ecadde68a5923f494c3703fa73f0306483ccb898a5826e8d70",
    },
    Case {
        length: 56,
        sha1: b"3c440665799f6f245108a068a11e59507d4f9e2c",
        sha256: b"06dbe23685750e4d3881ded95047abaf93fa8f9c5d3501dc57c717a72ff1398e",
    },
    Case {
        length: 57,
        sha1: b"ee3bd3dcaf8c3f17b919ec48238c7109187f6292",
        sha256: b"011f4bced20a249afb834d24b3e4eca31ad5ea2bdd1d8a1a564c2d2410398e69",
    },
    Case {
        length: 63,
        sha1: b"5e2cdca8ef9552e40ad2228153e778e586eebc50",
        sha256: b"47fb38b12335c9298d09280515c0666489a189d1554bb0ac1a0740806ce9d8b6",
    },
    Case {
        length: 64,
        sha1: b"24d0ab86ac7542b26241687c97b79ae2cc22ac90",
        sha256: b"dfa798724b1a8014994f363e5da7474ed26ce3757fb29e07aa47ad5a9352d37b",
    },
    Case {
        length: 65,
        sha1: b"f71ba60012ec8015b3d5ba56798c4ff43aeb8beb",
        sha256: b"dd2eab5a5507d7717c63ce953d9ac61752c21e664425ad1227054722a0d97f69",
    },
    Case {
        length: 119,
        sha1: b"ea44537c014a6f0d332e845ed7f9331ae45440c5",
        sha256: b"c6e0f435df5d7d265baacca31e0602c00aa22fa6d3819aed664649294c743756",
    },
    Case {
        length: 120,
        sha1: b"939b2cbff515552d0bc4cfa0c332a57f9fce7736",
        sha256: b"17eb8960823a644bde3065620bb9d45931fe8993fd8eb692a17aff0fd725db6a",
    },
    Case {
        length: 128,
        sha1: b"0a1d410f25f3840e4498a2ad922fea55bb4b79da",
        sha256: b"3a9c1e22e20578eebe442238f431befd688bd56698eb7c77d95d3f97d8f58207",
    },
    Case {
        length: 1024,
        sha1: b"af833554c0d661e22deec750cd3cf475eac0b3db",
        sha256: b"bf41757369abb5ef2cde97e5e2eb51cb67bc0b192363b8d7b6a01d8377fb00a9",
    },
];

fn check_digests(rt: &impl Abort, value: &[u8], short: &[u8], long: &[u8]) {
    assert!(rt; is_encoded(&sha1(value), short));
    assert!(rt; is_encoded(&sha256(value), long));
}

#[test]
fn standard_examples(rt: HostRuntime) -> Result<(), Fail> {
    check_digests(
        &rt,
        b"",
        b"da39a3ee5e6b4b0d3255bfef95601890afd80709",
        b"e3b0c44298fc1c149afbf4c8996fb92427ae41e4649b934ca495991b7852b855",
    );
    check_digests(
        &rt,
        b"abc",
        b"a9993e364706816aba3e25717850c26c9cd0d89d",
        b"ba7816bf8f01cfea414140de5dae2223b00361a396177a9cb410ff61f20015ad",
    );
    check_digests(
        &rt,
        b"abcdbcdecdefdefgefghfghighijhijkijkljklmklmnlmnomnopnopq",
        b"84983e441c3bd26ebaae4aa1f95129e5e54670f1",
        b"248d6a61d20638b8e5c026930c3e6039a33ce45964ff2167f6ecedd419db06c1",
    );
    check_digests(
        &rt,
        b"abcdefghbcdefghicdefghijdefghijkefghijklfghijklmghijklmnhijklmnoijklmnopjklmnopqklmnopqrlmnopqrsmnopqrstnopqrstu",
        b"a49b2446a02c645bf419f995b67091253a04a259",
        b"cf5b16a778af8380036ce59e7b0492370b249b11e8f07a51afac45037afee9d1",
    );
    let million = vec![in rt.alloc(); b'a'; 1_000_000]?;
    check_digests(
        &rt,
        million.as_slice(),
        b"34aa973cd4c4daa4f61eeb2bdbad27316534016f",
        b"cdc76e5c9914fb9281a1c7e284d73e67f1809a48a497200e046d39ccc7112cd0",
    );
    Ok(())
}

#[test]
fn lengths_around_blocks(rt: HostRuntime) {
    let bytes = pattern();
    for case in &CASES {
        assert!(rt; case.length <= 1024);
        let short = case.sha1;
        let long = case.sha256;
        check_digests(&rt, &bytes[0..case.length], short, long);
    }
}

#[test]
fn widths(rt: HostRuntime) {
    let bytes = [7; 33];
    for n in 0..=33 {
        match Digest::from_bytes(&bytes[0..n]) {
            Some(digest) => {
                assert!(rt; n == 20 || n == 32);
                assert_eq!(rt; digest.as_bytes().len(), n);
                assert!(rt; digest.as_bytes() == &bytes[0..n]);
            }
            None => assert!(rt; n != 20 && n != 32),
        }
    }
}

#[test]
fn matching(rt: HostRuntime) {
    let short = Digest::of::<Sha1>(b"abc");
    let long = Digest::of::<Sha256>(b"abc");
    assert!(rt;
        is_encoded(
            short.as_bytes(),
            b"a9993e364706816aba3e25717850c26c9cd0d89d",
        )
    );
    assert!(rt;
        is_encoded(
            long.as_bytes(),
            b"ba7816bf8f01cfea414140de5dae2223b00361a396177a9cb410ff61f20015ad",
        )
    );
    assert!(rt; short.matches::<Sha1>(b"abc"));
    assert!(rt; long.matches::<Sha256>(b"abc"));
    assert!(rt; !short.matches::<Sha1>(b"abd"));
    assert!(rt; !long.matches::<Sha256>(b"ab"));
    assert!(rt; !short.matches::<Sha256>(b"abc"));
    assert!(rt; !long.matches::<Sha1>(b"abc"));
}

#[test]
fn rounds_in_range_alone_make_a_digest(rt: HostRuntime) {
    let none = Digest::of::<Sha0>(b"");
    assert!(rt; is_encoded(none.as_bytes(), b"f96cea198ad1dd5617ac084a3d92c6107708c0ef"));
    let short = Digest::of::<Sha0>(b"abc");
    assert!(rt;
        is_encoded(
            short.as_bytes(),
            b"0164b8a914cd2a5e74c4f7ff082c4d97f1edf880"
        )
    );
    let long = Digest::of::<Sha0>(b"abcdbcdecdefdefgefghfghighijhijkijkljklmklmnlmnomnopnopq");
    assert!(rt; is_encoded(long.as_bytes(), b"d2516ee1acfa5baf33dfc1c471e438449ef134c8"));
    assert!(rt; short.matches::<Sha0>(b"abc"));
    assert!(rt; !short.matches::<Sha1>(b"abc"));
}

#[test]
fn rounds_in_range_alone_are_there_for_every_number(rt: HostRuntime) {
    let window = [
        0x61626380, 1, 2, 0xffffffff, 4, 0x50000000, 6, 7, 8, 0x90000009, 10, 11, 12, 13,
        0x80000000, 24,
    ];
    for t in 0..100 {
        let word = <Sha0 as Rounds>::later_word(&window, t);
        assert_eq!(rt;
            <Sha1 as Rounds>::later_word(&window, t),
            word.rotate_left(1)
        );
        let start = <Sha0 as Rounds>::start();
        let same = <Sha1 as Rounds>::start();
        let next = Rounds::round(start, t, word);
        if t < 80 {
            assert!(rt; Rounds::words(&next) == Rounds::words(&Rounds::round(same, t, word)));
        } else {
            assert!(rt; Rounds::words(&next) == Rounds::words(&start));
        }
    }
}
