// The rows of RFC 4231, the texts of keys, and what the nurse of the hospital answers a challenge, as Python's hmac and struct
// make it.
use crate::same::same;
use dcr_fakes::{MemLink, MemSink, MemSource};
use dcr_graph::Name;
use dcr_greet::{Challenge, Greeter, Hello, Key, Keys, KeysStop, hmac};
use dcr_proj::Cover;
use dcr_set::{EventSet, SiteId};
use std::alloc::Global;
use std::test::Fail;

// A key, a message, and what their MAC begins with, as hex digits.
type Row = (&'static [u8], &'static [u8], &'static str);

const MACS: [Row; 7] = [
    (
        &[0x0b; 20],
        b"Hi There",
        "b0344c61d8db38535ca8afceaf0bf12b881dc200c9833da726e9376c2e32cff7",
    ),
    (
        b"Jefe",
        b"what do ya want for nothing?",
        "5bdcc146bf60754e6a042426089575c75a003f089d2739839dec58b964ec3843",
    ),
    (
        &[0xaa; 20],
        &[0xdd; 50],
        "773ea91e36800e46854db8ebd09181a72959098b3ef8c122d9635514ced565fe",
    ),
    (
        &[
            1, 2, 3, 4, 5, 6, 7, 8, 9, 10, 11, 12, 13, 14, 15, 16, 17, 18, 19, 20, 21, 22, 23, 24,
            25,
        ],
        &[0xcd; 50],
        "82558a389a443c0ea4cc819899f2083a85f0faa3e578f8077a2e3ff46729665b",
    ),
    (
        &[0x0c; 20],
        b"Test With Truncation",
        "a3b6167473100ee06e0c796c2955552b",
    ),
    (
        &[0xaa; 131],
        b"Test Using Larger Than Block-Size Key - Hash Key First",
        "60e431591ee0b67f0d8a26aacbf5b77f8e0bc6213728c5140546040f0ee37f54",
    ),
    (
        &[0xaa; 131],
        b"This is a test using a larger than block-size key and a larger than block-size data. The key needs to be hashed before being used by the HMAC algorithm.",
        "9b09ffa71b942fcb27635fbcd5b0e944bfdc63644f0713938a7f51535c3a35e2",
    ),
];

#[test]
fn macs_are_those_of_the_standard(rt: HostRuntime) -> Result<(), Fail> {
    for (key, message, digits) in &MACS {
        let want = hex::decode(rt.alloc(), *digits)?;
        let mac = hmac(key, message);
        same(&rt, &mac.starts_with(want.as_slice()), &true, digits);
    }
    Ok(())
}

// The sites doctor and nurse, of no atoms.
fn cover_of(alloc: Global) -> Result<Cover, Fail> {
    let doctor = Name::read(alloc, "doctor")?;
    let nurse = Name::read(alloc, "nurse")?;
    let names = Vec::from_array(alloc, [doctor, nurse])?;
    let owned = Vec::from_array(alloc, [EventSet::new(0), EventSet::new(0)])?;
    Ok(Cover::new(names, owned))
}

const KEYS: &str =
    "doctor 000102030405060708090a0b0c0d0e0f101112131415161718191a1b1c1d1e1f\nnurse 202122232425262728292a2b2c2d2e2f303132333435363738393a3b3c3d3e3f\n";

// Texts that are no keys of these sites, and the first line that is wrong.
const WRONG_KEYS: [(&str, u32); 9] = [
    ("", 1),
    (
        "doctor 000102030405060708090a0b0c0d0e0f101112131415161718191a1b1c1d1e1f\n",
        2,
    ),
    (
        "doctor 000102030405060708090a0b0c0d0e0f101112131415161718191a1b1c1d1e1f\nnurse 202122232425262728292a2b2c2d2e2f303132333435363738393a3b3c3d3e3f",
        2,
    ),
    (
        "nurse 202122232425262728292a2b2c2d2e2f303132333435363738393a3b3c3d3e3f\ndoctor 000102030405060708090a0b0c0d0e0f101112131415161718191a1b1c1d1e1f\n",
        1,
    ),
    (
        "doctor 000102030405060708090a0b0c0d0e0f101112131415161718191a1b1c1d1e1f\nnurse 202122232425262728292a2b2c2d2e2f303132333435363738393a3b3c3d3e3f\n\n",
        3,
    ),
    (
        "doctor  000102030405060708090a0b0c0d0e0f101112131415161718191a1b1c1d1e1f\nnurse 202122232425262728292a2b2c2d2e2f303132333435363738393a3b3c3d3e3f\n",
        1,
    ),
    (
        "doctor 000102030405060708090a0b0c0d0e0f101112131415161718191a1b1c1d1e1f\nnurse g02122232425262728292a2b2c2d2e2f303132333435363738393a3b3c3d3e3f\n",
        2,
    ),
    (
        "doctor 000102030405060708090a0b0c0d0e0f101112131415161718191a1b1c1d1e1f\r\nnurse 202122232425262728292a2b2c2d2e2f303132333435363738393a3b3c3d3e3f\n",
        1,
    ),
    (
        "doctor 000102030405060708090a0b0c0d0e0f101112131415161718191a1b1c1d1e1f\nnurse 202122232425262728292a2b2c2d2e2f303132333435363738393a3b3c3d3e3f0\n",
        2,
    ),
];

#[test]
fn keys_are_read_line_by_line(rt: HostRuntime) -> Result<(), Fail> {
    let cover = cover_of(rt.alloc())?;
    let keys = Keys::read(rt.alloc(), KEYS.as_bytes(), &cover)?;
    let own = Key::read(b"202122232425262728292A2B2C2D2E2F303132333435363738393A3B3C3D3E3F\n");
    let ours = keys.of(SiteId(1)).map(|key| *key.bytes());
    same(&rt, &ours, &own.map(|key| *key.bytes()), "the nurse's");
    same(&rt, &keys.of(SiteId(2)).is_some(), &false, "nobody's");
    for (text, line) in &WRONG_KEYS {
        let read = Keys::read(rt.alloc(), text.as_bytes(), &cover);
        same(
            &rt,
            &read.err(),
            &Some(KeysStop::Wrong { line: *line }),
            text,
        );
    }
    for text in [
        b"202122232425262728292a2b2c2d2e2f303132333435363738393a3b3c3d3e3f".as_slice(),
        b"202122232425262728292a2b2c2d2e2f303132333435363738393a3b3c3d3e3f\n\n",
        b"202122232425262728292a2b2c2d2e2f303132333435363738393a3b3c3d3e3f ",
    ] {
        same(&rt, &Key::read(text).is_some(), &false, "another text");
    }
    Ok(())
}

const DIGEST: [u8; 32] = [
    0x3e, 0x18, 0x53, 0x41, 0xc1, 0x70, 0xeb, 0x43, 0xd3, 0x92, 0x98, 0x17, 0x63, 0xb1, 0x10, 0x09,
    0xc8, 0x71, 0x46, 0x7a, 0x83, 0x02, 0x19, 0x96, 0xff, 0x2d, 0xb6, 0x47, 0x6e, 0x6c, 0xf1, 0xc5,
];

const RUN: u64 = 0x0102_0304_0506_0708;

const NONCE: [u8; 32] = [0x5a; 32];

const CHALLENGE: &str =
    "6463724f01020304050607085a5a5a5a5a5a5a5a5a5a5a5a5a5a5a5a5a5a5a5a5a5a5a5a5a5a5a5a5a5a5a5a";

const HELLO: &str =
    "64637253010203040506070800013e185341c170eb43d392981763b11009c871467a83021996ff2db6476e6cf1c54e8193478ca2248f1b950ab5d84416983fbf375a2111f534e9f0fb6cbe515acf";

// Whom the case of the hospital lets in, with the keys of both sites.
fn greeter_of(alloc: Global) -> Result<Greeter, Fail> {
    let cover = cover_of(alloc)?;
    let keys = Keys::read(alloc, KEYS.as_bytes(), &cover)?;
    Ok(Greeter {
        run: RUN,
        digest: DIGEST,
        sites: 2,
        keys: Some(keys),
    })
}

#[test]
fn a_site_says_what_the_standard_says(rt: HostRuntime) -> Result<(), Fail> {
    let challenge = Challenge {
        run: RUN,
        nonce: NONCE,
    };
    let asked = hex::encode(rt.alloc(), challenge.text())?;
    same(&rt, &asked.as_str(), &CHALLENGE, "the challenge");
    let key = Key::read(b"202122232425262728292a2b2c2d2e2f303132333435363738393a3b3c3d3e3f\n");
    let hello = Hello::new(&challenge, SiteId(1), &DIGEST, &key);
    let said = hex::encode(rt.alloc(), hello.text())?;
    same(&rt, &said.as_str(), &HELLO, "the hello");
    let read = Challenge::read(&challenge.text()).map(|read| read.text());
    same(
        &rt,
        &read,
        &Some(challenge.text()),
        "the challenge that is read",
    );
    same(
        &rt,
        &Challenge::read(&hello.text()).is_some(),
        &false,
        "a hello",
    );
    Ok(())
}

// A hello with each byte changed in turn.
#[test]
fn no_other_bytes_are_let_in(rt: HostRuntime) -> Result<(), Fail> {
    let challenge = Challenge {
        run: RUN,
        nonce: NONCE,
    };
    let greeter = greeter_of(rt.alloc())?;
    let mut bytes = hex::decode(rt.alloc(), HELLO)?;
    same(
        &rt,
        &greeter.known(&challenge, &bytes),
        &Some(SiteId(1)),
        "the nurse",
    );
    for place in 0..bytes.len() {
        bytes[place] ^= 1;
        same(&rt, &greeter.known(&challenge, &bytes), &None, "another");
        bytes[place] ^= 1;
    }
    Ok(())
}

// A link that gives these bytes three at a time, and whose calls of these numbers fail.
fn link_of(alloc: Global, digits: &str, failing: Vec<u32>) -> Result<MemLink, Fail> {
    let bytes = hex::decode(alloc, digits)?;
    let source = MemSource::new(bytes, 3, failing);
    Ok(MemLink::new(source, MemSink::new(alloc, 100)))
}

#[test]
fn a_site_is_greeted_over_a_link(rt: HostRuntime) -> Result<(), Fail> {
    let greeter = greeter_of(rt.alloc())?;
    let mut link = link_of(rt.alloc(), HELLO, Vec::new(rt.alloc()))?;
    same(
        &rt,
        &greeter.greet(&NONCE, &mut link),
        &Some(SiteId(1)),
        "the nurse",
    );
    let asked = hex::encode(rt.alloc(), link.taken())?;
    same(&rt, &asked.as_str(), &CHALLENGE, "the challenge");
    let mut cut = link_of(
        rt.alloc(),
        "64637253010203040506070800013e18",
        Vec::new(rt.alloc()),
    )?;
    same(&rt, &greeter.greet(&NONCE, &mut cut), &None, "half a hello");
    let mut failing = link_of(rt.alloc(), HELLO, Vec::from_array(rt.alloc(), [5])?)?;
    same(
        &rt,
        &greeter.greet(&NONCE, &mut failing),
        &None,
        "a read that fails",
    );
    Ok(())
}
