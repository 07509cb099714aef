//! Tests of legal and illegal names.

use mpslp_types::{FIXED_SEED, HashSeed, Name, NameBytes, NameFault};
use std::alloc::Global;
use std::hash::BuildHasher;
use std::test::Fail;

/// Whether a text becomes a name of the same bytes.
fn is_taken(alloc: Global, text: &[u8]) -> Result<bool, NameFault> {
    Ok(Name::new(alloc, text)?.as_bytes() == text)
}

#[test]
fn takes_names(rt: HostRuntime) -> Result<(), Fail> {
    let alloc = rt.alloc();
    assert!(rt; is_taken(alloc, b"LIM1")?);
    assert!(rt; is_taken(alloc, b"SIXTEEN_BYTES_16")?);
    assert!(rt; is_taken(alloc, b"SEVENTEEN_BYTES_X")?);
    assert!(rt; is_taken(alloc, &[b'a'; 255])?);
    Ok(())
}

#[test]
fn copies_the_bytes_of_a_legal_name(rt: HostRuntime) -> Result<(), Fail> {
    let name = Name::from_legal(rt.alloc(), b"LIM1".as_slice())?;
    assert_eq!(rt; name.as_bytes(), b"LIM1".as_slice());
    Ok(())
}

/// The error of a text that is no name.
fn fault_of(alloc: Global, text: &[u8]) -> Option<NameFault> {
    Name::new(alloc, text).err()
}

#[test]
fn refuses_what_is_no_name(rt: HostRuntime) {
    let alloc = rt.alloc();
    let lengths = [fault_of(alloc, b""), fault_of(alloc, &[b'a'; 256])];
    let bytes = [fault_of(alloc, b"a b"), fault_of(alloc, b"'MARKER'")];
    let checked = [
        Name::check(b"LIM1".as_slice()),
        Name::check(b"a b".as_slice()),
    ];
    assert_eq!(rt; lengths, [Some(NameFault::NameLength); 2]);
    assert_eq!(rt;
        bytes,
        [Some(NameFault::NameByte), Some(NameFault::NameMarker)]
    );
    assert_eq!(rt; checked, [Ok(()), Err(NameFault::NameByte)]);
}

#[test]
fn makes_a_seed_of_both_halves(rt: HostRuntime) {
    let seed = HashSeed::new(3 << 64 | 5);
    assert_eq!(rt; [seed.state, seed.factor], [5, 3]);
}

/// The hash of a name of these bytes with a seed.
fn hash_of(seed: HashSeed, bytes: &[u8]) -> u64 {
    seed.hash_one(NameBytes { bytes })
}

#[test]
fn hashes_names_by_the_seed(rt: HostRuntime) {
    let (fixed, other) = (FIXED_SEED, HashSeed::new(1));
    let short = [hash_of(fixed, b"LIM1") == hash_of(other, b"LIM1")];
    let long = [hash_of(fixed, &[b'a'; 48]) == hash_of(other, &[b'a'; 48])];
    let lengths = [hash_of(other, b"a") == hash_of(other, b"aa")];
    assert_eq!(rt; [short, long, lengths], [[false]; 3]);
}
