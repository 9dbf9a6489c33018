use crate::{Answer, Login, ScramFault, client_final, client_first, hmac, is_verified, salted};
use std::alloc::Global;
use std::test::Fail;

// The example of RFC 7677, section 3.
const LOGIN: Login<'static> = Login {
    user: b"user",
    password: b"pencil",
    nonce: b"rOprNGfwEbeRWgbNEkqO",
};

const FIRST: &[u8] =
    b"r=rOprNGfwEbeRWgbNEkqO%hvYDpWUa2RaTCAfuxFIlj)hNlF$k0,s=W22ZaJ0SNY7soEsUEjb6gQ==,i=4096";

#[test]
fn follows_the_example(rt: HostRuntime) -> Result<(), Fail> {
    let alloc = rt.alloc();
    let first = client_first(alloc, LOGIN).unwrap_or(Vec::new(alloc));
    assert!(rt; first.as_slice() == b"n,,n=user,r=rOprNGfwEbeRWgbNEkqO".as_slice());
    let Ok(answer) = client_final(alloc, LOGIN, FIRST) else {
        assert!(rt; false);
        return Ok(());
    };
    let wanted =
        b"c=biws,r=rOprNGfwEbeRWgbNEkqO%hvYDpWUa2RaTCAfuxFIlj)hNlF$k0,p=dHzbZapWIk4jUhN+Ute9ytag9zjfMHgsqmmiz7AndVQ=";
    assert!(rt; answer.message.as_slice() == wanted.as_slice());
    assert!(rt; is_verified(&answer, b"v=6rriTRBi23WpRR/wtup+mMhUZUn/dB5nLTJRsjl95G4="));
    assert!(rt; !is_verified(&answer, b"v=6rriTRBi23WpRR/wtup+mMhUZUn/dB5nLTJRsjl95G5="));
    Ok(())
}

fn is_refused(alloc: Global, first: &[u8]) -> bool {
    match client_final(alloc, LOGIN, first) {
        Ok(
            Answer {
                message: _,
                expected: _,
            },
        ) => false,
        Err(fault) => fault == ScramFault::Unreadable,
    }
}

// The nonce of another client, and a nonce to which the server added nothing.
#[test]
fn refuses_other_nonces(rt: HostRuntime) -> Result<(), Fail> {
    let alloc = rt.alloc();
    assert!(rt;
        is_refused(
            alloc,
            b"r=rOprNGfwEbeRWgbNEkqP%hvY,s=W22ZaJ0SNY7soEsUEjb6gQ==,i=4096"
        )
    );
    assert!(rt;
        is_refused(
            alloc,
            b"r=rOprNGfwEbeRWgbNEkqO,s=W22ZaJ0SNY7soEsUEjb6gQ==,i=4096"
        )
    );
    Ok(())
}

// Too few rounds, and no number of rounds.
#[test]
fn refuses_other_rounds(rt: HostRuntime) -> Result<(), Fail> {
    let alloc = rt.alloc();
    assert!(rt;
        is_refused(
            alloc,
            b"r=rOprNGfwEbeRWgbNEkqO%hvY,s=W22ZaJ0SNY7soEsUEjb6gQ==,i=4095"
        )
    );
    assert!(rt;
        is_refused(
            alloc,
            b"r=rOprNGfwEbeRWgbNEkqO%hvY,s=W22ZaJ0SNY7soEsUEjb6gQ==,i="
        )
    );
    Ok(())
}

// No salt, and a salt that isn't Base64.
#[test]
fn refuses_other_salts(rt: HostRuntime) -> Result<(), Fail> {
    let alloc = rt.alloc();
    assert!(rt; is_refused(alloc, b"r=rOprNGfwEbeRWgbNEkqO%hvY,i=4096"));
    assert!(rt; is_refused(alloc, b"r=rOprNGfwEbeRWgbNEkqO%hvY,s=W22*,i=4096"));
    Ok(())
}

#[test]
fn refuses_a_mandatory_extension(rt: HostRuntime) -> Result<(), Fail> {
    assert!(rt;
        is_refused(
            rt.alloc(),
            b"m=x,r=rOprNGfwEbeRWgbNEkqO%hvY,s=W22ZaJ0SNY7soEsUEjb6gQ==,i=4096"
        )
    );
    Ok(())
}

const JEFE: [u8; 32] = [
    0x5b, 0xdc, 0xc1, 0x46, 0xbf, 0x60, 0x75, 0x4e, 0x6a, 0x04, 0x24, 0x26, 0x08, 0x95, 0x75, 0xc7,
    0x5a, 0x00, 0x3f, 0x08, 0x9d, 0x27, 0x39, 0x83, 0x9d, 0xec, 0x58, 0xb9, 0x64, 0xec, 0x38, 0x43,
];

const LONG_KEY: [u8; 32] = [
    0x60, 0xe4, 0x31, 0x59, 0x1e, 0xe0, 0xb6, 0x7f, 0x0d, 0x8a, 0x26, 0xaa, 0xcb, 0xf5, 0xb7, 0x7f,
    0x8e, 0x0b, 0xc6, 0x21, 0x37, 0x28, 0xc5, 0x14, 0x05, 0x46, 0x04, 0x0f, 0x0e, 0xe3, 0x7f, 0x54,
];

const ONE_ROUND: [u8; 32] = [
    0x55, 0xac, 0x04, 0x6e, 0x56, 0xe3, 0x08, 0x9f, 0xec, 0x16, 0x91, 0xc2, 0x25, 0x44, 0xb6, 0x05,
    0xf9, 0x41, 0x85, 0x21, 0x6d, 0xde, 0x04, 0x65, 0xe6, 0x8b, 0x9d, 0x57, 0xc2, 0x0d, 0xac, 0xbc,
];

// The first case of RFC 4231 with a key of letters, its case of a key longer than a block, and RFC 7914, section 11.
#[test]
fn makes_known_digests(rt: HostRuntime) -> Result<(), Fail> {
    assert!(rt; hmac(b"Jefe", b"what do ya want for nothing?") == JEFE);
    let long = [0xaau8; 131];
    assert!(rt;
        hmac(
            &long,
            b"Test Using Larger Than Block-Size Key - Hash Key First"
        ) == LONG_KEY
    );
    assert!(rt; salted(b"passwd", b"salt", 1) == ONE_ROUND);
    Ok(())
}
