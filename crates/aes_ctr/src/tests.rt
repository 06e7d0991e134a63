use super::*;

// Computed with OpenSSL, AES-128-CTR of zeros under the zero key.
const START: [u8; 16] = [
    0x66, 0xe9, 0x4b, 0xd4, 0xef, 0x8a, 0x2c, 0x3b, 0x88, 0x4c, 0xfa, 0x59, 0xca, 0x34, 0x2b, 0x2e,
];

const SECOND_BLOCK: [u8; 16] = [
    0x58, 0xe2, 0xfc, 0xce, 0xfa, 0x7e, 0x30, 0x61, 0x36, 0x7f, 0x1d, 0x57, 0xa4, 0xe7, 0x45, 0x5a,
];

const END_OF_FIRST: [u8; 16] = [
    0x34, 0x8b, 0x11, 0x79, 0x41, 0xdd, 0x0a, 0x63, 0xd9, 0x94, 0x70, 0x3e, 0x63, 0xd9, 0x4a, 0x44,
];

// From byte 509 on, which is byte 13 of block 31.
const START_OF_SECOND: [u8; 16] = [
    0x68, 0x04, 0x21, 0x3a, 0xb4, 0xfb, 0x1d, 0x2b, 0x7b, 0xa3, 0x76, 0x59, 0x0a, 0x2c, 0x24, 0x1d,
];

const END_OF_SECOND: [u8; 16] = [
    0x73, 0x19, 0xf0, 0x37, 0x96, 0xee, 0x5b, 0xca, 0x68, 0xde, 0xb6, 0xb6, 0x92, 0x37, 0x7c, 0x85,
];

#[test]
fn goes_on_in_the_middle_of_a_block(rt: HostRuntime) {
    let mut stream = Stream::of(&[0; 16]);
    let at_start = stream.copy();
    assert!(rt; stream.same(&at_start));
    let mut first = [0; 509];
    stream.apply(&mut first);
    assert_eq!(rt; &first[..16], START.as_slice());
    assert_eq!(rt; &first[493..], END_OF_FIRST.as_slice());
    assert_eq!(rt; stream.position(), 509);
    assert!(rt; !stream.same(&at_start));
    let mut second = [0; 509];
    stream.apply(&mut second);
    assert_eq!(rt; &second[..16], START_OF_SECOND.as_slice());
    assert_eq!(rt; &second[493..], END_OF_SECOND.as_slice());
    assert_eq!(rt; stream.position(), 1018);
}

#[test]
fn counts_what_is_ready(rt: HostRuntime) {
    let mut stream = Stream::of(&[0; 16]);
    assert_eq!(rt; stream.ready().len(), 0);
    stream.ahead();
    assert_eq!(rt; stream.ready().len(), 1024);
    assert_eq!(rt; &stream.ready()[..16], START.as_slice());
    assert_eq!(rt; &stream.ready()[16..32], SECOND_BLOCK.as_slice());
    assert!(rt; stream.same(&Stream::of(&[0; 16])));
    let mut body = [0; 509];
    stream.apply(&mut body);
    assert_eq!(rt; stream.ready().len(), 515);
    stream.apply(&mut body);
    assert_eq!(rt; stream.ready().len(), 6);
    stream.apply(&mut body);
    assert_eq!(rt; stream.ready().len(), 515);
    assert_eq!(rt; stream.position(), 1527);
}
