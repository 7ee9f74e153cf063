//! What a caller lends beside octets, in C's layout: the numbers and octets of C stand for kinds, letters, bits, refusals and layers.

// The closing of one item at one node, as a caller asks for it: `kind` is B or L, `decided` is 0 or 1.
#[repr(C)]
#[derive(Clone, Copy)]
pub struct CloseRequest {
    pub n: usize,
    pub node: usize,
    pub step: usize,
    pub item: usize,
    pub kind: u8,
    pub bit: u8,
    pub decided: u8,
}

// What a message says besides its items: its step, the node that sends it, the number of its items, and its letter, P, E, B or F.
#[repr(C)]
#[derive(Clone, Copy)]
pub struct MessageHead {
    pub step: usize,
    pub node: usize,
    pub items: usize,
    pub letter: u8,
}

// Why a message was refused: the place of the octet, the refusal's number, and the layer that found it.
#[repr(C)]
#[derive(Clone, Copy)]
pub struct MessageFault {
    pub place: usize,
    pub number: u8,
    pub layer: u8,
}
