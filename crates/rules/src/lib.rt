// The types that the definitions of document 01 share with the calls. No code: the definitions are in specs/.
#![tactic(auto)]

use rows::EdgeNo;

// What becomes of an event: it repeats what an edge already gave, or its edge enters the target's
// latest version, or a new one.
#[derive(Clone, Copy)]
pub enum Decision {
    Repeat(EdgeNo),
    Widen,
    Renew,
}

// What the calls return. C reads them, so a refusal is its number, and 0 is none.
#[repr(C)]
#[derive(Clone, Copy, Default)]
pub struct BatchAnswer {
    pub refusal: u32,
    pub taken: u32,
    pub tried: u64,
}

#[repr(C)]
#[derive(Clone, Copy)]
pub struct BackwardAnswer {
    pub refusal: u32,
    pub count: u32,
}

#[repr(C)]
#[derive(Clone, Copy)]
pub struct ForwardAnswer {
    pub refusal: u32,
    pub count: u32,
    pub intake: u32,
}

#[repr(C)]
#[derive(Clone, Copy)]
pub struct LogAnswer {
    pub refusal: u32,
    pub length: u32,
}
