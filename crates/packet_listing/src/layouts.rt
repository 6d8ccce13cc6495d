//! The fields of each type of packet, in the order of their places (PSA, Architected Queuing Language).

use crate::field::{Field, FieldForm};

// Fields, a row each: the name, the place and the size in bytes, the lowest and the highest bit, and the form.
macro_rules! fields {
    ($($name:literal $place:literal $size:literal $low:literal $high:literal $form:ident;)*) => {
        [$(Field { name: $name, place: $place, size: $size, low: $low, high: $high, form: FieldForm::$form }),*]
    };
}

/// The header, which each packet has.
pub const HEADER: [Field; 5] = fields! {
    "type" 0 2 0 7 Type;
    "barrier" 0 2 8 8 Number;
    "acquire_fence_scope" 0 2 9 10 Scope;
    "release_fence_scope" 0 2 11 12 Scope;
    "reserved" 0 2 13 15 Reserved;
};

// What a kernel dispatch has behind its header.
const KERNEL: [Field; 15] = fields! {
    "dimensions" 2 2 0 1 Number;
    "reserved" 2 2 2 15 Reserved;
    "workgroup_size_x" 4 2 0 15 Number;
    "workgroup_size_y" 6 2 0 15 Number;
    "workgroup_size_z" 8 2 0 15 Number;
    "reserved" 10 2 0 15 Reserved;
    "grid_size_x" 12 4 0 31 Number;
    "grid_size_y" 16 4 0 31 Number;
    "grid_size_z" 20 4 0 31 Number;
    "private_segment_size" 24 4 0 31 Number;
    "group_segment_size" 28 4 0 31 Number;
    "kernel_object" 32 8 0 63 Number;
    "kernarg_address" 40 8 0 63 Address;
    "reserved" 48 8 0 63 Reserved;
    "completion_signal" 56 8 0 63 Signal;
};

// What an agent dispatch has.
const AGENT: [Field; 9] = fields! {
    "function" 2 2 0 15 Number;
    "reserved" 4 4 0 31 Reserved;
    "return_address" 8 8 0 63 Address;
    "argument 0" 16 8 0 63 Word;
    "argument 1" 24 8 0 63 Word;
    "argument 2" 32 8 0 63 Word;
    "argument 3" 40 8 0 63 Word;
    "reserved" 48 8 0 63 Reserved;
    "completion_signal" 56 8 0 63 Signal;
};

// What a barrier packet has.
const BARRIER: [Field; 8] = fields! {
    "reserved" 2 6 0 47 Reserved;
    "dependency 1" 8 8 0 63 Signal;
    "dependency 2" 16 8 0 63 Signal;
    "dependency 3" 24 8 0 63 Signal;
    "dependency 4" 32 8 0 63 Signal;
    "dependency 5" 40 8 0 63 Signal;
    "reserved" 48 8 0 63 Reserved;
    "completion_signal" 56 8 0 63 Signal;
};

// What 64 bytes have whose type says nothing of them: eight words.
const WORDS: [Field; 8] = fields! {
    "word 0" 0 8 0 63 Word;
    "word 1" 8 8 0 63 Word;
    "word 2" 16 8 0 63 Word;
    "word 3" 24 8 0 63 Word;
    "word 4" 32 8 0 63 Word;
    "word 5" 40 8 0 63 Word;
    "word 6" 48 8 0 63 Word;
    "word 7" 56 8 0 63 Word;
};

/// What is behind the header in 64 bytes of a type; of a type that isn't run, their eight words.
pub fn layout_of(kind: u8) -> &'static [Field] {
    match kind {
        2 => &KERNEL,
        4 => &AGENT,
        3 | 5 => &BARRIER,
        _ => &WORDS,
    }
}

/// What a type is called.
pub fn type_name(kind: u8) -> &'static str {
    match kind {
        0 => "vendor specific",
        1 => "INVALID",
        2 => "kernel dispatch",
        3 => "barrier-AND",
        4 => "agent dispatch",
        5 => "barrier-OR",
        _ => "no type of the standard",
    }
}
