//! Bytes by one list of fields.
//!
//! A format of bytes is a list, in their order: for each field its size, where its value is in a record, how the
//! value is spelled, and its condition. From the one list come the bytes of a record, the record of bytes, and the
//! first field at fault (specs/Fold.antt), and the round trip is proved once, for any list whose fields obey the
//! laws of their kinds (proofs/FoldLaws.antt, proofs/KindLaws.antt). Here is the code that all formats share:
//! numbers at places of the bytes, their lowest byte first, fields that are read one after another, and numbers
//! appended to bytes. All numbers are read and written by `byteorder`.
//!
//! ```text
//! two_at(&[0x34, 0x12], 0) == 0x1234
//! put_2(&mut bytes, 0x1234)?          // appends 34 12
//! ```
#![tactic(auto)]

mod appending;
mod fields;
mod numbers;

pub use appending::{flag_byte, flags_byte, put, put_2, put_4, put_8};
pub use fields::Fields;
pub use numbers::{byte_at, eight_at, flag_at, flag_valid, four_at, two_at};
