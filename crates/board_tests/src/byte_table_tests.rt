//! Numbers are read and appended with their lowest byte first.
use crate::checks::{holds, same};
use byte_table::{
    Fields, byte_at, eight_at, flag_at, flag_byte, flag_valid, flags_byte, four_at, put, put_2,
    put_4, put_8, two_at,
};
use clk_units::NoMemory;

#[test]
fn numbers_are_read_lowest_byte_first(rt: HostRuntime) {
    let bytes = [1, 2, 3, 4, 5, 6, 7, 8, 9];
    same(&rt, 2, two_at(&bytes, 0), 0x0201);
    same(&rt, 4, four_at(&bytes, 1), 0x0504_0302);
    same(&rt, 8, eight_at(&bytes, 1), 0x0908_0706_0504_0302);
}

#[test]
fn bytes_after_the_end_count_as_0(rt: HostRuntime) {
    let bytes = [0xaa];
    same(&rt, 1, byte_at(&bytes, 1), 0);
    same(&rt, 2, two_at(&bytes, 0), 0xaa);
    same(&rt, 8, eight_at(&bytes, 1), 0);
}

#[test]
fn fields_are_read_one_after_another(rt: HostRuntime) {
    let bytes = [9, 1, 1, 2, 1, 2, 3, 4, 1, 2, 3];
    let mut fields = Fields::new(&bytes);
    same(&rt, "byte", fields.byte(), 9);
    holds(&rt, "flag", fields.flag());
    same(&rt, "two", fields.two(), 0x0201);
    same(&rt, "four", fields.four(), 0x0403_0201);
    same(&rt, "eight", fields.eight(), 0x03_0201);
    same(&rt, "place", fields.place, 16);
}

#[test]
fn a_flag_is_00_or_01(rt: HostRuntime) {
    let bytes = [0, 1, 2];
    holds(&rt, "00", !flag_at(&bytes, 0));
    holds(&rt, "01", flag_at(&bytes, 1));
    holds(&rt, "01 is valid", flag_valid(&bytes, 1));
    holds(&rt, "02 isn't", !flag_valid(&bytes, 2));
    same(&rt, "one", flag_byte(true), 1);
    let flags = [true, false, true, false, false, false, false, true];
    same(&rt, "eight", flags_byte(&flags), 0x85);
}

#[test]
fn numbers_are_appended_lowest_byte_first(rt: HostRuntime) -> Result<(), NoMemory> {
    let mut out = Vec::new(rt.alloc());
    put(&mut out, &[9])?;
    put_2(&mut out, 0x0201)?;
    put_4(&mut out, 0x0403_0201)?;
    put_8(&mut out, 0x0807_0605_0403_0201)?;
    let wanted = [9, 1, 2, 1, 2, 3, 4, 1, 2, 3, 4, 5, 6, 7, 8];
    same(&rt, "appended", out.as_slice(), wanted.as_slice());
    Ok(())
}
