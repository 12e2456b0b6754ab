// Runs the specimens: numbers written, read back and measured, and byte strings read, each result a line on standard output.
#![tactic(auto)]

use std::io;
use text::{Bytes, Unheard};

// Writes n to the start of dst, shows what was written, and answers its bytes; none where it was refused.
fn show_write<'a, P: Print>(rt: &P, dst: &'a mut [u8], n: u64) -> io::Result<&'a [u8]> {
    match compact::write_uleb128_into(dst, n) {
        Ok(len) => {
            let form = dst.get(..len).unwrap_or(&[]);
            println!(rt; "write {n}:{}", Bytes(form))?;
            Ok(form)
        }
        Err(refusal) => {
            print!(rt; "write {n}:")?;
            println!(rt; " refused {}", u32::from(refusal))?;
            Ok(&[])
        }
    }
}

// Reads buf and shows the number with the length of its form, or the refusal.
fn show_read<P: Print>(rt: &P, buf: &[u8]) -> io::Result<()> {
    print!(rt; "read{}:", Bytes(buf))?;
    match compact::read_uleb128(buf) {
        Ok(read) => println!(rt; " {}, length {}", read.value, read.len),
        Err(refusal) => println!(rt; " refused {}", u32::from(refusal)),
    }
}

// Shows n written, read back and measured.
fn show_number<P: Print>(rt: &P, n: u64) -> io::Result<()> {
    let mut space = [0u8; 10];
    let form = show_write(rt, &mut space, n)?;
    show_read(rt, form)?;
    println!(rt; "length {n}: {}", compact::uleb128_len(n))
}

// Shows each of some numbers.
fn show_numbers<P: Print>(rt: &P, numbers: &[u64]) -> io::Result<()> {
    for n in numbers {
        show_number(rt, *n)?;
    }
    Ok(())
}

// The examples of the DWARF standard, version 5, section 7.6.
fn dwarf_examples<P: Print>(rt: &P) -> io::Result<()> {
    print!(rt; "DWARF's examples\n")?;
    show_numbers(rt, &[2, 127, 128, 129, 130, 12857])
}

// S1 to S5, which are ULEB128 forms, in their order.
fn uleb128_specimens<P: Print>(rt: &P) -> io::Result<()> {
    print!(rt; "S1\n")?;
    show_numbers(rt, &[0, 128])?;
    print!(rt; "S2\n")?;
    show_numbers(rt, &[12857])?;
    print!(rt; "S3\n")?;
    show_read(rt, b"\x80\x00")?;
    print!(rt; "S4\n")?;
    show_read(rt, b"\xff\xff\xff\xff\xff\xff\xff\xff\xff\x02")?;
    print!(rt; "S5\n")?;
    show_read(rt, b"\x80\x80\x80\x80\x80\x80\x80\x80\x80\x80")?;
    show_read(rt, b"\x80\x80\x80\x80\x80\x80\x80\x80\x80\x80\x80")
}

// The last number of each length and the first of the next, and the largest of 64 bits.
fn boundaries<P: Print>(rt: &P) -> io::Result<()> {
    print!(rt; "Boundaries\n")?;
    let numbers: [u64; 19] = [
        127,
        128,
        16383,
        16384,
        2097151,
        2097152,
        268435455,
        268435456,
        34359738367,
        34359738368,
        4398046511103,
        4398046511104,
        562949953421311,
        562949953421312,
        72057594037927935,
        72057594037927936,
        9223372036854775807,
        9223372036854775808,
        18446744073709551615,
    ];
    show_numbers(rt, &numbers)
}

// A number of two bytes where there is room for one.
fn one_byte_of_room<P: Print>(rt: &P) -> io::Result<()> {
    print!(rt; "One byte of room\n")?;
    let mut one = [0u8; 1];
    show_write(rt, &mut one, 128)?;
    Ok(())
}

// Shows all of them.
fn show_all<P: Print>(rt: &P) -> io::Result<()> {
    dwarf_examples(rt)?;
    uleb128_specimens(rt)?;
    boundaries(rt)?;
    one_byte_of_room(rt)
}

// What can't be written is lost, and the next is shown.
fn main(rt: HostRuntime) {
    let _ = show_all(&Unheard(&rt));
}
