// Builds books as it is told, damages them, and prints whether each is sound. The commands are in hosts/README.md.
#![tactic(auto)]

ghost use Rattle.std.specs.Prelude.{◌≡◌, IfOk, OnErr, None, Some};
ghost use Rattle.book_verdicts.specs.declared.Told.TheVariants.{Verdict};

use edge::read_full;
use labels::number::Number;
use std::io;
use std::io::Read;
use tables::BOOK_LEN;

// What a command comes to: a verdict to be printed, or nothing. No Option: `obey` answers one of it, and two in one read worse.
#[derive(Drop)]
enum Told {
    Verdict(bool),
    Quiet,
}

// Writes the low `width` bytes of a number at an offset, but for those that would lie past the end.
// Byte by byte, since the width may be above eight: to_le_bytes has no zeros beyond.
fn put_number(book: &mut [u8], offset: usize, width: usize, number: u64) {
    let mut rest = number;
    for i in 0..width {
        if let Some(byte) = book.get_mut(offset.wrapping_add(i)) {
            *byte = (rest % 256) as u8;
        }
        rest /= 256;
    }
}

// Command W: an offset in four bytes, a width in one, a number in eight. The only error is that of a read.
fn put_told(input: &mut impl Read, book: &mut [u8]) -> io::Result<()>
    ensures { OnErr result (book.new ≡ book.old) }
{
    let mut told = [0u8; 13];
    read_full(input, &mut told)?;
    let offset = u32::from_le_bytes([told[0], told[1], told[2], 0]);
    let number: u64 = Number::get(&told, 5);
    put_number(book, offset as usize, usize::from(told[4]), number);
    Ok(())
}

// Does one command; none if the input has ended. The only error is that of a read.
fn obey(input: &mut impl Read, book: &mut [u8]) -> io::Result<Option<Told>>
    ensures err { OnErr result (book.new ≡ book.old) }
    ensures verdict { (v : _) → IfOk result (λ t. t ≡ Some (Verdict v) → book.new ≡ book.old) }
{
    let mut op = [0u8; 1];
    if read_full(input, &mut op)? == 0 {
        return Ok(None);
    }
    match op[0] {
        b'V' => return Ok(Some(Told::Verdict(book::sound::sound(book)))),
        b'W' => put_told(input, book)?,
        b'Z' => book.fill(0),
        _ => {}
    }
    Ok(Some(Told::Quiet))
}

// Prints the line of a verdict, and answers the next index. The only error is that of a write.
fn print(rt: &impl Print, index: u64, sound: bool) -> io::Result<u64> {
    println!(rt; "{index} {}", sound as u8)?;
    Ok(index.wrapping_add(1))
}

// Does one command and prints what is to be printed; answers the next index, or none where no command is left. The
// only error is that of a read or a write.
fn turn(
    rt: &impl Print,
    input: &mut impl Read,
    book: &mut [u8],
    index: u64,
) -> io::Result<Option<u64>>
    ensures { OnErr result (book.new ≡ book.old) }
{
    match obey(input, book)? {
        Some(Told::Verdict(sound)) => Ok(Some(print(rt, index, sound)?)),
        Some(Told::Quiet) => Ok(Some(index)),
        None => Ok(None),
    }
}

// A proved loop has to end, and nothing says that the input does: so the commands are counted down, from more than any run has.
fn main(rt: HostRuntime) -> io::Result<()> {
    let mut input = rt.stdin();
    let mut book = [0u8; BOOK_LEN];
    let mut index: u64 = 0;
    for _ in 0..4294967296u64 {
        let Some(next) = turn(&rt, &mut input, &mut book, index)? else {
            return Ok(());
        };
        index = next;
    }
    Ok(())
}
