// A plan in, its display list out: as text, or its bytes.
#![tactic(auto)]

pub mod files;

ghost use Rattle.std.specs.Prelude.{◌≡◌, ◌++◌, ◌*◌, ◌≤◌, ◌<◌, length, drop, IfSome, MatchOption};
ghost use Rattle.plan.specs.Compile.{compile_answer, compile_output};
ghost use Rattle.plantext.specs.Counts.{IsPrefixLen};
ghost use Rattle.plantext.specs.Hex.{digit_of, behind_of, hex_of, hex_line};
ghost use Rattle.plantext.specs.Listed.{list_size};

use plan::ItemRefusal;
use print::RefusalLine;
use std::io;
use vram::Vram;

// A hex digit in upper case.
fn digit(n: u8) -> u8
    requires { n < 16 }
    ensures { result ≡ digit_of n }
{
    if n < 10 { b'0' + n } else { b'A' + n - 10 }
}

// What stands behind a byte: a space, or the line's end.
fn behind(last: bool) -> u8
    ensures { result ≡ behind_of last }
{
    if last { b'\n' } else { b' ' }
}

// A byte in hex at the start of what is lent.
fn put_hex(text: &mut [u8], b: u8, last: bool)
    requires { 3 ≤ length text.old }
    ensures { text.new ≡ hex_of b last ++ drop 3 text.old }
{
    text[..3].copy_from_slice(&[digit(b / 16), digit(b % 16), behind(last)]);
}

// The bytes in hex, in a line.
fn put_line(text: &mut [u8], s: &[u8])
    requires { 3 * length s.now ≤ length text.old }
    ensures { text.new ≡ hex_line s.now ++ drop (3 * length s.now) text.old }
{
    for (i, b) in s.iter().enumerate() {
        put_hex(&mut text[3 * i..], *b, i + 1 == s.len());
    }
}

// One record in a line of its own; it has 22 bytes at most.
fn print_record<R: Print>(rt: &R, s: &[u8]) -> io::Result<()>
    requires { length s.now ≤ 22 }
{
    let mut text = [0u8; 66];
    put_line(&mut text, s);
    rt.write_all(&text[..3 * s.len()])
}

// How many bytes a compiled record has, by its first control byte: only a full band's has OVADR.
fn record_size(control: u8) -> usize
    ensures { (1 ≤ result) × (result ≤ 22) }
{
    if control / 64 % 2 == 1 { 22 } else { 8 }
}

// Each record of a list. Its bytes come record by record, so the last is whole.
fn print_records<R: Print>(rt: &R, list: &[u8]) -> io::Result<()> {
    let mut rest = list;
    while let Some(control) = rest.first() {
        let Some((record, behind)) = rest.split_at_checked(record_size(*control)) else {
            break;
        };
        print_record(rt, record)?;
        rest = behind;
    }
    Ok(())
}

// Compiles into the buffer, of which the list fills so many bytes; none where the plan is refused. The refusal is printed where the caller
// says; where it cannot be, there is nobody to tell.
pub fn compiled<P: Print>(plan: &[u8], list: &mut [u8], refusals: &P) -> Option<usize>
    ensures prefix_len { IfSome result (λ n. IsPrefixLen n list.new) }
    ensures bytes { MatchOption result (list_size (compile_answer plan.now (length list.old)) ≡ 0) (λ n. (n ≡ list_size (compile_answer plan.now (length list.old))) × (0 < n)) }
    ensures list { list.new ≡ compile_output plan.now list.old }
{
    match plan::compile(plan, list) {
        Ok(bytes) => Some(bytes),
        Err(ItemRefusal { why, item }) => {
            let _ = refusals.println(RefusalLine { why, item });
            None
        }
    }
}

// A plan's list as text, or its refusal. A list has as many bytes at most as are installed at once.
pub fn print_list<R: Print>(rt: &R, plan: &[u8]) -> io::Result<()> {
    let mut list = [0u8; Vram::INSTALLED];
    let Some(n) = compiled(plan, &mut list, rt) else {
        return Ok(());
    };
    println!(rt; "XDL {n}")?;
    print_records(rt, &list[..n])
}

// The list's bytes. A refusal goes to standard error: nothing but a list is written.
pub fn write_list<R: Print, E: Print>(rt: &R, errors: &E, plan: &[u8]) -> io::Result<()> {
    let mut list = [0u8; Vram::INSTALLED];
    match compiled(plan, &mut list, errors) {
        Some(n) => rt.write_all(&list[..n]),
        None => Ok(()),
    }
}
