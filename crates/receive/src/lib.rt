// The transfer file, read (document 02, Change 10): the device number and the pages, from a file of any bytes.
//
// The operation takes byte slices of every length and has no `requires`. The refusal that is met first in the file is given, then that of
// the output, and a refusal writes no byte: the whole file is judged before one is.
#![tactic(auto)]

mod fields;

ghost use Rattle.std.specs.Prelude.{◌≡◌, ◌-◌, ◌*◌, ◌≤◌, length, drop};
ghost use Rattle.std.proofs.lemmas.List.Edits.{sets};
ghost use Rattle.answer.specs.Answer.{result as answered, answer};
ghost use Rattle.receive.specs.Read.{contents_answer, and_then, after_end, fields_told, counted, Counts, pages_told, read_file_answer, read_file_leaves};

use answer::Refusal;
use cells::copy_page;
use fields::{FieldKind, length_at, read_field};
use transfer::{PAGE_BYTES, PAGE_TAG, START};

// What a file holds: the device number and so many pages.
#[derive(Clone, Copy)]
pub struct Contents {
    pub device: u32,
    pub pages: u32,
}

// What is told where the end field has been read: bytes after it, or the device number and the pages.
fn ended(file: &[u8], next: usize, device: u32, seen: usize) -> Result<Contents, Refusal>
    requires { (1 ≤ seen) × (seen ≤ 65) }
    ensures { contents_answer result ≡ answer (after_end (drop next file.now)) (device, seen - 1) }
{
    if next < file.len() {
        return Err(Refusal::FileTail);
    }
    Ok(Contents {
        device,
        pages: (seen - 1) as u32,
    })
}

// Judges the fields of a file, one after another, and tells the device number and the number of pages.
fn judge(file: &[u8]) -> Result<Contents, Refusal>
    requires { 2 ≤ length file.now }
    ensures { contents_answer result ≡ and_then (fields_told file.now) (λ t. answered (counted t)) }
{
    let mut at = START.len();
    let mut seen = 0;
    let mut device = 0;
    loop {
        let field = read_field(file, at, seen)?;
        match field.kind {
            FieldKind::End => return ended(file, field.next, device, seen),
            FieldKind::Device(number) => {
                device = number;
                seen += 1;
            }
            FieldKind::Page(_) => seen += 1,
            FieldKind::Skipped => {}
        }
        at = field.next;
    }
}

// Copies the n pages of a file that was judged to the start of the output: its fields are in order up to the last page, so that their tags
// and lengths are enough.
fn copy_pages(out: &mut [u8], file: &[u8], n: usize)
    requires { (2 ≤ length file.now) × (256 * n ≤ length out.old) × Counts n (fields_told file.now) }
    ensures { out.new ≡ sets out.old 0 (pages_told (fields_told file.now)) }
{
    let mut at = START.len();
    for i in 0..n {
        while file[at] != PAGE_TAG {
            at += 3 + length_at(file, at) as usize;
        }
        copy_page(out, 256 * i, file, at + 3);
        at += 3 + PAGE_BYTES as usize;
    }
}

// Read file: puts the pages at the start of the output.
pub fn read_file(file: &[u8], out: &mut [u8]) -> Result<Contents, Refusal>
    ensures answer { contents_answer result ≡ read_file_answer file.now out.old }
    ensures bytes { out.new ≡ read_file_leaves file.now out.old }
{
    if !file.starts_with(&START) {
        return Err(Refusal::FileCut);
    }
    let contents = judge(file)?;
    let n = contents.pages as usize;
    if out.len() < 256 * n {
        return Err(Refusal::OutputLength);
    }
    copy_pages(out, file, n);
    Ok(contents)
}
